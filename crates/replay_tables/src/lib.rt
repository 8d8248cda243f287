// What a line of oracle/lists/rows.txt asks of a reading, for try_lookup: its tables are changed, rows and a flat
// table are built of them, and each item is noted.
#![tactic(auto)]

use hold::Reading;
use paper::Counts;
use replay::front;
use replay_line::change::{self, Change};
use replay_line::tables::{Rows, Tables};
use replay_line::tally::Tally;
use replay_lookup::{lookups, numbers};
use replay_rows::rows::{Asked, FILL16, FILL32};
use replay_rows::{flats, rows};
use std::io;

// Tables as they are lent: as long as they were built, but for one that the line cuts.
fn lent<'a>(t: Tables<'a>, a: Asked, f: Asked, c: Option<Change>) -> Tables<'a> {
    Tables {
        index: front(t.index, change::length(change::INDEX, f.rows, c)),
        flat: front(t.flat, change::length(change::FLAT, f.places, c)),
        rows: Rows {
            boundaries: front(
                t.rows.boundaries,
                change::length(change::BOUNDARIES, a.rows, c),
            ),
            starts: front(t.rows.starts, change::length(change::STARTS, a.rows, c)),
            lengths: front(t.rows.lengths, change::length(change::LENGTHS, a.rows, c)),
            pool: front(t.rows.pool, change::length(change::POOL, a.places, c)),
        },
    }
}

// The flat table of a line, where it has one, then the change of what was built, and the lookups.
fn flatted(
    rt: &impl Print,
    list: &[u8],
    at: usize,
    a: Asked,
    reading: &Reading,
    c: Option<Change>,
    boundaries: &mut [u32],
    starts: &mut [u32],
    lengths: &mut [u16],
    pool: &mut [u16],
    number: u64,
    tally: &mut Tally,
) -> io::Result<usize> {
    let mut index = flats::index_room();
    let mut flat = flats::pool_room();
    let f = flats::asked_at(list, at);
    let damaged = c.is_some();
    let next = flats::noted(
        rt, list, f, reading, damaged, &mut index, &mut flat, number, tally,
    )?;
    change::put32(boundaries, change::BOUNDARIES, c);
    change::put32(starts, change::STARTS, c);
    change::put16(lengths, change::LENGTHS, c);
    change::put16(pool, change::POOL, c);
    change::put32(&mut index, change::INDEX, c);
    change::put16(&mut flat, change::FLAT, c);
    let rows = Rows {
        boundaries,
        starts,
        lengths,
        pool,
    };
    let built = Tables {
        index: &index,
        flat: &flat,
        rows,
    };
    lookups::noted(rt, list, next, lent(built, a, f, c), damaged, number, tally)
}

fn rowed(
    rt: &impl Print,
    list: &[u8],
    at: usize,
    reading: &Reading,
    c: Option<Change>,
    number: u64,
    tally: &mut Tally,
) -> io::Result<usize> {
    let mut boundaries = [FILL32; rows::ROWS];
    let mut starts = [FILL32; rows::ROWS];
    let mut lengths = [FILL16; rows::ROWS];
    let mut pool = rows::pool_room();
    let a = rows::asked_at(list, at);
    let agreed = rows::all_agree(
        list,
        a,
        reading,
        &mut boundaries,
        &mut starts,
        &mut lengths,
        &mut pool,
    );
    tally.note(rt, list, at, number, c.is_some(), agreed)?;
    flatted(
        rt,
        list,
        rows::behind(list, a),
        a,
        reading,
        c,
        &mut boundaries,
        &mut starts,
        &mut lengths,
        &mut pool,
        number,
        tally,
    )
}

// A reading's tables as the line changes them: names and numbers, then rows.
pub fn handed(
    rt: &impl Print,
    list: &[u8],
    at: usize,
    counts: Counts,
    reading: &mut [u8],
    number: u64,
    tally: &mut Tally,
) -> io::Result<usize> {
    let (c, first) = change::change_at(list, at);
    change::damage(reading, c);
    let handed = change::handed(reading, counts, c);
    let next = numbers::noted(rt, list, first, &handed, c.is_some(), number, tally)?;
    rowed(rt, list, next, &handed, c, number, tally)
}

#[cfg(test)]
mod tests {
    use replay_line::change::{self, Change};

    // What no line asks for: numbers of a byte, and the fifth entry of a room of four.
    #[test]
    fn puts_one_entry_of_any_width(rt: HostRuntime) {
        let entry = |at| Some(Change::Entry {
            table: change::FLAT,
            at,
            value: 261,
        });
        let cut = Some(Change::Length {
            table: change::FLAT,
            size: 2,
        });
        let cases = [
            (change::FLAT, entry(2), [7, 7, 5, 7]),
            (change::FLAT, entry(4), [7; 4]),
            (change::INDEX, entry(2), [7; 4]),
            (change::FLAT, cut, [7; 4]),
            (change::FLAT, None, [7; 4]),
        ];
        for (which, c, want) in cases {
            let mut room = [7u8; 4];
            change::put(&mut room, which, c, |n| (n % 256) as u8);
            assert_eq!(rt; room, want);
        }
    }
}
