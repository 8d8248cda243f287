// Rows that are built of a reading, into rooms one place short (17), exact and longer, or that are refused in all of
// them; and what is left in the rooms: the Rust's rows, and behind them what was there.
use hold::Reading;
use paper::{Refusal, TABLE_ROOM_SHORT};
use replay::rooms::{GUARD, field_behind};
use replay::sums::{self, Summed};
use replay::{after_field, byte_at, front, hex_at, number_at};
use replay_line::change::window;
use replay_line::tables::Rows;
use replay_line::words;
use row::RowCounts;

pub const FILL32: u32 = 0xA5A5A5A5;

pub const FILL16: u16 = 0xA5A5;

// The most rows that there can be, with what is lent behind them and what is not; and more places than any row pool
// of the list has. (There can be four times as many, but no array that long can be checked.)
pub const ROWS: usize = 4097 + 2 * GUARD;

pub const PLACES: usize = 524288;

// A call of its own, here and for the other long rooms, so that its caller's proof has no list of half a million
// numbers in it.
pub fn pool_room() -> [u16; PLACES] {
    [FILL16; PLACES]
}

// The tries: each of the four slices one short, all exact, all longer.
const SLICES: usize = 4;

const TRIES: usize = 6;

// What an item at a place asks: rows and places, or the refusal.
#[derive(Clone, Copy)]
pub struct Asked {
    pub at: usize,
    pub rows: usize,
    pub places: usize,
    pub refused: Option<u64>,
}

// A refusal by its number; 0 is none.
pub fn refusal_of(number: u64) -> Option<u64> {
    if number == 0 { None } else { Some(number) }
}

// How many places a slice is lent: its need, one less where it is the one that is short, more where all of so many
// are longer.
pub fn lends(need: usize, which: usize, attempt: usize, slices: usize) -> usize {
    if slices < attempt {
        need.wrapping_add(GUARD)
    } else if attempt == which {
        need.saturating_sub(1)
    } else {
        need
    }
}

// The refusal where one of so many slices with these needs is lent short.
pub fn expected(refused: Option<u64>, attempt: usize, slices: usize, need: usize) -> Option<u64> {
    if refused.is_none() && attempt < slices && need != 0 {
        return Some(u64::from(TABLE_ROOM_SHORT));
    }
    refused
}

// Every number from a place on is as before the call.
pub fn untouched<T: Copy + PartialEq>(room: &[T], from: usize, fill: T) -> bool {
    room.get(from..)
        .unwrap_or(&room[..0])
        .iter()
        .all(|n| *n == fill)
}

// As much of a room as can be touched, and as much behind it.
pub fn near(need: usize) -> usize {
    need.wrapping_add(2 * GUARD)
}

// The four slices are as before from these places on.
fn all_untouched(rows: Rows, a: Asked, from: usize, place: usize) -> bool {
    let near_rows = near(a.rows);
    untouched(front(rows.boundaries, near_rows), from, FILL32)
        && untouched(front(rows.starts, near_rows), from, FILL32)
        && untouched(front(rows.lengths, near_rows), from, FILL16)
        && untouched(front(rows.pool, near(a.places)), place, FILL16)
}

fn start_of(rows: Rows, i: usize) -> usize {
    rows.starts.get(i).copied().unwrap_or(FILL32) as usize
}

fn length_of(rows: Rows, i: usize) -> usize {
    usize::from(rows.lengths.get(i).copied().unwrap_or(FILL16))
}

// Each row begins where the one before ends, and is as listed from a place on: boundary, length, numbers.
fn spelled(list: &[u8], at: usize, rows: Rows) -> bool {
    let mut field = at;
    let mut start: usize = 0;
    for (i, boundary) in rows.boundaries.iter().enumerate() {
        let len = length_of(rows, i);
        let count = after_field(list, field);
        if start_of(rows, i) != start
            || number_at(list, field) != u64::from(*boundary)
            || !words::are_numbers(list, count, window(rows.pool, start, len))
        {
            return false;
        }
        field = after_field(list, field_behind(list, count, len));
        start = start.wrapping_add(len);
    }
    true
}

// The sum over each row's boundary, length and numbers, and none where a row does not begin where the one before ends.
fn summed(rows: Rows) -> u32 {
    let mut total = sums::START;
    let mut start: usize = 0;
    for (i, boundary) in rows.boundaries.iter().enumerate() {
        let len = length_of(rows, i);
        if start_of(rows, i) != start {
            return 0;
        }
        total = sums::row(boundary.mixed_into(total), window(rows.pool, start, len));
        start = start.wrapping_add(len);
    }
    total
}

// The rows are those of the item.
fn are_listed(list: &[u8], a: Asked, rows: Rows) -> bool {
    let said = field_behind(list, a.at, 3);
    let asked = Rows {
        boundaries: front(rows.boundaries, a.rows),
        ..rows
    };
    if byte_at(list, a.at) == b'y' {
        return u64::from(summed(asked)) == hex_at(list, said);
    }
    spelled(list, said, asked)
}

fn need_of(a: Asked, attempt: usize) -> usize {
    if attempt == SLICES - 1 {
        a.places
    } else {
        a.rows
    }
}

// The answer and what is left in the rooms.
fn agrees(
    list: &[u8],
    a: Asked,
    attempt: usize,
    built: Result<RowCounts, Refusal>,
    rows: Rows,
) -> bool {
    match (
        built,
        expected(a.refused, attempt, SLICES, need_of(a, attempt)),
    ) {
        (Err(r), Some(number)) => {
            r.place == 0 && u64::from(r.number) == number && all_untouched(rows, a, 0, 0)
        }
        (Ok(n), None) => {
            n.rows == a.rows
                && n.places == a.places
                && are_listed(list, a, rows)
                && all_untouched(rows, a, a.rows, a.places)
        }
        _ => false,
    }
}

// One try.
fn tried(
    list: &[u8],
    a: Asked,
    attempt: usize,
    reading: &Reading,
    boundaries: &mut [u32],
    starts: &mut [u32],
    lengths: &mut [u16],
    pool: &mut [u16],
) -> bool {
    let w = lends(a.rows, 0, attempt, SLICES).min(boundaries.len());
    let x = lends(a.rows, 1, attempt, SLICES).min(starts.len());
    let y = lends(a.rows, 2, attempt, SLICES).min(lengths.len());
    let z = lends(a.places, 3, attempt, SLICES).min(pool.len());
    let built = row::build_lookup_table(
        reading,
        &mut boundaries[..w],
        &mut starts[..x],
        &mut lengths[..y],
        &mut pool[..z],
    );
    let rows = Rows {
        boundaries,
        starts,
        lengths,
        pool,
    };
    agrees(list, a, attempt, built, rows)
}

// What the item at a place asks of the rows.
pub fn asked_at(list: &[u8], at: usize) -> Asked {
    let one = after_field(list, at);
    let number = number_at(list, one);
    if byte_at(list, at) == b'z' {
        return Asked {
            at,
            rows: 0,
            places: 0,
            refused: refusal_of(number),
        };
    }
    Asked {
        at,
        rows: number as usize,
        places: number_at(list, after_field(list, one)) as usize,
        refused: None,
    }
}

// All tries of an item.
pub fn all_agree(
    list: &[u8],
    a: Asked,
    reading: &Reading,
    boundaries: &mut [u32],
    starts: &mut [u32],
    lengths: &mut [u16],
    pool: &mut [u16],
) -> bool {
    for attempt in 0..TRIES {
        if !tried(list, a, attempt, reading, boundaries, starts, lengths, pool) {
            return false;
        }
    }
    true
}

// Where the item behind the one of the rows begins: `q` has a boundary, a length and numbers for each row.
pub fn behind(list: &[u8], a: Asked) -> usize {
    let fields = match byte_at(list, a.at) {
        b'q' => a
            .rows
            .wrapping_add(a.rows)
            .wrapping_add(a.places)
            .wrapping_add(3),
        b'y' => 4,
        _ => 2,
    };
    field_behind(list, a.at, fields)
}
