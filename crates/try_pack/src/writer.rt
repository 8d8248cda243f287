// The pack writer over the tables that the reader left: the same bytes must come back, into a room that is long
// enough, with nothing written behind them; and over tables that a line damages, which hold together and are some
// other pack, or are refused.
ghost use Rattle.replay.specs.Counts.{IsPrefixLen as CountsIn};

use hold::Reading;
use paper::{Counts, MAX_PACK_BYTES, PACK_ROOM_SHORT, Refusal, TABLES_APART};
use replay::rooms::{
    self, CATEGORIES, DEFINITIONS, FILL, GUARD, NAMES, RANGES, REFERENCES, with_count,
};
use replay::{after_field, byte_at, bytes_of, field_at, number_at};

// The longest pack, with bytes behind it.
const OUT_ROOM: usize = MAX_PACK_BYTES + GUARD;

// ---- what the writer answers and leaves

// Every byte from a place on is as before the call.
fn is_untouched(out: &[u8], from: usize) -> bool {
    out.get(from..).unwrap_or(b"").iter().all(|b| *b == FILL)
}

// The refusal by this number, or the pack with nothing behind it.
fn is_answered(w: Result<usize, Refusal>, out: &[u8], refused: Option<u32>, pack: &[u8]) -> bool {
    match (w, refused) {
        (Ok(n), None) => n == pack.len() && out.starts_with(pack) && is_untouched(out, n),
        (Err(r), Some(number)) => r.number == number && r.place == 0 && is_untouched(out, 0),
        _ => false,
    }
}

// The writer over tables and so much of a filled room: its answer, and what it leaves in all of the room.
fn writes(reading: &Reading, room: usize, refused: Option<u32>, pack: &[u8]) -> bool {
    let mut out = [FILL; OUT_ROOM];
    let w = packer::write_pack(reading, &mut out[..room.min(OUT_ROOM)]);
    is_answered(w, &out, refused, pack)
}

// Tables that hold together: their pack, into a room longer than it and into one as long; 22 and nothing where a byte
// is missing.
pub fn writes_back(reading: &Reading, pack: &[u8]) -> bool {
    let size = pack.len();
    size != 0
        && writes(reading, OUT_ROOM, None, pack)
        && writes(reading, size, None, pack)
        && writes(reading, size - 1, Some(PACK_ROOM_SHORT), pack)
}

// Tables that don't: 26, before any room is asked for.
fn refuses(reading: &Reading) -> bool {
    writes(reading, OUT_ROOM, Some(TABLES_APART), b"")
        && writes(reading, 0, Some(TABLES_APART), b"")
}

// ---- tables as a line hands them in

// Where the list is read, the counts, and which table is lent short, with how long it is then.
#[derive(Clone, Copy)]
struct Handed {
    at: usize,
    counts: Counts,
    short: Option<(usize, usize)>,
}

// What is handed in behind the item at a place, but for what it does to the tables; none where the changes end.
fn change(list: &[u8], h: Handed) -> Option<Handed> {
    let one = after_field(list, h.at);
    let two = after_field(list, one);
    let three = after_field(list, two);
    let which = number_at(list, one) as usize;
    let number = number_at(list, two) as usize;
    match byte_at(list, h.at) {
        b'd' => Some(Handed {
            at: after_field(list, three),
            ..h
        }),
        b'c' => Some(Handed {
            at: three,
            counts: with_count(h.counts, which, number),
            ..h
        }),
        b's' => Some(Handed {
            at: three,
            short: Some((which, number)),
            ..h
        }),
        _ => None,
    }
}

// What the item at a place does to the tables.
fn damage(
    list: &[u8],
    at: usize,
    names: &mut [u8],
    categories: &mut [u8],
    definitions: &mut [u8],
    ranges: &mut [u8],
    references: &mut [u8],
) {
    if byte_at(list, at) != b'd' {
        return;
    }
    let one = after_field(list, at);
    let two = after_field(list, one);
    rooms::put_into(
        list,
        after_field(list, two),
        number_at(list, two) as usize,
        number_at(list, one) as usize,
        names,
        categories,
        definitions,
        ranges,
        references,
    );
}

// The changes of a line, up to the item that ends it.
fn changed(
    list: &[u8],
    start: Handed,
    names: &mut [u8],
    categories: &mut [u8],
    definitions: &mut [u8],
    ranges: &mut [u8],
    references: &mut [u8],
) -> Handed {
    let mut h = start;
    for _ in 0..list.len() {
        let Some(next) = change(list, h) else {
            break;
        };
        damage(
            list,
            h.at,
            names,
            categories,
            definitions,
            ranges,
            references,
        );
        h = next;
    }
    h
}

// How much of a table is handed in.
fn lent(room: &[u8], which: usize, h: Handed) -> usize
    ensures { CountsIn result room.now }
{
    match h.short {
        Some((table, size)) if table == which => size.min(room.len()),
        _ => room.len(),
    }
}

// What the line's last item says of the tables: `f` that they are refused, `p` which pack they make.
fn is_said(list: &[u8], at: usize, reading: &Reading) -> bool {
    if byte_at(list, at) == b'f' {
        return refuses(reading);
    }
    let mut wanted = [0u8; OUT_ROOM];
    let n = bytes_of(field_at(list, after_field(list, at)).text, &mut wanted);
    writes_back(reading, &wanted[..n])
}

fn agrees(
    list: &[u8],
    start: Handed,
    names: &mut [u8],
    categories: &mut [u8],
    definitions: &mut [u8],
    ranges: &mut [u8],
    references: &mut [u8],
) -> bool {
    let h = changed(
        list,
        start,
        names,
        categories,
        definitions,
        ranges,
        references,
    );
    let reading = Reading {
        names: &names[..lent(names, 0, h)],
        categories: &categories[..lent(categories, 1, h)],
        definitions: &definitions[..lent(definitions, 2, h)],
        ranges: &ranges[..lent(ranges, 3, h)],
        references: &references[..lent(references, 4, h)],
        counts: h.counts,
    };
    is_said(list, h.at, &reading)
}

// The tables of a pack that is accepted, damaged as the line at a place says.
pub fn tried(list: &[u8], at: usize, pack: &[u8]) -> bool {
    let mut names = [FILL; NAMES];
    let mut categories = [FILL; CATEGORIES];
    let mut definitions = [FILL; DEFINITIONS];
    let mut ranges = [FILL; RANGES];
    let mut references = [FILL; REFERENCES];
    let Ok(counts) = pack::read_pack(
        pack,
        &mut names,
        &mut categories,
        &mut definitions,
        &mut ranges,
        &mut references,
    ) else {
        return false;
    };
    let start = Handed {
        at,
        counts,
        short: None,
    };
    agrees(
        list,
        start,
        &mut names,
        &mut categories,
        &mut definitions,
        &mut ranges,
        &mut references,
    )
}
