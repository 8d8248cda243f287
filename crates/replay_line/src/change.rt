// What a line changes in the tables that are handed in, one field: an entry (`d`), a length (`s`) or a count (`k`).
// oracle/README.md has the numbers of the tables.
use hold::Reading;
use paper::Counts;
use replay::rooms::{CATEGORIES, DEFINITIONS, NAMES, RANGES, REFERENCES, with_count};
use replay::{after_field, byte_at, number_at};

// The five tables of a reading stand one behind another in one room of bytes.
pub const CATEGORIES_AT: usize = NAMES;

pub const DEFINITIONS_AT: usize = CATEGORIES_AT + CATEGORIES;

pub const RANGES_AT: usize = DEFINITIONS_AT + DEFINITIONS;

pub const REFERENCES_AT: usize = RANGES_AT + RANGES;

pub const READING: usize = REFERENCES_AT + REFERENCES;

// The tables that are built, by number; those of the reading come before them.
pub const BOUNDARIES: usize = 5;

pub const STARTS: usize = 6;

pub const LENGTHS: usize = 7;

pub const POOL: usize = 8;

pub const INDEX: usize = 9;

pub const FLAT: usize = 10;

#[derive(Clone, Copy)]
pub enum Change {
    Entry { table: usize, at: usize, value: u64 },
    Length { table: usize, size: usize },
    Count { which: usize, count: usize },
}

// The change that is listed at a place, if there is one, and where what follows it begins.
pub fn change_at(list: &[u8], at: usize) -> (Option<Change>, usize) {
    let one = after_field(list, at);
    let two = after_field(list, one);
    let three = after_field(list, two);
    let table = number_at(list, one) as usize;
    let number = number_at(list, two) as usize;
    match byte_at(list, at) {
        b'd' => {
            let value = number_at(list, three);
            let entry = Change::Entry {
                table,
                at: number,
                value,
            };
            (Some(entry), after_field(list, three))
        }
        b's' => (
            Some(Change::Length {
                table,
                size: number,
            }),
            three,
        ),
        b'k' => (
            Some(Change::Count {
                which: table,
                count: number,
            }),
            three,
        ),
        _ => (None, at),
    }
}

pub fn counted(counts: Counts, c: Option<Change>) -> Counts {
    match c {
        Some(Change::Count { which, count }) => with_count(counts, which, count),
        _ => counts,
    }
}

// Where a table begins in the room of the reading; past its end for a number of none.
fn start_of(table: usize) -> usize {
    match table {
        0 => 0,
        1 => CATEGORIES_AT,
        2 => DEFINITIONS_AT,
        3 => RANGES_AT,
        4 => REFERENCES_AT,
        _ => READING,
    }
}

// The change of a reading's table.
pub fn damage(reading: &mut [u8], c: Option<Change>) {
    let Some(Change::Entry { table, at, value }) = c else {
        return;
    };
    if let Some(entry) = reading.get_mut(start_of(table).wrapping_add(at)) {
        *entry = (value % 256) as u8;
    }
}

// The change of a table that is built: its entry becomes what the new value gives.
pub fn put<T: Copy, F: FnOnce(u64) -> T>(room: &mut [T], which: usize, c: Option<Change>, low: F)
    requires { F.IsAlwaysCallable low }
{
    let Some(Change::Entry { table, at, value }) = c else {
        return;
    };
    if table != which {
        return;
    }
    if let Some(entry) = room.get_mut(at) {
        *entry = low(value);
    }
}

pub fn put16(room: &mut [u16], which: usize, c: Option<Change>) {
    put(room, which, c, |n| (n % 65536) as u16);
}

pub fn put32(room: &mut [u32], which: usize, c: Option<Change>) {
    put(room, which, c, |n| (n % 4294967296) as u32);
}

// How long a table is lent that would be lent so long.
pub fn length(which: usize, full: usize, c: Option<Change>) -> usize {
    match c {
        Some(Change::Length { table, size }) if table == which => size,
        _ => full,
    }
}

// The part of so many that begins at a place, nothing where it does not lie in the room.
pub fn window<'a, T>(room: &'a [T], start: usize, n: usize) -> &'a [T] {
    room.get(start..start.wrapping_add(n)).unwrap_or(&room[..0])
}

// A table of the reading as it is handed in.
pub fn table<'a>(
    reading: &'a [u8],
    which: usize,
    start: usize,
    size: usize,
    c: Option<Change>,
) -> &'a [u8] {
    window(reading, start, length(which, size, c).min(size))
}

// The tables of the reading as they are handed in.
pub fn handed<'a>(reading: &'a [u8], counts: Counts, c: Option<Change>) -> Reading<'a> {
    Reading {
        names: table(reading, 0, 0, NAMES, c),
        categories: table(reading, 1, CATEGORIES_AT, CATEGORIES, c),
        definitions: table(reading, 2, DEFINITIONS_AT, DEFINITIONS, c),
        ranges: table(reading, 3, RANGES_AT, RANGES, c),
        references: table(reading, 4, REFERENCES_AT, REFERENCES, c),
        counts: counted(counts, c),
    }
}
