// The rooms that a reader of the tables is lent, and what it must leave in them. Each has bytes behind its size, all
// is filled before the call, and every byte is looked at afterwards.
ghost use Rattle.replay.specs.Counts.{IsPrefixLen as CountsIn};

use crate::items::put_field;
use crate::{after_field, byte_at, byte_of, field_at, hex_at, number_at, sums};
use paper::{
    Counts, MAX_CATEGORIES, MAX_CATEGORY_LINES, MAX_NAME_BYTES, MAX_RANGES, MAX_REFERENCES,
    Refusal, TABLES_APART,
};

// What lies in a room before the reader is called, and how many bytes of it stand behind each size.
pub const FILL: u8 = 0xA5;

pub const GUARD: usize = 16;

// The rooms by number, each with its guard.
pub const NAMES: usize = MAX_NAME_BYTES + GUARD;

pub const CATEGORIES: usize = MAX_CATEGORIES * 4 + GUARD;

pub const DEFINITIONS: usize = MAX_CATEGORY_LINES * 6 + GUARD;

pub const RANGES: usize = MAX_RANGES * 8 + GUARD;

pub const REFERENCES: usize = MAX_REFERENCES * 2 + GUARD;

// Refusals below it leave lent memory alone, and so does 26; all others that a reader gives leave it zero.
const FIRST_ZERO: u64 = 4;

// Where `a` and `w` have the sum over the rooms of a reading; `w` has its tables behind it.
pub const SUM_FIELD: usize = 6;

// How much of a room is lent: all of it, or one byte below the size.
pub fn lent(room: &[u8], which: usize, short: Option<usize>) -> usize
    ensures { CountsIn result room.now }
{
    if short == Some(which) && GUARD < room.len() {
        return room.len() - GUARD - 1;
    }
    room.len()
}

// ---- the answer

fn counts_agree(list: &[u8], at: usize, c: Counts) -> bool {
    let definitions = after_field(list, at);
    let ranges = after_field(list, definitions);
    let references = after_field(list, ranges);
    let bytes = after_field(list, references);
    c.categories as u64 == number_at(list, at)
        && c.definitions as u64 == number_at(list, definitions)
        && c.ranges as u64 == number_at(list, ranges)
        && c.references as u64 == number_at(list, references)
        && c.bytes as u64 == number_at(list, bytes)
}

// The item at a place says this refusal.
pub fn refusal_agrees(list: &[u8], at: usize, r: Refusal) -> bool {
    let said = after_field(list, at);
    byte_at(list, at) == b'r'
        && u64::from(r.number) == number_at(list, said)
        && r.place as u64 == number_at(list, after_field(list, said))
}

// The item at a place says this answer.
pub fn answer_agrees(list: &[u8], at: usize, answer: Result<Counts, Refusal>) -> bool {
    match answer {
        Ok(c) => byte_at(list, at) != b'r' && counts_agree(list, after_field(list, at), c),
        Err(r) => refusal_agrees(list, at, r),
    }
}

// ---- what is left in the rooms

// A room up to its size, and the guard behind it.
fn parted<'a>(room: &'a [u8]) -> (&'a [u8], &'a [u8]) {
    room.split_at(room.len().saturating_sub(GUARD))
}

// Every byte is this one.
pub fn is_all(part: &[u8], b: u8) -> bool {
    part.iter().all(|x| *x == b)
}

// The byte that stands at a place of the table that a field spells, 0 behind it.
fn spelled_byte(digits: &[u8], k: usize) -> u8 {
    if digits.len() / 2 <= k {
        return 0;
    }
    byte_of(&digits[2 * k..2 * k + 2])
}

// A room has the table that a field spells, and zero behind it up to the size.
fn is_spelled(digits: &[u8], body: &[u8]) -> bool {
    body.iter()
        .enumerate()
        .all(|(k, b)| *b == spelled_byte(digits, k))
}

// The field that stands so many behind the one at a place.
pub fn field_behind(list: &[u8], at: usize, count: usize) -> usize {
    let mut found = at;
    for _ in 0..count {
        found = after_field(list, found);
    }
    found
}

fn leaves_alone(number: u64) -> bool {
    number == u64::from(TABLES_APART) || number < FIRST_ZERO
}

// A room is as the item at a place says: left alone or zero where it refuses, the table where it has one, whose field
// begins at `table`, and the guard always left alone.
fn is_as_said(list: &[u8], at: usize, table: usize, room: &[u8]) -> bool {
    let (body, guard) = parted(room);
    if !is_all(guard, FILL) {
        return false;
    }
    match byte_at(list, at) {
        b'r' if leaves_alone(number_at(list, after_field(list, at))) => is_all(body, FILL),
        b'r' => is_all(body, 0),
        b'w' => is_spelled(field_at(list, table).text, body),
        _ => true,
    }
}

// One room is as the item at a place says, which has its table so many fields behind it.
pub fn room_agrees(list: &[u8], at: usize, table: usize, room: &[u8]) -> bool {
    let has_table = byte_at(list, at) == b'w';
    let field = if has_table {
        field_behind(list, at, table)
    } else {
        at
    };
    is_as_said(list, at, field, room)
}

// All rooms are as the item at a place says, which has the sum over them so many fields behind it, but for a refusal.
pub fn rooms_agree(list: &[u8], at: usize, sum_field: usize, rooms: &[&[u8]]) -> bool {
    let refused = byte_at(list, at) == b'r';
    let said = field_behind(list, at, sum_field);
    let mut table = said;
    let mut sum = sums::START;
    for room in rooms {
        table = after_field(list, table);
        if !is_as_said(list, at, table, room) {
            return false;
        }
        if !refused {
            sum = sums::over(sum, parted(room).0);
        }
    }
    refused || u64::from(sum) == hex_at(list, said)
}

// ---- the tables as a line hands them in

// One count is another: of the tables by number, or of the name bytes.
pub fn with_count(counts: Counts, which: usize, n: usize) -> Counts {
    match which {
        0 => Counts {
            categories: n,
            ..counts
        },
        1 => Counts {
            definitions: n,
            ..counts
        },
        2 => Counts {
            ranges: n,
            ..counts
        },
        3 => Counts {
            references: n,
            ..counts
        },
        _ => Counts { bytes: n, ..counts },
    }
}

// The bytes of the field at a place, put into one of five tables from a place on.
pub fn put_into(
    list: &[u8],
    at: usize,
    from: usize,
    which: usize,
    names: &mut [u8],
    categories: &mut [u8],
    definitions: &mut [u8],
    ranges: &mut [u8],
    references: &mut [u8],
) {
    match which {
        0 => put_field(list, at, names, from),
        1 => put_field(list, at, categories, from),
        2 => put_field(list, at, definitions, from),
        3 => put_field(list, at, ranges, from),
        _ => put_field(list, at, references, from),
    };
}
