// Flat tables that are built of a reading, as rows.rt has it for rows.
use crate::rows::{self, Asked};
use hold::Reading;
use paper::Refusal;
use replay::rooms::{GUARD, field_behind};
use replay::{after_field, byte_at, front, hex_at, number_at, sums};
use replay_line::tally::Tally;
use std::io;

pub const BMP: usize = 65536;

pub const INDEX: usize = BMP + 2 * GUARD;

// No flat pool of the list is so long.
pub const POOL: usize = 524288;

pub fn index_room() -> [u32; INDEX] {
    [rows::FILL32; INDEX]
}

pub fn pool_room() -> [u16; POOL] {
    [rows::FILL16; POOL]
}

// The tries: each of the two slices one short, both exact, both longer.
const SLICES: usize = 2;

const TRIES: usize = 4;

fn untouched(index: &[u32], pool: &[u16], places: usize, from: usize, place: usize) -> bool {
    rows::untouched(index, from, rows::FILL32)
        && rows::untouched(front(pool, rows::near(places)), place, rows::FILL16)
}

fn need_of(a: Asked, attempt: usize) -> usize {
    if attempt == 0 { BMP } else { a.places }
}

fn summed(index: &[u32], pool: &[u16], places: usize) -> u32 {
    sums::over(
        sums::over(sums::START, front(index, BMP)),
        front(pool, places),
    )
}

fn agrees(
    list: &[u8],
    a: Asked,
    attempt: usize,
    built: Result<usize, Refusal>,
    index: &[u32],
    pool: &[u16],
) -> bool {
    match (
        built,
        rows::expected(a.refused, attempt, SLICES, need_of(a, attempt)),
    ) {
        (Err(r), Some(number)) => {
            r.place == 0 && u64::from(r.number) == number && untouched(index, pool, a.places, 0, 0)
        }
        (Ok(n), None) => {
            n == a.places
                && u64::from(summed(index, pool, n)) == hex_at(list, field_behind(list, a.at, 2))
                && untouched(index, pool, n, BMP, n)
        }
        _ => false,
    }
}

fn tried(
    list: &[u8],
    a: Asked,
    attempt: usize,
    reading: &Reading,
    index: &mut [u32],
    pool: &mut [u16],
) -> bool {
    let x = rows::lends(a.rows, 0, attempt, SLICES).min(index.len());
    let y = rows::lends(a.places, 1, attempt, SLICES).min(pool.len());
    let built = flat::build_flat_table(reading, &mut index[..x], &mut pool[..y]);
    agrees(list, a, attempt, built, index, pool)
}

// What the item at a place asks of the flat table; its rows are the entries of the index.
pub fn asked_at(list: &[u8], at: usize) -> Asked {
    let said = number_at(list, after_field(list, at));
    let nothing = Asked {
        at,
        rows: 0,
        places: 0,
        refused: None,
    };
    match byte_at(list, at) {
        b'f' => Asked {
            rows: BMP,
            places: said as usize,
            ..nothing
        },
        b'u' => Asked {
            refused: rows::refusal_of(said),
            ..nothing
        },
        _ => nothing,
    }
}

fn all_agree(
    list: &[u8],
    a: Asked,
    reading: &Reading,
    index: &mut [u32],
    pool: &mut [u16],
) -> bool {
    for attempt in 0..TRIES {
        if !tried(list, a, attempt, reading, index, pool) {
            return false;
        }
    }
    true
}

// Notes the item, where it is one of a flat table; where the item behind it begins.
pub fn noted(
    rt: &impl Print,
    list: &[u8],
    a: Asked,
    reading: &Reading,
    damaged: bool,
    index: &mut [u32],
    pool: &mut [u16],
    number: u64,
    tally: &mut Tally,
) -> io::Result<usize> {
    let fields = match byte_at(list, a.at) {
        b'f' => 3,
        b'u' => 2,
        _ => return Ok(a.at),
    };
    let agreed = all_agree(list, a, reading, index, pool);
    tally.note(rt, list, a.at, number, damaged, agreed)?;
    Ok(field_behind(list, a.at, fields))
}
