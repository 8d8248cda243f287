// Our side of oracle/compare: reads texts of char.def from standard input, each behind its length in four bytes, and writes the answer to each in
// the form of oracle/README.md: number and place, then counts and the used parts of the tables; 255 and a table's number where memory is not as
// document 01 says. Rooms are filled before the reader is called, and lent with bytes behind their sizes.
#![tactic(auto)]

use batch::{FAULT, FILL, GUARD, TEXT_ROOM, Used, few, put_u16};
use paper::{Counts, Refusal};
use std::io;
use std::io::{Read, Write};
use table::{CATEGORY_BYTES, DEFINITION_BYTES, RANGE_BYTES, REFERENCE_BYTES};

const NAMES: usize = 16384 + GUARD;

const CATEGORIES: usize = 2048 + GUARD;

const DEFINITIONS: usize = 3072 + GUARD;

const RANGES: usize = 16384 + GUARD;

const REFERENCES: usize = 16384 + GUARD;

// Refusals below it leave lent memory alone.
const FIRST_ZERO: u32 = 4;

// What a refusal leaves in the tables.
const NOTHING: Counts = Counts {
    categories: 0,
    definitions: 0,
    ranges: 0,
    references: 0,
    bytes: 0,
};

// What stands behind the used parts up to the sizes.
fn rest_after(answer: &Result<Counts, Refusal>) -> u8 {
    match answer {
        Err(r) if r.number < FIRST_ZERO => FILL,
        _ => 0,
    }
}

// ---- an answer

fn put_counts<W: Write>(out: &mut W, c: Counts) -> io::Result<()> {
    batch::put_head(out, 0, 0)?;
    put_u16(out, c.categories)?;
    put_u16(out, c.definitions)?;
    put_u16(out, c.ranges)?;
    put_u16(out, c.references)?;
    put_u16(out, c.bytes)
}

fn put_answer<W: Write>(
    out: &mut W,
    answer: Result<Counts, Refusal>,
    tables: &[Used],
) -> io::Result<()> {
    if let Some(i) = batch::fault(tables, rest_after(&answer)) {
        return batch::put_head(out, FAULT, i as u64);
    }
    match answer {
        Err(r) => batch::put_head(out, u64::from(r.number), r.place as u64),
        Ok(c) => {
            put_counts(out, c)?;
            for t in tables {
                batch::put_part(out, t.room, t.len)?;
            }
            Ok(())
        }
    }
}

fn answer_one<W: Write>(out: &mut W, text: &[u8]) -> io::Result<()> {
    let mut names = [FILL; NAMES];
    let mut categories = [FILL; CATEGORIES];
    let mut definitions = [FILL; DEFINITIONS];
    let mut ranges = [FILL; RANGES];
    let mut references = [FILL; REFERENCES];
    let answer = char_def::parse(
        text,
        &mut names,
        &mut categories,
        &mut definitions,
        &mut ranges,
        &mut references,
    );
    let n = answer.unwrap_or(NOTHING);
    let tables = [
        Used {
            room: &names,
            len: n.bytes,
        },
        Used {
            room: &categories,
            len: few(n.categories) * CATEGORY_BYTES,
        },
        Used {
            room: &definitions,
            len: few(n.definitions) * DEFINITION_BYTES,
        },
        Used {
            room: &ranges,
            len: few(n.ranges) * RANGE_BYTES,
        },
        Used {
            room: &references,
            len: few(n.references) * REFERENCE_BYTES,
        },
    ];
    put_answer(out, answer, &tables)
}

// ---- records

fn next_answer<R: Read, W: Write>(from: &mut R, out: &mut W, room: &mut [u8]) -> io::Result<bool> {
    let Some(text) = batch::next_record(from, room)? else {
        return Ok(false);
    };
    answer_one(out, text)?;
    Ok(true)
}

// Nothing says that input ends, so the loop has a number of turns that no run uses up.
fn answer_all<R: Read, W: Write>(from: &mut R, out: &mut W, room: &mut [u8]) -> io::Result<()> {
    for _ in 0..u64::MAX {
        if !next_answer(from, out, room)? {
            break;
        }
    }
    out.flush()
}

fn main(rt: HostRuntime) -> io::Result<()> {
    let mut space = [0u8; TEXT_ROOM];
    let mut from = rt.reader();
    let mut out = io::writer(&rt);
    answer_all(&mut from, &mut out, &mut space)
}
