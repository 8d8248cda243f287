// Our side of oracle/compare --unk: reads a char.def, an unk.def and numbers from standard input, each behind its length in four bytes, and so on, and
// writes the answer to each unk.def in the form of oracle/README.md: number and place, then counts and the used parts of the tables, then what
// stands under each number; 255 and a table's number where memory is not as document 01 says, 254 where the char.def is refused.
#![tactic(auto)]

mod words;

use batch::{FAULT, FILL, GUARD, TEXT_ROOM, put_u16};
use hold::Reading;
use paper::Refusal;
use std::io;
use std::io::{Read, Write};
use unk_enter::UnkCounts;
use words::Words;

const NAMES: usize = 16384;

const CATEGORIES: usize = 2048;

const DEFINITIONS: usize = 3072;

const RANGES: usize = 16384;

const REFERENCES: usize = 16384;

const ENTRIES: usize = 32768 + GUARD;

const OFFSETS: usize = 16384 + GUARD;

const DETAILS: usize = 65536 + GUARD;

const PLACES: usize = 2048 + GUARD;

const MEMBERS: usize = 8192 + GUARD;

// Bytes of numbers.
const NUMBER_ROOM: usize = 4096;

// The number that says: there is no reading to read over.
const NO_READING: u64 = 254;

// Refusals below it leave lent memory alone, and so does 26.
const FIRST_ZERO: u32 = 4;

// What a refusal leaves in the tables.
const NOTHING: UnkCounts = UnkCounts {
    entries: 0,
    bytes: 0,
};

// What stands behind the used parts up to the sizes.
fn rest_after(answer: &Result<UnkCounts, Refusal>) -> u8 {
    match answer {
        Err(r) if r.number == paper::TABLES_APART || r.number < FIRST_ZERO => FILL,
        _ => 0,
    }
}

// ---- an answer

fn put_counts<W: Write>(out: &mut W, words: &Words) -> io::Result<()> {
    batch::put_head(out, 0, 0)?;
    put_u16(out, words.counts.entries)?;
    put_u16(out, words.listed())?;
    put_u16(out, words.categories)?;
    batch::put_u32(out, words.counts.bytes)
}

fn put_answer<W: Write>(
    out: &mut W,
    answer: Result<UnkCounts, Refusal>,
    words: &Words,
    numbers: &[u8],
) -> io::Result<()> {
    let tables = words.used();
    if let Some(i) = batch::fault(&tables, rest_after(&answer)) {
        return batch::put_head(out, FAULT, i as u64);
    }
    if let Err(r) = answer {
        return batch::put_head(out, u64::from(r.number), r.place as u64);
    }
    put_counts(out, words)?;
    for t in &tables {
        batch::put_part(out, t.room, t.len)?;
    }
    words.put_all(out, numbers)
}

fn answer<W: Write>(out: &mut W, reading: &Reading, text: &[u8], numbers: &[u8]) -> io::Result<()> {
    let mut entries = [FILL; ENTRIES];
    let mut offsets = [FILL; OFFSETS];
    let mut details = [FILL; DETAILS];
    let mut places = [FILL; PLACES];
    let mut members = [FILL; MEMBERS];
    let found = unk::parse_unk(
        reading,
        text,
        &mut entries,
        &mut offsets,
        &mut details,
        &mut places,
        &mut members,
    );
    let words = Words {
        entries: &entries,
        offsets: &offsets,
        details: &details,
        places: &places,
        members: &members,
        categories: if found.is_ok() {
            reading.counts.categories
        } else {
            0
        },
        counts: found.unwrap_or(NOTHING),
    };
    put_answer(out, found, &words, numbers)
}

fn answer_one<W: Write>(
    out: &mut W,
    char_def: &[u8],
    text: &[u8],
    numbers: &[u8],
) -> io::Result<()> {
    let mut names = [0u8; NAMES];
    let mut categories = [0u8; CATEGORIES];
    let mut definitions = [0u8; DEFINITIONS];
    let mut ranges = [0u8; RANGES];
    let mut references = [0u8; REFERENCES];
    let Ok(counts) = char_def::parse(
        char_def,
        &mut names,
        &mut categories,
        &mut definitions,
        &mut ranges,
        &mut references,
    ) else {
        return batch::put_head(out, NO_READING, 0);
    };
    let reading = Reading {
        names: &names,
        categories: &categories,
        definitions: &definitions,
        ranges: &ranges,
        references: &references,
        counts,
    };
    answer(out, &reading, text, numbers)
}

// ---- records

fn next_three<R: Read, W: Write>(
    from: &mut R,
    out: &mut W,
    char_room: &mut [u8],
    room: &mut [u8],
    number_room: &mut [u8],
) -> io::Result<bool> {
    let Some(char_def) = batch::next_record(from, char_room)? else {
        return Ok(false);
    };
    let Some(text) = batch::next_record(from, room)? else {
        return Ok(false);
    };
    let Some(numbers) = batch::next_record(from, number_room)? else {
        return Ok(false);
    };
    answer_one(out, char_def, text, numbers)?;
    Ok(true)
}

// Nothing says that input ends, so the loop has a number of turns that no run uses up.
fn answer_all<R: Read, W: Write>(
    from: &mut R,
    out: &mut W,
    char_room: &mut [u8],
    room: &mut [u8],
    number_room: &mut [u8],
) -> io::Result<()> {
    for _ in 0..u64::MAX {
        if !next_three(from, out, char_room, room, number_room)? {
            break;
        }
    }
    out.flush()
}

fn main(rt: HostRuntime) -> io::Result<()> {
    let mut char_room = [0u8; TEXT_ROOM];
    let mut room = [0u8; TEXT_ROOM];
    let mut number_room = [0u8; NUMBER_ROOM];
    let mut from = rt.reader();
    let mut out = io::writer(&rt);
    answer_all(
        &mut from,
        &mut out,
        &mut char_room,
        &mut room,
        &mut number_room,
    )
}
