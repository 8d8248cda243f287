// Our side of oracle/compare for rows, the flat table and lookups: reads pairs of a char.def and of code points from standard input, each behind its
// length in four bytes, and writes the answer to each pair in the form of oracle/README.md: number and place of the reading; where it is
// accepted the rows, the flat table, and what is found at each code point.
#![tactic(auto)]

mod found;
mod tables;
mod writer;

use batch::TEXT_ROOM;
use hold::Reading;
use paper::Refusal;
use row::RowCounts;
use std::io;
use std::io::{Read, Write};
use tables::{FILL_U16, FILL_U32, Tables, Used};
use writer::Page;

const NAMES: usize = 16384;

const CATEGORIES: usize = 2048;

const DEFINITIONS: usize = 3072;

const RANGES: usize = 16384;

const REFERENCES: usize = 16384;

// Bytes of code points.
const CODE_ROOM: usize = 4096;

// What is lent behind the largest boundary list and index.
const GUARD: usize = 16;

const ROWS: usize = 4097 + GUARD;

const INDEX: usize = 65536 + GUARD;

// Places of each pool. Rows may need 2,097,664 and the flat table 1,044,735: 17 where they do not fit.
const PLACES: usize = 131072;

// Memory is not as it should be.
const FAULT: u8 = 255;

// ---- an answer

// The number of a builder's refusal as a byte, or 0: that memory is not as it should be comes before.
fn verdict(refusal: Option<Refusal>, is_left: bool) -> u8 {
    if !is_left {
        return FAULT;
    }
    match refusal {
        Some(r) => found::byte(r.number),
        None => 0,
    }
}

// Boundaries, starts, lengths and the pool behind the counts.
fn add_rows<W: Write>(page: &mut Page<W>, verdict: u8, n: Used, t: &Tables) -> io::Result<()> {
    page.add_u8(verdict)?;
    page.add_count(n.rows)?;
    page.add_count(n.places)?;
    page.add_u32s(t.boundaries)?;
    page.add_u32s(t.starts)?;
    page.add_u16s(t.lengths)?;
    page.add_u16s(t.pool)
}

// The pool behind its count, and the index by its runs.
fn add_flat<W: Write>(page: &mut Page<W>, verdict: u8, n: Used, t: &Tables) -> io::Result<()> {
    page.add_u8(verdict)?;
    page.add_count(n.flat_places)?;
    page.add_u16s(t.flat_pool)?;
    page.add_runs(t.index)
}

// The lookups go over tables as long as they are used.
fn put_answer<W: Write>(
    stream: &mut W,
    codes: &[u8],
    lent: &Tables,
    rows: Result<RowCounts, Refusal>,
    flat: Result<usize, Refusal>,
) -> io::Result<()> {
    batch::put_head(stream, 0, 0)?;
    let n = tables::used_by(rows, flat);
    let used = lent.front(n);
    let mut page = Page::new(stream);
    add_rows(&mut page, verdict(rows.err(), lent.rows_left(n)), n, &used)?;
    add_flat(&mut page, verdict(flat.err(), lent.flat_left(n)), n, &used)?;
    found::add_all(&mut page, &used, codes)?;
    page.write()
}

fn answer<W: Write>(stream: &mut W, codes: &[u8], reading: &Reading) -> io::Result<()> {
    let mut boundaries = [FILL_U32; ROWS];
    let mut starts = [FILL_U32; ROWS];
    let mut lengths = [FILL_U16; ROWS];
    let mut pool = [FILL_U16; PLACES];
    let mut index = [FILL_U32; INDEX];
    let mut flat_pool = [FILL_U16; PLACES];
    let rows = row::build_lookup_table(
        reading,
        &mut boundaries,
        &mut starts,
        &mut lengths,
        &mut pool,
    );
    let flat = flat::build_flat_table(reading, &mut index, &mut flat_pool);
    let lent = Tables {
        boundaries: &boundaries,
        starts: &starts,
        lengths: &lengths,
        pool: &pool,
        index: &index,
        flat_pool: &flat_pool,
    };
    put_answer(stream, codes, &lent, rows, flat)
}

fn answer_one<W: Write>(stream: &mut W, text: &[u8], codes: &[u8]) -> io::Result<()> {
    let mut names = [0u8; NAMES];
    let mut categories = [0u8; CATEGORIES];
    let mut definitions = [0u8; DEFINITIONS];
    let mut ranges = [0u8; RANGES];
    let mut references = [0u8; REFERENCES];
    match char_def::parse(
        text,
        &mut names,
        &mut categories,
        &mut definitions,
        &mut ranges,
        &mut references,
    ) {
        Err(r) => batch::put_head(stream, u64::from(r.number), r.place as u64),
        Ok(counts) => {
            let reading = Reading {
                names: &names,
                categories: &categories,
                definitions: &definitions,
                ranges: &ranges,
                references: &references,
                counts,
            };
            answer(stream, codes, &reading)
        }
    }
}

// ---- records

fn next_pair<R: Read, W: Write>(
    from: &mut R,
    stream: &mut W,
    text_room: &mut [u8],
    code_room: &mut [u8],
) -> io::Result<bool> {
    let Some(text) = batch::next_record(from, text_room)? else {
        return Ok(false);
    };
    let Some(codes) = batch::next_record(from, code_room)? else {
        return Ok(false);
    };
    answer_one(stream, text, codes)?;
    Ok(true)
}

// Nothing says that input ends, so the loop has a number of turns that no run uses up.
fn answer_all<R: Read, W: Write>(
    from: &mut R,
    stream: &mut W,
    text_room: &mut [u8],
    code_room: &mut [u8],
) -> io::Result<()> {
    for _ in 0..u64::MAX {
        if !next_pair(from, stream, text_room, code_room)? {
            break;
        }
    }
    stream.flush()
}

fn main(rt: HostRuntime) -> io::Result<()> {
    let mut text_room = [0u8; TEXT_ROOM];
    let mut code_room = [0u8; CODE_ROOM];
    let mut from = rt.reader();
    let mut stream = io::writer(&rt);
    answer_all(&mut from, &mut stream, &mut text_room, &mut code_room)
}
