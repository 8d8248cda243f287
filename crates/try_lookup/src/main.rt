// Replays oracle/lists/rows.txt over the builders of rows and flat tables and over all lookups: the Rust's rows, flat
// tables, lookups, names and definitions, rooms one place short, and tables with one field damaged. oracle/README.md
// has the list's form.
#![tactic(auto)]

use replay::items::{self, Reader};
use replay::lines::each_line;
use replay::rooms::{CATEGORIES, DEFINITIONS, NAMES, RANGES, REFERENCES};
use replay_line::change;
use replay_line::tally::Tally;
use std::io;

// The list is read in two halves, and the first one ends with a line.
const HALF: usize = 524288;

const TEXT_ROOM: usize = 73728;

const BASE_ROOM: usize = 4096;

fn lay(reading: &mut [u8], start: usize, table: &[u8]) {
    if start <= reading.len() {
        items::keep(table, &mut reading[start..]);
    }
}

// The reading of a text, its tables one behind another; how far the line is read then, 0 where the text is refused.
fn tried(
    rt: &impl Print,
    list: &[u8],
    at: usize,
    text: &[u8],
    number: u64,
    tally: &mut Tally,
) -> io::Result<usize> {
    let mut names = [0u8; NAMES];
    let mut categories = [0u8; CATEGORIES];
    let mut definitions = [0u8; DEFINITIONS];
    let mut ranges = [0u8; RANGES];
    let mut references = [0u8; REFERENCES];
    let mut reading = [0u8; change::READING];
    let Ok(counts) = char_def::parse(
        text,
        &mut names,
        &mut categories,
        &mut definitions,
        &mut ranges,
        &mut references,
    ) else {
        return Ok(0);
    };
    lay(&mut reading, 0, &names);
    lay(&mut reading, change::CATEGORIES_AT, &categories);
    lay(&mut reading, change::DEFINITIONS_AT, &definitions);
    lay(&mut reading, change::RANGES_AT, &ranges);
    lay(&mut reading, change::REFERENCES_AT, &references);
    replay_tables::handed(rt, list, at, counts, &mut reading, number, tally)
}

// A base asks nothing. All others are read to the end of the line.
fn asked(
    rt: &impl Print,
    list: &[u8],
    r: Reader,
    text: &[u8],
    next: usize,
    number: u64,
    tally: &mut Tally,
) -> io::Result<()> {
    if replay::byte_at(list, r.at) == b'b' {
        return Ok(());
    }
    let Some(part) = text.get(..r.size) else {
        return tally.differs(rt, list, r.at, number);
    };
    if tried(rt, list, r.at, part, number, tally)? != next {
        return tally.differs(rt, list, r.at, number);
    }
    Ok(())
}

// Replays the lines of a half, which so many came before; how many there were then.
fn replay_all(rt: &impl Print, list: &[u8], before: u64, tally: &mut Tally) -> io::Result<u64> {
    let mut text = [0u8; TEXT_ROOM];
    let mut base = [0u8; BASE_ROOM];
    let mut kept = 0;
    each_line(list, before, |at, number| {
        let r = items::built(list, at, kept, &mut text, &mut base);
        kept = r.base;
        asked(
            rt,
            list,
            r,
            &text,
            replay::next_line(list, at),
            number,
            tally,
        )
    })
}

fn half_room() -> [u8; HALF] {
    [0; HALF]
}

fn replay_half(rt: &(impl Print + Input), before: u64, tally: &mut Tally) -> io::Result<u64> {
    let mut room = half_room();
    let n = replay::input::read_full(&mut rt.reader(), &mut room)?;
    replay_all(rt, &room[..n], before, tally)
}

fn main(rt: HostRuntime) -> io::Result<()> {
    let mut tally = Tally::default();
    let lines = replay_half(&rt, 0, &mut tally)?;
    replay_half(&rt, lines, &mut tally)?;
    tally.say(&rt)
}
