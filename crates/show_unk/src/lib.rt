// The entries of unk.def in lines.
#![tactic(auto)]

use command::Asked;
use hold::Reading;
use say::{ErrorStream, Stop};
use std::env::Env;
use std::fs::Files;
use std::io;
use std::io::{Input, Write};
use word::WordEntry;

// One byte over the largest text, so that a text over the limit shows itself.
const TEXT_ROOM: usize = paper::MAX_TEXT_BYTES + 1;

const ENTRIES_SIZE: usize = paper::MAX_UNK_ENTRIES * unk_enter::ENTRY_BYTES;

const OFFSETS_SIZE: usize = paper::MAX_UNK_ENTRIES * unk_enter::OFFSET_BYTES;

const PLACES_SIZE: usize = paper::MAX_CATEGORIES * table::CATEGORY_BYTES;

const MEMBERS_SIZE: usize = paper::MAX_UNK_ENTRIES * table::REFERENCE_BYTES;

// Where an entry has its category's number and 1, or 0.
const MARK_AT: usize = 6;

const NUL: u8 = 0;

// The entries of an unk.def, as its reader leaves them.
#[derive(Clone, Copy)]
struct Entries<'a> {
    entries: &'a [u8],
    offsets: &'a [u8],
    details: &'a [u8],
    count: usize,
}

// The details of an entry: where NUL joins them in memory, a comma does in the text.
fn put_details(out: &mut impl Write, details: &[u8]) -> io::Result<()> {
    if details.is_empty() {
        return writeln!(out);
    }
    let mut before = b" ";
    for field in details.split(|b| *b == NUL) {
        out.write_all(before)?;
        say::put_name(out, field)?;
        before = b",";
    }
    writeln!(out)
}

// The name of an entry's category, or - where it is none's.
fn put_category(
    out: &mut impl Write,
    reading: &Reading,
    entries: &[u8],
    i: usize,
) -> io::Result<()> {
    let at = unk_enter::ENTRY_BYTES * i.min(paper::MAX_UNK_ENTRIES) + MARK_AT;
    match usize::from(table::get_u16(entries, at)).checked_sub(1) {
        Some(id) => show::put_name(out, reading, id),
        None => write!(out, "-"),
    }
}

fn put_entry(out: &mut impl Write, reading: &Reading, unk: Entries, i: usize) -> io::Result<()> {
    if let Ok(WordEntry { left, right, cost }) = word::word_entry(unk.entries, unk.count, i) {
        write!(out, "entry {i} ")?;
        put_category(out, reading, unk.entries, i)?;
        write!(out, " {left} {right} {}", cost.cast_signed())?;
    }
    put_details(
        out,
        word::word_details(unk.offsets, unk.details, unk.count, i),
    )
}

fn show_entries(out: &mut impl Write, reading: &Reading, unk: Entries) -> io::Result<()> {
    for i in 0..unk.count {
        put_entry(out, reading, unk, i)?;
    }
    Ok(())
}

// ---- unk.def over a dictionary

// The rooms of the reader, lent whole. What is refused is named by argument i.
fn put_unk_text(
    rt: &impl Env,
    out: &mut impl Write,
    i: usize,
    reading: &Reading,
    text: &[u8],
) -> Result<(), Stop> {
    let mut entries = [0u8; ENTRIES_SIZE];
    let mut offsets = [0u8; OFFSETS_SIZE];
    let mut details = [0u8; paper::MAX_DETAIL_BYTES];
    let mut places = [0u8; PLACES_SIZE];
    let mut members = [0u8; MEMBERS_SIZE];
    match unk::parse_unk(
        reading,
        text,
        &mut entries,
        &mut offsets,
        &mut details,
        &mut places,
        &mut members,
    ) {
        Err(x) => refusal::put_refusal(rt, out, i, text, x),
        Ok(u) => {
            let unk = Entries {
                entries: &entries,
                offsets: &offsets,
                details: &details,
                count: u.entries,
            };
            Ok(show_entries(out, reading, unk)?)
        }
    }
}

// The second argument is the unk.def.
pub fn put_unk<R: Env + ErrorStream + Files + Input>(
    rt: &R,
    out: &mut impl Write,
    asked: Asked,
    reading: &Reading,
) -> Result<(), Stop> {
    let mut room = [0u8; TEXT_ROOM];
    let i = asked.second();
    let text = file::read_file(rt, i, &mut room)?;
    put_unk_text(rt, out, i, reading, text)
}
