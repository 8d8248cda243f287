// Lookups over any lent tables of unk.def: U, `lookup_word_ids`, `word_entry`, `word_details`. No table is believed: what would lie outside of one is
// 26.
#![tactic(auto)]

ghost use Rattle.std.specs.Prelude.{◌≡◌, ◌<◌, ◌*◌};
ghost use Rattle.paper.specs.Rows.Lookup.{gives};
ghost use Rattle.word.specs.Words.{within, numbered, word_ids_in, word_entry_in, word_details_in, found, entry, held};

use paper::{NUMBER_UNKNOWN, Refusal, TABLES_APART};
use table::{CATEGORY_BYTES, NAME_LENGTH_AT, REFERENCE_BYTES};
use unk_enter::{COST_AT, ENTRY_BYTES, LENGTH_BYTES, OFFSET_BYTES, RIGHT_AT};

// A part of a table, in bytes.
#[derive(Clone, Copy)]
pub struct Span {
    pub start: usize,
    pub len: usize,
}

// The cost is a number of 16 bits, from 32,768 on a negative one: 65,536 less.
#[derive(Clone, Copy)]
pub struct WordEntry {
    pub left: u16,
    pub right: u16,
    pub cost: u16,
}

// A lookup is refused without a place.
const UNKNOWN: Refusal = Refusal {
    number: NUMBER_UNKNOWN,
    place: 0,
};

const APART: Refusal = Refusal {
    number: TABLES_APART,
    place: 0,
};

// Where an entry of a table begins, of which each has so many bytes: 15 where there are no more entries than `id`, 26 where it runs past the table.
fn entry_start(table: &[u8], bytes: usize, count: usize, id: usize) -> Result<usize, Refusal>
    requires { 0 < bytes }
    ensures { result ≡ found (numbered bytes count id table.now (gives (bytes * id))) }
{
    if count <= id {
        return Err(UNKNOWN);
    }
    if table.len() / bytes <= id {
        return Err(APART);
    }
    Ok(bytes * id)
}

// A part of a table of so many bytes: 26 where it runs past.
fn span_within(bytes: usize, start: usize, len: usize) -> Result<Span, Refusal>
    ensures { result ≡ found (within bytes (record { start = start; len = len })) }
{
    if bytes < start || bytes - start < len {
        return Err(APART);
    }
    Ok(Span { start, len })
}

// Where the entries of a category stand among the members, two bytes each: 15 where there are no more categories than `id`, 26 where its place or the
// part runs past.
pub fn locate_word_ids(
    places: &[u8],
    members: &[u8],
    count: usize,
    id: usize,
) -> Result<Span, Refusal>
    ensures { result ≡ found (word_ids_in places.now members.now count id) }
{
    let at = entry_start(places, CATEGORY_BYTES, count, id)?;
    let first = usize::from(table::get_u16(places, at));
    let size = usize::from(table::get_u16(places, at + NAME_LENGTH_AT));
    span_within(
        members.len(),
        REFERENCE_BYTES * first,
        REFERENCE_BYTES * size,
    )
}

// The entries of a category, a part of the members; empty where `locate_word_ids` refuses.
pub fn lookup_word_ids<'a>(places: &[u8], members: &'a [u8], count: usize, id: usize) -> &'a [u8]
    ensures { result.now ≡ held members.now (word_ids_in places.now members.now count id) }
{
    match locate_word_ids(places, members, count, id) {
        Ok(s) => &members[s.start..s.start + s.len],
        Err(_) => &members[0..0],
    }
}

// Left, right and cost of an entry: 15 where there are no more than `id`, 26 where it runs past the table.
pub fn word_entry(entries: &[u8], count: usize, id: usize) -> Result<WordEntry, Refusal>
    ensures { result ≡ entry (word_entry_in entries.now count id) }
{
    let at = entry_start(entries, ENTRY_BYTES, count, id)?;
    Ok(WordEntry {
        left: table::get_u16(entries, at),
        right: table::get_u16(entries, at + RIGHT_AT),
        cost: table::get_u16(entries, at + COST_AT),
    })
}

// Where the joined details of an entry stand, behind their length: 15 where there are no more than `id`, 26 where its offset, the length or they run
// past.
pub fn locate_details(
    offsets: &[u8],
    details: &[u8],
    count: usize,
    id: usize,
) -> Result<Span, Refusal>
    ensures { result ≡ found (word_details_in offsets.now details.now count id) }
{
    let at = entry_start(offsets, OFFSET_BYTES, count, id)?;
    let offset = table::get_u32(offsets, at) as usize;
    let len = table::get_u32(details, offset) as usize;
    span_within(details.len(), offset + LENGTH_BYTES, len)
}

// The joined details of an entry, a part of the details; empty where `locate_details` refuses.
pub fn word_details<'a>(offsets: &[u8], details: &'a [u8], count: usize, id: usize) -> &'a [u8]
    ensures { result.now ≡ held details.now (word_details_in offsets.now details.now count id) }
{
    match locate_details(offsets, details, count, id) {
        Ok(s) => &details[s.start..s.start + s.len],
        Err(_) => &details[0..0],
    }
}
