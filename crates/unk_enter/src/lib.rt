// Enters one line of unk.def into three lent tables: 23, 24 and 25. The reader in `unk` walks the lines of a text over it.
#![tactic(auto)]

ghost use Rattle.std.specs.Prelude.{◌≡◌, ◌+◌, ◌*◌, ◌-◌, ◌≤◌, length, take, drop};
ghost use Rattle.paper.specs.Sizes.{max_categories, max_detail_bytes};
ghost use Rattle.paper.specs.Computed.ReadUnk.{unk_line_of};
ghost use Rattle.paper.specs.Tables.Lent.{patch};
ghost use Rattle.paper.specs.Unk.Entry.{length_bytes};
ghost use Rattle.unk_line.specs.Line.{joined_fields, as_joined, stored_fields};
ghost use Rattle.unk_enter.specs.Fields.{entry_size, word_bytes};
ghost use Rattle.unk_enter.specs.Lines.{Inside, mark_in, Placed, RoomLeft, Appended, Asked, Working, Stepped};

use hold::Reading;
use paper::{MAX_UNK_ENTRIES, UNK_ENTRIES_FULL};
use unk_line::UnkEntry;

const COMMA: u8 = b',';

const NUL: u8 = 0;

// An entry of the entry table, in bytes, and where its fields stand behind the left: right, cost, the category's number and 1.
pub const ENTRY_BYTES: usize = 8;

pub const RIGHT_AT: usize = 2;

pub const COST_AT: usize = 4;

pub const MARK_AT: usize = 6;

// The bytes of the length before an entry's details, and of an offset.
pub const LENGTH_BYTES: usize = 4;

pub const OFFSET_BYTES: usize = 4;

// How many entries there are, and their details' bytes with the lengths before them.
#[derive(Clone, Copy)]
pub struct UnkCounts {
    pub entries: usize,
    pub bytes: usize,
}

fn joined_byte(b: u8) -> u8
    ensures { result ≡ as_joined b }
{
    if b == COMMA {
        return NUL;
    }
    b
}

// Copies the fields from `start` to `end`, joined by NUL.
fn copy_joined(text: &[u8], start: usize, end: usize, details: &mut [u8], at: usize)
    requires inside { Inside text.now start end }
    requires start_in_bounds { at + (end - start) ≤ length details.old }
    ensures { details.new ≡ patch at (joined_fields (drop start (take end text.now))) details.old }
{
    let len = end - start;
    for i in 0..len {
        details[at + i] = joined_byte(text[start + i]);
    }
}

// One more entry's details: their length, and the fields joined.
fn put_details(text: &[u8], start: usize, end: usize, details: &mut [u8], at: usize)
    requires inside { Inside text.now start end }
    requires start_in_bounds { (at + length_bytes + (end - start) ≤ length details.old) × (end - start ≤ max_detail_bytes) }
    ensures { details.new ≡ patch at (stored_fields (drop start (take end text.now))) details.old }
{
    let len = end - start;
    table::put_u32(details, at, len as u32);
    copy_joined(text, start, end, details, at + LENGTH_BYTES);
}

// One more entry of the entry table.
fn put_entry(entries: &mut [u8], n: usize, left: u16, right: u16, cost: u16, mark: u16)
    requires { entry_size * n + entry_size ≤ length entries.old }
    ensures { entries.new ≡ patch (entry_size * n) (word_bytes left right cost mark) entries.old }
{
    let at = ENTRY_BYTES * n;
    table::put_u16(entries, at, left);
    table::put_u16(entries, at + RIGHT_AT, right);
    table::put_u16(entries, at + COST_AT, cost);
    table::put_u16(entries, at + MARK_AT, mark);
}

// The number of the category whose name stands in the text from `start` to `end`, and 1; 0 where none has that name.
fn mark_of(reading: &Reading, text: &[u8], start: usize, end: usize) -> u16
    requires inside { Inside text.now start end }
    requires count_le_max_categories { reading.now.counts.categories ≤ max_categories }
    ensures { result ≡ mark_in reading.now.names.now reading.now.categories.now reading.now.counts.categories (drop start (take end text.now)) }
{
    let name = &text[start..end];
    match by_name::find_category(
        reading.names,
        reading.categories,
        reading.counts.categories,
        name,
    ) {
        Ok(Some(i)) => (i + 1) as u16,
        Ok(None) => 0,
        Err(_) => 0,
    }
}

// The line's entry behind the others.
fn append_entry(
    reading: &Reading,
    text: &[u8],
    start: usize,
    end: usize,
    e: UnkEntry,
    entries: &mut [u8],
    offsets: &mut [u8],
    details: &mut [u8],
    counts: UnkCounts,
) -> UnkCounts
    requires placed { Placed text.now start end e }
    requires count_le_max_categories { reading.now.counts.categories ≤ max_categories }
    requires room_left { RoomLeft (record { entries = entries.old; offsets = offsets.old; details = details.old }) counts (end - e.details) }
    ensures { Appended (mark_in reading.now.names.now reading.now.categories.now reading.now.counts.categories) text.now start end e (record { entries = entries.old; offsets = offsets.old; details = details.old }) counts (record { entries = entries.new; offsets = offsets.new; details = details.new }) result }
{
    let n = counts.entries;
    let used = counts.bytes;
    let surface = e.surface;
    let from = e.details;
    let mark = mark_of(reading, text, start, surface);
    put_entry(entries, n, e.left, e.right, e.cost, mark);
    table::put_u32(offsets, OFFSET_BYTES * n, used as u32);
    put_details(text, from, end, details, used);
    UnkCounts {
        entries: n + 1,
        bytes: used + LENGTH_BYTES + (end - from),
    }
}

// The line from `start` to `end` entered: 23 and 24 before 25, as numbers, which `Stepped` gives to the paper's refusals.
pub fn enter_line(
    reading: &Reading,
    text: &[u8],
    start: usize,
    end: usize,
    entries: &mut [u8],
    offsets: &mut [u8],
    details: &mut [u8],
    counts: UnkCounts,
) -> Result<UnkCounts, u32>
    requires inside { Inside text.now start end }
    requires asked { Asked reading.now.counts.categories end start counts }
    requires working { Working (mark_in reading.now.names.now reading.now.categories.now reading.now.counts.categories) (record { entries = entries.old; offsets = offsets.old; details = details.old }) counts }
    ensures { Stepped (mark_in reading.now.names.now reading.now.categories.now reading.now.counts.categories) (unk_line_of (drop start (take end text.now))) (record { entries = entries.old; offsets = offsets.old; details = details.old }) counts (record { entries = entries.new; offsets = offsets.new; details = details.new }) result }
{
    let e = unk_line::parse_dictionary_entry(text, start, end)?;
    if MAX_UNK_ENTRIES <= counts.entries {
        return Err(UNK_ENTRIES_FULL);
    }
    Ok(append_entry(
        reading, text, start, end, e, entries, offsets, details, counts,
    ))
}
