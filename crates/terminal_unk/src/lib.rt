// What C calls to read unk.def: `parse_unk` over the tables of a reading that are handed in with their counts, through one u64, 0 or
// number + 256 * place, and a lent slice for the counts of what was read. Nothing checks what C hands over, so nothing is asked of it.
#![tactic(auto)]

ghost use Rattle.std.specs.Prelude.{◌≡◌, ◌≤◌, length};
ghost use Rattle.paper.specs.Tables.Lent.{patch};
ghost use Rattle.terminal_unk.specs.Answer.{unk_counts_size, unk_count_bytes, ExportsUnk};
ghost use Rattle.terminal_unk.specs.Room.{counts_read, Countable, Exportable, Gives};

use exported::{BYTES_AT, COUNTS_SIZE, DEFINITIONS_AT, RANGES_AT, REFERENCES_AT};
use hold::Reading;
use paper::{Counts, MAX_CATEGORIES, ROOM_SHORT, Refusal};
use unk_enter::UnkCounts;

// The counts of what was read: entries in two bytes, detail bytes in four.
const UNK_COUNTS_SIZE: usize = 6;

const DETAIL_BYTES_AT: usize = 2;

// More categories than any reading has: no tables hold together with such a count.
const CATEGORIES_OF_NONE: usize = MAX_CATEGORIES + 1;

// The counts that are handed in; where they are cut, those of no reading.
fn get_counts(counts: &[u8]) -> Counts
    ensures { result ≡ counts_read counts.now }
{
    if counts.len() < COUNTS_SIZE {
        return Counts {
            categories: CATEGORIES_OF_NONE,
            definitions: 0,
            ranges: 0,
            references: 0,
            bytes: 0,
        };
    }
    Counts {
        categories: usize::from(table::get_u16(counts, 0)),
        definitions: usize::from(table::get_u16(counts, DEFINITIONS_AT)),
        ranges: usize::from(table::get_u16(counts, RANGES_AT)),
        references: usize::from(table::get_u16(counts, REFERENCES_AT)),
        bytes: usize::from(table::get_u16(counts, BYTES_AT)),
    }
}

fn put_counts(counts: &mut [u8], n: UnkCounts)
    requires unk_counts_size_in_bounds { unk_counts_size ≤ length counts.old }
    requires countable { Countable n }
    ensures { counts.new ≡ patch 0 (unk_count_bytes n) counts.old }
{
    table::put_u16(counts, 0, n.entries as u16);
    table::put_u32(counts, DETAIL_BYTES_AT, n.bytes as u32);
}

// An outcome as C gets it: the number, and the counts or what a refusal leaves in their place.
fn give(outcome: Result<UnkCounts, Refusal>, counts: &mut [u8]) -> u64
    requires unk_counts_size_in_bounds { unk_counts_size ≤ length counts.old }
    requires exportable { Exportable outcome }
    ensures { Gives outcome counts.old counts.new result }
{
    match outcome {
        Ok(n) => {
            put_counts(counts, n);
            0
        }
        Err(x) => exported::refuse(x, counts, UNK_COUNTS_SIZE),
    }
}

// unk.def read into lent tables, over a reading's tables.
pub fn twinebeetle_read_unk<'a>(
    text: &[u8],
    names: &'a [u8],
    categories: &'a [u8],
    definitions: &'a [u8],
    ranges: &'a [u8],
    references: &'a [u8],
    counts: &[u8],
    entries: &mut [u8],
    offsets: &mut [u8],
    details: &mut [u8],
    places: &mut [u8],
    members: &mut [u8],
    unk_counts: &mut [u8],
) -> u64
    ensures { ExportsUnk (record { names = names.now; categories = categories.now; definitions = definitions.now; ranges = ranges.now; references = references.now }) counts.now text.now (record { entries = entries.old; offsets = offsets.old; details = details.old; places = places.old; members = members.old }) (record { entries = entries.new; offsets = offsets.new; details = details.new; places = places.new; members = members.new }) unk_counts.old unk_counts.new result }
{
    if unk_counts.len() < UNK_COUNTS_SIZE {
        return u64::from(ROOM_SHORT);
    }
    let reading = Reading {
        names,
        categories,
        definitions,
        ranges,
        references,
        counts: get_counts(counts),
    };
    let outcome = unk::parse_unk(&reading, text, entries, offsets, details, places, members);
    give(outcome, unk_counts)
}
