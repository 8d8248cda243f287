// What bench/ calls besides crate `terminal`: the proved functions that are not exported to C, each behind an entry on numbers and slices. Only
// bench/ links these. An entry promises nothing of its own: it answers 0 or the refusal's number, and `said` gets the sizes.
#![tactic(auto)]

ghost use Rattle.std.specs.Prelude.{◌≡◌};
ghost use Rattle.paper.specs.Tables.Lent.{got};

use hold::Reading;
use paper::Counts;

const DEFINITIONS_AT: usize = 2;

const RANGES_AT: usize = 4;

const REFERENCES_AT: usize = 6;

const BYTES_AT: usize = 8;

// A reading as C lends it: five tables, and their counts as crate `terminal` writes them.
pub fn reading_of<'a>(
    names: &'a [u8],
    categories: &'a [u8],
    definitions: &'a [u8],
    ranges: &'a [u8],
    references: &'a [u8],
    counts: &[u8],
) -> Reading<'a>
    ensures lent { (result.names.now ≡ names.now) × (result.categories.now ≡ categories.now) × (result.definitions.now ≡ definitions.now) × (result.ranges.now ≡ ranges.now) × (result.references.now ≡ references.now) }
    ensures counted { (result.counts.categories ≡ got 2 0 counts.now) × (result.counts.definitions ≡ got 2 2 counts.now) × (result.counts.ranges ≡ got 2 4 counts.now) × (result.counts.references ≡ got 2 6 counts.now) × (result.counts.bytes ≡ got 2 8 counts.now) }
{
    let counts = Counts {
        categories: usize::from(table::get_u16(counts, 0)),
        definitions: usize::from(table::get_u16(counts, DEFINITIONS_AT)),
        ranges: usize::from(table::get_u16(counts, RANGES_AT)),
        references: usize::from(table::get_u16(counts, REFERENCES_AT)),
        bytes: usize::from(table::get_u16(counts, BYTES_AT)),
    };
    Reading {
        names,
        categories,
        definitions,
        ranges,
        references,
        counts,
    }
}

fn say(said: &mut [u64], at: usize, number: usize) {
    if at < said.len() {
        said[at] = number as u64;
    }
}

pub fn bench_rows(
    reading: &Reading,
    boundaries: &mut [u32],
    starts: &mut [u32],
    lengths: &mut [u16],
    pool: &mut [u16],
    said: &mut [u64],
) -> u64 {
    match row::build_lookup_table(reading, boundaries, starts, lengths, pool) {
        Err(refusal) => u64::from(refusal.number),
        Ok(n) => {
            say(said, 0, n.rows);
            say(said, 1, n.places);
            0
        }
    }
}

pub fn bench_flat(
    reading: &Reading,
    flat_index: &mut [u32],
    flat_pool: &mut [u16],
    said: &mut [u64],
) -> u64 {
    match flat::build_flat_table(reading, flat_index, flat_pool) {
        Err(refusal) => u64::from(refusal.number),
        Ok(places) => {
            say(said, 0, places);
            0
        }
    }
}

// What one lookup gives for the sum: how many categories, and the first.
fn weight(row: &[u16]) -> u64 {
    let Some(first) = row.first() else {
        return 0;
    };
    (row.len() as u64).wrapping_add(u64::from(*first))
}

// The lookups of a whole text, summed up so that none can be left out.
pub fn bench_lookups(
    flat_index: &[u32],
    flat_pool: &[u16],
    boundaries: &[u32],
    row_starts: &[u32],
    row_lengths: &[u16],
    row_pool: &[u16],
    codes: &[u32],
) -> u64 {
    let mut sum: u64 = 0;
    for c in codes {
        let row = lookup::lookup_categories(
            flat_index,
            flat_pool,
            boundaries,
            row_starts,
            row_lengths,
            row_pool,
            *c,
        );
        sum = sum.wrapping_add(weight(row));
    }
    sum
}

// What one packed lookup gives for the sum: where the part stands, and how long it is.
fn packed_weight(flat_index: &[u32], c: u32) -> u64 {
    match packed::lookup_categories_packed(flat_index, c) {
        Ok(Some(p)) => u64::from(p.offset).wrapping_add(u64::from(p.len)),
        Ok(None) | Err(_) => 0,
    }
}

pub fn bench_packed_lookups(flat_index: &[u32], codes: &[u32]) -> u64 {
    let mut sum: u64 = 0;
    for c in codes {
        sum = sum.wrapping_add(packed_weight(flat_index, *c));
    }
    sum
}

pub fn bench_read_unk(
    reading: &Reading,
    text: &[u8],
    entries: &mut [u8],
    offsets: &mut [u8],
    details: &mut [u8],
    places: &mut [u8],
    members: &mut [u8],
    said: &mut [u64],
) -> u64 {
    match unk::parse_unk(reading, text, entries, offsets, details, places, members) {
        Err(refusal) => u64::from(refusal.number),
        Ok(n) => {
            say(said, 0, n.entries);
            say(said, 1, n.bytes);
            0
        }
    }
}

pub fn bench_write_pack(reading: &Reading, out: &mut [u8], said: &mut [u64]) -> u64 {
    match packer::write_pack(reading, out) {
        Err(refusal) => u64::from(refusal.number),
        Ok(n) => {
            say(said, 0, n);
            0
        }
    }
}
