// The distinct categories that the covering ranges name at a code point, in first-seen order, behind a place of a lent slice; where they name none, a
// fallback. A category was seen where its stamp is the row's.
#![tactic(auto)]

ghost use Rattle.std.specs.Prelude.{◌≡◌, ◌*◌, ◌≤◌, ◌<◌, length};
ghost use Rattle.paper.specs.Sizes.{max_categories, max_ranges, max_u32};
ghost use Rattle.cover.specs.Slots.{slot_got, slots_got, numbers_got, slot_holds, covers_got};
ghost use Rattle.cover.specs.Stamps.{is_seen, Noted, Rowed};
ghost use Rattle.cover.specs.Fallback.{fallback_row};

use table::{COUNT_AT, FIRST_AT, RANGE_BYTES, REFERENCE_BYTES, UPPER_AT};

// Range i holds c, "its bounds and what is between them".
#[tactic(auto, unfolding(crate::specs::Slots::slot_got))]
fn holds(ranges: &[u8], i: usize, c: u32) -> bool
    requires { i ≤ max_ranges }
    ensures { result ≡ slot_holds c (slot_got i ranges.now) }
{
    u32::from(table::get_u16(ranges, RANGE_BYTES * i)) <= c
        && c <= u32::from(table::get_u16(ranges, RANGE_BYTES * i + UPPER_AT))
}

// The category was seen in this row; one that has no place counts as seen.
fn is_seen(seen: &[u32], x: usize, stamp: u32) -> bool
    ensures { result ≡ is_seen stamp seen.now x }
{
    seen.len() <= x || seen[x] == stamp
}

// The numbers of one range that are new in this row, behind `at`.
fn note(
    references: &[u8],
    first: u16,
    count: u16,
    seen: &mut [u32],
    stamp: u32,
    out: &mut [u16],
    at: usize,
) -> usize
    requires { (at ≤ 2 * max_u32) × (length seen.old ≤ max_categories) }
    ensures { Noted stamp (numbers_got first count references.now) seen.old seen.new out.old out.new at result }
{
    let start = first as usize;
    let end = start + count as usize;
    let mut to = at;
    for i in start..end {
        let x = table::get_u16(references, REFERENCE_BYTES * i);
        if !is_seen(seen, x as usize, stamp) {
            place::place(seen, x as usize, stamp);
            place::place(out, to, x);
            to += 1;
        }
    }
    to
}

// "The distinct categories of the ranges that hold it, by line and then left to right", behind `at`.
fn named(
    ranges: &[u8],
    references: &[u8],
    count: usize,
    c: u32,
    seen: &mut [u32],
    stamp: u32,
    out: &mut [u16],
    at: usize,
) -> usize
    requires { (count ≤ max_ranges) × ((at ≤ max_u32) × (length seen.old ≤ max_categories)) }
    ensures { Noted stamp (covers_got c (slots_got 0 count ranges.now) references.now) seen.old seen.new out.old out.new at result }
{
    let mut to = at;
    for i in 0..count {
        if holds(ranges, i, c) {
            let first = table::get_u16(ranges, RANGE_BYTES * i + FIRST_AT);
            let n = table::get_u16(ranges, RANGE_BYTES * i + COUNT_AT);
            to = note(references, first, n, seen, stamp, out, to);
        }
    }
    to
}

// The covering rule at c, behind `at`: what the ranges name, "where those name none, DEFAULT if interned, else empty".
pub fn covering(
    ranges: &[u8],
    references: &[u8],
    count: usize,
    fallback: Option<u16>,
    c: u32,
    seen: &mut [u32],
    stamp: u32,
    out: &mut [u16],
    at: usize,
) -> usize
    requires { (count ≤ max_ranges) × ((at ≤ max_u32) × (length seen.old ≤ max_categories)) }
    ensures { Rowed stamp (covers_got c (slots_got 0 count ranges.now) references.now) (fallback_row fallback) seen.old seen.new out.old out.new at result }
{
    let to = named(ranges, references, count, c, seen, stamp, out, at);
    if at < to {
        return to;
    }
    match fallback {
        Some(number) => {
            place::place(out, at, number);
            at + 1
        }
        None => at,
    }
}
