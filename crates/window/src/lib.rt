// A window of code points: the slots that have to do with it, gathered once for all rows in it, and the covering rule by them. A walk from boundary
// to boundary goes by windows.
#![tactic(auto)]

ghost use Rattle.std.specs.Prelude.{◌≡◌, ◌+◌, ◌*◌, ◌≤◌, ◌<◌, length};
ghost use Rattle.paper.specs.Sizes.{max_categories, max_ranges, max_u32};
ghost use Rattle.paper.specs.Tables.Layout.{range_slot_size};
ghost use Rattle.cover.specs.Slots.{slot_got, slots_got, covers_got};
ghost use Rattle.cover.specs.Stamps.{Rowed};
ghost use Rattle.cover.specs.Fallback.{fallback_row};
ghost use Rattle.window.specs.Near.{no_boundary, is_far, Copied, Gathers, InWindow};

use table::{COUNT_AT, FIRST_AT, RANGE_BYTES, UPPER_AT};

// How many code points a window has, and the bytes of the table of its slots.
const WINDOW: u32 = 1024;

pub const NEAR_BYTES: usize = 1024;

// Where a walk stands: at a boundary, in a window of code points from `from` up to `to`. So many slots have to do with the window and stand in a
// table of their own, unless there are more than have room.
#[derive(Clone, Copy)]
pub struct Window {
    pub at: u32,
    pub from: u32,
    pub to: u32,
    pub near: Option<usize>,
}

// Range i has nothing to do with the code points from `from` up to `to`.
#[tactic(auto, unfolding(cover::specs::Slots::slot_got))]
fn is_far(ranges: &[u8], i: usize, from: u32, to: u32) -> bool
    requires { i ≤ max_ranges }
    ensures { result ≡ is_far from to (slot_got i ranges.now) }
{
    let lower = u32::from(table::get_u16(ranges, RANGE_BYTES * i));
    let upper = u32::from(table::get_u16(ranges, RANGE_BYTES * i + UPPER_AT));
    if to <= lower {
        to <= upper
    } else {
        lower <= from && upper < from
    }
}

// Slot i of one table becomes slot n of another. Field by field and not by `copy_from_slice`, since past the end of the first a field is 0.
fn copy_slot(ranges: &[u8], i: usize, near: &mut [u8], n: usize)
    requires i_le_max_ranges { i ≤ max_ranges }
    requires range_slot_size_in_bounds { range_slot_size * n + range_slot_size ≤ length near.old }
    ensures { Copied (slot_got i ranges.now) n near.old near.new }
{
    let from = RANGE_BYTES * i;
    let lower = table::get_u16(ranges, from);
    let upper = table::get_u16(ranges, from + UPPER_AT);
    let first = table::get_u16(ranges, from + FIRST_AT);
    let count = table::get_u16(ranges, from + COUNT_AT);
    let at = RANGE_BYTES * n;
    table::put_u16(near, at, lower);
    table::put_u16(near, at + UPPER_AT, upper);
    table::put_u16(near, at + FIRST_AT, first);
    table::put_u16(near, at + COUNT_AT, count);
}

// The slots that have to do with the code points from `from` up to `to`, into a table of their own.
fn gather(ranges: &[u8], count: usize, from: u32, to: u32, near: &mut [u8]) -> Option<usize>
    requires { count ≤ max_ranges }
    ensures { Gathers ranges.now near.new count from to result }
{
    near.fill(0);
    let mut n = 0;
    for i in 0..count {
        if !is_far(ranges, i, from, to) {
            if near.len() - RANGE_BYTES * n < RANGE_BYTES {
                return None;
            }
            copy_slot(ranges, i, near, n);
            n += 1;
        }
    }
    Some(n)
}

// The window that begins at a boundary.
pub fn open_window(ranges: &[u8], count: usize, b: u32, near: &mut [u8]) -> Window
    requires { (count ≤ max_ranges) × (b ≤ no_boundary) }
    ensures { (result.at ≡ b) × InWindow ranges.now near.new count result }
{
    let to = b + WINDOW;
    Window {
        at: b,
        from: b,
        to,
        near: gather(ranges, count, b, to, near),
    }
}

// The covering rule where a walk stands.
pub fn covering_near(
    ranges: &[u8],
    references: &[u8],
    count: usize,
    near: &[u8],
    w: Window,
    fallback: Option<u16>,
    seen: &mut [u32],
    stamp: u32,
    out: &mut [u16],
    at: usize,
) -> usize
    requires count_le_max_ranges { (count ≤ max_ranges) × ((at ≤ max_u32) × (length seen.old ≤ max_categories)) }
    requires in_window { InWindow ranges.now near.now count w }
    ensures { Rowed stamp (covers_got w.at (slots_got 0 count ranges.now) references.now) (fallback_row fallback) seen.old seen.new out.old out.new at result }
{
    let b = w.at;
    match w.near {
        Some(many) => cover::covering(near, references, many, fallback, b, seen, stamp, out, at),
        None => cover::covering(ranges, references, count, fallback, b, seen, stamp, out, at),
    }
}
