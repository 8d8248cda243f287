// Writes the ranges of a pack from their two tables, each with its references behind it.
#![tactic(auto)]

ghost use Rattle.std.specs.Prelude.{[], ◌∷◌, map, ◌+◌, ◌*◌, ◌≤◌, length};
ghost use Rattle.paper.specs.Lists.{joined, sum};
ghost use Rattle.paper.specs.Pack.Fields.{field, bound_width, count_width, number_width, range_width, range_fields};
ghost use Rattle.paper.specs.Tables.Layout.{range_slot_size, reference_size, slot_of, pieces, ranging};
ghost use Rattle.put_field.specs.Writer.{Room, Puts};
ghost use Rattle.put_ranges.specs.Ranges.{counts_in, numbers_from, all_numbers};

use field::{BOUND_WIDTH, COUNT_WIDTH, NUMBER_WIDTH};
use put_field::BitWriter;
use table::{COUNT_AT, RANGE_BYTES, REFERENCE_BYTES, UPPER_AT};

// A range's bounds and count: "lower 16, upper 16, count 14".
fn put_bounds(from: BitWriter, out: &mut [u8], lower: u16, upper: u16, count: u16) -> BitWriter
    requires { Room out.old from range_width }
    ensures { Puts out.old from (field bound_width lower ∷ field bound_width upper ∷ field count_width count ∷ []) range_width out.new result }
{
    let second = from.put(out, BOUND_WIDTH, u64::from(lower));
    let third = second.put(out, BOUND_WIDTH, u64::from(upper));
    third.put(out, COUNT_WIDTH, u64::from(count))
}

// n references from a place on: "9 bits for each category number".
fn put_references(
    from: BitWriter,
    out: &mut [u8],
    references: &[u8],
    first: usize,
    n: usize,
) -> BitWriter
    requires n_in_bounds { reference_size * (first + n) ≤ length references.now }
    requires room { Room out.old from (number_width * n) }
    ensures { Puts out.old from (map (field number_width) (numbers_from first n references.now)) (number_width * n) out.new result }
{
    let mut w = from;
    for i in 0..n {
        let number = table::get_u16(references, REFERENCE_BYTES * (first + i));
        w = w.put(out, NUMBER_WIDTH, u64::from(number));
    }
    w
}

// The ranges, each with its references, which stand in their table one behind another.
pub fn put_ranges(
    from: BitWriter,
    out: &mut [u8],
    ranges: &[u8],
    references: &[u8],
    n: usize,
) -> BitWriter
    requires n_in_bounds { range_slot_size * n ≤ length ranges.now }
    requires ranges_in_bounds { reference_size * sum (counts_in n ranges.now) ≤ length references.now }
    requires room { Room out.old from (range_width * n + number_width * sum (counts_in n ranges.now)) }
    ensures { Puts out.old from (joined (map range_fields (ranging (map slot_of (pieces range_slot_size n ranges.now)) (all_numbers n ranges.now references.now)))) (range_width * n + number_width * sum (counts_in n ranges.now)) out.new result }
{
    let mut w = from;
    let mut used = 0;
    for i in 0..n {
        let at = RANGE_BYTES * i;
        let lower = table::get_u16(ranges, at);
        let upper = table::get_u16(ranges, at + UPPER_AT);
        let count = table::get_u16(ranges, at + COUNT_AT);
        let behind = put_bounds(w, out, lower, upper, count);
        w = put_references(behind, out, references, used, usize::from(count));
        used += usize::from(count);
    }
    w
}
