// The ranges of a pack with their category numbers. Each range reads its own count: the head's total only limits their sum.
#![tactic(auto)]

ghost use Rattle.std.specs.Prelude.{◌≡◌, ◌+◌, ◌*◌, ◌-◌, ◌≤◌, [], ltb, length};
ghost use Rattle.paper.specs.Sizes.{max_categories, max_ranges, max_references};
ghost use Rattle.paper.specs.Numbers.Bytes.{le};
ghost use Rattle.paper.specs.Pack.Fields.{bound_width, number_width, range_width};
ghost use Rattle.paper.specs.Pack.Rules.{is_bound};
ghost use Rattle.paper.specs.Computed.ReadPack.{number, many, read_range, read_ranges};
ghost use Rattle.paper.specs.Tables.Layout.{slot_bytes, range_slot_size, reference_size};
ghost use Rattle.paper.specs.Tables.Lent.{patch};
ghost use Rattle.field.specs.Cursor.{rest, said};
ghost use Rattle.pack_field.specs.Parts.{max_place, Filled};
ghost use Rattle.pack_ranges.specs.Ranges.{BoundsAre, RangeIs, Ranged, RangesAre};

use field::{BOUND_WIDTH, BitCursor, COUNT_WIDTH, NUMBER_WIDTH};
use pack_field::limited;
use paper::{PACK_RULE, Refusal};
use table::{COUNT_AT, FIRST_AT, RANGE_BYTES, REFERENCE_BYTES, UPPER_AT};

// A range without its category numbers.
#[derive(Clone, Copy)]
pub struct Bounds {
    pub lower: u16,
    pub upper: u16,
    pub count: usize,
}

// A category number, which is below the number of categories.
fn known_field(pack: &[u8], from: BitCursor, known: usize) -> Result<(u32, BitCursor), Refusal>
    requires { from.at ≤ max_place }
    ensures { said pack.now result ≡ number number_width (λ c. ltb c known) from.at (rest pack.now from.at) }
{
    let (v, next) = from.field(pack, NUMBER_WIDTH)?;
    if known <= v as usize {
        return Err(Refusal {
            number: PACK_RULE,
            place: from.at,
        });
    }
    Ok((v, next))
}

// A bound of a range: not D800 to DFFF, FEFF or FFFE.
fn bound_field(pack: &[u8], from: BitCursor) -> Result<(u32, BitCursor), Refusal>
    requires { from.at ≤ max_place }
    ensures { said pack.now result ≡ number bound_width is_bound from.at (rest pack.now from.at) }
{
    let (v, next) = from.field(pack, BOUND_WIDTH)?;
    if !bound::is_bound(v as u16) {
        return Err(Refusal {
            number: PACK_RULE,
            place: from.at,
        });
    }
    Ok((v, next))
}

// A range's bounds and its count, which with the references so far stays within the head's total.
fn read_bounds(
    pack: &[u8],
    from: BitCursor,
    known: usize,
    total: usize,
    used: usize,
) -> Result<(Bounds, BitCursor), Refusal>
    requires range_width_bound { from.at + range_width ≤ max_place }
    requires used_le_total { (used ≤ total) × (total ≤ max_references) }
    ensures { BoundsAre pack.now from.at known total used (read_range known total used from.at (rest pack.now from.at)) result }
{
    let (lower, second) = bound_field(pack, from)?;
    let (upper, third) = bound_field(pack, second)?;
    let (count, next) = limited(pack, third, COUNT_WIDTH, used, total)?;
    let bounds = Bounds {
        lower: lower as u16,
        upper: upper as u16,
        count: count as usize,
    };
    Ok((bounds, next))
}

// So many category numbers, into the reference table behind those that are used.
fn read_references(
    pack: &[u8],
    from: BitCursor,
    n: usize,
    known: usize,
    references: &mut [u8],
    used: usize,
) -> Result<BitCursor, Refusal>
    requires n_bound { from.at + number_width * n ≤ max_place }
    requires n_in_bounds { reference_size * used + reference_size * n ≤ length references.old }
    requires known_le_max_categories { (known ≤ max_categories) × (used + n ≤ max_references) }
    ensures { Filled (le reference_size) (many n (number number_width (λ c. ltb c known)) from.at (rest pack.now from.at)) from.at number_width n (reference_size * used) pack.now references.old references.new result }
{
    let mut at = from;
    for i in 0..n {
        let (v, next) = known_field(pack, at, known)?;
        table::put_u16(references, REFERENCE_BYTES * (used + i), v as u16);
        at = next;
    }
    Ok(at)
}

// Entry i of the range table.
fn put_range(ranges: &mut [u8], i: usize, lower: u16, upper: u16, first: u16, count: u16)
    requires { range_slot_size * i + range_slot_size ≤ length ranges.old }
    ensures { ranges.new ≡ patch (range_slot_size * i) (slot_bytes (record { lower = lower; upper = upper; first = first; count = count })) ranges.old }
{
    let at = RANGE_BYTES * i;
    table::put_u16(ranges, at, lower);
    table::put_u16(ranges, at + UPPER_AT, upper);
    table::put_u16(ranges, at + FIRST_AT, first);
    table::put_u16(ranges, at + COUNT_AT, count);
}

// A range with its category numbers, into the two tables.
fn read_range(
    pack: &[u8],
    from: BitCursor,
    known: usize,
    total: usize,
    ranges: &mut [u8],
    i: usize,
    references: &mut [u8],
    used: usize,
) -> Result<(usize, BitCursor), Refusal>
    requires used_bound { from.at + range_width + number_width * (total - used) ≤ max_place }
    requires known_le_max_categories { (known ≤ max_categories) × ((used ≤ total) × (total ≤ max_references)) }
    requires range_slot_size_in_bounds { (range_slot_size * i + range_slot_size ≤ length ranges.old) × (reference_size * total ≤ length references.old) }
    ensures { RangeIs pack.now from.at (read_range known total used from.at (rest pack.now from.at)) total i used (record { ranges = ranges.old; references = references.old }) (record { ranges = ranges.new; references = references.new }) result }
{
    let (b, behind) = read_bounds(pack, from, known, total, used)?;
    let next = read_references(pack, behind, b.count, known, references, used)?;
    put_range(ranges, i, b.lower, b.upper, used as u16, b.count as u16);
    Ok((b.count, next))
}

// So many ranges, into the two tables; how many references they have.
pub fn read_ranges(
    pack: &[u8],
    from: BitCursor,
    n: usize,
    known: usize,
    total: usize,
    ranges: &mut [u8],
    references: &mut [u8],
) -> Result<(usize, BitCursor), Refusal>
    requires total_bound { from.at + range_width * n + number_width * total ≤ max_place }
    requires known_le_max_categories { (known ≤ max_categories) × ((n ≤ max_ranges) × (total ≤ max_references)) }
    requires ranged { Ranged [] (record { ranges = ranges.old; references = references.old }) }
    ensures { RangesAre pack.now from.at (read_ranges n known total 0 from.at (rest pack.now from.at)) total n (record { ranges = ranges.new; references = references.new }) result }
{
    let mut at = from;
    let mut used = 0;
    for i in 0..n {
        let (count, next) = read_range(pack, at, known, total, ranges, i, references, used)?;
        at = next;
        used += count;
    }
    Ok((used, at))
}
