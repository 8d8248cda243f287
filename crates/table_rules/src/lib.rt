// The rules that each table of a reading keeps by itself: name slots and range slots stand one behind another, flags are 0 or 1 and bounds
// are allowed. `hold` asks them, once it knows that the tables are as long as their counts say.
#![tactic(auto)]

ghost use Rattle.std.specs.Prelude.{◌≡◌, map, ◌*◌, ◌≤◌, length};
ghost use Rattle.paper.specs.Lists.{all};
ghost use Rattle.paper.specs.Computed.HandedIn.{name_slots_stand, slots_stand, flagged};
ghost use Rattle.paper.specs.Tables.Layout.{pieces, name_slot_of, slot_of};

use table::{
    CATEGORY_BYTES, COUNT_AT, DEFINITION_BYTES, FIRST_AT, GROUP_AT, INVOKE_AT, NAME_LENGTH_AT,
    RANGE_BYTES, UPPER_AT,
};

// Names stand one behind another from 0 up to the total, none of them empty.
pub fn names_stand(categories: &[u8], n: usize, total: usize) -> bool
    requires { 4 * n ≤ length categories.now }
    ensures { result ≡ name_slots_stand total 0 (map name_slot_of (pieces 4 n categories.now)) }
{
    let mut at = 0;
    for i in 0..n {
        let start = usize::from(table::get_u16(categories, CATEGORY_BYTES * i));
        let len = usize::from(table::get_u16(categories, CATEGORY_BYTES * i + NAME_LENGTH_AT));
        if start != at || len == 0 || total - at < len {
            return false;
        }
        at += len;
    }
    at == total
}

// Invoke and group are 0 or 1.
pub fn flags_hold(definitions: &[u8], n: usize) -> bool
    requires { 6 * n ≤ length definitions.now }
    ensures { result ≡ all flagged (pieces 6 n definitions.now) }
{
    let (entries, _) = definitions[..DEFINITION_BYTES * n].as_chunks::<DEFINITION_BYTES>();
    entries
        .iter()
        .all(|d| d[INVOKE_AT] <= 1 && d[GROUP_AT] <= 1)
}

// References stand one behind another from 0 up to the total, and bounds are allowed.
pub fn ranges_stand(ranges: &[u8], n: usize, total: usize) -> bool
    requires { 8 * n ≤ length ranges.now }
    ensures { result ≡ slots_stand total 0 (map slot_of (pieces 8 n ranges.now)) }
{
    let mut sum = 0;
    for i in 0..n {
        let lower = table::get_u16(ranges, RANGE_BYTES * i);
        let upper = table::get_u16(ranges, RANGE_BYTES * i + UPPER_AT);
        let first = usize::from(table::get_u16(ranges, RANGE_BYTES * i + FIRST_AT));
        let count = usize::from(table::get_u16(ranges, RANGE_BYTES * i + COUNT_AT));
        if first != sum
            || !bound::is_bound(lower)
            || !bound::is_bound(upper)
            || total - sum < count
        {
            return false;
        }
        sum += count;
    }
    sum == total
}
