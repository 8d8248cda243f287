// Finding a category by its name over any tables: nothing is believed of them, so 26 comes first.
#![tactic(auto)]

ghost use Rattle.std.specs.Prelude.{◌≡◌, false, not, map, ◌*◌, ◌≤◌, length};
ghost use Rattle.paper.specs.Lists.{any};
ghost use Rattle.paper.specs.Tables.Layout.{name_slot_size};
ghost use Rattle.paper.specs.Rows.Numbers.{name_slots_of, name_in, past_store};
ghost use Rattle.seek.specs.Finds.{Finds};
ghost use Rattle.by_name.specs.Lookup.{FindsCategory};

use paper::{Refusal, TABLES_APART};
use table::{CATEGORY_BYTES, NAME_LENGTH_AT};

// No category's name runs past the store.
fn names_inside(names: &[u8], categories: &[u8], count: usize) -> bool
    requires { name_slot_size * count ≤ length categories.now }
    ensures { result ≡ not (any (past_store names.now) (name_slots_of categories.now count)) }
{
    for i in 0..count {
        let at = CATEGORY_BYTES * i;
        let start = usize::from(table::get_u16(categories, at));
        let len = usize::from(table::get_u16(categories, at + NAME_LENGTH_AT));
        if names.len() < start + len {
            return false;
        }
    }
    true
}

// The lowest number with that name, where no category's name runs past the store. Each slot is read by itself, so that no look asks again whether it
// lies in the table.
// Not inlined: among all that the reader of unk.def keeps at hand its counter would stand in memory.
#[inline(never)]
fn find_placed(names: &[u8], categories: &[u8], count: usize, name: &[u8]) -> Option<usize>
    requires count_in_bounds { name_slot_size * count ≤ length categories.now }
    requires count_value { any (past_store names.now) (name_slots_of categories.now count) ≡ false }
    ensures { Finds (map (name_in names.now) (name_slots_of categories.now count)) name.now result }
{
    for i in 0..count {
        let at = CATEGORY_BYTES * i;
        let slot = &categories[at..at + CATEGORY_BYTES];
        let len = usize::from(table::get_u16(slot, NAME_LENGTH_AT));
        if len == name.len() {
            let start = usize::from(table::get_u16(slot, 0));
            if seek::holds_at(names, start, name, 0, len) {
                return Some(i);
            }
        }
    }
    None
}

// Finding a name over any tables: 26 where the category table is shorter than its count or some category's name runs past the
// store; otherwise the lowest number with that name, or that there is none.
pub fn find_category(
    names: &[u8],
    categories: &[u8],
    count: usize,
    name: &[u8],
) -> Result<Option<usize>, Refusal>
    ensures { FindsCategory names.now categories.now count name.now result }
{
    if categories.len() / CATEGORY_BYTES < count || !names_inside(names, categories, count) {
        return Err(Refusal {
            number: TABLES_APART,
            place: 0,
        });
    }
    Ok(find_placed(names, categories, count, name))
}
