// The rules on names: each has bytes that are well-formed and stands once. For the pack's reader, which asks name by name, and for `hold`,
// which asks of a whole table.
#![tactic(auto)]

ghost use Rattle.std.specs.Prelude.{◌≡◌, not, ◌+◌, ◌*◌, ◌≤◌, ◌<◌, length};
ghost use Rattle.paper.specs.Lists.{all, any, same};
ghost use Rattle.paper.specs.Computed.Rules.{formed};
ghost use Rattle.paper.specs.Pack.Rules.{once};
ghost use Rattle.name_rules.specs.Placed.{name_of, placed_names};
ghost use Rattle.name_rules.specs.Marked.{Marked};

use paper::MAX_CATEGORIES;
use table::{CATEGORY_BYTES, NAME_LENGTH_AT};

// The name that slot i places; none where it runs past the store.
fn name_at<'a>(names: &'a [u8], categories: &'a [u8], i: usize) -> &'a [u8]
    requires { 4 * i + 4 ≤ length categories.now }
    ensures { result.now ≡ name_of i categories.now names.now }
{
    let start = usize::from(table::get_u16(categories, CATEGORY_BYTES * i));
    let len = usize::from(table::get_u16(categories, CATEGORY_BYTES * i + NAME_LENGTH_AT));
    names.get(start..start + len).unwrap_or(&[])
}

// A name is well-formed UTF-8 exactly where its longest well-formed prefix is all of it.
pub fn is_formed(name: &[u8]) -> bool
    ensures { result ≡ formed name.now }
{
    text::valid_prefix(name) == name.len()
}

// Every name is well-formed.
pub fn names_formed<'a>(names: &'a [u8], categories: &'a [u8], n: usize) -> bool
    requires { 4 * n ≤ length categories.now }
    ensures { result ≡ all formed (placed_names n categories.now names.now) }
{
    for i in 0..n {
        if !is_formed(name_at(names, categories, i)) {
            return false;
        }
    }
    true
}

// The marks of the first n names.
fn mark_names<'a>(names: &'a [u8], categories: &'a [u8], n: usize, marks: &mut [u32])
    requires { (4 * n ≤ length categories.now) × (n ≤ length marks.old) }
    ensures { Marked n categories.now names.now marks.new }
{
    for i in 0..n {
        marks[i] = mark::mark_of(name_at(names, categories, i));
    }
}

// No name before name i is the same. Only names of one mark are compared.
pub fn is_new<'a>(names: &'a [u8], categories: &'a [u8], marks: &'a [u32], i: usize) -> bool
    requires i_in_bounds { (4 * i + 4 ≤ length categories.now) × (i < length marks.now) }
    requires marked { Marked (i + 1) categories.now names.now marks.now }
    ensures { result ≡ not (any (same (name_of i categories.now names.now)) (placed_names i categories.now names.now)) }
{
    let name = name_at(names, categories, i);
    let own = marks[i];
    for k in 0..i {
        if marks[k] == own && name == name_at(names, categories, k) {
            return false;
        }
    }
    true
}

// No name is there twice. 512 names are 130,816 pairs, so a pair costs one comparison of marks; names chosen to have one mark cost
// their bytes.
pub fn names_once<'a>(names: &'a [u8], categories: &'a [u8], n: usize) -> bool
    requires { (4 * n ≤ length categories.now) × (n ≤ 512) }
    ensures { result ≡ once (placed_names n categories.now names.now) }
{
    let mut marks = [0u32; MAX_CATEGORIES];
    mark_names(names, categories, n, &mut marks);
    for i in 0..n {
        if !is_new(names, categories, &marks, i) {
            return false;
        }
    }
    true
}
