// The names of a pack, one behind another into the store, each judged in its place before the next is read.
#![tactic(auto)]

ghost use Rattle.std.specs.Prelude.{◌≡◌, ◌+◌, ◌*◌, ◌-◌, ◌≤◌, ◌<◌, [], length, take, drop, set};
ghost use Rattle.paper.specs.Sizes.{max_categories, max_name_bytes};
ghost use Rattle.paper.specs.Pack.Fields.{byte_width, name_length_width};
ghost use Rattle.paper.specs.Computed.ReadPack.{read_names};
ghost use Rattle.paper.specs.Tables.Layout.{name_slot_bytes, name_slot_size};
ghost use Rattle.paper.specs.Tables.Lent.{patch};
ghost use Rattle.mark.specs.Mark.{mark};
ghost use Rattle.field.specs.Cursor.{rest};
ghost use Rattle.pack_field.specs.Parts.{max_place};
ghost use Rattle.pack_names.specs.Names.{Stored, Naming, KeptIs, TakesName, ReadsName, NamesAre};

use field::{BitCursor, NAME_LENGTH_WIDTH};
use paper::{MAX_CATEGORIES, MAX_NAME_BYTES, PACK_RULE, Refusal};
use table::{CATEGORY_BYTES, NAME_LENGTH_AT};

// Slot i of the category table, and the name's mark.
fn place_name(
    names: &[u8],
    categories: &mut [u8],
    marks: &mut [u32],
    i: usize,
    start: usize,
    len: usize,
)
    requires name_slot_size_in_bounds { (name_slot_size * i + name_slot_size ≤ length categories.old) × (i < length marks.old) }
    requires len_in_bounds { (start + len ≤ length names.now) × (start + len ≤ max_name_bytes) }
    ensures { (categories.new ≡ patch (name_slot_size * i) (name_slot_bytes (record { start = start; len = len })) categories.old) × (marks.new ≡ set marks.old i (mark (take len (drop start names.now)))) }
{
    let at = CATEGORY_BYTES * i;
    table::put_u16(categories, at, start as u16);
    table::put_u16(categories, at + NAME_LENGTH_AT, len as u16);
    marks[i] = mark::mark_of(&names[start..start + len]);
}

// The last of the names is well-formed UTF-8 and none of those before it.
fn name_kept<'a>(
    names: &'a [u8],
    categories: &'a [u8],
    marks: &'a [u32],
    i: usize,
    start: usize,
    len: usize,
) -> bool
    requires { Naming (record { names = names.now; categories = categories.now; marks = marks.now }) (i + 1) (start + len) }
    ensures { KeptIs (record { names = names.now; categories = categories.now; marks = marks.now }) i start len result }
{
    name_rules::is_formed(&names[start..start + len])
        && name_rules::is_new(names, categories, marks, i)
}

// A name's bytes, one field, into the store behind the others.
fn take_name<'a>(
    pack: &[u8],
    from: BitCursor,
    len: usize,
    names: &'a mut [u8],
    categories: &'a mut [u8],
    marks: &'a mut [u32],
    i: usize,
    used: usize,
) -> Result<(usize, BitCursor), Refusal>
    requires len_bound { from.at + byte_width * len ≤ max_place }
    requires i_lt_max_categories { (i < max_categories) × ((1 ≤ len) × (used + len ≤ max_name_bytes)) }
    requires naming { Naming (record { names = names.old; categories = categories.old; marks = marks.old }) i used }
    ensures { TakesName pack.now from.at len (record { names = names.old; categories = categories.old; marks = marks.old }) (record { names = names.new; categories = categories.new; marks = marks.new }) i used result }
{
    let next = from.bytes(pack, len, names, used)?;
    place_name(names, categories, marks, i, used, len);
    if !name_kept(names, categories, marks, i, used, len) {
        return Err(Refusal {
            number: PACK_RULE,
            place: from.at,
        });
    }
    Ok((len, next))
}

// A name behind the others: its length, at least 1 and within the bytes that are left, then its bytes.
fn read_name<'a>(
    pack: &[u8],
    from: BitCursor,
    names: &'a mut [u8],
    categories: &'a mut [u8],
    marks: &'a mut [u32],
    i: usize,
    used: usize,
) -> Result<(usize, BitCursor), Refusal>
    requires used_bound { from.at + name_length_width + byte_width * (max_name_bytes - used) ≤ max_place }
    requires i_lt_max_categories { (i < max_categories) × (used ≤ max_name_bytes) }
    requires naming { Naming (record { names = names.old; categories = categories.old; marks = marks.old }) i used }
    ensures { ReadsName pack.now from.at (record { names = names.old; categories = categories.old; marks = marks.old }) (record { names = names.new; categories = categories.new; marks = marks.new }) i used result }
{
    let (v, next) = from.field(pack, NAME_LENGTH_WIDTH)?;
    let len = v as usize;
    if len == 0 || MAX_NAME_BYTES - used < len {
        return Err(Refusal {
            number: PACK_RULE,
            place: from.at,
        });
    }
    take_name(pack, next, len, names, categories, marks, i, used)
}

// So many names, into their two tables; how many bytes they have. A name is compared with those before it by a mark of its bytes first.
pub fn read_names(
    pack: &[u8],
    from: BitCursor,
    n: usize,
    names: &mut [u8],
    categories: &mut [u8],
) -> Result<(usize, BitCursor), Refusal>
    requires max_name_bytes_bound { from.at + name_length_width * n + byte_width * max_name_bytes ≤ max_place }
    requires n_le_max_categories { n ≤ max_categories }
    requires stored { Stored [] names.old categories.old 0 0 }
    ensures { NamesAre pack.now from.at (read_names n 0 [] from.at (rest pack.now from.at)) names.new categories.new n result }
{
    let mut marks = [0u32; MAX_CATEGORIES];
    let mut at = from;
    let mut used = 0;
    for i in 0..n {
        let (len, next) = read_name(pack, at, names, categories, &mut marks, i, used)?;
        at = next;
        used += len;
    }
    Ok((used, at))
}
