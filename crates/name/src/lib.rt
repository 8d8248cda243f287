// Category names while a text is read: the number of a name, which is entered behind the others where it is new. 12 and 13.
#![tactic(auto)]

ghost use Rattle.std.specs.Prelude.{◌≡◌, ◌+◌, ◌-◌, ◌≤◌, length, take, drop};
ghost use Rattle.paper.specs.Tables.Lent.{patch};
ghost use Rattle.name.specs.Names.{Room, Enters};

use paper::{CATEGORIES_FULL, MAX_CATEGORIES, MAX_NAME_BYTES, NAME_BYTES_FULL};

// A name's number, and how many names and name bytes there are with it.
#[derive(Clone, Copy)]
pub struct Numbered {
    pub number: usize,
    pub count: usize,
    pub bytes: usize,
}

// Copies the text from `start` to `end` into the store. Byte by byte: `copy_from_slice` has the archive for C ask for memmove besides.
fn copy_in(names: &mut [u8], at: usize, text: &[u8], start: usize, end: usize)
    requires { (start ≤ end) × ((end ≤ length text.now) × (at + (end - start) ≤ length names.old)) }
    ensures { names.new ≡ patch at (drop start (take end text.now)) names.old }
{
    let len = end - start;
    for i in 0..len {
        names[at + i] = text[start + i];
    }
}

// The number of the name that stands in the text from `start` to `end`; a new name is entered behind the others. 12 before 13, as numbers: `Enters` gives
// them to the paper's refusals.
pub fn category_id(
    names: &mut [u8],
    slots: &mut [u64],
    count: usize,
    bytes: usize,
    text: &[u8],
    start: usize,
    end: usize,
) -> Result<Numbered, u32>
    requires { Room names.old slots.old text.now count bytes start end }
    ensures { Enters names.old slots.old count bytes (drop start (take end text.now)) names.new slots.new result }
{
    if let Some(number) = slot::find_name(names, slots, count, text, start, end) {
        return Ok(Numbered {
            number,
            count,
            bytes,
        });
    }
    let len = end - start;
    let left = MAX_NAME_BYTES - bytes;
    if MAX_CATEGORIES <= count {
        return Err(CATEGORIES_FULL);
    }
    if left < len {
        return Err(NAME_BYTES_FULL);
    }
    copy_in(names, bytes, text, start, end);
    slot::add_slot(slots, count, bytes, text, start, end);
    Ok(Numbered {
        number: count,
        count: count + 1,
        bytes: bytes + len,
    })
}
