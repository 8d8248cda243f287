// What the fields of a list say of an answer.
use replay::words::spell;
use replay::{after_field, byte_at, field_at, front, number_at};

// No name of the list is so long.
const LONGEST_NAME: usize = 1024;

// The field at a place spells these bytes and no more.
pub fn spells(list: &[u8], at: usize, part: &[u8]) -> bool {
    let digits = field_at(list, at).text;
    byte_at(digits, 0) != b'x' && spell(front(digits, 2 * LONGEST_NAME), part)
}

// The field at a place is this number, and no `x` or `-`.
pub fn is_number(list: &[u8], at: usize, n: u64) -> bool {
    !matches!(byte_at(list, at), b'x' | b'-') && number_at(list, at) == n
}

// The field at a place says how many numbers follow it, and they are these.
pub fn are_numbers(list: &[u8], at: usize, part: &[u16]) -> bool {
    if number_at(list, at) != part.len() as u64 {
        return false;
    }
    let mut field = at;
    for n in part {
        field = after_field(list, field);
        if number_at(list, field) != u64::from(*n) {
            return false;
        }
    }
    true
}
