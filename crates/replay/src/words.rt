// What a field says of a lookup's answer.
use crate::{Base, byte_of, field_at, number_of};
use paper::Refusal;

// Pairs of hex digits spell these bytes and no more.
pub fn spell(digits: &[u8], part: &[u8]) -> bool {
    digits.len() / 2 == part.len()
        && part
            .iter()
            .zip(digits.chunks_exact(2))
            .all(|(b, pair)| *b == byte_of(pair))
}

// The field at a place is `x` and this refusal's number; a lookup has no place.
pub fn refuses(list: &[u8], at: usize, r: Refusal) -> bool {
    let Some(digits) = field_at(list, at).text.strip_prefix(b"x") else {
        return false;
    };
    r.place == 0 && u64::from(r.number) == number_of(digits, Base::Decimal)
}
