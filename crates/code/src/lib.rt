// A code point as people write it: hex digits, behind U+ or 0x or by themselves.
#![tactic(auto)]

use std::env::Env;

// Above every code point: what all larger numbers are taken as.
const BEYOND: u32 = 0x110000;

fn appended(code: u32, digit: u32) -> u32 {
    if BEYOND <= code {
        return BEYOND;
    }
    (16 * code).saturating_add(digit)
}

// What stands behind U+ or 0x.
fn digits_of(word: &[u8]) -> &[u8] {
    match word {
        [b'U' | b'u', b'+', digits @ ..] | [b'0', b'x', digits @ ..] => digits,
        _ => word,
    }
}

fn code_of(word: &[u8]) -> Option<u32> {
    let digits = digits_of(word);
    if digits.is_empty() {
        return None;
    }
    let mut code = 0;
    for b in digits {
        code = appended(code, char::from(*b).to_digit(16)?);
    }
    Some(code)
}

// The code that argument i is.
pub fn code_at(rt: &impl Env, i: usize) -> Option<u32> {
    code_of(say::argument(rt, i, &mut say::word()))
}
