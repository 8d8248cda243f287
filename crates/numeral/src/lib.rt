// Numbers, item 2 of the paper: u32 and i32 as Rust's library reads them, and the bounds of ranges. Each reader takes a part of
// a text; a part that reaches past the text is cut at its end, and one that starts behind its end is empty.
#![tactic(auto)]

ghost use Rattle.std.specs.Prelude.{◌≡◌, take, drop};
ghost use Rattle.std.proofs.Math.Option.{some};
ghost use Rattle.paper.specs.Sizes.{max_u32, max_i32, low_i32};
ghost use Rattle.paper.specs.Numbers.Numeral.{digit_of};
ghost use Rattle.paper.specs.Computed.Numeral.{spelled_by, numeral, signed_numeral};
ghost use Rattle.paper.specs.Computed.ReadText.{strip0x, checked_bound, bound_of};
ghost use Rattle.numeral.specs.Said.{said_number, said_signed, said_bound};
ghost use Rattle.numeral.specs.Asked.{Reads};

use paper::{BOUND_MARK, BOUND_UNREADABLE};

const DECIMAL: u64 = 10;

const HEX: u64 = 16;

// What a byte that is no digit of any base up to 16 counts as.
const NO_DIGIT: u64 = 16;

// The greatest u32, the greatest i32, how far an i32 reaches below 0, and the greatest code of 16 bits.
const MAX_U32: u64 = 0xFFFF_FFFF;

const MAX_I32: u64 = 2147483647;

const LOW_I32: u64 = 2147483648;

const MAX_U16: u64 = 0xFFFF;

// The byte order mark and its bytes swapped, which are no bounds.
const MARK: u16 = 0xFEFF;

const SWAPPED_MARK: u16 = 0xFFFE;

// Surrogates, and the character that stands for them.
const FIRST_SURROGATE: u16 = 0xD800;

const LAST_SURROGATE: u16 = 0xDFFF;

const REPLACEMENT: u16 = 0xFFFD;

// An i32 by sign and size. `-0` is `Minus(0)`. The one who asks keeps it modulo 65,536, which needs no signed sum.
#[derive(Clone, Copy)]
pub enum Signed {
    Plus(u32),
    Minus(u32),
}

// The value of a digit of either case.
fn digit_of(b: u8) -> u64
    ensures { result ≡ digit_of b }
{
    match b {
        b'0'..=b'9' => u64::from(b - b'0'),
        b'A'..=b'F' => u64::from(b - b'A') + DECIMAL,
        b'a'..=b'f' => u64::from(b - b'a') + DECIMAL,
        _ => NO_DIGIT,
    }
}

fn part_of(text: &[u8], start: usize, end: usize) -> &[u8]
    ensures { result.now ≡ drop start (take end text.now) }
{
    text.get(start..end.min(text.len())).unwrap_or(&[])
}

// One or more digits, read to the last one, of a value up to the limit.
fn parse_digits(digits: &[u8], base: u64, limit: u64) -> Option<u32>
    requires { Reads base limit }
    ensures { said_number result ≡ spelled_by base limit digits.now }
{
    if digits.is_empty() {
        return None;
    }
    let mut value: u64 = 0;
    for b in digits {
        let d = digit_of(*b);
        if base <= d {
            return None;
        }
        value = value * base + d;
        if limit < value {
            return None;
        }
    }
    Some(value as u32)
}

// An optional `+`, and digits.
fn parse_number(number: &[u8], base: u64, limit: u64) -> Option<u32>
    requires { Reads base limit }
    ensures { said_number result ≡ numeral base limit number.now }
{
    parse_digits(number.strip_prefix(b"+").unwrap_or(number), base, limit)
}

pub fn parse_u32(text: &[u8], start: usize, end: usize) -> Option<u32>
    ensures { said_number result ≡ numeral 10 max_u32 (drop start (take end text.now)) }
{
    parse_number(part_of(text, start, end), DECIMAL, MAX_U32)
}

// `-` and digits, or what is no negative number.
pub fn parse_i32(text: &[u8], start: usize, end: usize) -> Option<Signed>
    ensures { said_signed result ≡ signed_numeral 10 max_i32 low_i32 (drop start (take end text.now)) }
{
    let number = part_of(text, start, end);
    match number.strip_prefix(b"-") {
        Some(digits) => parse_digits(digits, DECIMAL, LOW_I32).map(Signed::Minus),
        None => parse_number(number, DECIMAL, MAX_I32).map(Signed::Plus),
    }
}

// The character that a 16-bit code stands for in UTF-16, where it stands alone. The error is the refusal's number, which `said_bound` says.
pub fn ucs2_to_unicode(code: u16) -> Result<u16, u32>
    ensures { said_bound result ≡ checked_bound (some code) }
{
    match code {
        MARK | SWAPPED_MARK => Err(BOUND_MARK),
        FIRST_SURROGATE..=LAST_SURROGATE => Ok(REPLACEMENT),
        _ => Ok(code),
    }
}

pub fn parse_hex_codepoint(text: &[u8], start: usize, end: usize) -> Result<u16, u32>
    ensures { said_bound result ≡ bound_of (drop start (take end text.now)) }
{
    let mut number = part_of(text, start, end);
    while let Some(rest) = number.strip_prefix(b"0x") {
        number = rest;
    }
    let code = parse_number(number, HEX, MAX_U16).ok_or(BOUND_UNREADABLE)?;
    ucs2_to_unicode(code as u16)
}
