// Fixed lists that the try_ programs replay: fields between spaces, lines between LFs, numbers and bytes in hex.
// Every function takes any bytes and any place; what a list does not have is read as 0 or as nothing.
#![tactic(auto)]

pub mod input;
pub mod items;
pub mod lines;
pub mod rooms;
pub mod sums;
pub mod tally;
pub mod texts;
pub mod words;

ghost use Rattle.std.specs.Prelude.{◌≡◌, ◌<◌, ◌≤◌, length, take, drop};
ghost use Rattle.replay.specs.Counts.{IsPrefixLen};

// Larger than every number of a list; what would pass it stays.
const TOP: u64 = 0x1_0000_0000_0000;

// A field's bytes; what follows its space or LF begins at next.
#[derive(Clone, Copy)]
pub struct Field<'a> {
    pub text: &'a [u8],
    pub next: usize,
}

// What the digits of a number count.
#[derive(Clone, Copy)]
pub enum Base {
    Decimal,
    Hex,
}

fn is_gap(b: u8) -> bool {
    b == b' ' || b == b'\n'
}

// The list from a place on.
fn rest_of<'a>(list: &'a [u8], at: usize) -> &'a [u8]
    ensures { result.now ≡ drop at list.now }
{
    list.get(at..).unwrap_or(b"")
}

// The field that begins at a place: what stands there in the list.
pub fn field_at<'a>(list: &'a [u8], at: usize) -> Field<'a>
    ensures onward { result.next ≤ length list.now }
    ensures inside { result.text.now ≡ take (length result.text.now) (drop at list.now) }
{
    let rest = rest_of(list, at);
    match rest.iter().position(|b| is_gap(*b)) {
        Some(n) => Field {
            text: &rest[..n],
            next: at + n + 1,
        },
        None => Field {
            text: rest,
            next: list.len(),
        },
    }
}

// Where the line behind the one at a place begins; at the end where there is none.
pub fn next_line(list: &[u8], at: usize) -> usize {
    match rest_of(list, at).iter().position(|b| *b == b'\n') {
        Some(n) => at + n + 1,
        None => list.len(),
    }
}

// The byte at a place, 0 past the end.
pub fn byte_at(list: &[u8], at: usize) -> u8 {
    list.get(at).copied().unwrap_or(0)
}

// A digit of either case.
fn digit_of(b: u8) -> u64
    ensures { result < 256 }
{
    let n = u64::from(b % 16);
    if b < 58 { n } else { n + 9 }
}

// One digit more behind a number.
fn with_digit(value: u64, d: u8, base: Base) -> u64 {
    if TOP <= value {
        return value;
    }
    match base {
        Base::Decimal => value * 10 + digit_of(d),
        Base::Hex => value * 16 + digit_of(d),
    }
}

// The number that digits spell.
pub fn number_of(digits: &[u8], base: Base) -> u64 {
    digits
        .iter()
        .fold(0, |value, d| with_digit(value, *d, base))
}

// The byte that a pair of hex digits spells.
pub fn byte_of(pair: &[u8]) -> u8 {
    (number_of(pair, Base::Hex) % 256) as u8
}

// The bytes that pairs of hex digits spell, put into room; how many there are.
pub fn bytes_of(digits: &[u8], room: &mut [u8]) -> usize
    ensures { IsPrefixLen result room.new }
{
    for (b, pair) in room.iter_mut().zip(digits.chunks_exact(2)) {
        *b = byte_of(pair);
    }
    room.len().min(digits.len() / 2)
}

// The decimal number that the field at a place spells.
pub fn number_at(list: &[u8], at: usize) -> u64 {
    number_of(field_at(list, at).text, Base::Decimal)
}

// The hex number that the field at a place spells.
pub fn hex_at(list: &[u8], at: usize) -> u64 {
    number_of(field_at(list, at).text, Base::Hex)
}

// Where the field behind the one at a place begins.
pub fn after_field(list: &[u8], at: usize) -> usize {
    field_at(list, at).next
}

// The part of a room that begins at its start, all of it where it is shorter.
pub fn front<'a, T>(room: &'a [T], n: usize) -> &'a [T] {
    &room[..n.min(room.len())]
}
