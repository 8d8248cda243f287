// UTF-8 by RFC 3629: a class for each byte value, the longest well-formed prefix, the character at a place; and White_Space.
#![tactic(auto)]

ghost use Rattle.std.specs.Prelude.{◌≡◌, ◌+◌, ◌≤◌, ◌<◌, length, drop, get_or};
ghost use Rattle.paper.specs.Text.Scalar.{is_white, LongestPrefix};
ghost use Rattle.paper.specs.Computed.Decode.{two, three, four};
ghost use Rattle.text.specs.Classes.{class_of, ByClass};
ghost use Rattle.text.specs.Answers.{NextIs, white_width, next_by, Second};

// The classes that RFC 3629, section 4, tells apart. Each is a digit, so that the table below can be read: 0 is ASCII, a character
// by itself, and 9 an octet in no character.
const TAIL: u8 = b'1'; // 80-BF

const LEAD_2: u8 = b'2'; // C2-DF

const LEAD_3: u8 = b'3'; // E1-EC, EE-EF

const LEAD_4: u8 = b'4'; // F1-F3

const LEAD_E0: u8 = b'5'; // A0-BF follows

const LEAD_ED: u8 = b'6'; // 80-9F follows

const LEAD_F0: u8 = b'7'; // 90-BF follows

const LEAD_F4: u8 = b'8'; // 80-8F follows

// The class of each byte value, sixteen to a row.
const CLASS: [u8; 256] = *b"\
    0000000000000000\
    0000000000000000\
    0000000000000000\
    0000000000000000\
    0000000000000000\
    0000000000000000\
    0000000000000000\
    0000000000000000\
    1111111111111111\
    1111111111111111\
    1111111111111111\
    1111111111111111\
    9922222222222222\
    2222222222222222\
    5333333333333633\
    7444899999999999";

// The table, made once by whoever looks up many classes: where a constant array is indexed by name it is made anew each time.
fn classes() -> [u8; 256]
    ensures { ByClass result }
{
    CLASS
}

fn class(table: &[u8; 256], b: u8) -> u8
    requires { ByClass table.now }
    ensures { result ≡ class_of b }
{
    table[usize::from(b)]
}

// A character and the place behind it.
#[derive(Clone, Copy)]
pub struct Scalar {
    pub value: u32,
    pub next: usize,
}

// What stands at a place: a character, the end, or no character.
#[derive(Clone, Copy)]
pub enum Next {
    Char(Scalar),
    End,
    Bad,
}

// UTF8-2.
fn two_octets<'a>(s: &'a [u8], at: usize, table: &'a [u8; 256]) -> Next
    requires at_in_bounds { at < length s.now }
    requires by_class { ByClass table.now }
    ensures { result ≡ next_by at (two (get_or s.now at 0) (drop (at + 1) s.now)) }
{
    if s.len() - at < 2 {
        return Next::Bad;
    }
    let a = s[at];
    let b = s[at + 1];
    if class(table, b) != TAIL {
        return Next::Bad;
    }
    Next::Char(Scalar {
        value: u32::from(a) % 32 * 64 + u32::from(b) % 64,
        next: at + 2,
    })
}

// UTF8-3, its second octet from `low` to `high`.
fn three_octets<'a>(s: &'a [u8], at: usize, table: &'a [u8; 256], low: u8, high: u8) -> Next
    requires at_in_bounds { at < length s.now }
    requires by_class { ByClass table.now }
    requires second { Second (get_or s.now at 0) low high }
    ensures { result ≡ next_by at (three (get_or s.now at 0) (drop (at + 1) s.now)) }
{
    if s.len() - at < 3 {
        return Next::Bad;
    }
    let a = s[at];
    let b = s[at + 1];
    let c = s[at + 2];
    if b < low || high < b || class(table, c) != TAIL {
        return Next::Bad;
    }
    Next::Char(Scalar {
        value: (u32::from(a) % 16 * 64 + u32::from(b) % 64) * 64 + u32::from(c) % 64,
        next: at + 3,
    })
}

// UTF8-4, its second octet from `low` to `high`.
fn four_octets<'a>(s: &'a [u8], at: usize, table: &'a [u8; 256], low: u8, high: u8) -> Next
    requires at_in_bounds { at < length s.now }
    requires by_class { ByClass table.now }
    requires second { Second (get_or s.now at 0) low high }
    ensures { result ≡ next_by at (four (get_or s.now at 0) (drop (at + 1) s.now)) }
{
    if s.len() - at < 4 {
        return Next::Bad;
    }
    let a = s[at];
    let b = s[at + 1];
    let c = s[at + 2];
    let d = s[at + 3];
    if b < low || high < b || class(table, c) != TAIL || class(table, d) != TAIL {
        return Next::Bad;
    }
    Next::Char(Scalar {
        value: ((u32::from(a) % 8 * 64 + u32::from(b) % 64) * 64 + u32::from(c) % 64) * 64
            + u32::from(d) % 64,
        next: at + 4,
    })
}

// The character of two octets or more at `at`.
fn octets_at<'a>(s: &'a [u8], at: usize, table: &'a [u8; 256]) -> Next
    requires at_in_bounds { at < length s.now }
    requires by_class { ByClass table.now }
    requires bound { 0x80 ≤ get_or s.now at 0 }
    ensures { NextIs s.now at result }
{
    match class(table, s[at]) {
        LEAD_2 => two_octets(s, at, table),
        LEAD_E0 => three_octets(s, at, table, 0xA0, 0xBF),
        LEAD_3 => three_octets(s, at, table, 0x80, 0xBF),
        LEAD_ED => three_octets(s, at, table, 0x80, 0x9F),
        LEAD_F0 => four_octets(s, at, table, 0x90, 0xBF),
        LEAD_4 => four_octets(s, at, table, 0x80, 0xBF),
        LEAD_F4 => four_octets(s, at, table, 0x80, 0x8F),
        _ => Next::Bad,
    }
}

pub fn next_char(s: &[u8], at: usize) -> Next
    ensures { NextIs s.now at result }
{
    if s.len() <= at {
        return Next::End;
    }
    let a = s[at];
    if a < 0x80 {
        return Next::Char(Scalar {
            value: u32::from(a),
            next: at + 1,
        });
    }
    octets_at(s, at, &classes())
}

// The length of the longest well-formed prefix.
// A `while`: characters are of one to four bytes, so the place moves by varying steps.
pub fn valid_prefix(s: &[u8]) -> usize
    ensures { LongestPrefix result s.now }
{
    let table = classes();
    let mut at = 0;
    while at < s.len() {
        if s[at] < 0x80 {
            at += 1;
        } else {
            let Next::Char(c) = octets_at(s, at, &table) else {
                return at;
            };
            at = c.next;
        }
    }
    at
}

pub fn is_white_space(c: u32) -> bool
    ensures { result ≡ is_white c }
{
    matches!(
        c,
        0x0009..=0x000D | 0x0020 | 0x0085 | 0x00A0 | 0x1680 | 0x2000..=0x200A |
        0x2028 | 0x2029 | 0x202F | 0x205F | 0x3000
    )
}

// How many bytes of White_Space stand at `at`: those of one character, or none.
pub fn white_width(s: &[u8], at: usize) -> usize
    ensures { result ≡ white_width (drop at s.now) }
{
    if s.len() <= at {
        return 0;
    }
    let a = s[at];
    if a < 0x80 {
        return usize::from(is_white_space(u32::from(a)));
    }
    // What begins below C2 or above E3 is no White_Space: no character, or one from U+4000 up.
    if a < 0xC2 || 0xE3 < a {
        return 0;
    }
    let Next::Char(c) = next_char(s, at) else {
        return 0;
    };
    if is_white_space(c.value) {
        c.next - at
    } else {
        0
    }
}
