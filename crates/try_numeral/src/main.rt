// Replays oracle/lists/numerals.txt over crate `numeral`: what the Rust reads as a u32 (u), an i32 (i), a bound (h),
// and of a single code (c). Each text is read twice, at the end of a text that is too short for the ends given, and
// in front of more digits.
#![tactic(auto)]

use numeral::Signed;
use replay::lines::each_line;
use replay::tally::say_difference;
use replay::{Base, byte_at, bytes_of, field_at, number_of};
use std::io;

// A text of the list has fewer bytes than this, and the list fewer than this.
const LONGEST: usize = 2048;

const LIST_ROOM: usize = 262144;

const CODES: u64 = 65536;

// An answer as one number: what was read, all below this, or this and the refusal's number.
const REFUSED: u64 = 0x1_0000_0000;

// How many lines of each kind agreed so far, and how many lines differed.
#[derive(Clone, Copy, Default)]
struct Tally {
    u: u64,
    i: u64,
    h: u64,
    c: u64,
    differ: u64,
}

fn of_number(r: Option<u32>) -> u64 {
    match r {
        Some(n) => u64::from(n),
        None => REFUSED,
    }
}

// The list has an i32 modulo 2^32.
fn of_signed(r: Option<Signed>) -> u64 {
    match r {
        Some(Signed::Plus(n)) => u64::from(n),
        Some(Signed::Minus(n)) => u64::from(0u32.wrapping_sub(n)),
        None => REFUSED,
    }
}

fn of_bound(r: Result<u16, u32>) -> u64 {
    match r {
        Ok(c) => u64::from(c),
        Err(number) => REFUSED + u64::from(number),
    }
}

fn read_part(kind: u8, text: &[u8], end: usize) -> u64 {
    match kind {
        b'u' => of_number(numeral::parse_u32(text, 0, end)),
        b'i' => of_signed(numeral::parse_i32(text, 0, end)),
        _ => of_bound(numeral::parse_hex_codepoint(text, 0, end)),
    }
}

// The answer that the list has: a number in decimal, or `x` with the refusal's number, if it has one, behind it.
fn expected(answer: &[u8]) -> u64 {
    match answer.strip_prefix(b"x") {
        Some(digits) => REFUSED.wrapping_add(number_of(digits, Base::Decimal)),
        None => number_of(answer, Base::Decimal),
    }
}

// `HEX ANSWER` at a place: whether we answer the same.
fn agrees(list: &[u8], kind: u8, at: usize) -> bool {
    let bytes = field_at(list, at);
    let wanted = expected(field_at(list, bytes.next).text);
    if kind == b'c' {
        let code = (number_of(bytes.text, Base::Hex) % CODES) as u16;
        return of_bound(numeral::ucs2_to_unicode(code)) == wanted;
    }
    let mut room = [b'7'; LONGEST];
    let n = bytes_of(bytes.text, &mut room);
    read_part(kind, &room[..n], LONGEST) == wanted && read_part(kind, &room, n) == wanted
}

impl Tally {
    fn note(&mut self, kind: u8, agreed: bool) {
        match kind {
            b'u' if agreed => self.u = self.u.wrapping_add(1),
            b'i' if agreed => self.i = self.i.wrapping_add(1),
            b'h' if agreed => self.h = self.h.wrapping_add(1),
            b'c' if agreed => self.c = self.c.wrapping_add(1),
            _ => self.differ = self.differ.wrapping_add(1),
        }
    }
}

fn line(t: &mut Tally, list: &[u8], at: usize) {
    let kind = byte_at(list, at);
    t.note(kind, agrees(list, kind, field_at(list, at).next));
}

fn replay_all(rt: &impl Print, list: &[u8]) -> io::Result<Tally> {
    let mut t = Tally::default();
    each_line(list, 0, |at, number| {
        let before = t.differ;
        line(&mut t, list, at);
        if t.differ != before {
            say_difference(rt, number)?;
        }
        Ok(())
    })?;
    Ok(t)
}

fn main(rt: HostRuntime) -> io::Result<()> {
    let mut room = [0u8; LIST_ROOM];
    let n = replay::input::read_full(&mut rt.reader(), &mut room)?;
    let t = replay_all(&rt, &room[..n])?;
    println!(rt; "u {} agreed", t.u)?;
    println!(rt; "i {} agreed", t.i)?;
    println!(rt; "h {} agreed", t.h)?;
    println!(rt; "c {} agreed", t.c)?;
    println!(rt; "{} differed", t.differ)
}
