// Replays the lists of oracle/lists over crate `text`: RFC 3629's examples and damaged texts (t), every first and
// second byte with each kind of tail (b2, b3, c3, b4, c4), characters at the edges with their scalar values (v), and
// White_Space over all of Unicode (w, e).
#![tactic(auto)]

use replay::lines::each_line;
use replay::tally::say_difference;
use replay::{Base, byte_at, bytes_of, field_at, hex_at, number_at, number_of};
use std::io;
use text::Next;

// A text of the list has fewer bytes than this.
const LONGEST: usize = 256;

const TAIL: u8 = 0x80;

const NO_TAIL: u8 = 0x41;

// How many cases agreed and differed so far, and the first code point whose White_Space was not asked yet.
#[derive(Clone, Copy, Default)]
struct Tally {
    agreed: u64,
    differ: u64,
    white: u32,
}

impl Tally {
    fn add(&mut self, cases: u64, wrong: u64) {
        self.agreed = self.agreed.wrapping_add(cases.wrapping_sub(wrong));
        self.differ = self.differ.wrapping_add(wrong);
    }
}

// `t BYTES LENGTH`: the longest well-formed prefix.
fn text_agrees(list: &[u8], at: usize) -> bool {
    let mut room = [0u8; LONGEST];
    let bytes = field_at(list, at);
    let n = bytes_of(bytes.text, &mut room);
    text::valid_prefix(&room[..n]) as u64 == number_at(list, bytes.next)
}

// `v BYTES SCALAR`: one character, to the end.
fn char_agrees(list: &[u8], at: usize) -> bool {
    let mut room = [0u8; LONGEST];
    let bytes = field_at(list, at);
    let n = bytes_of(bytes.text, &mut room);
    match text::next_char(&room[..n], 0) {
        Next::Char(c) => c.next == n && u64::from(c.value) == hex_at(list, bytes.next),
        Next::End | Next::Bad => false,
    }
}

// The prefix of first, second and the tail that a tag names.
fn prefix_of(kind: u8, count: u8, first: u8, second: u8) -> u64 {
    let end = if kind == b'b' { TAIL } else { NO_TAIL };
    let found = match count {
        b'2' => text::valid_prefix(&[first, second]),
        b'3' => text::valid_prefix(&[first, second, end]),
        _ => text::valid_prefix(&[first, second, TAIL, end]),
    };
    found as u64
}

// Second bytes from `lo` up to `hi` all have this prefix.
fn wrong_seconds(kind: u8, count: u8, first: u8, lo: u64, hi: u64, expected: u64) -> u64 {
    let mut wrong: u64 = 0;
    for second in lo..=hi.min(255) {
        let found = prefix_of(kind, count, first, second as u8);
        wrong = wrong.wrapping_add(u64::from(found != expected));
    }
    wrong
}

// `TAG FIRST LO HI LENGTH`.
fn run_line(t: &mut Tally, list: &[u8], at: usize) {
    let tag = field_at(list, at);
    let kind = byte_at(list, at);
    let count = tag.text.last().copied().unwrap_or(0);
    let first = field_at(list, tag.next);
    let lo = field_at(list, first.next);
    let hi = field_at(list, lo.next);
    let byte = (number_of(first.text, Base::Hex) % 256) as u8;
    let low = number_of(lo.text, Base::Hex);
    let high = number_of(hi.text, Base::Hex);
    let wrong = wrong_seconds(kind, count, byte, low, high, number_at(list, hi.next));
    t.add(high.wrapping_add(1).wrapping_sub(low), wrong);
}

// Code points from `from` up to `to` are white space exactly if `white`.
fn wrong_white(from: u32, to: u32, white: bool) -> u64 {
    let mut wrong: u64 = 0;
    for c in from..to {
        wrong = wrong.wrapping_add(u64::from(text::is_white_space(c) != white));
    }
    wrong
}

// `w FIRST LAST`: a run of White_Space, with none since the run before it; `e FIRST LAST` ends them with none.
fn white_line(t: &mut Tally, list: &[u8], at: usize, white: bool) {
    let first = field_at(list, at);
    let from = (number_of(first.text, Base::Hex) % 0x20_0000) as u32;
    let past = (hex_at(list, first.next) % 0x20_0000) as u32 + 1;
    let before = wrong_white(t.white, from, false);
    let inside = wrong_white(from, past, white);
    let cases = u64::from(past).wrapping_sub(u64::from(t.white));
    t.add(cases, before.wrapping_add(inside));
    t.white = past;
}

fn line(t: &mut Tally, list: &[u8], at: usize) {
    let next = field_at(list, at).next;
    match byte_at(list, at) {
        b't' => t.add(1, u64::from(!text_agrees(list, next))),
        b'v' => t.add(1, u64::from(!char_agrees(list, next))),
        b'w' => white_line(t, list, next, true),
        b'e' => white_line(t, list, next, false),
        _ => run_line(t, list, at),
    }
}

fn replay_all(rt: &impl Print, list: &[u8]) -> io::Result<Tally> {
    let mut t = Tally::default();
    each_line(list, 0, |at, number| {
        let before = t.differ;
        line(&mut t, list, at);
        if t.differ != before {
            say_difference(rt, number)?;
        }
        Ok(())
    })?;
    Ok(t)
}

fn main(rt: HostRuntime) -> io::Result<()> {
    let mut room = [0u8; 131072];
    let n = replay::input::read_full(&mut rt.reader(), &mut room)?;
    let t = replay_all(&rt, &room[..n])?;
    println!(rt; "{} agreed, {} differed", t.agreed, t.differ)
}
