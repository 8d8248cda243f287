// Gaps, words and the body of a line of char.def, found among the bytes of a text without decoding them. A part is given by the text
// and its ends; an end past the text is the text's, and a part that starts behind its end is empty. Over it stand `category_line` and `line`,
// and `entry`, which walks the names of a range line.
#![tactic(auto)]

ghost use Rattle.std.specs.Prelude.{◌≡◌, ◌+◌, ◌<◌, length, take, drop};
ghost use Rattle.scan.specs.Marks.{gap_byte, gap_width};
ghost use Rattle.scan.specs.Answer.{gap_run, word_run, solid, NextWord, Body};
ghost use Rattle.scan.specs.Asked.{Inside, Wide};

const TAB: u8 = 0x09;

const LF: u8 = 0x0A;

const VT: u8 = 0x0B;

const FF: u8 = 0x0C;

const CR: u8 = 0x0D;

// From here on a byte is part of a character of several.
const ASCII_END: u8 = 0x80;

// The first bytes of White_Space beyond ASCII: of U+0085 and 00A0, and of U+1680 to 3000.
const WHITE_LEAD_2: u8 = 0xC2;

const WHITE_LEAD_3: u8 = 0xE1;

const WHITE_LEAD_3_END: u8 = 0xE3;

// A part of the text, from `start` up to `end`.
#[derive(Clone, Copy)]
pub struct Part {
    pub start: usize,
    pub end: usize,
}

// An ASCII character that stands between words: TAB, FF, CR and space in either kind of line, LF and VT as White_Space only.
fn is_gap(b: u8, white: bool) -> bool
    requires { b < 0x80 }
    ensures { result ≡ gap_byte white b }
{
    match b {
        TAB | FF | CR | b' ' => true,
        LF | VT => white,
        _ => false,
    }
}

// How many bytes of a gap stand at `at`, where no ASCII character does: those of White_Space. The scans see to ASCII themselves.
fn wide_gap(text: &[u8], at: usize, end: usize, white: bool) -> usize
    requires { Wide text.now at end }
    ensures { result ≡ gap_width white (drop at (take end text.now)) }
{
    if !white {
        return 0;
    }
    match text[at] {
        WHITE_LEAD_2 | WHITE_LEAD_3..=WHITE_LEAD_3_END => text::white_width(&text[..end], at),
        _ => 0,
    }
}

// Past the gap at `start`.
// A `while`: the characters of a gap are of one to three bytes, so the place moves by varying steps.
fn skip_gap(text: &[u8], start: usize, end: usize, white: bool) -> usize
    requires { Inside text.now start end }
    ensures { result ≡ start + length (gap_run white (drop start (take end text.now))) }
{
    let mut at = start;
    while at < end {
        let b = text[at];
        if b < ASCII_END {
            if is_gap(b, white) {
                at += 1;
            } else {
                return at;
            }
        } else {
            let w = wide_gap(text, at, end, white);
            if w == 0 {
                return at;
            }
            at += w;
        }
    }
    at
}

// Past the word at `start`.
fn word_end(text: &[u8], start: usize, end: usize, white: bool) -> usize
    requires { Inside text.now start end }
    ensures { result ≡ start + length (word_run white (drop start (take end text.now))) }
{
    for at in start..end {
        let b = text[at];
        if b < ASCII_END {
            if is_gap(b, white) {
                return at;
            }
        } else if 0 < wide_gap(text, at, end, white) {
            return at;
        }
    }
    end
}

// The end of the last character that is no White_Space, before a `#`.
// A `while`, since the place moves by varying steps here too.
fn solid_end(text: &[u8], start: usize, end: usize) -> usize
    requires { Inside text.now start end }
    ensures { result ≡ start + length (solid (drop start (take end text.now))) }
{
    let mut at = start;
    let mut last = start;
    while at < end {
        let b = text[at];
        if b == b'#' {
            return last;
        }
        if b < ASCII_END {
            at += 1;
            if !is_gap(b, true) {
                last = at;
            }
        } else {
            let w = wide_gap(text, at, end, true);
            if w == 0 {
                at += 1;
                last = at;
            } else {
                at += w;
            }
        }
    }
    last
}

// The body of the line from `start` to `end`: what stands before the first `#`, with White_Space trimmed at both ends.
pub fn body_of(text: &[u8], start: usize, end: usize) -> Part
    ensures { Body text.now start end result }
{
    let stop = end.min(text.len());
    if stop < start {
        return Part { start, end: start };
    }
    let from = skip_gap(text, start, stop, true);
    Part {
        start: from,
        end: solid_end(text, from, stop),
    }
}

// The next word from `start` to `end`, empty where there is none. Words stand between White_Space, or, where `white` is false, between
// TAB, FF, CR and space only.
pub fn next_word(text: &[u8], start: usize, end: usize, white: bool) -> Part
    ensures { NextWord text.now start end white result }
{
    let stop = end.min(text.len());
    if stop < start {
        return Part { start, end: start };
    }
    let from = skip_gap(text, start, stop, white);
    Part {
        start: from,
        end: word_end(text, from, stop, white),
    }
}
