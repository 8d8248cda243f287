// A refusal in words: the file, the place, the number and what it means; and where the place is a line, the line itself.
#![tactic(auto)]

use paper::Refusal;
use say::Stop;
use std::env::Env;
use std::io::Write;
use std::{fmt, io};

const LF: u8 = b'\n';

// Document 01, "Refusals by number"; docs/FORMAT.md says how each is mended.
fn meaning(number: u32) -> &'static str {
    match number {
        1 => "a reader's lent room is below its size",
        2 => "text over 65,536 bytes",
        3 => "text not well-formed UTF-8",
        4 => "range field has three or more parts",
        5 => "bound is no 16-bit hex number",
        6 => "bound is FEFF or FFFE",
        7 => "category line has not four fields",
        8 => "invoke, group or length is no u32",
        9 => "range 2,049",
        10 => "references would pass 8,192",
        11 => "category line 513",
        12 => "category 513",
        13 => "name bytes would pass 16,384",
        14 => "lookup of a number that is no scalar value",
        15 => "category, definition or unk entry number unknown",
        16 => "flat table asked for, a row has over 255 categories",
        17 => "room for rows or flat table below the exact need",
        18 => "pack version is not 1",
        19 => "pack ends inside a field",
        20 => "pack field breaks its rule",
        21 => "pad bit set or bytes left over",
        22 => "room for a written pack below its length",
        23 => "unk line has under four fields",
        24 => "unk left, right or cost unreadable",
        25 => "unk entry 4,097",
        26 => "tables handed in don't hold together",
        _ => "",
    }
}

// What the place of a refusal counts, by its number. An editor needs the line of a bad byte too.
#[derive(Clone, Copy)]
pub enum Place {
    Line(usize),
    Byte { line: usize, byte: usize },
    Bit(usize),
    Nowhere,
}

impl fmt::Display for Place {
    fn fmt<W: fmt::Write>(&self, f: &mut fmt::Formatter<W>) -> fmt::Result {
        match *self {
            Place::Line(n) => write!(f, ":{n}"),
            Place::Byte { line, byte } => write!(f, ":{line}: byte {byte}"),
            Place::Bit(n) => write!(f, ": bit {n}"),
            Place::Nowhere => Ok(()),
        }
    }
}

impl Place {
    fn of(x: Refusal, text: &[u8]) -> Place {
        match x.number {
            3 => Place::Byte {
                line: line_at(text, x.place),
                byte: x.place,
            },
            4..=13 | 23..=25 => Place::Line(x.place),
            18..=21 => Place::Bit(x.place),
            _ => Place::Nowhere,
        }
    }

    // The number of the line that is bad.
    fn line(self) -> Option<usize> {
        match self {
            Place::Line(line) | Place::Byte { line, .. } => Some(line),
            Place::Bit(_) | Place::Nowhere => None,
        }
    }
}

// The line, from 1, on which a byte stands.
fn line_at(text: &[u8], byte: usize) -> usize {
    1 + text.iter().take(byte).filter(|b| **b == LF).count()
}

// A line by its number, without the LF at its end.
fn line_of(text: &[u8], line: usize) -> &[u8] {
    text.split(|b| *b == LF)
        .nth(line.saturating_sub(1))
        .unwrap_or(b"")
}

fn put_line(out: &mut impl Write, line: &[u8]) -> io::Result<()> {
    out.write_all(line)?;
    out.write_all(b"\n")
}

// What is refused is named by argument i.
pub fn put_refusal(
    rt: &impl Env,
    out: &mut impl Write,
    i: usize,
    text: &[u8],
    x: Refusal,
) -> Result<(), Stop> {
    let number = x.number;
    let means = meaning(number);
    let place = Place::of(x, text);
    say::put_argument(rt, out, i)?;
    writeln!(out, "{place}: refused {number}: {means}")?;
    if let Some(line) = place.line() {
        put_line(out, line_of(text, line))?;
    }
    Err(Stop::Refused)
}
