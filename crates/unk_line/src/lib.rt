// One line of unk.def: "Split at commas: category, left, right (u32), cost (i32, sign allowed), details." Each function takes a part of a text;
// a part that reaches past the text is cut at its end, and one that starts behind its end is empty.
#![tactic(auto)]

ghost use Rattle.std.specs.Prelude.{◌≡◌, ◌+◌, ◌≤◌, Some, length, take, drop};
ghost use Rattle.std.proofs.Math.Option.{some};
ghost use Rattle.paper.specs.Lists.{until, is};
ghost use Rattle.paper.specs.Computed.ReadUnk.{unk_line_of};
ghost use Rattle.numeral.specs.Said.{said_signed};
ghost use Rattle.unk_line.specs.Line.{SaysLine};
ghost use Rattle.unk_line.specs.Asked.{FieldsAre, CommaAt, kept_cost};

use numeral::Signed;
use paper::{UNK_FIELDS, UNK_NUMBER};

const COMMA: u8 = b',';

// left, right and cost are kept modulo this.
const MODULUS: u32 = 65536;

// An entry: where its first field ends, its numbers, and where the fields behind the fourth begin.
#[derive(Clone, Copy)]
pub struct UnkEntry {
    pub surface: usize,
    pub left: u16,
    pub right: u16,
    pub cost: u16,
    pub details: usize,
}

// Where the first four fields end, and where those behind them begin.
#[derive(Clone, Copy)]
pub struct FourFields {
    pub first: usize,
    pub second: usize,
    pub third: usize,
    pub fourth: usize,
    pub more: usize,
}

// The first place from `start` on that holds the byte; where none does, the end.
pub fn find_byte(text: &[u8], start: usize, end: usize, byte: u8) -> usize
    ensures { result ≡ start + length (until (is byte) (drop start (take end text.now))) }
{
    let Some(part) = text.get(start..end.min(text.len())) else {
        return start;
    };
    start + part.iter().position(|b| *b == byte).unwrap_or(part.len())
}

// The place of the next comma, where there is one.
fn comma(text: &[u8], start: usize, end: usize) -> Option<usize>
    ensures { CommaAt text.now start end result }
{
    let at = find_byte(text, start, end, COMMA);
    if end <= at {
        return None;
    }
    Some(at)
}

// The fields of a line: commas separate them, and a line with no comma is one.
fn fields_of(text: &[u8], start: usize, end: usize) -> Option<FourFields>
    requires { end ≤ length text.now }
    ensures { FieldsAre text.now start end result }
{
    let first = comma(text, start, end)?;
    let second = comma(text, first + 1, end)?;
    let third = comma(text, second + 1, end)?;
    let fourth = find_byte(text, third + 1, end, COMMA);
    let more = fourth.min(end - 1) + 1;
    Some(FourFields {
        first,
        second,
        third,
        fourth,
        more,
    })
}

// The cost kept: "modulo 65,536 as a signed 16-bit number", which for a negative one is its two's complement.
fn cost_of(cost: Signed) -> u16
    ensures { some result ≡ kept_cost (said_signed (Some cost)) }
{
    match cost {
        Signed::Plus(size) => (size % MODULUS) as u16,
        Signed::Minus(size) => ((MODULUS - size % MODULUS) % MODULUS) as u16,
    }
}

// The line from `start` to `end`: 23 before 24, as numbers, which `SaysLine` gives to the paper's refusals.
pub fn parse_dictionary_entry(text: &[u8], start: usize, end: usize) -> Result<UnkEntry, u32>
    ensures { SaysLine text.now start end (unk_line_of (drop start (take end text.now))) result }
{
    let fields = fields_of(text, start, end.min(text.len())).ok_or(UNK_FIELDS)?;
    let left = numeral::parse_u32(text, fields.first + 1, fields.second).ok_or(UNK_NUMBER)?;
    let right = numeral::parse_u32(text, fields.second + 1, fields.third).ok_or(UNK_NUMBER)?;
    let cost = numeral::parse_i32(text, fields.third + 1, fields.fourth).ok_or(UNK_NUMBER)?;
    Ok(UnkEntry {
        surface: fields.first,
        left: (left % MODULUS) as u16,
        right: (right % MODULUS) as u16,
        cost: cost_of(cost),
        details: fields.more,
    })
}
