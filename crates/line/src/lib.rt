// A line of char.def, item 4 of the paper, from the bytes of a text: blank, a category line, a range line, or the number of its
// refusal. A line is given by the text and its ends; an end past the text is the text's, and a line that starts behind its end is empty.
// Range lines are read here, category lines in `category_line`.
#![tactic(auto)]

ghost use Rattle.std.specs.Prelude.{true, take, drop};
ghost use Rattle.paper.specs.Computed.ReadText.{range_of};
ghost use Rattle.scan.specs.Marks.{gap_width, words_bytes};
ghost use Rattle.scan.specs.Answer.{part, body_part};
ghost use Rattle.scan.specs.Asked.{Inside};
ghost use Rattle.category_line.specs.Answer.{Says};
ghost use Rattle.line.specs.Bytes.{line_bytes};
ghost use Rattle.line.specs.Asked.{Dots};

use category_line::{Line, RangeLine};
use paper::{BOUND_UNREADABLE, RANGE_PARTS};
use scan::Part;

// Bytes of `..`.
const WIDTH_DOTS: usize = 2;

// The first `..` of a part.
fn find_dots(text: &[u8], start: usize, end: usize) -> Option<usize>
    requires { Inside text.now start end }
    ensures { Dots text.now start end result }
{
    for at in start..end.saturating_sub(1) {
        if text[at] == b'.' && text[at + 1] == b'.' {
            return Some(at);
        }
    }
    None
}

// The body of a range line: its first word is the bounds, the others are names.
fn parse_range(text: &[u8], start: usize, end: usize) -> Result<Line, u32>
    requires { Inside text.now start end }
    ensures { Says text.now (part start end) (range_of (words_bytes (gap_width true) (drop start (take end text.now)))) result }
{
    let bounds = scan::next_word(text, start, end, true);
    if bounds.end <= bounds.start {
        return Err(BOUND_UNREADABLE);
    }
    let names = Part {
        start: bounds.end,
        end,
    };
    let Some(dots) = find_dots(text, bounds.start, bounds.end) else {
        let both = numeral::parse_hex_codepoint(text, bounds.start, bounds.end)?;
        return Ok(Line::Range(RangeLine {
            lower: both,
            upper: both,
            names,
        }));
    };
    let second = dots + WIDTH_DOTS;
    let None = find_dots(text, second, bounds.end) else {
        return Err(RANGE_PARTS);
    };
    let lower = numeral::parse_hex_codepoint(text, bounds.start, dots)?;
    let upper = numeral::parse_hex_codepoint(text, second, bounds.end)?;
    Ok(Line::Range(RangeLine {
        lower,
        upper,
        names,
    }))
}

// What the line from `start` to `end` says, or the number of its refusal, which `said` gives to the paper's `wrong`.
pub fn read_line(text: &[u8], start: usize, end: usize) -> Result<Line, u32>
    ensures { Says text.now (body_part text.now start end) (line_bytes (drop start (take end text.now))) result }
{
    let body = scan::body_of(text, start, end);
    if body.end <= body.start {
        return Ok(Line::Blank);
    }
    if text[body.start..body.end].starts_with(b"0x") {
        return parse_range(text, body.start, body.end);
    }
    category_line::parse_category(text, body.start, body.end)
}
