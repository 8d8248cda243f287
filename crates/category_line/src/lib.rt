// A category line of char.def, item 4 of the paper, from the bytes of its body: a name and three numbers, or the number of its refusal. The type of a
// line's answer stands here too, beneath both of those who give it: range lines are read in `line`, which also tells which kind a line is.
#![tactic(auto)]

ghost use Rattle.std.specs.Prelude.{false, take, drop};
ghost use Rattle.paper.specs.Computed.ReadText.{category_of};
ghost use Rattle.scan.specs.Marks.{gap_width, words_bytes};
ghost use Rattle.scan.specs.Answer.{part};
ghost use Rattle.category_line.specs.Answer.{Says};
ghost use Rattle.category_line.specs.Asked.{WordIs, FieldsAre, NumberIs};

use paper::{CATEGORY_FIELDS, CATEGORY_NUMBER};
use scan::Part;

// A flag is true at this number and at no other.
const TRUE: u32 = 1;

// A category line: the flags and the length, and where its name stands.
#[derive(Clone, Copy)]
pub struct CategoryLine {
    pub invoke: bool,
    pub group: bool,
    pub length: u32,
    pub name: Part,
}

// A range line: the bounds, and the part of which its names are the words.
#[derive(Clone, Copy)]
pub struct RangeLine {
    pub lower: u16,
    pub upper: u16,
    pub names: Part,
}

#[derive(Clone, Copy)]
pub enum Line {
    Blank,
    Category(CategoryLine),
    Range(RangeLine),
}

// The fields of a category line, where they are four.
#[derive(Clone, Copy)]
struct Four {
    name: Part,
    invoke: Part,
    group: Part,
    length: Part,
}

// The word that comes next, where there is one. TAB, FF, CR and space stand between the words of a category line.
fn word(text: &[u8], start: usize, end: usize) -> Option<Part>
    ensures { WordIs text.now start end result }
{
    let next = scan::next_word(text, start, end, false);
    if next.end <= next.start {
        return None;
    }
    Some(next)
}

// The words of a category line's body.
fn fields_of(text: &[u8], start: usize, end: usize) -> Option<Four>
    ensures { FieldsAre text.now start end result }
{
    let name = word(text, start, end)?;
    let invoke = word(text, name.end, end)?;
    let group = word(text, invoke.end, end)?;
    let length = word(text, group.end, end)?;
    let None = word(text, length.end, end) else {
        return None;
    };
    Some(Four {
        name,
        invoke,
        group,
        length,
    })
}

fn number_of(text: &[u8], field: Part) -> Result<u32, u32>
    ensures { NumberIs text.now field result }
{
    numeral::parse_u32(text, field.start, field.end).ok_or(CATEGORY_NUMBER)
}

// The body of a category line: a name and three numbers. The error is the refusal's number, which `said` gives to the paper's `wrong`.
pub fn parse_category(text: &[u8], start: usize, end: usize) -> Result<Line, u32>
    ensures { Says text.now (part start end) (category_of (words_bytes (gap_width false) (drop start (take end text.now)))) result }
{
    let fields = fields_of(text, start, end).ok_or(CATEGORY_FIELDS)?;
    let invoke = number_of(text, fields.invoke)?;
    let group = number_of(text, fields.group)?;
    let length = number_of(text, fields.length)?;
    Ok(Line::Category(CategoryLine {
        invoke: invoke == TRUE,
        group: group == TRUE,
        length,
        name: fields.name,
    }))
}
