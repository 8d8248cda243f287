// From line to line of a text: "Lines", where a line ends and which comes next. Each line is entered into memory that holds the reading so far;
// the layers above write the category slots out and keep the room.
#![tactic(auto)]

ghost use Rattle.std.specs.Prelude.{◌≡◌, ◌≤◌, length};
ghost use Rattle.paper.specs.Sizes.{max_text_bytes};
ghost use Rattle.paper.specs.Lists.{until};
ghost use Rattle.paper.specs.CharDef.Reading.{is_lf};
ghost use Rattle.paper.specs.Computed.ReadText.{nothing_read};
ghost use Rattle.entry.specs.Steps.{Held};
ghost use Rattle.lines.specs.Lines.{read_all, Walked};

use paper::{Counts, Refusal};

const LF: u8 = b'\n';

// How long the line is that a text begins with: up to its LF, or to the end of the text.
fn line_len(text: &[u8]) -> usize
    ensures { result ≡ length (until is_lf text.now) }
{
    text.iter().position(|b| *b == LF).unwrap_or(text.len())
}

// Every line entered, from the top, up to the first that is refused. A step is as long as the line, so the loop stays
// a `while`.
pub fn walk_lines(
    text: &[u8],
    names: &mut [u8],
    slots: &mut [u64],
    definitions: &mut [u8],
    ranges: &mut [u8],
    references: &mut [u8],
) -> Result<Counts, Refusal>
    requires text_len_bound { length text.now ≤ max_text_bytes }
    requires held { Held nothing_read (record { store = names.old; slots = slots.old; definitions = definitions.old; ranges = ranges.old; references = references.old }) (record { categories = 0; definitions = 0; ranges = 0; references = 0; bytes = 0 }) }
    ensures { Walked (read_all text.now) (record { store = names.new; slots = slots.new; definitions = definitions.new; ranges = ranges.new; references = references.new }) result }
{
    let mut counts = Counts {
        categories: 0,
        definitions: 0,
        ranges: 0,
        references: 0,
        bytes: 0,
    };
    let mut line = 1;
    let mut at = 0;
    while at <= text.len() {
        let end = at + line_len(&text[at..]);
        counts = entry::enter_line(
            text,
            at,
            end,
            names,
            slots,
            definitions,
            ranges,
            references,
            counts,
        )
        .map_err(|number| Refusal {
            number,
            place: line,
        })?;
        line += 1;
        at = end + 1;
    }
    Ok(counts)
}
