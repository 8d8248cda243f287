// The lines of a text read into tables of the sizes: the reading's tables, or zero where a line is refused. `char_def` above judges the room and
// the text before.
#![tactic(auto)]

ghost use Rattle.std.specs.Prelude.{◌≡◌, ◌≤◌, length};
ghost use Rattle.paper.specs.Sizes.{max_text_bytes};
ghost use Rattle.paper.specs.Tables.Layout.{in_room};
ghost use Rattle.room.specs.Sized.{Sized, no_tables, FilledInto, ReadInto};
ghost use Rattle.lines.specs.Lines.{read_all};

use paper::{Counts, MAX_CATEGORIES, Refusal};

// The lines walked over tables of the sizes that hold zero. The category table starts as an array of zero slots, filled by interning, and is
// written out at the end.
fn fill_tables(
    text: &[u8],
    names: &mut [u8],
    categories: &mut [u8],
    definitions: &mut [u8],
    ranges: &mut [u8],
    references: &mut [u8],
) -> Result<Counts, Refusal>
    requires text_len_bound { length text.now ≤ max_text_bytes }
    requires references_value { record { names = names.old; categories = categories.old; definitions = definitions.old; ranges = ranges.old; references = references.old } ≡ in_room no_tables }
    ensures { FilledInto (read_all text.now) (record { names = names.new; categories = categories.new; definitions = definitions.new; ranges = ranges.new; references = references.new }) result }
{
    let mut slots = [0u64; MAX_CATEGORIES];
    let counts = lines::walk_lines(text, names, &mut slots, definitions, ranges, references)?;
    slot::write_slots(&slots, categories);
    Ok(counts)
}

// The lines read into tables of the sizes: the reading's tables, or zero where a line is refused.
pub fn read_lines(
    text: &[u8],
    names: &mut [u8],
    categories: &mut [u8],
    definitions: &mut [u8],
    ranges: &mut [u8],
    references: &mut [u8],
) -> Result<Counts, Refusal>
    requires text_len_bound { length text.now ≤ max_text_bytes }
    requires sized { Sized (record { names = names.old; categories = categories.old; definitions = definitions.old; ranges = ranges.old; references = references.old }) }
    ensures { ReadInto (read_all text.now) (record { names = names.new; categories = categories.new; definitions = definitions.new; ranges = ranges.new; references = references.new }) result }
{
    room::zero_all(names, categories, definitions, ranges, references);
    let read = fill_tables(text, names, categories, definitions, ranges, references);
    if read.is_err() {
        room::zero_all(names, categories, definitions, ranges, references);
    }
    read
}
