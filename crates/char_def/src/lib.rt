// Reads char.def: "Lines", parse. The room and the text are judged, then its lines are read into five lent tables.
#![tactic(auto)]

ghost use Rattle.char_def.specs.Parse.{Parsed};

use paper::{
    Counts, MAX_NAME_BYTES, MAX_TEXT_BYTES, ROOM_SHORT, Refusal, TEXT_ILL_FORMED, TEXT_LONG,
};
use room::{CATEGORIES_SIZE, DEFINITIONS_SIZE, RANGES_SIZE, REFERENCES_SIZE};

// Reads a text into lent tables. Nothing is written for 1 to 3; 4 to 13 leave zero up to the sizes; past the sizes nothing is touched.
pub fn parse(
    text: &[u8],
    names: &mut [u8],
    categories: &mut [u8],
    definitions: &mut [u8],
    ranges: &mut [u8],
    references: &mut [u8],
) -> Result<Counts, Refusal>
    ensures { Parsed text.now (record { names = names.old; categories = categories.old; definitions = definitions.old; ranges = ranges.old; references = references.old }) (record { names = names.new; categories = categories.new; definitions = definitions.new; ranges = ranges.new; references = references.new }) result }
{
    if !room::has_room(
        names.len(),
        categories.len(),
        definitions.len(),
        ranges.len(),
        references.len(),
    ) {
        return Err(Refusal {
            number: ROOM_SHORT,
            place: 0,
        });
    }
    if MAX_TEXT_BYTES < text.len() {
        return Err(Refusal {
            number: TEXT_LONG,
            place: 0,
        });
    }
    let prefix = text::valid_prefix(text);
    if prefix < text.len() {
        return Err(Refusal {
            number: TEXT_ILL_FORMED,
            place: prefix,
        });
    }
    fill::read_lines(
        text,
        &mut names[..MAX_NAME_BYTES],
        &mut categories[..CATEGORIES_SIZE],
        &mut definitions[..DEFINITIONS_SIZE],
        &mut ranges[..RANGES_SIZE],
        &mut references[..REFERENCES_SIZE],
    )
}
