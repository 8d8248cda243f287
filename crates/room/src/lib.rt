// The room that a reader of the five tables asks for, char.def's and the pack's alike: "Readers ask for room of these full sizes."
#![tactic(auto)]

ghost use Rattle.std.specs.Prelude.{◌≡◌};
ghost use Rattle.paper.specs.Tables.Reader.{room_for, cleared};

use paper::{MAX_CATEGORIES, MAX_CATEGORY_LINES, MAX_NAME_BYTES, MAX_RANGES, MAX_REFERENCES};
use table::{CATEGORY_BYTES, DEFINITION_BYTES, RANGE_BYTES, REFERENCE_BYTES};

pub const CATEGORIES_SIZE: usize = MAX_CATEGORIES * CATEGORY_BYTES;

pub const DEFINITIONS_SIZE: usize = MAX_CATEGORY_LINES * DEFINITION_BYTES;

pub const RANGES_SIZE: usize = MAX_RANGES * RANGE_BYTES;

pub const REFERENCES_SIZE: usize = MAX_REFERENCES * REFERENCE_BYTES;

// Lengths of five lent tables are no less than the sizes.
pub fn has_room(
    names: usize,
    categories: usize,
    definitions: usize,
    ranges: usize,
    references: usize,
) -> bool
    ensures { result ≡ room_for names categories definitions ranges references }
{
    if names < MAX_NAME_BYTES {
        return false;
    }
    if categories < CATEGORIES_SIZE {
        return false;
    }
    if definitions < DEFINITIONS_SIZE {
        return false;
    }
    if ranges < RANGES_SIZE {
        return false;
    }
    if references < REFERENCES_SIZE {
        return false;
    }
    true
}

// "zero up to the stated sizes"
pub fn zero_all(
    names: &mut [u8],
    categories: &mut [u8],
    definitions: &mut [u8],
    ranges: &mut [u8],
    references: &mut [u8],
)
    ensures { record { names = names.new; categories = categories.new; definitions = definitions.new; ranges = ranges.new; references = references.new } ≡ cleared (record { names = names.old; categories = categories.old; definitions = definitions.old; ranges = ranges.old; references = references.old }) }
{
    table::zero(names, MAX_NAME_BYTES);
    table::zero(categories, CATEGORIES_SIZE);
    table::zero(definitions, DEFINITIONS_SIZE);
    table::zero(ranges, RANGES_SIZE);
    table::zero(references, REFERENCES_SIZE);
}
