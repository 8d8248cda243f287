// What C calls: "exported as extern \"C\" on numbers and byte slices". Each entry is the plain function's through one u64, 0 or number + 256 * place,
// and a lent slice for the counts. Nothing checks what C hands over, so nothing is asked of it.
#![tactic(auto)]

ghost use Rattle.paper.specs.Computed.ReadPack.{read_pack};
ghost use Rattle.paper.specs.Computed.ReadText.{read_text};
ghost use Rattle.paper.specs.Text.Scalar.{LongestPrefix};
ghost use Rattle.exported.specs.Answer.{Exports};

use exported::COUNTS_SIZE;
use paper::ROOM_SHORT;

// The length of the longest well-formed prefix.
pub fn twinebeetle_valid_prefix(text: &[u8]) -> u64
    ensures { LongestPrefix result text.now }
{
    text::valid_prefix(text) as u64
}

// char.def read into lent tables.
pub fn twinebeetle_read_char_def(
    text: &[u8],
    names: &mut [u8],
    categories: &mut [u8],
    definitions: &mut [u8],
    ranges: &mut [u8],
    references: &mut [u8],
    counts: &mut [u8],
) -> u64
    ensures { Exports (read_text text.now) (record { names = names.old; categories = categories.old; definitions = definitions.old; ranges = ranges.old; references = references.old }) (record { names = names.new; categories = categories.new; definitions = definitions.new; ranges = ranges.new; references = references.new }) counts.old counts.new result }
{
    if counts.len() < COUNTS_SIZE {
        return u64::from(ROOM_SHORT);
    }
    let outcome = char_def::parse(text, names, categories, definitions, ranges, references);
    exported::give(outcome, counts)
}

// A pack read into lent tables: "the terminal's C loader calls the pack reader".
pub fn twinebeetle_read_pack(
    pack: &[u8],
    names: &mut [u8],
    categories: &mut [u8],
    definitions: &mut [u8],
    ranges: &mut [u8],
    references: &mut [u8],
    counts: &mut [u8],
) -> u64
    ensures { Exports (read_pack pack.now) (record { names = names.old; categories = categories.old; definitions = definitions.old; ranges = ranges.old; references = references.old }) (record { names = names.new; categories = categories.new; definitions = definitions.new; ranges = ranges.new; references = references.new }) counts.old counts.new result }
{
    if counts.len() < COUNTS_SIZE {
        return u64::from(ROOM_SHORT);
    }
    let outcome = pack::read_pack(pack, names, categories, definitions, ranges, references);
    exported::give(outcome, counts)
}
