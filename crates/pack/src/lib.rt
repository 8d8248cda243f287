// The pack's reader: the head, the body that it announces, and the padding, which its parts read; what they leave is the reading's tables, and zero
// where the pack is refused.
#![tactic(auto)]

ghost use Rattle.std.specs.Prelude.{◌≡◌};
ghost use Rattle.paper.specs.Computed.ReadPack.{read_pack};
ghost use Rattle.paper.specs.Tables.Layout.{in_room};
ghost use Rattle.paper.specs.Tables.Reader.{Reads};
ghost use Rattle.room.specs.Sized.{Sized, no_tables, FilledInto, ReadInto};

use field::BitCursor;
use pack_body::read_body;
use pack_head::read_head;
use pack_padding::is_padding;
use paper::{Counts, MAX_NAME_BYTES, PACK_LEFT_OVER, ROOM_SHORT, Refusal};
use room::{CATEGORIES_SIZE, DEFINITIONS_SIZE, RANGES_SIZE, REFERENCES_SIZE};

// The pack read into tables of the sizes that hold zero.
fn fill_tables(
    pack: &[u8],
    names: &mut [u8],
    categories: &mut [u8],
    definitions: &mut [u8],
    ranges: &mut [u8],
    references: &mut [u8],
) -> Result<Counts, Refusal>
    requires { record { names = names.old; categories = categories.old; definitions = definitions.old; ranges = ranges.old; references = references.old } ≡ in_room no_tables }
    ensures { FilledInto (read_pack pack.now) (record { names = names.new; categories = categories.new; definitions = definitions.new; ranges = ranges.new; references = references.new }) result }
{
    let (head, behind) = read_head(pack, BitCursor { at: 0 })?;
    let (bytes, end) = read_body(
        pack,
        behind,
        head,
        names,
        categories,
        definitions,
        ranges,
        references,
    )?;
    if !is_padding(pack, end) {
        return Err(Refusal {
            number: PACK_LEFT_OVER,
            place: end.at,
        });
    }
    Ok(Counts {
        categories: head.categories,
        definitions: head.lines,
        ranges: head.ranges,
        references: head.references,
        bytes,
    })
}

// The pack read into tables of the sizes: the reading's tables, or zero where the pack is refused.
fn read_into(
    pack: &[u8],
    names: &mut [u8],
    categories: &mut [u8],
    definitions: &mut [u8],
    ranges: &mut [u8],
    references: &mut [u8],
) -> Result<Counts, Refusal>
    requires { Sized (record { names = names.old; categories = categories.old; definitions = definitions.old; ranges = ranges.old; references = references.old }) }
    ensures { ReadInto (read_pack pack.now) (record { names = names.new; categories = categories.new; definitions = definitions.new; ranges = ranges.new; references = references.new }) result }
{
    room::zero_all(names, categories, definitions, ranges, references);
    let read = fill_tables(pack, names, categories, definitions, ranges, references);
    if read.is_err() {
        room::zero_all(names, categories, definitions, ranges, references);
    }
    read
}

// Reads a pack into lent tables: 1, then 18 to 21 by the first broken field in reading order. Nothing is written for 1; 18 to 21 leave zero
// up to the sizes; past the sizes nothing is touched.
pub fn read_pack(
    pack: &[u8],
    names: &mut [u8],
    categories: &mut [u8],
    definitions: &mut [u8],
    ranges: &mut [u8],
    references: &mut [u8],
) -> Result<Counts, Refusal>
    ensures { Reads (read_pack pack.now) (record { names = names.old; categories = categories.old; definitions = definitions.old; ranges = ranges.old; references = references.old }) (record { names = names.new; categories = categories.new; definitions = definitions.new; ranges = ranges.new; references = references.new }) result }
{
    if !room::has_room(
        names.len(),
        categories.len(),
        definitions.len(),
        ranges.len(),
        references.len(),
    ) {
        return Err(Refusal {
            number: ROOM_SHORT,
            place: 0,
        });
    }
    read_into(
        pack,
        &mut names[..MAX_NAME_BYTES],
        &mut categories[..CATEGORIES_SIZE],
        &mut definitions[..DEFINITIONS_SIZE],
        &mut ranges[..RANGES_SIZE],
        &mut references[..REFERENCES_SIZE],
    )
}
