// The body of a pack behind its head: names, definitions and ranges, one after another into their tables. Each field is judged before anything is
// done with it: a count of the head only says how often a loop may go round, and nothing is sized by it.
#![tactic(auto)]

ghost use Rattle.std.specs.Prelude.{◌≡◌, ◌+◌, ◌*◌, ◌≤◌, [], length};
ghost use Rattle.paper.specs.Sizes.{max_category_lines};
ghost use Rattle.paper.specs.Pack.Fields.{definition_width};
ghost use Rattle.paper.specs.Computed.ReadPack.{many, read_definition};
ghost use Rattle.paper.specs.Tables.Layout.{in_room, definition_bytes, definition_size};
ghost use Rattle.paper.specs.Tables.Lent.{patch, padded};
ghost use Rattle.field.specs.Cursor.{rest};
ghost use Rattle.room.specs.Sized.{no_tables};
ghost use Rattle.pack_body.specs.Body.{HeadFits, tail_width, body_width, TailIs, BodyIs};
ghost use Rattle.pack_field.specs.Parts.{max_place, Filled};
ghost use Rattle.pack_ranges.specs.Ranges.{Ranged};
ghost use Rattle.pack_body.specs.Definitions.{DefinitionIs, meant};

use field::{BitCursor, FLAG_WIDTH, LENGTH_WIDTH};
use pack_head::Head;
use pack_names::read_names;
use pack_ranges::read_ranges;
use paper::{PACK_RULE, Refusal};
use table::{DEFINITION_BYTES, GROUP_AT, INVOKE_AT};

#[derive(Clone, Copy)]
pub struct Definition {
    pub invoke: bool,
    pub group: bool,
    pub length: u32,
}

// ---- definitions

// A definition: invoke, group and length, which break no rule.
fn read_definition(pack: &[u8], from: BitCursor) -> Result<(Definition, BitCursor), Refusal>
    requires { from.at + definition_width ≤ max_place }
    ensures { DefinitionIs pack.now from.at result }
{
    let (invoke, second) = from.field(pack, FLAG_WIDTH)?;
    let (group, third) = second.field(pack, FLAG_WIDTH)?;
    let (length, next) = third.field(pack, LENGTH_WIDTH)?;
    let definition = Definition {
        invoke: invoke == 1,
        group: group == 1,
        length,
    };
    Ok((definition, next))
}

// Entry i of the definition table.
fn put_definition(definitions: &mut [u8], i: usize, d: Definition)
    requires { definition_size * i + definition_size ≤ length definitions.old }
    ensures { definitions.new ≡ patch (definition_size * i) (definition_bytes (meant d)) definitions.old }
{
    let at = DEFINITION_BYTES * i;
    table::put_u32(definitions, at, d.length);
    definitions[at + INVOKE_AT] = u8::from(d.invoke);
    definitions[at + GROUP_AT] = u8::from(d.group);
}

// So many definitions, into their table.
fn read_definitions(
    pack: &[u8],
    from: BitCursor,
    n: usize,
    definitions: &mut [u8],
) -> Result<BitCursor, Refusal>
    requires n_bound { from.at + definition_width * n ≤ max_place }
    requires n_in_bounds { definition_size * n ≤ length definitions.old }
    ensures { Filled definition_bytes (many n read_definition from.at (rest pack.now from.at)) from.at definition_width n 0 pack.now definitions.old definitions.new result }
{
    let mut cursor = from;
    for i in 0..n {
        let (definition, next) = read_definition(pack, cursor)?;
        put_definition(definitions, i, definition);
        cursor = next;
    }
    Ok(cursor)
}

// ---- the whole body

// Definitions and ranges, whose references add up to the head's total.
fn read_tail(
    pack: &[u8],
    from: BitCursor,
    head: Head,
    definitions: &mut [u8],
    ranges: &mut [u8],
    references: &mut [u8],
) -> Result<BitCursor, Refusal>
    requires head_bound { from.at + tail_width head ≤ max_place }
    requires head_fits { HeadFits head }
    requires definitions_value { definitions.old ≡ padded (definition_size * max_category_lines) [] }
    requires ranged { Ranged [] (record { ranges = ranges.old; references = references.old }) }
    ensures { TailIs pack.now from.at head definitions.new (record { ranges = ranges.new; references = references.new }) result }
{
    let behind = read_definitions(pack, from, head.lines, definitions)?;
    let (used, next) = read_ranges(
        pack,
        behind,
        head.ranges,
        head.categories,
        head.references,
        ranges,
        references,
    )?;
    if used != head.references {
        return Err(Refusal {
            number: PACK_RULE,
            place: next.at,
        });
    }
    Ok(next)
}

// The body that the head announces, into tables of the sizes that hold zero; how many bytes the names have.
pub fn read_body(
    pack: &[u8],
    from: BitCursor,
    head: Head,
    names: &mut [u8],
    categories: &mut [u8],
    definitions: &mut [u8],
    ranges: &mut [u8],
    references: &mut [u8],
) -> Result<(usize, BitCursor), Refusal>
    requires head_bound { from.at + body_width head ≤ max_place }
    requires head_fits { HeadFits head }
    requires references_value { record { names = names.old; categories = categories.old; definitions = definitions.old; ranges = ranges.old; references = references.old } ≡ in_room no_tables }
    ensures { BodyIs pack.now from.at head (record { names = names.new; categories = categories.new; definitions = definitions.new; ranges = ranges.new; references = references.new }) result }
{
    let (bytes, behind) = read_names(pack, from, head.categories, names, categories)?;
    let next = read_tail(pack, behind, head, definitions, ranges, references)?;
    Ok((bytes, next))
}
