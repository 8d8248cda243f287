// What a category's number says over any lent tables, its name and its definition; and the number of a name. No table is believed: what would lie
// outside of one is 26.
#![tactic(auto)]

ghost use Rattle.std.specs.Prelude.{◌≡◌};
ghost use Rattle.paper.specs.Rows.Numbers.{lookup_definition, category_name};
ghost use Rattle.by_name.specs.Lookup.{FindsCategory};
ghost use Rattle.numbered.specs.Numbers.{definition, name, name_held};

use packed::Span;
use paper::{NUMBER_UNKNOWN, Refusal, TABLES_APART};
use table::{CATEGORY_BYTES, DEFINITION_BYTES, GROUP_AT, INVOKE_AT, NAME_LENGTH_AT};

#[derive(Clone, Copy)]
pub struct CategoryData {
    pub invoke: bool,
    pub group: bool,
    pub length: u32,
}

// Definition number `id`: 15 where there are no more than `id`, 26 where it runs past the table.
#[tactic(auto, unfolding(paper::specs::Rows::Numbers::lookup_definition))]
pub fn lookup_definition(
    definitions: &[u8],
    count: usize,
    id: usize,
) -> Result<CategoryData, Refusal>
    ensures { result ≡ definition (lookup_definition definitions.now count id) }
{
    if count <= id {
        return Err(Refusal {
            number: NUMBER_UNKNOWN,
            place: 0,
        });
    }
    if definitions.len() / DEFINITION_BYTES <= id {
        return Err(Refusal {
            number: TABLES_APART,
            place: 0,
        });
    }
    let at = DEFINITION_BYTES * id;
    Ok(CategoryData {
        invoke: definitions[at + INVOKE_AT] == 1,
        group: definitions[at + GROUP_AT] == 1,
        length: table::get_u32(definitions, at),
    })
}

// Where the name of category `id` stands in the store: 15 where there are no more than `id`, 26 where its slot or the name runs past.
#[tactic(auto, unfolding(paper::specs::Rows::Numbers::category_name))]
pub fn locate_name(
    names: &[u8],
    categories: &[u8],
    count: usize,
    id: usize,
) -> Result<Span, Refusal>
    ensures { result ≡ name (category_name names.now categories.now count id) }
{
    if count <= id {
        return Err(Refusal {
            number: NUMBER_UNKNOWN,
            place: 0,
        });
    }
    if categories.len() / CATEGORY_BYTES <= id {
        return Err(Refusal {
            number: TABLES_APART,
            place: 0,
        });
    }
    let at = CATEGORY_BYTES * id;
    let start = usize::from(table::get_u16(categories, at));
    let len = usize::from(table::get_u16(categories, at + NAME_LENGTH_AT));
    if names.len() < start + len {
        return Err(Refusal {
            number: TABLES_APART,
            place: 0,
        });
    }
    Ok(Span { start, len })
}

// The name of category `id`, a part of the store; empty where `locate_name` refuses.
pub fn category_name<'a>(names: &'a [u8], categories: &[u8], count: usize, id: usize) -> &'a [u8]
    ensures { result.now ≡ name_held names.now (category_name names.now categories.now count id) }
{
    match locate_name(names, categories, count, id) {
        Ok(Span { start, len }) => &names[start..start + len],
        Err(_) => &names[0..0],
    }
}

// The lowest number with that name, that there is none, or 26.
pub fn category_id_by_name(
    names: &[u8],
    categories: &[u8],
    count: usize,
    name: &[u8],
) -> Result<Option<usize>, Refusal>
    ensures { FindsCategory names.now categories.now count name.now result }
{
    by_name::find_category(names, categories, count, name)
}
