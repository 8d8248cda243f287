// DEFAULT's number: what a row has where its ranges name no category. Both builders look it up once, before they walk.
#![tactic(auto)]

ghost use Rattle.std.specs.Prelude.{◌≡◌, ◌≤◌};
ghost use Rattle.paper.specs.Sizes.{max_categories};
ghost use Rattle.paper.specs.Rows.Covering.{default};
ghost use Rattle.paper.specs.Rows.Numbers.{find_name};
ghost use Rattle.cover.specs.Fallback.{fallback_row};
ghost use Rattle.fallback.specs.Fallback.{found_row};

const DEFAULT: [u8; 7] = *b"DEFAULT";

// DEFAULT's number, found by its name.
pub fn fallback_of(names: &[u8], categories: &[u8], count: usize) -> Option<u16>
    requires { count ≤ max_categories }
    ensures { fallback_row result ≡ found_row (find_name names.now categories.now count default) }
{
    match by_name::find_category(names, categories, count, &DEFAULT) {
        Ok(Some(number)) => Some(number as u16),
        Ok(None) | Err(_) => None,
    }
}
