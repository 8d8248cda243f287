// The rule on bounds, for packs and for tables that are handed in.
#![tactic(auto)]

ghost use Rattle.std.specs.Prelude.{◌≡◌};
ghost use Rattle.paper.specs.Pack.Rules.{is_bound};

const FIRST_SURROGATE: u16 = 0xD800;

const LAST_SURROGATE: u16 = 0xDFFF;

const BYTE_ORDER_MARK: u16 = 0xFEFF;

const NOT_A_CHARACTER: u16 = 0xFFFE;

// A bound is not D800 to DFFF, FEFF or FFFE.
#[tactic(auto, unfolding(paper::specs::Pack::Rules::is_bound))]
pub fn is_bound(x: u16) -> bool
    ensures { result ≡ is_bound x }
{
    !matches!(
        x,
        FIRST_SURROGATE..=LAST_SURROGATE | BYTE_ORDER_MARK | NOT_A_CHARACTER
    )
}
