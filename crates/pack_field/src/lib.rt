// What the readers of a pack's parts share: what they answer, and a field that is held to a limit.
#![tactic(auto)]

ghost use Rattle.std.specs.Prelude.{◌≡◌, ◌≤◌};
ghost use Rattle.paper.specs.Sizes.{max_references};
ghost use Rattle.paper.specs.Computed.ReadPack.{number, count_rule};
ghost use Rattle.field.specs.Cursor.{widest, rest, said};
ghost use Rattle.pack_field.specs.Parts.{max_place};

use field::BitCursor;
use paper::{PACK_RULE, Refusal};

// A field that, with what is used already, stays within a limit.
pub fn limited(
    pack: &[u8],
    from: BitCursor,
    width: usize,
    used: usize,
    limit: usize,
) -> Result<(u32, BitCursor), Refusal>
    requires at_le_max_place { (from.at ≤ max_place) × ((1 ≤ width) × (width ≤ widest)) }
    requires used_le_max_references { used ≤ max_references }
    ensures { said pack.now result ≡ number width (count_rule limit used) from.at (rest pack.now from.at) }
{
    let (v, next) = from.field(pack, width)?;
    if limit < used + v as usize {
        return Err(Refusal {
            number: PACK_RULE,
            place: from.at,
        });
    }
    Ok((v, next))
}
