// The end of a pack: zero bits fill its last byte, and nothing stands behind them.
#![tactic(auto)]

ghost use Rattle.std.specs.Prelude.{◌≡◌, ◌≤◌};
ghost use Rattle.paper.specs.Computed.ReadPack.{is_padding};
ghost use Rattle.field.specs.Cursor.{rest};
ghost use Rattle.pack_field.specs.Parts.{max_place};

use field::{BYTE_WIDTH, BitCursor};

// Zero bits fill the last byte, and nothing stands behind them.
pub fn is_padding(pack: &[u8], from: BitCursor) -> bool
    requires { from.at ≤ max_place }
    ensures { result ≡ is_padding (rest pack.now from.at) }
{
    let whole = from.at / BYTE_WIDTH;
    let over = from.at % BYTE_WIDTH;
    if pack.len() <= whole {
        return true;
    }
    if over == 0 || whole + 1 < pack.len() {
        return false;
    }
    from.field(pack, BYTE_WIDTH - over)
        .is_ok_and(|(v, _)| v == 0)
}
