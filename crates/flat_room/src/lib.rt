// What stands in the way of a flat table: a row that is too long, or a lent slice that is too short. By lengths alone, since a test beside the slices
// is dear to prove.
#![tactic(auto)]

ghost use Rattle.std.specs.Prelude.{◌≡◌};
ghost use Rattle.flat_room.specs.Room.{refusal};

use paper::{BMP_SIZE, FLAT_ROW_LONG, TABLE_ROOM_SHORT};

// A flat entry is offset * 256 + length, so a row has at most so many categories.
const MAX_FLAT_ROW: usize = 255;

// The number of the refusal, 16, then 17, if there is one.
#[tactic(auto, unfolding(crate::specs::Room::refusal))]
pub fn refusal_of(longest: usize, places: usize, index: usize, pool: usize) -> Option<u32>
    ensures { result ≡ refusal longest places index pool }
{
    if MAX_FLAT_ROW < longest {
        return Some(FLAT_ROW_LONG);
    }
    if index < BMP_SIZE || pool < places {
        return Some(TABLE_ROOM_SHORT);
    }
    None
}
