// Whether four lent slices have room for so many rows and pool places. By their lengths alone, since a test beside the slices is dear to prove.
#![tactic(auto)]

ghost use Rattle.row_room.specs.Room.{RoomIs};

pub fn has_room(rows: usize, places: usize, b: usize, s: usize, l: usize, p: usize) -> bool
    ensures { RoomIs rows places b s l p result }
{
    rows <= b && rows <= s && rows <= l && places <= p
}
