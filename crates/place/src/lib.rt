// Writes where there is a place, so that a walk over short slices only counts; and a row's entry by them. `cover` notes categories by the same writes.
#![tactic(auto)]

ghost use Rattle.std.specs.Prelude.{◌≡◌, set};
ghost use Rattle.place.specs.Entered.{Entered};

// An element of any type at a place; past the end nothing changes.
pub fn place<T: Copy>(t: &mut [T], at: usize, v: T)
    ensures { t.new ≡ set t.old at v }
{
    if at < t.len() {
        t[at] = v;
    }
}

// Row i: its boundary, and where it starts in the pool and how long it is there.
pub fn enter(
    boundaries: &mut [u32],
    starts: &mut [u32],
    lengths: &mut [u16],
    i: usize,
    b: u32,
    start: u32,
    len: u16,
)
    ensures { Entered i b start len boundaries.old boundaries.new starts.old starts.new lengths.old lengths.new }
{
    place(boundaries, i, b);
    place(starts, i, start);
    place(lengths, i, len);
}
