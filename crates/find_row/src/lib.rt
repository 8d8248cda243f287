// The search among boundaries: which row a code point has. It takes any boundaries, so that a lookup needs no builder.
#![tactic(auto)]

ghost use Rattle.find_row.specs.Sought.{RowSought};

// The search: the last boundary at or below c where they rise from 0; over any others some index inside, or 0. By hand and not by `partition_point`,
// since over boundaries that do not rise that gives another index, and none is asked to rise.
pub fn eval(boundaries: &[u32], c: u32) -> usize
    ensures { RowSought boundaries.now c result }
{
    let mut lo = 0;
    let mut hi = boundaries.len();
    while 1 < hi - lo {
        let mid = lo + (hi - lo) / 2;
        if boundaries[mid] <= c {
            lo = mid;
        } else {
            hi = mid;
        }
    }
    lo
}
