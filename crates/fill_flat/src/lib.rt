// One pass over the rows into the flat index and its pool: each row goes behind the one before, and its entry, offset * 256 + length, to the code
// points from its boundary up to the next.
#![tactic(auto)]

ghost use Rattle.std.specs.Prelude.{◌≡◌, ◌+◌, ◌≤◌, length};
ghost use Rattle.paper.specs.Sizes.{bmp_size, max_row_places};
ghost use Rattle.paper.specs.Rows.Flat.{entry_of};
ghost use Rattle.cover.specs.Slots.{slots_got};
ghost use Rattle.cover.specs.Fallback.{fallback_row};
ghost use Rattle.fill_rows.specs.Walked.{boundaries_of, rows_of, Clean};
ghost use Rattle.fill_flat.specs.Walked.{Spread, Buildable, FlatFilled};

use paper::MAX_CATEGORIES;
use walk::NO_BOUNDARY;
use window::NEAR_BYTES;

// A flat entry is offset * OFFSET_UNIT + length.
const OFFSET_UNIT: usize = 256;

fn entry_of(offset: usize, len: usize) -> u32
    requires { offset + len ≤ max_row_places }
    ensures { result ≡ entry_of offset len }
{
    (offset * OFFSET_UNIT + len) as u32
}

// The code points from one boundary up to the next have one entry; those past the index have none.
fn spread(index: &mut [u32], from: usize, to: usize, entry: u32)
    ensures { Spread from to entry index.old index.new }
{
    let end = to.min(index.len());
    if from < end {
        index[from..end].fill(entry);
    }
}

// Walks from boundary to boundary: each row goes behind the one before, and its entry to the code points up to the next boundary. The stamp of a
// row is its number from 1.
fn fill_flat(
    ranges: &[u8],
    references: &[u8],
    count: usize,
    fallback: Option<u16>,
    seen: &mut [u32],
    near: &mut [u8],
    index: &mut [u32],
    pool: &mut [u16],
)
    requires { Buildable ranges.now references.now count (fallback_row fallback) × (Clean seen.old × (length index.old ≤ bmp_size)) }
    ensures { FlatFilled (boundaries_of (slots_got 0 count ranges.now)) (rows_of (fallback_row fallback) (slots_got 0 count ranges.now) references.now) (record { index = index.old; pool = pool.old }) (record { index = index.new; pool = pool.new }) }
{
    let mut w = window::open_window(ranges, count, 0, near);
    let mut rows: u32 = 0;
    let mut at: usize = 0;
    // A step is as long as the way to the next boundary.
    while w.at < NO_BOUNDARY {
        let end = window::covering_near(
            ranges,
            references,
            count,
            near,
            w,
            fallback,
            seen,
            rows + 1,
            pool,
            at,
        );
        let next = walk::step_on(ranges, count, near, w);
        let entry = entry_of(at, end - at);
        spread(index, w.at as usize, next.at as usize, entry);
        at = end;
        rows += 1;
        w = next;
    }
}

// The same, with the stamps.
pub fn fill_fresh(
    ranges: &[u8],
    references: &[u8],
    count: usize,
    fallback: Option<u16>,
    index: &mut [u32],
    pool: &mut [u16],
)
    requires { Buildable ranges.now references.now count (fallback_row fallback) × (length index.old ≤ bmp_size) }
    ensures { FlatFilled (boundaries_of (slots_got 0 count ranges.now)) (rows_of (fallback_row fallback) (slots_got 0 count ranges.now) references.now) (record { index = index.old; pool = pool.old }) (record { index = index.new; pool = pool.new }) }
{
    let mut seen = [0u32; MAX_CATEGORIES];
    let mut near = [0u8; NEAR_BYTES];
    fill_flat(
        ranges, references, count, fallback, &mut seen, &mut near, index, pool,
    );
}
