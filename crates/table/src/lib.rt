// Lent bytes: numbers with the least byte first, read and written at any place, and zero bytes up to a size. Every function takes
// whatever place it is handed.
#![tactic(auto)]

ghost use Rattle.std.specs.Prelude.{◌≡◌, ◌<◌};
ghost use Rattle.paper.specs.Numbers.Bytes.{le};
ghost use Rattle.paper.specs.Tables.Lent.{got, patch, zeroed};

// The entries of a reading's tables, in bytes, and where a field stands in its entry, as `Tables.Layout` has them: a category is
// the start and the length of its name; a definition its length, invoke and group; a range its lower and upper bound, its first
// reference and how many; a reference a category number.
pub const CATEGORY_BYTES: usize = 4;

pub const NAME_LENGTH_AT: usize = 2;

pub const DEFINITION_BYTES: usize = 6;

pub const INVOKE_AT: usize = 4;

pub const GROUP_AT: usize = 5;

pub const RANGE_BYTES: usize = 8;

pub const UPPER_AT: usize = 2;

pub const FIRST_AT: usize = 4;

pub const COUNT_AT: usize = 6;

pub const REFERENCE_BYTES: usize = 2;

const U16_BYTES: usize = 2;

const U32_BYTES: usize = 4;

// Puts N bytes at a place; past the end nothing changes.
#[tactic(auto, unfolding(paper::specs::Tables::Lent::patch))]
fn put<const N: usize>(t: &mut [u8], at: usize, bytes: [u8; N])
    ensures { t.new ≡ patch at bytes.entry t.old }
{
    if N <= t.len() && at <= t.len() - N {
        t[at..at + N].copy_from_slice(&bytes);
    }
}

// One reader of N bytes, over `get` and `first_chunk`, was proved in place of the two below: find_category reads two numbers for each name, and the
// largest unk.def then took 1.44 of the Rust's time, above the goal of 1.0. So these stay.

// The number of two bytes at a place; past the end 0.
pub fn get_u16(t: &[u8], at: usize) -> u16
    ensures { result ≡ got 2 at t.now }
{
    if t.len() < U16_BYTES {
        return 0;
    }
    if t.len() - U16_BYTES < at {
        return 0;
    }
    let low = u16::from(t[at]);
    let high = u16::from(t[at + 1]);
    low + 256 * high
}

// The number of four bytes at a place; past the end 0.
pub fn get_u32(t: &[u8], at: usize) -> u32
    ensures { result ≡ got 4 at t.now }
{
    if t.len() < U32_BYTES {
        return 0;
    }
    if t.len() - U32_BYTES < at {
        return 0;
    }
    let a = u32::from(t[at]);
    let b = u32::from(t[at + 1]);
    let c = u32::from(t[at + 2]);
    let d = u32::from(t[at + 3]);
    a + 256 * (b + 256 * (c + 256 * d))
}

// Two bytes at a place become a number; past the end nothing changes.
pub fn put_u16(t: &mut [u8], at: usize, v: u16)
    ensures { t.new ≡ patch at (le 2 v) t.old }
{
    put(t, at, u16::to_le_bytes(v));
}

// Four bytes at a place become a number; past the end nothing changes.
pub fn put_u32(t: &mut [u8], at: usize, v: u32)
    ensures { t.new ≡ patch at (le 4 v) t.old }
{
    put(t, at, u32::to_le_bytes(v));
}

// The first n bytes become 0; where there are fewer nothing changes.
#[tactic(auto, unfolding(paper::specs::Tables::Lent::zeroed))]
pub fn zero(t: &mut [u8], n: usize)
    ensures { t.new ≡ zeroed n t.old }
{
    if n <= t.len() {
        t[..n].fill(0);
    }
}
