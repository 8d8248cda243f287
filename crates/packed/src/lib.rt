// The packed entry of a code point, and one category of the flat pool. The index and the pool are lent, and neither is believed: what would lie outside of
// one is 26. What the lookup of categories needs besides stands here too: which numbers are scalar values, and how a flat entry is put together.
#![tactic(auto)]

ghost use Rattle.std.specs.Prelude.{◌≡◌};
ghost use Rattle.paper.specs.Text.Scalar.{is_scalar};
ghost use Rattle.paper.specs.Rows.Lookup.{packed_at};
ghost use Rattle.packed.specs.Entries.{packed, category_in, category};

use paper::{BMP_SIZE, NOT_SCALAR, Refusal, TABLES_APART};

// A flat entry is offset * OFFSET_UNIT + length.
pub const OFFSET_UNIT: u32 = 256;

const FIRST_SURROGATE: u32 = 0xD800;

const LAST_SURROGATE: u32 = 0xDFFF;

const LAST_SCALAR: u32 = 0x10FFFF;

// A part of a store.
#[derive(Clone, Copy)]
pub struct Span {
    pub start: usize,
    pub len: usize,
}

// A part of the flat pool, as small as the flat entry that names it.
#[derive(Clone, Copy)]
pub struct Packed {
    pub offset: u32,
    pub len: u16,
}

// A code point that is no surrogate.
#[tactic(auto, unfolding(paper::specs::Text::Scalar::is_scalar))]
pub fn is_scalar(c: u32) -> bool
    ensures { result ≡ is_scalar c }
{
    c < FIRST_SURROGATE || LAST_SURROGATE < c && c <= LAST_SCALAR
}

// The part of the flat pool that holds the categories of a code point; absent beyond the BMP or with an empty index. An entry that is there comes before
// what is asked of the others, and what stands below the surrogates, as most characters do, needs no other test.
#[tactic(auto, unfolding(paper::specs::Rows::Lookup::packed_at))]
pub fn lookup_categories_packed(flat_index: &[u32], c: u32) -> Result<Option<Packed>, Refusal>
    ensures { result ≡ packed (packed_at flat_index.now c) }
{
    let at = c as usize;
    if c < FIRST_SURROGATE || LAST_SURROGATE < c && at < BMP_SIZE {
        if at < flat_index.len() {
            let entry = flat_index[at];
            return Ok(Some(Packed {
                offset: entry / OFFSET_UNIT,
                len: (entry % OFFSET_UNIT) as u16,
            }));
        }
    }
    if !is_scalar(c) {
        return Err(Refusal {
            number: NOT_SCALAR,
            place: 0,
        });
    }
    if flat_index.is_empty() || BMP_SIZE <= at {
        return Ok(None);
    }
    Err(Refusal {
        number: TABLES_APART,
        place: 0,
    })
}

// One category of the flat pool, for whoever keeps a packed part.
#[tactic(auto, unfolding(crate::specs::Entries::category_in))]
pub fn flat_category(flat_pool: &[u16], i: usize) -> Result<u16, Refusal>
    ensures { result ≡ category (category_in flat_pool.now i) }
{
    flat_pool.get(i).copied().ok_or(Refusal {
        number: TABLES_APART,
        place: 0,
    })
}
