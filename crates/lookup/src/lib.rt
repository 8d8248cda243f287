// The lookup of a code point's categories over any lent tables, by the flat table or by rows. No table is believed: what would lie outside of one is
// 26.
#![tactic(auto)]

ghost use Rattle.std.specs.Prelude.{◌≡◌, ◌<◌, length, get_or};
ghost use Rattle.paper.specs.Rows.Lookup.{from_zero};
ghost use Rattle.lookup.specs.Categories.{located, Locates, PartIs};
ghost use Rattle.lookup.specs.Ways.{by_flat, of_row, ByRows};

use packed::{OFFSET_UNIT, Span};
use paper::{BMP_SIZE, NOT_SCALAR, Refusal, TABLES_APART};

#[derive(Clone, Copy)]
pub enum Located {
    InFlat(Span),
    InRows(Span),
}

// "The boundary list it uses is empty or doesn't begin at 0" is false.
fn begins_at_zero(boundaries: &[u32]) -> bool
    ensures { result ≡ from_zero boundaries.now }
{
    matches!(boundaries.first(), Some(0))
}

// By the flat table: the part that the entry of a code point names.
#[tactic(auto, unfolding(crate::specs::Ways::by_flat))]
fn in_flat(flat_index: &[u32], places: usize, at: usize) -> Result<Located, Refusal>
    requires { at < length flat_index.now }
    ensures { result ≡ located (by_flat (get_or flat_index.now at 0) places) }
{
    let entry = flat_index[at];
    let start = (entry / OFFSET_UNIT) as usize;
    let len = (entry % OFFSET_UNIT) as usize;
    if places < start + len {
        return Err(Refusal {
            number: TABLES_APART,
            place: 0,
        });
    }
    Ok(Located::InFlat(Span { start, len }))
}

// The part of row number `row`.
#[tactic(auto, unfolding(crate::specs::Ways::of_row))]
fn of_row(
    row_starts: &[u32],
    row_lengths: &[u16],
    places: usize,
    row: usize,
) -> Result<Located, Refusal>
    ensures { result ≡ located (of_row row_starts.now row_lengths.now places row) }
{
    if row_starts.len() <= row || row_lengths.len() <= row {
        return Err(Refusal {
            number: TABLES_APART,
            place: 0,
        });
    }
    let start = row_starts[row] as usize;
    let len = usize::from(row_lengths[row]);
    let end = start + len;
    if places < end {
        return Err(Refusal {
            number: TABLES_APART,
            place: 0,
        });
    }
    Ok(Located::InRows(Span { start, len }))
}

// By rows: the part of the row that is found.
fn in_rows(
    boundaries: &[u32],
    row_starts: &[u32],
    row_lengths: &[u16],
    places: usize,
    c: u32,
) -> Result<Located, Refusal>
    ensures { ByRows boundaries.now row_starts.now row_lengths.now places c result }
{
    if !begins_at_zero(boundaries) {
        return Err(Refusal {
            number: TABLES_APART,
            place: 0,
        });
    }
    of_row(
        row_starts,
        row_lengths,
        places,
        find_row::eval(boundaries, c),
    )
}

// Where the categories of a code point stand: 14 where it is no scalar value, 26 where the tables do not hold together. By the flat table for
// the BMP when the index isn't empty, otherwise by rows.
pub fn locate_categories(
    flat_index: &[u32],
    flat_pool: &[u16],
    boundaries: &[u32],
    row_starts: &[u32],
    row_lengths: &[u16],
    row_pool: &[u16],
    c: u32,
) -> Result<Located, Refusal>
    ensures { Locates (record { index = flat_index.now; flat = flat_pool.now; boundaries = boundaries.now; starts = row_starts.now; lengths = row_lengths.now; pool = row_pool.now }) c result }
{
    if !packed::is_scalar(c) {
        return Err(Refusal {
            number: NOT_SCALAR,
            place: 0,
        });
    }
    if flat_index.is_empty() {
        return in_rows(boundaries, row_starts, row_lengths, row_pool.len(), c);
    }
    if flat_index.len() != BMP_SIZE {
        return Err(Refusal {
            number: TABLES_APART,
            place: 0,
        });
    }
    let at = c as usize;
    if at < BMP_SIZE {
        return in_flat(flat_index, flat_pool.len(), at);
    }
    in_rows(boundaries, row_starts, row_lengths, row_pool.len(), c)
}

// The categories of a code point, a part of the flat pool or of the row pool; empty where `locate_categories` refuses.
pub fn lookup_categories<'a>(
    flat_index: &[u32],
    flat_pool: &'a [u16],
    boundaries: &[u32],
    row_starts: &[u32],
    row_lengths: &[u16],
    row_pool: &'a [u16],
    c: u32,
) -> &'a [u16]
    ensures { PartIs (record { index = flat_index.now; flat = flat_pool.now; boundaries = boundaries.now; starts = row_starts.now; lengths = row_lengths.now; pool = row_pool.now }) c result.now }
{
    match locate_categories(
        flat_index,
        flat_pool,
        boundaries,
        row_starts,
        row_lengths,
        row_pool,
        c,
    ) {
        Ok(Located::InFlat(Span { start, len })) => &flat_pool[start..start + len],
        Ok(Located::InRows(Span { start, len })) => &row_pool[start..start + len],
        Err(_) => &flat_pool[0..0],
    }
}
