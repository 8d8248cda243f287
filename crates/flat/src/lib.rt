// The flat table: for each code point of the BMP an entry that says where its categories stand in a pool. One walk finds the exact need and the
// longest row, a second one fills.
#![tactic(auto)]

ghost use Rattle.cover.specs.Slots.{slots_got};
ghost use Rattle.cover.specs.Fallback.{fallback_row};
ghost use Rattle.fill_rows.specs.Walked.{boundaries_of, rows_of};
ghost use Rattle.fill_flat.specs.Walked.{Buildable};
ghost use Rattle.hold.specs.HandedIn.{tables};
ghost use Rattle.flat.specs.Built.{BuildsFlat};
ghost use Rattle.flat.specs.Made.{BuildsOf};

use hold::Reading;
use paper::{BMP_SIZE, Refusal, TABLES_APART};

// The flat table of two tables; 16, then 17, before anything is written.
fn build_flat(
    ranges: &[u8],
    references: &[u8],
    count: usize,
    fallback: Option<u16>,
    index: &mut [u32],
    pool: &mut [u16],
) -> Result<usize, Refusal>
    requires { Buildable ranges.now references.now count (fallback_row fallback) }
    ensures { BuildsOf (boundaries_of (slots_got 0 count ranges.now)) (rows_of (fallback_row fallback) (slots_got 0 count ranges.now) references.now) (record { index = index.old; pool = pool.old }) (record { index = index.new; pool = pool.new }) result }
{
    let need = fill_rows::rows_need(ranges, references, count, fallback);
    let places = need.places;
    if let Some(number) = flat_room::refusal_of(need.longest, places, index.len(), pool.len()) {
        return Err(Refusal { number, place: 0 });
    }
    fill_flat::fill_fresh(
        ranges,
        references,
        count,
        fallback,
        &mut index[..BMP_SIZE],
        pool,
    );
    Ok(places)
}

// Builds the flat table of a reading handed in. Each refusal comes before anything is written; what lies behind the table stays.
pub fn build_flat_table(
    reading: &Reading,
    flat_index: &mut [u32],
    flat_pool: &mut [u16],
) -> Result<usize, Refusal>
    ensures { BuildsFlat (tables reading.now) reading.now.counts (record { index = flat_index.old; pool = flat_pool.old }) (record { index = flat_index.new; pool = flat_pool.new }) result }
{
    if !reading.holds() {
        return Err(Refusal {
            number: TABLES_APART,
            place: 0,
        });
    }
    let fallback = fallback::fallback_of(
        reading.names,
        reading.categories,
        reading.counts.categories,
    );
    build_flat(
        reading.ranges,
        reading.references,
        reading.counts.ranges,
        fallback,
        flat_index,
        flat_pool,
    )
}
