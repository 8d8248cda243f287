// Writes the pack: "The pack", the writer. It tests the tables and the room; the fields go out part by part, and zero bits behind them.
#![tactic(auto)]

ghost use Rattle.std.specs.Prelude.{◌≡◌, ◌++◌, ◌≤◌, T, length, drop};
ghost use Rattle.paper.specs.Pack.Fields.{pack_bytes};
ghost use Rattle.paper.specs.Computed.HandedIn.{decoded, holds};
ghost use Rattle.hold.specs.HandedIn.{tables};
ghost use Rattle.packer.specs.Length.{pack_length, Limited};
ghost use Rattle.packer.specs.Write.{WritesPack};

use field::{
    BOUND_WIDTH, BYTE_WIDTH, CATEGORIES_WIDTH, COUNT_WIDTH, FLAG_WIDTH, LENGTH_WIDTH, LINES_WIDTH,
    NAME_LENGTH_WIDTH, NUMBER_WIDTH, RANGES_WIDTH, REFERENCES_WIDTH, VERSION_WIDTH,
};
use hold::Reading;
use paper::{Counts, PACK_ROOM_SHORT, Refusal, TABLES_APART};

// The widths in bits of the head, of a definition, and of a range without its references.
const HEAD_WIDTH: usize = VERSION_WIDTH
    + CATEGORIES_WIDTH
    + LINES_WIDTH
    + RANGES_WIDTH
    + REFERENCES_WIDTH;

const DEFINITION_WIDTH: usize = FLAG_WIDTH + FLAG_WIDTH + LENGTH_WIDTH;

const RANGE_WIDTH: usize = BOUND_WIDTH + BOUND_WIDTH + COUNT_WIDTH;

// The length in bytes of a pack with these counts: "zero bits fill the last byte".
fn pack_length(counts: Counts) -> usize
    requires { Limited counts }
    ensures { result ≡ pack_length counts }
{
    let names = NAME_LENGTH_WIDTH * counts.categories + BYTE_WIDTH * counts.bytes;
    let definitions = DEFINITION_WIDTH * counts.definitions;
    let ranges = RANGE_WIDTH * counts.ranges + NUMBER_WIDTH * counts.references;
    (HEAD_WIDTH + names + definitions + ranges + BYTE_WIDTH - 1) / BYTE_WIDTH
}

// The pack of tables that hold together, in a room that is long enough: its fields, and zero bits up to the end of the last byte.
fn put_pack(out: &mut [u8], reading: &Reading)
    requires t { T (holds (tables reading.now) reading.now.counts) }
    requires counts_in_bounds { pack_length reading.now.counts ≤ length out.old }
    ensures { out.new ≡ pack_bytes (decoded (tables reading.now) reading.now.counts) ++ drop (length (pack_bytes (decoded (tables reading.now) reading.now.counts))) out.old }
{
    let end = put_parts::put_fields(out, reading);
    let pad = (BYTE_WIDTH - end.waiting) % BYTE_WIDTH;
    end.put(out, pad, 0);
}

// Writes the pack of a reading that is handed in as tables with their counts. Nothing is written for 26 and 22, and nothing behind the
// pack.
pub fn write_pack(reading: &Reading, out: &mut [u8]) -> Result<usize, Refusal>
    ensures { WritesPack (tables reading.now) reading.now.counts out.old out.new result }
{
    if !reading.holds() {
        return Err(Refusal {
            number: TABLES_APART,
            place: 0,
        });
    }
    let need = pack_length(reading.counts);
    if out.len() < need {
        return Err(Refusal {
            number: PACK_ROOM_SHORT,
            place: 0,
        });
    }
    put_pack(out, reading);
    Ok(need)
}
