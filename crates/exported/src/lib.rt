// What C gets of an outcome: one number, and the counts in a lent slice. The entries stand above, in `terminal` and `terminal_unk`.
#![tactic(auto)]

ghost use Rattle.std.specs.Prelude.{◌≡◌, cond, ◌+◌, ◌*◌, ◌<◌, ◌≤◌, length};
ghost use Rattle.paper.specs.Tables.Reader.{clears};
ghost use Rattle.paper.specs.Tables.Lent.{patch, zeroed};
ghost use Rattle.exported.specs.Answer.{place_unit, counts_size, count_bytes};
ghost use Rattle.exported.specs.Room.{Exportable, Sixteen, Gives};

use paper::{
    Counts, NAME_BYTES_FULL, PACK_LEFT_OVER, PACK_VERSION, RANGE_PARTS, Refusal, UNK_ENTRIES_FULL,
    UNK_FIELDS,
};

// The counts of a reading, five numbers of two bytes.
pub const COUNTS_SIZE: usize = 10;

pub const DEFINITIONS_AT: usize = 2;

pub const RANGES_AT: usize = 4;

pub const REFERENCES_AT: usize = 6;

pub const BYTES_AT: usize = 8;

// A refusal is its number and its place times this.
pub const PLACE_UNIT: u64 = 256;

// "4 to 13, 18 to 21 and 23 to 25 leave the output room zero"
fn is_clearing(number: u32) -> bool
    ensures { result ≡ clears number }
{
    matches!(
        number,
        RANGE_PARTS..=NAME_BYTES_FULL | PACK_VERSION..=PACK_LEFT_OVER | UNK_FIELDS..=UNK_ENTRIES_FULL
    )
}

// What a refusal leaves of counts of this size.
pub fn leave_counts(counts: &mut [u8], size: usize, number: u32)
    ensures { counts.new ≡ cond (clears number) (zeroed size counts.old) counts.old }
{
    if is_clearing(number) {
        table::zero(counts, size);
    }
}

// A refusal as C gets it: its number and its place in one, and what it leaves of counts of this size.
pub fn refuse(x: Refusal, counts: &mut [u8], size: usize) -> u64
    requires { x.place < 0x1_0000_0000 }
    ensures number { result ≡ x.number + place_unit * x.place }
    ensures left { counts.new ≡ cond (clears x.number) (zeroed size counts.old) counts.old }
{
    leave_counts(counts, size, x.number);
    u64::from(x.number) + PLACE_UNIT * x.place as u64
}

fn put_counts(counts: &mut [u8], n: Counts)
    requires counts_size_in_bounds { counts_size ≤ length counts.old }
    requires sixteen { Sixteen n }
    ensures { counts.new ≡ patch 0 (count_bytes n) counts.old }
{
    table::put_u16(counts, 0, n.categories as u16);
    table::put_u16(counts, DEFINITIONS_AT, n.definitions as u16);
    table::put_u16(counts, RANGES_AT, n.ranges as u16);
    table::put_u16(counts, REFERENCES_AT, n.references as u16);
    table::put_u16(counts, BYTES_AT, n.bytes as u16);
}

// An outcome as C gets it: the number, and the counts or what a refusal leaves in their place.
pub fn give(outcome: Result<Counts, Refusal>, counts: &mut [u8]) -> u64
    requires counts_size_in_bounds { counts_size ≤ length counts.old }
    requires exportable { Exportable outcome }
    ensures { Gives outcome counts.old counts.new result }
{
    match outcome {
        Ok(n) => {
            put_counts(counts, n);
            0
        }
        Err(x) => refuse(x, counts, COUNTS_SIZE),
    }
}
