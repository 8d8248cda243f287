// The rooms that the reader of unk.def is lent, and its answer.
use paper::Refusal;
use replay::rooms::{GUARD, field_behind, refusal_agrees};
use replay::{after_field, byte_at, number_at};
use unk_enter::UnkCounts;

// The rooms by number, each with its guard.
pub const ENTRIES: usize = 32768 + GUARD;

pub const OFFSETS: usize = 16384 + GUARD;

pub const DETAILS: usize = 65536 + GUARD;

pub const PLACES: usize = 2048 + GUARD;

pub const MEMBERS: usize = 8192 + GUARD;

// Where `a` and `w` have their sum, with the tables of `w` behind it; how many fields each has.
pub const SUM_FIELD: usize = 3;

const FIELDS_OF_A: usize = 4;

const FIELDS_OF_W: usize = 9;

// Where the item behind `a` or `w` begins.
pub fn behind_answer(list: &[u8], at: usize) -> usize {
    match byte_at(list, at) {
        b'w' => field_behind(list, at, FIELDS_OF_W),
        _ => field_behind(list, at, FIELDS_OF_A),
    }
}

fn counts_agree(list: &[u8], at: usize, c: UnkCounts) -> bool {
    c.entries as u64 == number_at(list, at)
        && c.bytes as u64 == number_at(list, after_field(list, at))
}

// The item at a place says this answer.
pub fn answer_agrees(list: &[u8], at: usize, answer: Result<UnkCounts, Refusal>) -> bool {
    match answer {
        Ok(c) => byte_at(list, at) != b'r' && counts_agree(list, after_field(list, at), c),
        Err(r) => refusal_agrees(list, at, r),
    }
}
