// The names that were read so far in a text: all their bytes stand in one store, one behind another, and a slot for each name says
// where. Each slot has room for a hint besides, by which a name is found without trying all. All slots are written out in the end.
#![tactic(auto)]

ghost use Rattle.std.specs.Prelude.{◌≡◌, ◌+◌, ◌*◌, ◌-◌, ◌/◌, ◌%◌, ◌≤◌, ◌<◌, length, take, drop, get_or, set};
ghost use Rattle.paper.specs.Sizes.{max_categories, max_name_bytes};
ghost use Rattle.slot.specs.Slots.{slot_unit, hint_unit, with_word, with_hint, hint_of, written};
ghost use Rattle.slot.specs.Laid.{Sought, Tells, FindsIn, Added};

use paper::MAX_CATEGORIES;
use table::{CATEGORY_BYTES, NAME_LENGTH_AT};

// While a text is read a slot is one number, hint * HINT_UNIT + start * SLOT_UNIT + length; start and length are 0 where no name has it.
const SLOT_UNIT: u64 = 65536;

// A hint is the number of a name whose mark gives this slot's place. It is tried and never believed: where it is another name's, all slots are
// looked at.
const HINT_UNIT: u64 = 4294967296;

// As many places for hints as slots.
const HINTS: u32 = 512;

fn slot_start(slot: u64) -> usize
    ensures { result ≡ slot % hint_unit / slot_unit }
{
    (slot % HINT_UNIT / SLOT_UNIT) as usize
}

fn slot_len(slot: u64) -> usize
    ensures { result ≡ slot % slot_unit }
{
    (slot % SLOT_UNIT) as usize
}

// The number that a name's slot says below its hint.
fn word_of(at: usize, len: usize) -> u64
    requires { at + len ≤ max_name_bytes }
    ensures { (result ≡ at * slot_unit + len) × (result < hint_unit) }
{
    (at as u64) * SLOT_UNIT + (len as u64)
}

// The place of the slot that holds the hint of a name, the text from `start` to `end`.
fn hint_at(text: &[u8], start: usize, end: usize) -> usize
    requires { (start ≤ end) × (end ≤ length text.now) }
    ensures { (result < max_categories) × (result ≡ hint_of (drop start (take end text.now))) }
{
    (mark::mark_of(&text[start..end]) % HINTS) as usize
}

// Name i is the text from `start` to `end`. Bytes first, of which the last decides most often: where all names have one length, its test
// only costs.
fn is_name(names: &[u8], slots: &[u64], i: usize, text: &[u8], start: usize, end: usize) -> bool
    requires { (i < length slots.now) × ((start ≤ end) × (end ≤ length text.now)) }
    ensures { Tells names.now slots.now (drop start (take end text.now)) i result }
{
    let slot = slots[i];
    seek::holds_at(names, slot_start(slot), text, start, end) && slot_len(slot) == end - start
}

// The lowest number whose name is the text from `start` to `end`, one after another.
fn try_all(
    names: &[u8],
    slots: &[u64],
    count: usize,
    text: &[u8],
    start: usize,
    end: usize,
) -> Option<usize>
    requires { (count ≤ max_categories) × Sought slots.now text.now start end }
    ensures { FindsIn names.now slots.now count (drop start (take end text.now)) result }
{
    for i in 0..count {
        if is_name(names, slots, i, text, start, end) {
            return Some(i);
        }
    }
    None
}

// The lowest number whose name is the text from `start` to `end`: the hint's where it is the name's, since no name is there twice.
pub fn find_name(
    names: &[u8],
    slots: &[u64],
    count: usize,
    text: &[u8],
    start: usize,
    end: usize,
) -> Option<usize>
    requires { (count ≤ max_categories) × Sought slots.now text.now start end }
    ensures { FindsIn names.now slots.now count (drop start (take end text.now)) result }
{
    let hint = (slots[hint_at(text, start, end)] / HINT_UNIT) as usize;
    if hint < count && is_name(names, slots, hint, text, start, end) {
        return Some(hint);
    }
    try_all(names, slots, count, text, start, end)
}

// Slot i with another word below its hint.
fn put_word(slots: &mut [u64], i: usize, word: u64)
    requires { (i < length slots.old) × (word < hint_unit) }
    ensures { slots.new ≡ set slots.old i (with_word word (get_or slots.old i 0)) }
{
    slots[i] = slots[i] / HINT_UNIT * HINT_UNIT + word;
}

// Slot i with another hint above its word.
fn put_hint(slots: &mut [u64], i: usize, hint: usize)
    requires { (i < length slots.old) × (hint < max_categories) }
    ensures { slots.new ≡ set slots.old i (with_hint hint (get_or slots.old i 0)) }
{
    slots[i] = (hint as u64) * HINT_UNIT + slots[i] % HINT_UNIT;
}

// The word and the hint of a new name: the text from `start` to `end`, whose bytes stand at `at` of the store.
pub fn add_slot(slots: &mut [u64], count: usize, at: usize, text: &[u8], start: usize, end: usize)
    requires count_lt_max_categories { (count < max_categories) × (at + (end - start) ≤ max_name_bytes) }
    requires sought { Sought slots.old text.now start end }
    ensures { Added slots.old count (at * slot_unit + (end - start)) (hint_of (drop start (take end text.now))) slots.new }
{
    put_word(slots, count, word_of(at, end - start));
    put_hint(slots, hint_at(text, start, end), count);
}

// Writes all slots out as the category table, unused ones as zero: where the reader accepts, its table is whole.
pub fn write_slots(slots: &[u64], categories: &mut [u8])
    ensures { categories.new ≡ written slots.now categories.old }
{
    if slots.len() < MAX_CATEGORIES || categories.len() < CATEGORY_BYTES * MAX_CATEGORIES {
        return;
    }
    for (i, slot) in slots[..MAX_CATEGORIES].iter().enumerate() {
        let at = CATEGORY_BYTES * i;
        table::put_u16(categories, at, slot_start(*slot) as u16);
        table::put_u16(categories, at + NAME_LENGTH_AT, slot_len(*slot) as u16);
    }
}
