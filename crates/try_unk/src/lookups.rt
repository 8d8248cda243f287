// Lookups over the tables that the reader left, whole and cut: the items `l` and `f` behind an accepted text.
use paper::Refusal;
use replay::items::bounded;
use replay::rooms::field_behind;
use replay::words::{refuses, spell};
use replay::{after_field, byte_at, field_at, front, number_at};
use word::{Span, WordEntry};

// The tables that the reader left, and how many categories and entries they have.
#[derive(Clone, Copy)]
pub struct Left<'a> {
    pub categories: usize,
    pub count: usize,
    pub entries: &'a [u8],
    pub offsets: &'a [u8],
    pub details: &'a [u8],
    pub places: &'a [u8],
    pub members: &'a [u8],
}

// The field at a place spells these bytes and no more.
fn spells(list: &[u8], at: usize, part: &[u8]) -> bool {
    let digits = field_at(list, at).text;
    byte_at(digits, 0) != b'x' && spell(digits, part)
}

// A part is empty where its lookup refuses.
fn part_agrees(list: &[u8], at: usize, found: Result<Span, Refusal>, part: &[u8]) -> bool {
    match found {
        Ok(_) => spells(list, at, part),
        Err(r) => part.is_empty() && refuses(list, at, r),
    }
}

fn entry_agrees(list: &[u8], at: usize, found: Result<WordEntry, Refusal>) -> bool {
    match found {
        Ok(w) => {
            let [a, b] = w.left.to_le_bytes();
            let [c, d] = w.right.to_le_bytes();
            let [e, f] = w.cost.to_le_bytes();
            spells(list, at, &[a, b, c, d, e, f])
        }
        Err(r) => refuses(list, at, r),
    }
}

// What the three lookups give at the number that an item names.
fn number_agrees(list: &[u8], at: usize, t: Left) -> bool {
    let n = number_at(list, at) as usize;
    let ids = after_field(list, at);
    let entry = after_field(list, ids);
    part_agrees(
        list,
        ids,
        word::locate_word_ids(t.places, t.members, t.categories, n),
        word::lookup_word_ids(t.places, t.members, t.categories, n),
    ) && entry_agrees(list, entry, word::word_entry(t.entries, t.count, n))
        && part_agrees(
            list,
            after_field(list, entry),
            word::locate_details(t.offsets, t.details, t.count, n),
            word::word_details(t.offsets, t.details, t.count, n),
        )
}

// The tables, each lent as long as its size says.
fn cut<'a>(t: Left<'a>, sizes: [usize; 5]) -> Left<'a> {
    Left {
        entries: front(t.entries, sizes[0]),
        offsets: front(t.offsets, sizes[1]),
        details: front(t.details, sizes[2]),
        places: front(t.places, sizes[3]),
        members: front(t.members, sizes[4]),
        ..t
    }
}

// The lookups that are listed at a place, up to an item that is none: each is one at a number, or says how much of a
// table is lent from there on.
pub fn agree(list: &[u8], start: usize, t: Left) -> bool {
    let mut at = start;
    let mut sizes = [
        t.entries.len(),
        t.offsets.len(),
        t.details.len(),
        t.places.len(),
        t.members.len(),
    ];
    for _ in 0..list.len() {
        let one = after_field(list, at);
        let two = after_field(list, one);
        match byte_at(list, at) {
            b'l' => {
                if !number_agrees(list, one, cut(t, sizes)) {
                    return false;
                }
                at = field_behind(list, two, 3);
            }
            b'f' => {
                let table = number_at(list, one) as usize;
                sizes[table.min(4)] = bounded(number_at(list, two));
                at = after_field(list, two);
            }
            _ => return true,
        }
    }
    true
}
