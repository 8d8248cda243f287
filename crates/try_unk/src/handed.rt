// The reading's tables that the reader is handed: as `char_def::parse` leaves them, and then as the items `m`, `k`
// and `s` of a line change them.
use paper::Counts;
use replay::items::bounded;
use replay::rooms::{CATEGORIES, DEFINITIONS, NAMES, RANGES, REFERENCES, put_into, with_count};
use replay::{after_field, byte_at, number_at};

// A number above 32 bits stands in a list as two.
const HALF: u64 = 0x1_0000_0000;

// Where the list is read, the counts, and how many bytes of each table are handed in.
#[derive(Clone, Copy)]
pub struct Handed {
    pub at: usize,
    pub counts: Counts,
    pub sizes: [usize; 5],
}

// One of the five sizes is another, the last for a number of none.
fn with_size(sizes: [usize; 5], table: usize, n: usize) -> [usize; 5] {
    let mut next = sizes;
    next[table.min(4)] = n;
    next
}

// The bytes that an item names, put into the table that it names.
fn put_named(
    list: &[u8],
    at: usize,
    names: &mut [u8],
    categories: &mut [u8],
    definitions: &mut [u8],
    ranges: &mut [u8],
    references: &mut [u8],
) {
    let place = after_field(list, at);
    put_into(
        list,
        after_field(list, place),
        bounded(number_at(list, place)),
        number_at(list, at) as usize,
        names,
        categories,
        definitions,
        ranges,
        references,
    );
}

// The count that two fields say.
fn count_at(list: &[u8], at: usize) -> usize {
    let low = number_at(list, after_field(list, at)) % HALF;
    (number_at(list, at) % HALF * HALF + low) as usize
}

// What is handed in behind one item, but for what `m` does to the tables; none where the changes end.
fn step(list: &[u8], h: Handed) -> Option<Handed> {
    let one = after_field(list, h.at);
    let two = after_field(list, one);
    let three = after_field(list, two);
    let which = number_at(list, one) as usize;
    match byte_at(list, h.at) {
        b'm' => Some(Handed {
            at: after_field(list, three),
            ..h
        }),
        b'k' => Some(Handed {
            at: after_field(list, three),
            counts: with_count(h.counts, which, count_at(list, two)),
            ..h
        }),
        b's' => Some(Handed {
            at: three,
            sizes: with_size(h.sizes, which, bounded(number_at(list, two))),
            ..h
        }),
        _ => None,
    }
}

// The items at a place that change what is handed in, up to the first that does not.
pub fn changed(
    list: &[u8],
    at: usize,
    counts: Counts,
    names: &mut [u8],
    categories: &mut [u8],
    definitions: &mut [u8],
    ranges: &mut [u8],
    references: &mut [u8],
) -> Handed {
    let mut h = Handed {
        at,
        counts,
        sizes: [NAMES, CATEGORIES, DEFINITIONS, RANGES, REFERENCES],
    };
    for _ in 0..list.len() {
        let Some(next) = step(list, h) else {
            break;
        };
        if byte_at(list, h.at) == b'm' {
            let item = after_field(list, h.at);
            put_named(
                list,
                item,
                names,
                categories,
                definitions,
                ranges,
                references,
            );
        }
        h = next;
    }
    h
}
