// The text of a line, built item by item: oracle/README.md has the items.
// Every function takes any list and any place; what doesn't fit a room is left out.
ghost use Rattle.std.specs.Prelude.{◌≤◌};

use crate::{after_field, byte_at, bytes_of, field_at, front, number_at};

// No list has a number above it.
const MOST: u64 = 100000;

// Where the list is read, how long the text and the base are, and the number of the room that is short.
#[derive(Clone, Copy)]
pub struct Reader {
    pub at: usize,
    pub size: usize,
    pub base: usize,
    pub short: Option<usize>,
}

pub fn bounded(n: u64) -> usize
    ensures { result ≤ 100000 }
{
    (n % (MOST + 1)) as usize
}

// The bytes of the field at a place, put behind the text; how long it is then.
pub fn put_field(list: &[u8], at: usize, text: &mut [u8], size: usize) -> usize {
    if text.len() < size {
        return text.len();
    }
    size + bytes_of(field_at(list, at).text, &mut text[size..])
}

fn put_times(list: &[u8], at: usize, text: &mut [u8], size: usize, times: usize) -> usize {
    let mut end = size;
    for _ in 0..times {
        end = put_field(list, at, text, end);
    }
    end
}

fn put_byte(text: &mut [u8], at: usize, b: u8) -> usize {
    if at < text.len() {
        text[at] = b;
        return at + 1;
    }
    at
}

fn digit(n: usize) -> u8 {
    (n % 10) as u8 + b'0'
}

fn put_digits(text: &mut [u8], at: usize, n: usize) -> usize {
    let a = put_byte(text, at, digit(n / 10000));
    let b = put_byte(text, a, digit(n / 1000));
    let c = put_byte(text, b, digit(n / 100));
    let d = put_byte(text, c, digit(n / 10));
    put_byte(text, d, digit(n))
}

// Head, number and tail for each number from first up to last.
fn put_numbered(
    list: &[u8],
    head: usize,
    tail: usize,
    text: &mut [u8],
    size: usize,
    first: usize,
    last: usize,
) -> usize {
    let mut end = size;
    for k in first..=last {
        let named = put_field(list, head, text, end);
        let numbered = put_digits(text, named, k);
        end = put_field(list, tail, text, numbered);
    }
    end
}

// The base's bytes from a place up to another.
fn put_part(base: &[u8], from: usize, to: usize, text: &mut [u8], size: usize) -> usize {
    let mut end = size;
    for b in base.get(from..to.min(base.len())).unwrap_or(b"") {
        end = put_byte(text, end, *b);
    }
    end
}

// The base with a part of it replaced: fields say where the part begins, how long it is, and the bytes in its place.
fn put_edited(list: &[u8], one: usize, text: &mut [u8], base: &[u8], r: Reader) -> usize {
    let two = after_field(list, one);
    let at = bounded(number_at(list, one));
    let past = at + bounded(number_at(list, two));
    let before = put_part(base, 0, at, text, r.size);
    let come = put_field(list, after_field(list, two), text, before);
    put_part(base, past, r.base, text, come)
}

// As much of a text as the base has room for; how much that is.
pub fn keep(text: &[u8], base: &mut [u8]) -> usize {
    let n = text.len().min(base.len());
    base[..n].copy_from_slice(&text[..n]);
    n
}

// The reader behind one item that builds the text; none where the line's text ends.
fn item(list: &[u8], r: Reader, text: &mut [u8], base: &[u8]) -> Option<Reader> {
    let one = after_field(list, r.at);
    let two = after_field(list, one);
    let three = after_field(list, two);
    let four = after_field(list, three);
    match byte_at(list, r.at) {
        b't' => Some(Reader {
            size: put_field(list, one, text, r.size),
            at: two,
            ..r
        }),
        b'x' => Some(Reader {
            size: put_times(list, two, text, r.size, bounded(number_at(list, one))),
            at: three,
            ..r
        }),
        b'n' => {
            let first = bounded(number_at(list, one));
            let last = bounded(number_at(list, two));
            Some(Reader {
                size: put_numbered(list, three, four, text, r.size, first, last),
                at: after_field(list, four),
                ..r
            })
        }
        b'e' => Some(Reader {
            size: put_edited(list, one, text, base, r),
            at: four,
            ..r
        }),
        b'o' => Some(Reader {
            short: Some(bounded(number_at(list, one))),
            at: two,
            ..r
        }),
        _ => None,
    }
}

// The text of the line at a place: its items, up to the one that ends it. A line with `b` makes the text the base,
// whose length travels from line to line.
pub fn built(list: &[u8], at: usize, kept: usize, text: &mut [u8], base: &mut [u8]) -> Reader {
    let mut r = Reader {
        at,
        size: 0,
        base: kept,
        short: None,
    };
    for _ in 0..list.len() {
        let Some(next) = item(list, r, text, base) else {
            break;
        };
        r = next;
    }
    if byte_at(list, r.at) == b'b' {
        r.base = keep(front(text, r.size), base);
    }
    r
}
