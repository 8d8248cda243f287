// Lookups over tables as they were built, or with one field changed: the categories of a code point by the flat table
// and by rows (`l`), packed (`p`), places of the flat pool (`c`), the search among boundaries (`v`), and the sum over
// the whole BMP (`a`).
use lookup::Located;
use packed::{Packed, Span};
use paper::{NOT_SCALAR, Refusal};
use replay::rooms::field_behind;
use replay::sums::{self, Summed};
use replay::words::refuses;
use replay::{after_field, byte_at, hex_at, number_at};
use replay_line::tables::Tables;
use replay_line::tally::Tally;
use replay_line::words;
use std::io;

const BMP: u32 = 65536;

const WORD: u64 = 4294967296;

// What stands in the sum for 14, and for any other refusal; no row is so long.
const NO_SCALAR: u16 = 0xFFFF;

const REFUSED: u16 = 0xFFFE;

fn code_at(list: &[u8], at: usize) -> u32 {
    (number_at(list, at) % WORD) as u32
}

// Two fields say where a part begins and how long it is.
fn span_agrees(list: &[u8], at: usize, s: Span) -> bool {
    number_at(list, at) == s.start as u64 && number_at(list, after_field(list, at)) == s.len as u64
}

fn refusal_agrees(list: &[u8], at: usize, r: Refusal) -> bool {
    r.place == 0 && number_at(list, at) == u64::from(r.number)
}

fn located(t: Tables, code: u32) -> Result<Located, Refusal> {
    let rows = t.rows;
    lookup::locate_categories(
        t.index,
        t.flat,
        rows.boundaries,
        rows.starts,
        rows.lengths,
        rows.pool,
        code,
    )
}

fn looked_up<'a>(t: Tables<'a>, code: u32) -> &'a [u16] {
    let rows = t.rows;
    lookup::lookup_categories(
        t.index,
        t.flat,
        rows.boundaries,
        rows.starts,
        rows.lengths,
        rows.pool,
        code,
    )
}

fn without_index<'a>(t: Tables<'a>) -> Tables<'a> {
    Tables {
        index: &t.index[..0],
        ..t
    }
}

// `F` the flat pool, `R` the row pool, `X` refused.
fn located_agrees(list: &[u8], at: usize, way: u8, found: Result<Located, Refusal>) -> bool {
    match found {
        Ok(Located::InFlat(s)) => way == b'F' && span_agrees(list, at, s),
        Ok(Located::InRows(s)) => way == b'R' && span_agrees(list, at, s),
        Err(r) => way == b'X' && refusal_agrees(list, at, r),
    }
}

// The place and the part; `at` is where the code point stands in the list.
fn way_agrees(list: &[u8], at: usize, way: u8, t: Tables) -> bool {
    let code = code_at(list, at);
    let place = field_behind(list, at, 2);
    located_agrees(list, place, way, located(t, code))
        && words::are_numbers(list, after_field(list, place), looked_up(t, code))
}

// `A` or `F` there, `N` or `R` absent, `X` refused.
fn packed_agrees(list: &[u8], at: usize, way: u8, found: Result<Option<Packed>, Refusal>) -> bool {
    match found {
        Ok(Some(p)) => {
            let span = Span {
                start: p.offset as usize,
                len: usize::from(p.len),
            };
            matches!(way, b'A' | b'F') && span_agrees(list, at, span)
        }
        Ok(None) => matches!(way, b'N' | b'R'),
        Err(r) => way == b'X' && refusal_agrees(list, at, r),
    }
}

// `l CODE WAYS START LENGTH NUMBERS`, from the code point on: with the index, and where there is a second way with
// none; the packed lookup then is the first.
fn looked_agrees(list: &[u8], at: usize, t: Tables) -> bool {
    let ways = after_field(list, at);
    let first = byte_at(list, ways);
    let second = byte_at(list, ways.wrapping_add(1));
    if !way_agrees(list, at, first, t) {
        return false;
    }
    if second == b' ' {
        return true;
    }
    let found = packed::lookup_categories_packed(t.index, code_at(list, at));
    way_agrees(list, at, second, without_index(t))
        && packed_agrees(list, after_field(list, ways), first, found)
}

// `p CODE WAY OFFSET LENGTH`, from the code point on.
fn packed_item(list: &[u8], at: usize, index: &[u32]) -> bool {
    let way = after_field(list, at);
    let found = packed::lookup_categories_packed(index, code_at(list, at));
    packed_agrees(list, after_field(list, way), byte_at(list, way), found)
}

// `c PLACE CATEGORY`, from the place on.
fn place_item(list: &[u8], at: usize, flat: &[u16]) -> bool {
    let said = after_field(list, at);
    match packed::flat_category(flat, number_at(list, at) as usize) {
        Ok(n) => words::is_number(list, said, u64::from(n)),
        Err(r) => refuses(list, said, r),
    }
}

// `v CODE ROW`, from the code point on.
fn row_item(list: &[u8], at: usize, boundaries: &[u32]) -> bool {
    let row = find_row::eval(boundaries, code_at(list, at)) as u64;
    row == number_at(list, after_field(list, at))
}

// ---- the sum over the BMP

fn mark_of(r: Refusal) -> u16 {
    if r.number == NOT_SCALAR {
        NO_SCALAR
    } else {
        REFUSED
    }
}

fn summed(t: Tables) -> u32 {
    let mut total = sums::START;
    for code in 0..BMP {
        total = match located(t, code) {
            Ok(_) => sums::row(total, looked_up(t, code)),
            Err(r) => mark_of(r).mixed_into(total),
        };
    }
    total
}

// `a SUM`, from the sum on: by the flat table where there is one, and by rows.
fn sum_agrees(list: &[u8], at: usize, t: Tables) -> bool {
    let said = hex_at(list, at);
    u64::from(summed(without_index(t))) == said
        && (t.index.is_empty() || u64::from(summed(t)) == said)
}

// ---- items

fn agrees(list: &[u8], at: usize, t: Tables) -> bool {
    let one = after_field(list, at);
    match byte_at(list, at) {
        b'l' => looked_agrees(list, one, t),
        b'a' => sum_agrees(list, one, t),
        b'p' => packed_item(list, one, t.index),
        b'c' => place_item(list, one, t.flat),
        _ => row_item(list, one, t.rows.boundaries),
    }
}

// Where the item behind one begins, if it is one of these.
fn behind(list: &[u8], at: usize) -> Option<usize> {
    match byte_at(list, at) {
        b'l' => {
            let count = field_behind(list, at, 4);
            let numbers = number_at(list, count) as usize;
            Some(field_behind(list, count, numbers.wrapping_add(1)))
        }
        b'a' => Some(field_behind(list, at, 2)),
        b'p' => Some(field_behind(list, at, 5)),
        b'c' | b'v' => Some(field_behind(list, at, 3)),
        _ => None,
    }
}

// Notes the items at a place, up to the first that is none of these; where that is.
pub fn noted(
    rt: &impl Print,
    list: &[u8],
    start: usize,
    t: Tables,
    damaged: bool,
    number: u64,
    tally: &mut Tally,
) -> io::Result<usize> {
    let mut at = start;
    for _ in 0..list.len() {
        let Some(next) = behind(list, at) else {
            return Ok(at);
        };
        tally.note(rt, list, at, number, damaged, agrees(list, at, t))?;
        at = next;
    }
    Ok(at)
}
