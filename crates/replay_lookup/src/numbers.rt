// Names and definitions by number (`m`), and numbers by name (`i`), over the tables of a reading as they are handed in.
use hold::Reading;
use numbered::CategoryData;
use packed::Span;
use paper::Refusal;
use replay::rooms::field_behind;
use replay::words::refuses;
use replay::{after_field, byte_at, field_at, number_at};
use replay_line::tally::Tally;
use replay_line::words::{is_number, spells};
use std::io;

// No name of the list is so long.
const LONGEST_NAME: usize = 1024;

// A definition in six bytes: its length, invoke, group.
fn definition_agrees(list: &[u8], at: usize, found: Result<CategoryData, Refusal>) -> bool {
    match found {
        Ok(d) => {
            let [a, b, c, e] = d.length.to_le_bytes();
            spells(
                list,
                at,
                &[a, b, c, e, u8::from(d.invoke), u8::from(d.group)],
            )
        }
        Err(r) => refuses(list, at, r),
    }
}

// A name is empty where its lookup refuses.
fn name_agrees(list: &[u8], at: usize, found: Result<Span, Refusal>, part: &[u8]) -> bool {
    match found {
        Ok(s) => s.len == part.len() && spells(list, at, part),
        Err(r) => part.is_empty() && refuses(list, at, r),
    }
}

// `m NUMBER NAME DEFINITION`, from the number on.
fn number_agrees(list: &[u8], at: usize, reading: &Reading) -> bool {
    let id = number_at(list, at) as usize;
    let name = after_field(list, at);
    let count = reading.counts.categories;
    let place = numbered::locate_name(reading.names, reading.categories, count, id);
    let part = numbered::category_name(reading.names, reading.categories, count, id);
    let found = numbered::lookup_definition(reading.definitions, reading.counts.definitions, id);
    name_agrees(list, name, place, part) && definition_agrees(list, after_field(list, name), found)
}

fn found_agrees(list: &[u8], at: usize, found: Result<Option<usize>, Refusal>) -> bool {
    match found {
        Ok(Some(n)) => is_number(list, at, n as u64),
        Ok(None) => byte_at(list, at) == b'-',
        Err(r) => refuses(list, at, r),
    }
}

// `i NAME ANSWER`, from the name on.
fn wanted_agrees(list: &[u8], at: usize, reading: &Reading) -> bool {
    let mut room = [0u8; LONGEST_NAME];
    let field = field_at(list, at);
    let n = replay::bytes_of(field.text, &mut room);
    let found = numbered::category_id_by_name(
        reading.names,
        reading.categories,
        reading.counts.categories,
        &room[..n],
    );
    found_agrees(list, field.next, found)
}

fn agrees(list: &[u8], at: usize, reading: &Reading) -> bool {
    let one = after_field(list, at);
    if byte_at(list, at) == b'm' {
        number_agrees(list, one, reading)
    } else {
        wanted_agrees(list, one, reading)
    }
}

// Where the item behind one begins, if it is one of these.
fn behind(list: &[u8], at: usize) -> Option<usize> {
    match byte_at(list, at) {
        b'm' => Some(field_behind(list, at, 4)),
        b'i' => Some(field_behind(list, at, 3)),
        _ => None,
    }
}

// Notes the items at a place, up to the first that is none of these; where that is.
pub fn noted(
    rt: &impl Print,
    list: &[u8],
    start: usize,
    reading: &Reading,
    damaged: bool,
    number: u64,
    tally: &mut Tally,
) -> io::Result<usize> {
    let mut at = start;
    for _ in 0..list.len() {
        let Some(next) = behind(list, at) else {
            return Ok(at);
        };
        tally.note(rt, list, at, number, damaged, agrees(list, at, reading))?;
        at = next;
    }
    Ok(at)
}
