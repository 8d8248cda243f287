// Replays oracle/lists/unk.txt over the reader of unk.def and its lookups: the Rust's entries, references, offsets
// and details, the paper's limits, rooms one byte short, and tables handed in that don't hold together.
// oracle/README.md has the list's form.
#![tactic(auto)]

mod handed;
mod left;
mod lookups;

use hold::Reading;
use left::{DETAILS, ENTRIES, MEMBERS, OFFSETS, PLACES, SUM_FIELD};
use lookups::Left;
use paper::Counts;
use replay::items::{self, Reader};
use replay::lines::each_line;
use replay::rooms::{self, CATEGORIES, DEFINITIONS, FILL, NAMES, RANGES, REFERENCES};
use replay::tally::Tally;
use replay::{byte_at, front};
use std::io;

const LIST_ROOM: usize = 524288;

const TEXT_ROOM: usize = 73728;

const BASE_ROOM: usize = 4096;

// The reader's answer over rooms that are longer than the sizes, but for one that may be short; what it leaves in the
// rooms, and what lookups find there where the text is accepted.
fn read(list: &[u8], at: usize, text: &[u8], short: Option<usize>, reading: &Reading) -> bool {
    let mut entries = [FILL; ENTRIES];
    let mut offsets = [FILL; OFFSETS];
    let mut details = [FILL; DETAILS];
    let mut places = [FILL; PLACES];
    let mut members = [FILL; MEMBERS];
    let a = rooms::lent(&entries, 0, short);
    let b = rooms::lent(&offsets, 1, short);
    let c = rooms::lent(&details, 2, short);
    let d = rooms::lent(&places, 3, short);
    let e = rooms::lent(&members, 4, short);
    let answer = unk::parse_unk(
        reading,
        text,
        &mut entries[..a],
        &mut offsets[..b],
        &mut details[..c],
        &mut places[..d],
        &mut members[..e],
    );
    let rooms: [&[u8]; 5] = [&entries, &offsets, &details, &places, &members];
    if !left::answer_agrees(list, at, answer) || !rooms::rooms_agree(list, at, SUM_FIELD, &rooms) {
        return false;
    }
    let Ok(found) = answer else {
        return true;
    };
    let tables = Left {
        categories: reading.counts.categories,
        count: found.entries,
        entries: &entries,
        offsets: &offsets,
        details: &details,
        places: &places,
        members: &members,
    };
    lookups::agree(list, left::behind_answer(list, at), tables)
}

// The text is read over the reading's tables, as the line changes them.
fn read_over(
    list: &[u8],
    at: usize,
    text: &[u8],
    short: Option<usize>,
    counts: Counts,
    names: &mut [u8],
    categories: &mut [u8],
    definitions: &mut [u8],
    ranges: &mut [u8],
    references: &mut [u8],
) -> bool {
    let h = handed::changed(
        list,
        at,
        counts,
        names,
        categories,
        definitions,
        ranges,
        references,
    );
    let reading = Reading {
        names: front(names, h.sizes[0]),
        categories: front(categories, h.sizes[1]),
        definitions: front(definitions, h.sizes[2]),
        ranges: front(ranges, h.sizes[3]),
        references: front(references, h.sizes[4]),
        counts: h.counts,
    };
    read(list, h.at, text, short, &reading)
}

fn tried(list: &[u8], at: usize, text: &[u8], short: Option<usize>, char_def: &[u8]) -> bool {
    let mut names = [0u8; NAMES];
    let mut categories = [0u8; CATEGORIES];
    let mut definitions = [0u8; DEFINITIONS];
    let mut ranges = [0u8; RANGES];
    let mut references = [0u8; REFERENCES];
    let Ok(counts) = char_def::parse(
        char_def,
        &mut names,
        &mut categories,
        &mut definitions,
        &mut ranges,
        &mut references,
    ) else {
        return false;
    };
    read_over(
        list,
        at,
        text,
        short,
        counts,
        &mut names,
        &mut categories,
        &mut definitions,
        &mut ranges,
        &mut references,
    )
}

// What a line's text is for: a base asks nothing, and a char.def is kept for the lines behind it; how long it is from
// here on.
fn asked(
    rt: &impl Print,
    t: &mut Tally,
    list: &[u8],
    r: Reader,
    text: &[u8],
    char_def: &mut [u8],
    size: usize,
    number: u64,
) -> io::Result<usize> {
    match byte_at(list, r.at) {
        b'b' => Ok(size),
        b'c' => Ok(items::keep(text, char_def)),
        _ => {
            let agreed = tried(list, r.at, text, r.short, front(char_def, size));
            t.note(rt, agreed, number)?;
            Ok(size)
        }
    }
}

fn replay_all(rt: &impl Print, list: &[u8]) -> io::Result<Tally> {
    let mut text = [0u8; TEXT_ROOM];
    let mut base = [0u8; BASE_ROOM];
    let mut char_def = [0u8; TEXT_ROOM];
    let mut t = Tally::default();
    let mut kept = 0;
    let mut size = 0;
    each_line(list, 0, |at, number| {
        let r = items::built(list, at, kept, &mut text, &mut base);
        kept = r.base;
        let part = front(&text, r.size);
        size = asked(rt, &mut t, list, r, part, &mut char_def, size, number)?;
        Ok(())
    })?;
    Ok(t)
}

fn list_room() -> [u8; LIST_ROOM] {
    [0; LIST_ROOM]
}

fn main(rt: HostRuntime) -> io::Result<()> {
    let mut room = list_room();
    let n = replay::input::read_full(&mut rt.reader(), &mut room)?;
    let t = replay_all(&rt, &room[..n])?;
    t.say(&rt)
}
