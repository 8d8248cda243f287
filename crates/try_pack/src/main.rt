// Replays oracle/lists/packs.txt over the pack's reader: packs written and read by a second hand from the paper's
// words, each limit and one more, every rule broken at every kind of field, cuts and damage, rooms one byte short.
// oracle/README.md has the list's form. Every room is lent with bytes behind its size, and all of them are looked at
// afterwards. What is accepted goes through the pack writer, too.
#![tactic(auto)]

mod writer;

use hold::Reading;
use replay::items::Reader;
use replay::rooms::{self, CATEGORIES, DEFINITIONS, FILL, NAMES, RANGES, REFERENCES, SUM_FIELD};
use std::io;

const LIST_ROOM: usize = 524288;

const BASE_ROOM: usize = 40960;

// The reader's answer and what it leaves in rooms that are filled, and longer than the sizes; and the pack that the
// writer makes of it.
fn tried(list: &[u8], at: usize, pack: &[u8], short: Option<usize>) -> bool {
    let mut names = [FILL; NAMES];
    let mut categories = [FILL; CATEGORIES];
    let mut definitions = [FILL; DEFINITIONS];
    let mut ranges = [FILL; RANGES];
    let mut references = [FILL; REFERENCES];
    let a = rooms::lent(&names, 0, short);
    let b = rooms::lent(&categories, 1, short);
    let c = rooms::lent(&definitions, 2, short);
    let d = rooms::lent(&ranges, 3, short);
    let e = rooms::lent(&references, 4, short);
    let answer = pack::read_pack(
        pack,
        &mut names[..a],
        &mut categories[..b],
        &mut definitions[..c],
        &mut ranges[..d],
        &mut references[..e],
    );
    let left: [&[u8]; 5] = [&names, &categories, &definitions, &ranges, &references];
    if !rooms::answer_agrees(list, at, answer) || !rooms::rooms_agree(list, at, SUM_FIELD, &left) {
        return false;
    }
    let Ok(counts) = answer else {
        return true;
    };
    let reading = Reading {
        names: &names,
        categories: &categories,
        definitions: &definitions,
        ranges: &ranges,
        references: &references,
        counts,
    };
    writer::writes_back(&reading, pack)
}

// What a line asks behind its text: what the reader says of it, or what the writer makes of its tables.
fn answered(list: &[u8], r: Reader, pack: &[u8]) -> bool {
    match replay::byte_at(list, r.at) {
        b'd' | b'c' | b's' => writer::tried(list, r.at, pack),
        _ => tried(list, r.at, pack, r.short),
    }
}

fn list_room() -> [u8; LIST_ROOM] {
    [0; LIST_ROOM]
}

fn main(rt: HostRuntime) -> io::Result<()> {
    let mut room = list_room();
    let mut base = [0u8; BASE_ROOM];
    let n = replay::input::read_full(&mut rt.reader(), &mut room)?;
    let t = replay::texts::replay_texts(&rt, &room[..n], &mut base, |list, r, pack| {
        answered(list, r, pack)
    })?;
    t.say(&rt)
}
