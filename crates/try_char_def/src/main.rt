// Replays oracle/lists/char_def.txt over the reader of char.def: the Rust's readings and refusals, the paper's
// limits, rooms one byte short. oracle/README.md has the list's form. Every room is lent with bytes behind its size,
// and all of them are looked at afterwards.
#![tactic(auto)]

use replay::rooms::{self, CATEGORIES, DEFINITIONS, FILL, NAMES, RANGES, REFERENCES, SUM_FIELD};
use std::io;

const LIST_ROOM: usize = 524288;

const BASE_ROOM: usize = 4096;

// The reader's answer and what it leaves in rooms that are filled, and longer than the sizes.
fn tried(list: &[u8], at: usize, text: &[u8], short: Option<usize>) -> bool {
    let mut names = [FILL; NAMES];
    let mut categories = [FILL; CATEGORIES];
    let mut definitions = [FILL; DEFINITIONS];
    let mut ranges = [FILL; RANGES];
    let mut references = [FILL; REFERENCES];
    let a = rooms::lent(&names, 0, short);
    let b = rooms::lent(&categories, 1, short);
    let c = rooms::lent(&definitions, 2, short);
    let d = rooms::lent(&ranges, 3, short);
    let e = rooms::lent(&references, 4, short);
    let answer = char_def::parse(
        text,
        &mut names[..a],
        &mut categories[..b],
        &mut definitions[..c],
        &mut ranges[..d],
        &mut references[..e],
    );
    let left: [&[u8]; 5] = [&names, &categories, &definitions, &ranges, &references];
    rooms::answer_agrees(list, at, answer) && rooms::rooms_agree(list, at, SUM_FIELD, &left)
}

fn list_room() -> [u8; LIST_ROOM] {
    [0; LIST_ROOM]
}

fn main(rt: HostRuntime) -> io::Result<()> {
    let mut room = list_room();
    let mut base = [0u8; BASE_ROOM];
    let n = replay::input::read_full(&mut rt.reader(), &mut room)?;
    let t = replay::texts::replay_texts(&rt, &room[..n], &mut base, |list, r, text| {
        tried(list, r.at, text, r.short)
    })?;
    t.say(&rt)
}
