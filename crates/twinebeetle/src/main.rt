// The program that people run: char.def, unk.def and packs, read by the proved crates, and what they hold in lines.
#![tactic(auto)]

use command::{Asked, Command};
use hold::Reading;
use paper::{Counts, Refusal};
use say::{ErrorStream, Output, Stop};
use std::env::Env;
use std::fs::Files;
use std::io::{Input, Write};
use std::process::ExitCode;

// One byte over the largest text, so that a text over the limit shows itself. No byte of a pack behind it is looked at.
const TEXT_ROOM: usize = paper::MAX_TEXT_BYTES + 1;

// What is written waits in so much room.
const OUT_ROOM: usize = 65536;

// A pack or a text, by the command.
fn read(
    command: Option<Command>,
    text: &[u8],
    names: &mut [u8],
    categories: &mut [u8],
    definitions: &mut [u8],
    ranges: &mut [u8],
    references: &mut [u8],
) -> Result<Counts, Refusal> {
    match command {
        Some(Command::Unpack) => {
            pack::read_pack(text, names, categories, definitions, ranges, references)
        }
        _ => char_def::parse(text, names, categories, definitions, ranges, references),
    }
}

// What the reader makes of the bytes, its rooms lent whole, and then what is asked of the dictionary.
fn obey_over<R: Env + ErrorStream + Files + Input>(
    rt: &R,
    out: &mut impl Write,
    asked: Asked,
    text: &[u8],
) -> Result<(), Stop> {
    let mut names = [0u8; paper::MAX_NAME_BYTES];
    let mut categories = [0u8; room::CATEGORIES_SIZE];
    let mut definitions = [0u8; room::DEFINITIONS_SIZE];
    let mut ranges = [0u8; room::RANGES_SIZE];
    let mut references = [0u8; room::REFERENCES_SIZE];
    match read(
        asked.command,
        text,
        &mut names,
        &mut categories,
        &mut definitions,
        &mut ranges,
        &mut references,
    ) {
        Err(x) => refusal::put_refusal(rt, out, asked.first, text, x),
        Ok(counts) => {
            let reading = Reading {
                names: &names,
                categories: &categories,
                definitions: &definitions,
                ranges: &ranges,
                references: &references,
                counts,
            };
            answer::answer(rt, out, asked, &reading)
        }
    }
}

// What the command that stands at a place asks.
fn obey<R: Env + ErrorStream + Files + Input>(
    rt: &R,
    out: &mut impl Write,
    at: usize,
) -> Result<(), Stop> {
    let asked = command::asked_at(rt, at);
    if !command::is_well_asked(rt, asked) {
        return Err(Stop::Refused);
    }
    if asked.command == Some(Command::Help) {
        return Ok(command::help(out)?);
    }
    let mut room = [0u8; TEXT_ROOM];
    let text = file::read_file(rt, asked.first, &mut room)?;
    obey_over(rt, out, asked, text)
}

// What is asked, and then what still waits: of a refusal too, but not where standard output takes no more.
fn obey_and_flush<R: Env + ErrorStream + Files + Input>(
    rt: &R,
    out: &mut impl Write,
    at: usize,
) -> Result<(), Stop> {
    match obey(rt, out, at) {
        Err(Stop::Lost(error)) => Err(Stop::Lost(error)),
        said => {
            out.flush()?;
            said
        }
    }
}

fn is_obeyed(rt: &impl ErrorStream, obeyed: Result<(), Stop>) -> bool {
    match obeyed {
        Ok(()) => true,
        Err(Stop::Refused) => false,
        Err(Stop::Lost(error)) => {
            say::fail(rt, b"twinebeetle: cannot write to standard output", error);
            false
        }
    }
}

// Behind --status, which the script puts before the command, the verdict is the exit status.
fn main(rt: HostRuntime) -> ExitCode {
    let mut room = [0u8; OUT_ROOM];
    let mut out = Output::new(&rt, &mut room);
    let has_status = command::is_argument(&rt, 1, b"--status");
    let at = if has_status { 2 } else { 1 };
    let obeyed = obey_and_flush(&rt, &mut out, at);
    if is_obeyed(&rt, obeyed) || !has_status {
        ExitCode::SUCCESS
    } else {
        ExitCode::FAILURE
    }
}
