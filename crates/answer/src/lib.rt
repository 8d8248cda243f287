// What each command writes of a dictionary.
#![tactic(auto)]

use command::{Asked, Command};
use hold::Reading;
use say::{ErrorStream, Stop};
use std::env::Env;
use std::fs::Files;
use std::io;
use std::io::{Input, Write};

fn put_counts(
    rt: &impl Env,
    out: &mut impl Write,
    asked: Asked,
    reading: &Reading,
) -> io::Result<()> {
    say::put_argument(rt, out, asked.first)?;
    show::put_counts(out, reading.counts)
}

fn put_tables(out: &mut impl Write, reading: &Reading) -> io::Result<()> {
    show::show_categories(out, reading)?;
    show::show_definitions(out, reading)?;
    show::show_ranges(out, reading)
}

// What a command asks of a dictionary that a reader accepted.
pub fn answer<R: Env + ErrorStream + Files + Input>(
    rt: &R,
    out: &mut impl Write,
    asked: Asked,
    reading: &Reading,
) -> Result<(), Stop> {
    match asked.command {
        Some(Command::Check) => Ok(put_counts(rt, out, asked, reading)?),
        Some(Command::At) => by_row::put_rows(rt, out, asked, reading),
        Some(Command::Pack) => save::save_pack(rt, out, asked, reading),
        Some(Command::Unk) => show_unk::put_unk(rt, out, asked, reading),
        Some(Command::Show | Command::Unpack | Command::Help) | None => {
            put_tables(out, reading)?;
            by_row::put_rows(rt, out, asked, reading)
        }
    }
}
