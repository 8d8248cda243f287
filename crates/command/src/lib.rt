// The commands: a line of help for each, how many words stand behind it, and what is said where one cannot be obeyed.
#![tactic(auto)]

ghost use Rattle.std.specs.Prelude.{◌≡◌, ◌+◌, ◌-◌, ◌^◌, min};

use say::{ErrorStream, Stop};
use std::cmp::Ordering;
use std::env::{Env, FillError};
use std::io;
use std::io::Write;

// For a file, standard input or standard output.
const DASH: &[u8] = b"-";

#[derive(Clone, Copy, PartialEq, Eq)]
pub enum Command {
    Check,
    Show,
    At,
    Pack,
    Unpack,
    Unk,
    Help,
}

// All of them, as help lists them.
const COMMANDS: [Command; 7] = [
    Command::Check,
    Command::Show,
    Command::At,
    Command::Pack,
    Command::Unpack,
    Command::Unk,
    Command::Help,
];

impl Command {
    // What is written behind ./twinebeetle, and what that does. The spaces at the end belong to it: a word names the command whose line begins with
    // the word and a space.
    fn line(self) -> &'static str {
        match self {
            Command::Check => {
                "check FILE         says whether FILE, a char.def, is accepted, or its first bad line"
            }
            Command::Show => {
                "show FILE          writes its categories, definitions, ranges and rows              "
            }
            Command::At => {
                "at FILE CODE..     writes the categories of code points, in hex                     "
            }
            Command::Pack => {
                "pack FILE PACK     writes the pack of FILE                                          "
            }
            Command::Unpack => {
                "unpack PACK        shows what a pack holds, as show does                            "
            }
            Command::Unk => {
                "unk FILE UNK       writes the entries of UNK, an unk.def, over FILE                 "
            }
            Command::Help => {
                "help               writes these lines; - for a file is standard input               "
            }
        }
    }

    // How many arguments it has behind it; `at` takes more.
    fn arguments(self) -> usize {
        match self {
            Command::Help => 0,
            Command::Check | Command::Show | Command::Unpack => 1,
            Command::At | Command::Pack | Command::Unk => 2,
        }
    }

    fn is_named(self, word: &[u8]) -> bool {
        matches!(self.line().as_bytes().strip_prefix(word), Some([b' ', ..]))
    }

    fn named(word: &[u8]) -> Option<Command> {
        COMMANDS.iter().find(|c| c.is_named(word)).copied()
    }
}

// What is asked: the command, none where the word names none, the place of the first argument behind it, and how many arguments there are in all.
#[derive(Clone, Copy)]
pub struct Asked {
    pub command: Option<Command>,
    pub first: usize,
    pub end: usize,
}

impl Asked {
    // The place of the second argument behind the command.
    pub fn second(self) -> usize
        ensures { result ≡ min (self.first + 1) (2 ^ 64 - 1) }
    {
        self.first.saturating_add(1)
    }
}

pub fn help(out: &mut impl Write) -> io::Result<()> {
    for command in COMMANDS {
        writeln!(out, "  ./twinebeetle {}", command.line().trim_end())?;
    }
    Ok(())
}

// ---- what is asked

pub fn is_argument(rt: &impl Env, i: usize, word: &[u8]) -> bool {
    say::argument(rt, i, &mut say::word()) == word
}

// How many arguments there are, the program's own name among them.
fn arguments_in_all(rt: &impl Env) -> usize {
    for i in 0..usize::MAX {
        if matches!(rt.arg(i, &mut []), Err(FillError::NotPresent)) {
            return i;
        }
    }
    usize::MAX
}

// The command that stands at a place, with no argument: help.
pub fn asked_at(rt: &impl Env, i: usize) -> Asked {
    let end = arguments_in_all(rt);
    let command = if end <= i {
        Some(Command::Help)
    } else {
        Command::named(say::argument(rt, i, &mut say::word()))
    };
    Asked {
        command,
        first: i.wrapping_add(1),
        end,
    }
}

// ---- what cannot be obeyed

fn unknown<R: Env + ErrorStream>(rt: &R, i: usize) -> Stop {
    rt.complain(b"twinebeetle: there is no command ");
    say::complain_of(rt, i);
    rt.complain(b"; see ./twinebeetle help\n");
    Stop::Refused
}

fn misused(rt: &impl ErrorStream, what: &[u8], command: Command) -> Stop {
    rt.complain(b"twinebeetle: ");
    rt.complain(what);
    rt.complain(b": ./twinebeetle ");
    rt.complain(command.line().trim_end().as_bytes());
    rt.complain(b"\n");
    Stop::Refused
}

fn are_enough(rt: &impl ErrorStream, command: Command, given: usize) -> Result<(), Stop> {
    match given.cmp(&command.arguments()) {
        Ordering::Less => Err(misused(rt, b"an argument is missing", command)),
        Ordering::Greater if command != Command::At => {
            Err(misused(rt, b"there is an argument too many", command))
        }
        _ => Ok(()),
    }
}

fn no_code<R: Env + ErrorStream>(rt: &R, i: usize) -> Stop {
    rt.complain(b"twinebeetle: ");
    say::complain_of(rt, i);
    rt.complain(b" is no code point: write hex digits, as 3042 or U+3042\n");
    Stop::Refused
}

// The arguments of `at` from the second on are codes.
fn are_codes<R: Env + ErrorStream>(rt: &R, asked: Asked) -> Result<(), Stop> {
    for i in asked.second()..asked.end {
        code::code_at(rt, i).ok_or_else(|| no_code(rt, i))?;
    }
    Ok(())
}

// Standard input ends once.
fn is_read_once<R: Env + ErrorStream>(rt: &R, asked: Asked) -> Result<(), Stop> {
    if is_argument(rt, asked.first, DASH) && is_argument(rt, asked.second(), DASH) {
        rt.complain(b"twinebeetle: standard input can be only one of the two files\n");
        return Err(Stop::Refused);
    }
    Ok(())
}

// A pack does not take its text's place; from standard input to standard output it may go.
fn is_elsewhere<R: Env + ErrorStream>(rt: &R, asked: Asked) -> Result<(), Stop> {
    let mut word = say::word();
    let from = say::argument(rt, asked.first, &mut word);
    if from != DASH && is_argument(rt, asked.second(), from) {
        rt.complain(b"twinebeetle: ");
        rt.complain(from);
        rt.complain(b" would be written over itself\n");
        return Err(Stop::Refused);
    }
    Ok(())
}

fn are_right<R: Env + ErrorStream>(rt: &R, command: Command, asked: Asked) -> Result<(), Stop> {
    match command {
        Command::At => are_codes(rt, asked),
        Command::Pack => is_elsewhere(rt, asked),
        Command::Unk => is_read_once(rt, asked),
        Command::Check | Command::Show | Command::Unpack | Command::Help => Ok(()),
    }
}

// Without any argument nothing stands behind the command either.
fn can_obey<R: Env + ErrorStream>(rt: &R, asked: Asked) -> Result<(), Stop> {
    let command = asked
        .command
        .ok_or_else(|| unknown(rt, asked.first.wrapping_sub(1)))?;
    if asked.first <= asked.end {
        are_enough(rt, command, asked.end - asked.first)?;
        are_right(rt, command, asked)?;
    }
    Ok(())
}

// Whether what is asked can be obeyed; if not, that is said.
pub fn is_well_asked<R: Env + ErrorStream>(rt: &R, asked: Asked) -> bool {
    can_obey(rt, asked).is_ok()
}
