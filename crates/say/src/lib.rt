// What the program says. Bytes for standard output wait in a lent room, and go there when it is full and at the end. What cannot be obeyed is said in
// one sentence on standard error.
#![tactic(auto)]

ghost use Rattle.std.specs.Prelude.{◌≡◌, ◌≤◌, None, length};
ghost use Rattle.std.specs.Io.KnownBytes.{Keeps};

use std::env::Env;
use std::fmt::InlineText;
use std::io;
use std::io::{ErrorKind, Print, Write};

// No argument that is read is longer; a path is shorter.
pub const WORD_SIZE: usize = 4096;

// Room for what is said of an error.
const REASON_SIZE: usize = 128;

// Why a command ends early.
#[derive(Drop)]
pub enum Stop {
    // What is asked is refused or cannot be obeyed, and that is said.
    Refused,
    // Standard output takes no more.
    Lost(io::Error),
}

impl From<io::Error> for Stop {
    fn from(error: io::Error) -> Stop {
        Stop::Lost(error)
    }
}

// Standard output behind a lent room, in which what is written waits.
#[derive(Drop)]
pub struct Output<'r, 'a, R> {
    rt: &'r R,
    room: &'a mut [u8],
    waiting: usize,
}

impl<'r, 'a, R: Print> Output<'r, 'a, R> {
    pub fn new(rt: &'r R, room: &'a mut [u8]) -> Output<'r, 'a, R>
        ensures { result.waiting ≡ 0 }
    {
        Output {
            rt,
            room,
            waiting: 0,
        }
    }
}

impl<R: Print> Write for Output<'_, '_, R> {
    fn write(&mut self, buf: &[u8]) -> io::Result<usize> {
        if self.room.len() <= self.waiting {
            self.flush()?;
        }
        let at = self.waiting;
        let n = buf.len().min(self.room.len().saturating_sub(at));
        if 0 < n {
            self.room[at..at + n].copy_from_slice(&buf[..n]);
            self.waiting = at + n;
        }
        Ok(n)
    }

    // Every error ends it. What waited is not kept where a flush fails, so that to write on behind one, as std does where a write was interrupted,
    // would leave a hole in what is written. (a cursor: each turn goes on by as much as was taken)
    fn write_all(&mut self, buf: &[u8]) -> io::Result<()> {
        let mut rest = buf;
        while !rest.is_empty() {
            let n = self.write(rest)?;
            if n == 0 {
                return Err(io::Error::from(ErrorKind::WriteZero));
            }
            rest = &rest[n..];
        }
        Ok(())
    }

    // What waits is handed on, and waits no more even where it is not taken.
    fn flush(&mut self) -> io::Result<()>
        ensures bytes { Keeps None None }
        ensures empty { self.new.waiting ≡ 0 }
    {
        let n = self.waiting.min(self.room.len());
        self.waiting = 0;
        self.rt.write_all(&self.room[..n])
    }
}

// Standard error: it takes bytes that need not be text, and what it does not take is let go.
pub trait ErrorStream {
    fn complain(&self, s: &[u8]);
}

impl ErrorStream for HostRuntime {
    fn complain(&self, s: &[u8]) {
        let _ = self.stderr().write_all(s);
    }
}

// Room for an argument.
pub fn word() -> [u8; WORD_SIZE] {
    [0; WORD_SIZE]
}

// Argument i, at the start of the word; no bytes where it is missing or longer than the word.
pub fn argument<'a>(rt: &impl Env, i: usize, word: &'a mut [u8]) -> &'a [u8]
    ensures { length result.now ≤ length word.old }
{
    let n = rt.arg(i, word).unwrap_or(0);
    &word[..n]
}

// Argument i on standard error.
pub fn complain_of<R: ErrorStream + Env>(rt: &R, i: usize) {
    rt.complain(argument(rt, i, &mut word()));
}

// Argument i on the output.
pub fn put_argument(rt: &impl Env, out: &mut impl Write, i: usize) -> io::Result<()> {
    out.write_all(argument(rt, i, &mut word()))
}

// An error in words, without its number, which std sets behind them.
fn reason(text: &str) -> &str {
    match text.split_once(" (os error ") {
        Some((words, _)) => words,
        None => text,
    }
}

// A line on standard error: what failed, as the caller names it, and why.
pub fn fail(rt: &impl ErrorStream, what: &[u8], error: io::Error) {
    let text = InlineText::<{ REASON_SIZE }>::of(error);
    rt.complain(what);
    rt.complain(b": ");
    rt.complain(reason(text.as_str()).as_bytes());
    rt.complain(b"\n");
}

// A control character would break a line or move the cursor, and a backslash is what such a one is spelled with.
fn is_spelled(b: u8) -> bool {
    b.is_ascii_control() || b == b'\\'
}

// A byte of a name or of a detail.
pub fn put_spelled(out: &mut impl Write, b: u8) -> io::Result<()> {
    if is_spelled(b) {
        return write!(out, "\\x{b:02X}");
    }
    out.write_all(&[b])
}

// In runs of bytes that stand for themselves, since the output is asked for room once a run.
pub fn put_name(out: &mut impl Write, name: &[u8]) -> io::Result<()> {
    for run in name.chunk_by(|a, b| !is_spelled(*a) && !is_spelled(*b)) {
        match run {
            [b] => put_spelled(out, *b)?,
            _ => out.write_all(run)?,
        }
    }
    Ok(())
}
