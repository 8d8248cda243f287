// Files that arguments name. What cannot be read or written is said in one sentence on standard error.
#![tactic(auto)]

ghost use Rattle.std.specs.Prelude.{◌≤◌, IfOk, length};

use say::{ErrorStream, Stop};
use std::env::{Env, FillError};
use std::fs::{File, Files, OpenFile};
use std::io;
use std::io::{Input, Read, Write};

// For a file, standard input.
const DASH: &[u8] = b"-";

// What is said of a path that cannot be one.
const NO_PATH: &[u8] = b"a file by this name";

// The system's numbers for an argument that is missing, a name that is too long, and one that is no text, as std wants it.
const MISSING: i32 = 22;

const TOO_LONG: i32 = 36;

const NO_TEXT: i32 = 84;

// Why there is no path.
fn no_path(error: FillError) -> io::Error {
    io::Error::from_raw_os_error(match error {
        FillError::NotPresent => MISSING,
        FillError::TooLong => TOO_LONG,
    })
}

fn path_text(path: &[u8]) -> io::Result<&str> {
    str::from_utf8(path).map_err(|_| io::Error::from_raw_os_error(NO_TEXT))
}

// Reads until the file ends or the room is full: a cursor that moves by what each read gives, so no `for`.
fn read_all(from: &mut impl Read, room: &mut [u8]) -> io::Result<usize>
    ensures { IfOk result (λ n. n ≤ length room.new) }
{
    let mut n = 0;
    while n < room.len() {
        let more = from.read(&mut room[n..])?;
        if more == 0 {
            break;
        }
        n += more;
    }
    Ok(n)
}

fn open_and_read<R: Files + Input>(rt: &R, path: &[u8], room: &mut [u8]) -> io::Result<usize>
    ensures { IfOk result (λ n. n ≤ length room.new) }
{
    if path == DASH {
        return read_all(&mut rt.reader(), room);
    }
    read_all(&mut File::open(rt, path_text(path)?)?, room)
}

fn cannot(rt: &impl ErrorStream, verb: &[u8], path: &[u8], error: io::Error) -> Stop {
    rt.complain(b"twinebeetle: cannot ");
    rt.complain(verb);
    rt.complain(b" ");
    say::fail(rt, path, error);
    Stop::Refused
}

// The path that argument i is.
fn path_at<'a, R: Env + ErrorStream>(
    rt: &R,
    i: usize,
    verb: &[u8],
    word: &'a mut [u8],
) -> Result<&'a [u8], Stop> {
    let n = rt
        .arg(i, word)
        .map_err(|e| cannot(rt, verb, NO_PATH, no_path(e)))?;
    Ok(&word[..n])
}

// The bytes of the file that argument i names, at the start of the room, and no more than fit.
pub fn read_file<'a, R: Env + ErrorStream + Files + Input>(
    rt: &R,
    i: usize,
    room: &'a mut [u8],
) -> Result<&'a [u8], Stop>
    ensures { IfOk result (λ bytes. length bytes.now ≤ length room.old) }
{
    let mut word = say::word();
    let path = path_at(rt, i, b"read", &mut word)?;
    let size = open_and_read(rt, path, room).map_err(|e| cannot(rt, b"read", path, e))?;
    Ok(&room[..size])
}

// Closing a file says nothing here: what it would have said of the bytes of a regular file is asked before.
fn write_and_keep<F: OpenFile + Write>(to: &mut F, bytes: &[u8]) -> io::Result<()> {
    to.write_all(bytes)?;
    if to.metadata()?.is_file() {
        to.sync_all()?;
    }
    Ok(())
}

fn create_and_write(rt: &impl Files, path: &[u8], bytes: &[u8]) -> io::Result<()> {
    write_and_keep(&mut File::create(rt, path_text(path)?)?, bytes)
}

// The file that argument i names has these bytes from here on; where it cannot, that is said.
pub fn write_file<R: Env + ErrorStream + Files>(
    rt: &R,
    i: usize,
    bytes: &[u8],
) -> Result<(), Stop> {
    let mut word = say::word();
    let path = path_at(rt, i, b"write", &mut word)?;
    create_and_write(rt, path, bytes).map_err(|e| cannot(rt, b"write", path, e))
}
