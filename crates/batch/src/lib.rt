// What our sides of oracle/compare share: texts are read from standard input, each behind its length in four bytes, and answers are written with the
// least byte first. Rooms are filled before a reader is called, and lent with bytes behind their sizes.
#![tactic(auto)]

ghost use Rattle.std.specs.Prelude.{◌≡◌, ◌≤◌, ◌<◌, ◌↔◌, All, IsTrue, MatchOption, length, take};
ghost use Rattle.std.specs.List.{AllWithin, HoldsAt};
ghost use Rattle.batch.specs.Kept.{IsFilled, IsKept};

use std::io;
use std::io::{ErrorKind, Read, Write};

pub const TEXT_ROOM: usize = 70000;

pub const FILL: u8 = 0xA5;

pub const GUARD: usize = 16;

// The number that says: memory is not as it should be.
pub const FAULT: u64 = 255;

// No count passes the largest size.
const MOST: usize = 65536;

// ---- writing

pub fn put<W: Write>(out: &mut W, b: u64) -> io::Result<()> {
    out.write_all(&b.to_le_bytes()[..1])
}

pub fn put_u16<W: Write>(out: &mut W, n: usize) -> io::Result<()> {
    out.write_all(&n.to_le_bytes()[..2])
}

pub fn put_u32<W: Write>(out: &mut W, n: usize) -> io::Result<()> {
    out.write_all(&n.to_le_bytes()[..4])
}

// A refusal's number and place, or 0 twice.
pub fn put_head<W: Write>(out: &mut W, number: u64, place: u64) -> io::Result<()> {
    put(out, number)?;
    out.write_all(&place.to_le_bytes())
}

pub fn least<T>(room: &[T], n: usize) -> usize
    ensures within { result ≤ length room.now }
    ensures taken { result ≡ length (take result room.now) }
{
    room.len().min(n)
}

pub fn put_part<W: Write>(out: &mut W, room: &[u8], used: usize) -> io::Result<()> {
    out.write_all(&room[..least(room, used)])
}

// ---- memory

pub fn few(n: usize) -> usize
    ensures { result ≤ 65536 }
{
    n.min(MOST)
}

fn is_filled(part: &[u8], b: u8) -> bool
    ensures { IsTrue result ↔ IsFilled b part.now }
{
    part.iter().all(|x| *x == b)
}

// A lent room, and how many of its bytes are used.
#[derive(Clone, Copy)]
pub struct Used<'a> {
    pub room: &'a [u8],
    pub len: usize,
}

impl<'a> Used<'a> {
    // Behind its used part the room has this byte up to its size, and from there on what was there before.
    fn is_kept(&self, rest: u8) -> bool
        ensures { IsTrue result ↔ IsKept rest self.now }
    {
        if self.room.len() < GUARD {
            return false;
        }
        let (room, guard) = self.room.split_at(self.room.len() - GUARD);
        is_filled(&room[self.len.min(room.len())..], rest) && is_filled(guard, FILL)
    }
}

// The first room that is not as it should be; none where all are.
pub fn fault(rooms: &[Used], rest: u8) -> Option<usize>
    ensures { MatchOption result (All (IsKept rest) rooms.now) (λ i. (i < length rooms.now) × (AllWithin (IsKept rest) rooms.now 0 i × HoldsAt (λ u. IsKept rest u → ⊥) rooms.now i)) }
{
    rooms.iter().position(|u| !u.is_kept(rest))
}

// ---- records

// Whether the room was filled; not where input ends before.
fn is_read<R: Read>(from: &mut R, room: &mut [u8]) -> io::Result<bool> {
    match from.read_exact(room) {
        Ok(()) => Ok(true),
        Err(e) if e.kind() == ErrorKind::UnexpectedEof => Ok(false),
        Err(e) => Err(e),
    }
}

// The next record's text, read into the room; none at the end, and where a record is cut or too long.
pub fn next_record<'a, R: Read>(from: &mut R, room: &'a mut [u8]) -> io::Result<Option<&'a [u8]>> {
    let mut head = [0u8; 4];
    if !is_read(from, &mut head)? {
        return Ok(None);
    }
    let size = u32::from_le_bytes(head) as usize;
    let n = least(room, size);
    if n != size || !is_read(from, &mut room[..n])? {
        return Ok(None);
    }
    Ok(Some(&room[..n]))
}
