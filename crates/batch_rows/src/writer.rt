// An answer on its way to standard output: numbers go into a room with the least byte first, and the room is written where it is full.
use std::io;
use std::io::Write;

const OUT_ROOM: usize = 16384;

const COUNT_BYTES: usize = 4;

const LENGTH_BYTES: usize = 2;

// No flat entry is so large.
const NO_ENTRY: u32 = 0xFFFFFFFF;

// A room, how many of its bytes are used, and where they go.
#[derive(Drop)]
pub struct Page<'a, W: Write> {
    stream: &'a mut W,
    room: [u8; OUT_ROOM],
    at: usize,
}

impl<'a, W: Write> Page<'a, W> {
    pub fn new(stream: &'a mut W) -> Page<'a, W> {
        Page {
            stream,
            room: [0; OUT_ROOM],
            at: 0,
        }
    }

    pub fn write(&mut self) -> io::Result<()> {
        batch::put_part(self.stream, &self.room, self.at)?;
        self.at = 0;
        Ok(())
    }

    pub fn add_u8(&mut self, n: u8) -> io::Result<()> {
        if OUT_ROOM <= self.at {
            self.write()?;
        }
        let at = self.at;
        if at < OUT_ROOM {
            self.room[at] = n;
            self.at = at + 1;
        }
        Ok(())
    }

    pub fn add(&mut self, bytes: &[u8]) -> io::Result<()> {
        for b in bytes {
            self.add_u8(*b)?;
        }
        Ok(())
    }

    pub fn add_count(&mut self, n: usize) -> io::Result<()> {
        self.add(&n.to_le_bytes()[..COUNT_BYTES])
    }

    pub fn add_length(&mut self, n: usize) -> io::Result<()> {
        self.add(&n.to_le_bytes()[..LENGTH_BYTES])
    }

    // The two below stay apart: u16 and u32 share no trait with `to_le_bytes`, and one of our own would be longer than both.
    pub fn add_u16s(&mut self, numbers: &[u16]) -> io::Result<()> {
        for n in numbers {
            self.add(&n.to_le_bytes())?;
        }
        Ok(())
    }

    pub fn add_u32s(&mut self, numbers: &[u32]) -> io::Result<()> {
        for n in numbers {
            self.add(&n.to_le_bytes())?;
        }
        Ok(())
    }

    // Each place where an entry is not the one before it, with that entry; then how many entries there are.
    pub fn add_runs(&mut self, entries: &[u32]) -> io::Result<()> {
        let mut last = NO_ENTRY;
        for (i, entry) in entries.iter().enumerate() {
            if *entry != last {
                self.add_count(i)?;
                self.add(&entry.to_le_bytes())?;
                last = *entry;
            }
        }
        self.add_count(entries.len())
    }
}
