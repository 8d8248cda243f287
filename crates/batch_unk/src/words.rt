// What stands under a number: a category's entries, an entry, an entry's details. Each comes behind 0, or a refusal's number stands in its place.
use batch::{Used, few, put, put_u16};
use std::io;
use std::io::Write;
use unk_enter::UnkCounts;

const NUMBER_BYTES: usize = 4;

const ID_BYTES: usize = 2;

// A place of an unknown word's entries: where they begin in the members, and how many they are.
const PLACE_BYTES: usize = 4;

const COUNT_AT: usize = 2;

// The tables of an unk.def as they are lent to lookups, and how many categories and entries there are.
#[derive(Clone, Copy)]
pub struct Words<'a> {
    pub entries: &'a [u8],
    pub offsets: &'a [u8],
    pub details: &'a [u8],
    pub places: &'a [u8],
    pub members: &'a [u8],
    pub categories: usize,
    pub counts: UnkCounts,
}

impl<'a> Words<'a> {
    // How many entries the categories list: the last one's end where it begins and how many it has say it.
    pub fn listed(&self) -> usize {
        let n = few(self.categories);
        if n == 0 {
            return 0;
        }
        let at = PLACE_BYTES * (n - 1);
        usize::from(table::get_u16(self.places, at))
            + usize::from(table::get_u16(self.places, at + COUNT_AT))
    }

    // How many bytes of each table are used.
    pub fn used(&self) -> [Used<'a>; 5] {
        let entries = few(self.counts.entries);
        [
            Used {
                room: self.entries,
                len: entries * 8,
            },
            Used {
                room: self.offsets,
                len: entries * 4,
            },
            Used {
                room: self.details,
                len: few(self.counts.bytes),
            },
            Used {
                room: self.places,
                len: few(self.categories) * PLACE_BYTES,
            },
            Used {
                room: self.members,
                len: few(self.listed()) * ID_BYTES,
            },
        ]
    }

    fn put_ids<W: Write>(&self, out: &mut W, id: usize) -> io::Result<()> {
        match word::locate_word_ids(self.places, self.members, self.categories, id) {
            Err(r) => put(out, u64::from(r.number)),
            Ok(_) => {
                let ids = word::lookup_word_ids(self.places, self.members, self.categories, id);
                put(out, 0)?;
                put_u16(out, ids.len() / ID_BYTES)?;
                out.write_all(ids)
            }
        }
    }

    fn put_entry<W: Write>(&self, out: &mut W, id: usize) -> io::Result<()> {
        match word::word_entry(self.entries, self.counts.entries, id) {
            Err(r) => put(out, u64::from(r.number)),
            Ok(w) => {
                put(out, 0)?;
                out.write_all(&w.left.to_le_bytes())?;
                out.write_all(&w.right.to_le_bytes())?;
                out.write_all(&w.cost.to_le_bytes())
            }
        }
    }

    fn put_details<W: Write>(&self, out: &mut W, id: usize) -> io::Result<()> {
        match word::locate_details(self.offsets, self.details, self.counts.entries, id) {
            Err(r) => put(out, u64::from(r.number)),
            Ok(_) => {
                let part = word::word_details(self.offsets, self.details, self.counts.entries, id);
                put(out, 0)?;
                batch::put_u32(out, part.len())?;
                out.write_all(part)
            }
        }
    }

    pub fn put_all<W: Write>(&self, out: &mut W, numbers: &[u8]) -> io::Result<()> {
        for number in numbers.chunks(NUMBER_BYTES) {
            let id = table::get_u32(number, 0) as usize;
            self.put_ids(out, id)?;
            self.put_entry(out, id)?;
            self.put_details(out, id)?;
        }
        Ok(())
    }
}
