// The rows and the flat table of a reading: the rooms that the builders are lent, and how many places of them they use. The rooms are filled before,
// and what lies behind the used part must be as it was.
use batch::least;
use lookup::Located;
use paper::{BMP_SIZE, Refusal};
use row::RowCounts;

pub const FILL_U16: u16 = 0xA5A5;

pub const FILL_U32: u32 = 0xA5A5A5A5;

// What the builders use of their rooms: nothing where they refuse.
#[derive(Clone, Copy)]
pub struct Used {
    pub rows: usize,
    pub places: usize,
    pub entries: usize,
    pub flat_places: usize,
}

pub fn used_by(rows: Result<RowCounts, Refusal>, flat: Result<usize, Refusal>) -> Used {
    let rows = rows.unwrap_or(RowCounts { rows: 0, places: 0 });
    Used {
        rows: rows.rows,
        places: rows.places,
        entries: if flat.is_ok() { BMP_SIZE } else { 0 },
        flat_places: flat.unwrap_or(0),
    }
}

fn is_left<T: PartialEq + Copy>(room: &[T], used: usize, fill: T) -> bool {
    room[least(room, used)..].iter().all(|n| *n == fill)
}

#[derive(Clone, Copy)]
pub struct Tables<'a> {
    pub boundaries: &'a [u32],
    pub starts: &'a [u32],
    pub lengths: &'a [u16],
    pub pool: &'a [u16],
    pub index: &'a [u32],
    pub flat_pool: &'a [u16],
}

impl<'a> Tables<'a> {
    // The tables as long as they are used.
    pub fn front(&self, n: Used) -> Tables<'a> {
        Tables {
            boundaries: &self.boundaries[..least(self.boundaries, n.rows)],
            starts: &self.starts[..least(self.starts, n.rows)],
            lengths: &self.lengths[..least(self.lengths, n.rows)],
            pool: &self.pool[..least(self.pool, n.places)],
            index: &self.index[..least(self.index, n.entries)],
            flat_pool: &self.flat_pool[..least(self.flat_pool, n.flat_places)],
        }
    }

    // The rows alone.
    pub fn without_flat(&self) -> Tables<'a> {
        Tables {
            index: &self.index[..0],
            flat_pool: &self.flat_pool[..0],
            ..*self
        }
    }

    pub fn rows_left(&self, n: Used) -> bool {
        is_left(self.boundaries, n.rows, FILL_U32)
            && is_left(self.starts, n.rows, FILL_U32)
            && is_left(self.lengths, n.rows, FILL_U16)
            && is_left(self.pool, n.places, FILL_U16)
    }

    pub fn flat_left(&self, n: Used) -> bool {
        is_left(self.index, n.entries, FILL_U32) && is_left(self.flat_pool, n.flat_places, FILL_U16)
    }

    pub fn locate(&self, c: u32) -> Result<Located, Refusal> {
        lookup::locate_categories(
            self.index,
            self.flat_pool,
            self.boundaries,
            self.starts,
            self.lengths,
            self.pool,
            c,
        )
    }

    pub fn categories(&self, c: u32) -> &'a [u16] {
        lookup::lookup_categories(
            self.index,
            self.flat_pool,
            self.boundaries,
            self.starts,
            self.lengths,
            self.pool,
            c,
        )
    }
}
