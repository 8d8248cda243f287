// The tables that are built of a reading.

// Rows: where each begins among the code points and in the pool, and how long it is.
#[derive(Clone, Copy)]
pub struct Rows<'a> {
    pub boundaries: &'a [u32],
    pub starts: &'a [u32],
    pub lengths: &'a [u16],
    pub pool: &'a [u16],
}

// A flat table, and rows.
#[derive(Clone, Copy)]
pub struct Tables<'a> {
    pub index: &'a [u32],
    pub flat: &'a [u16],
    pub rows: Rows<'a>,
}
