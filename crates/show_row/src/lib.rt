// Rows in lines: each boundary with its category numbers, or a code point with their names.
#![tactic(auto)]

use hold::Reading;
use lookup::Located;
use packed::Span;
use say::Stop;
use std::env::Env;
use std::io;
use std::io::Write;

// A dictionary's rows: where each begins, and its categories' place in the pool.
#[derive(Clone, Copy)]
pub struct Rows<'a> {
    pub boundaries: &'a [u32],
    pub starts: &'a [u32],
    pub lengths: &'a [u16],
    pub pool: &'a [u16],
}

impl<'a> Rows<'a> {
    // A part of the pool; nothing where it runs past.
    fn part(self, start: usize, len: usize) -> &'a [u16] {
        self.pool
            .get(start..start.saturating_add(len))
            .unwrap_or(&[])
    }
}

// ---- boundaries

fn put_row(out: &mut impl Write, boundary: u32, row: &[u16]) -> io::Result<()> {
    write!(out, "row {boundary:04X}")?;
    for id in row {
        write!(out, " {id}")?;
    }
    writeln!(out)
}

pub fn show_rows(out: &mut impl Write, rows: Rows) -> io::Result<()> {
    for (i, boundary) in rows.boundaries.iter().enumerate() {
        let start = rows.starts.get(i).copied().unwrap_or(0);
        let len = rows.lengths.get(i).copied().unwrap_or(0);
        // std has no conversion from u32 to usize but `as`.
        put_row(out, *boundary, rows.part(start as usize, usize::from(len)))?;
    }
    Ok(())
}

// ---- code points

fn put_code(out: &mut impl Write, reading: &Reading, code: u32, row: &[u16]) -> io::Result<()> {
    write!(out, "U+{code:04X}")?;
    if row.is_empty() {
        return writeln!(out, " -");
    }
    for id in row {
        write!(out, " ")?;
        show::put_name(out, reading, usize::from(*id))?;
    }
    writeln!(out)
}

// A code point that argument i says, looked up by rows.
fn put_code_at(
    rt: &impl Env,
    out: &mut impl Write,
    i: usize,
    code: u32,
    reading: &Reading,
    rows: Rows,
) -> Result<(), Stop> {
    let Rows {
        boundaries,
        starts,
        lengths,
        pool,
    } = rows;
    match lookup::locate_categories(&[], &[], boundaries, starts, lengths, pool, code) {
        Err(x) => refusal::put_refusal(rt, out, i, b"", x),
        Ok(Located::InFlat(_)) => Ok(()),
        Ok(Located::InRows(Span { start, len })) => {
            Ok(put_code(out, reading, code, rows.part(start, len))?)
        }
    }
}

// What an argument that is no code is looked up as: no scalar value.
const OUTSIDE: u32 = 0xFFFFFFFF;

// The arguments from the first up to the end are codes. One that is refused does not keep those behind it from being answered.
pub fn show_codes(
    rt: &impl Env,
    out: &mut impl Write,
    first: usize,
    end: usize,
    reading: &Reading,
    rows: Rows,
) -> Result<(), Stop> {
    let mut all = Ok(());
    for i in first..end {
        let code = code::code_at(rt, i).unwrap_or(OUTSIDE);
        match put_code_at(rt, out, i, code, reading, rows) {
            Ok(()) => {}
            Err(Stop::Refused) => all = Err(Stop::Refused),
            Err(lost) => return Err(lost),
        }
    }
    all
}
