// What is found at a code point: by the flat table, its packed entry, and by the rows alone.
use crate::tables::Tables;
use crate::writer::Page;
use lookup::Located;
use std::io;
use std::io::Write;

const CODE_BYTES: usize = 4;

const REFUSED: u8 = 0;

const IN_FLAT: u8 = 1;

const IN_ROWS: u8 = 2;

const PRESENT: u8 = 1;

const ABSENT: u8 = 2;

pub fn byte(number: u32) -> u8 {
    (number % 256) as u8
}

// Where it is or the refusal, then how many categories, and which.
fn add_found<W: Write>(page: &mut Page<W>, t: &Tables, c: u32) -> io::Result<()> {
    let head = match t.locate(c) {
        Ok(Located::InFlat(_)) => [IN_FLAT, 0],
        Ok(Located::InRows(_)) => [IN_ROWS, 0],
        Err(r) => [REFUSED, byte(r.number)],
    };
    page.add(&head)?;
    let part = t.categories(c);
    page.add_length(part.len())?;
    page.add_u16s(part)
}

fn add_packed<W: Write>(page: &mut Page<W>, index: &[u32], c: u32) -> io::Result<()> {
    match packed::lookup_categories_packed(index, c) {
        Ok(Some(p)) => {
            page.add_u8(PRESENT)?;
            page.add(&p.offset.to_le_bytes())?;
            page.add(&p.len.to_le_bytes())
        }
        Ok(None) => page.add_u8(ABSENT),
        Err(r) => page.add(&[REFUSED, byte(r.number)]),
    }
}

pub fn add_all<W: Write>(page: &mut Page<W>, t: &Tables, codes: &[u8]) -> io::Result<()> {
    let rows = t.without_flat();
    for code in codes.chunks(CODE_BYTES) {
        let c = table::get_u32(code, 0);
        add_found(page, t, c)?;
        add_packed(page, t.index, c)?;
        add_found(page, &rows, c)?;
    }
    Ok(())
}
