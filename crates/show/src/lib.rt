// A reading in lines: categories, definitions and ranges, each with its number or its bounds.
#![tactic(auto)]

use hold::Reading;
use paper::Counts;
use std::io;
use std::io::Write;

// No table of a reading has more entries.
const MOST: usize = paper::MAX_REFERENCES;

pub fn put_counts(out: &mut impl Write, c: Counts) -> io::Result<()> {
    let Counts {
        categories,
        definitions,
        ranges,
        references,
        bytes,
    } = c;
    write!(
        out,
        ": accepted: {categories} categories, {definitions} definitions, {ranges} ranges, "
    )?;
    writeln!(out, "{references} references, {bytes} name bytes")
}

// The name of a category; nothing where it runs past.
pub fn put_name(out: &mut impl Write, reading: &Reading, id: usize) -> io::Result<()> {
    let at = table::CATEGORY_BYTES * id.min(MOST);
    let start = usize::from(table::get_u16(reading.categories, at));
    let len = usize::from(table::get_u16(reading.categories, at + table::NAME_LENGTH_AT));
    match reading.names.get(start..start + len) {
        Some(name) => say::put_name(out, name),
        None => Ok(()),
    }
}

pub fn show_categories(out: &mut impl Write, reading: &Reading) -> io::Result<()> {
    for id in 0..reading.counts.categories {
        write!(out, "category {id} ")?;
        put_name(out, reading, id)?;
        writeln!(out)?;
    }
    Ok(())
}

fn put_definition(out: &mut impl Write, definitions: &[u8], i: usize) -> io::Result<()> {
    let at = table::DEFINITION_BYTES * i.min(MOST);
    let invoke = definitions.get(at + table::INVOKE_AT).copied().unwrap_or(0);
    let group = definitions.get(at + table::GROUP_AT).copied().unwrap_or(0);
    let length = table::get_u32(definitions, at);
    writeln!(out, "definition {i} {invoke} {group} {length}")
}

pub fn show_definitions(out: &mut impl Write, reading: &Reading) -> io::Result<()> {
    for i in 0..reading.counts.definitions {
        put_definition(out, reading.definitions, i)?;
    }
    Ok(())
}

// The category numbers of a range.
fn put_references(
    out: &mut impl Write,
    references: &[u8],
    first: usize,
    count: usize,
) -> io::Result<()> {
    for i in first..first.saturating_add(count) {
        let id = table::get_u16(references, table::REFERENCE_BYTES * i.min(MOST));
        write!(out, " {id}")?;
    }
    Ok(())
}

fn put_range(out: &mut impl Write, reading: &Reading, i: usize) -> io::Result<()> {
    let at = table::RANGE_BYTES * i.min(MOST);
    let lower = table::get_u16(reading.ranges, at);
    let upper = table::get_u16(reading.ranges, at + table::UPPER_AT);
    let first = usize::from(table::get_u16(reading.ranges, at + table::FIRST_AT));
    let count = usize::from(table::get_u16(reading.ranges, at + table::COUNT_AT));
    write!(out, "range {lower:04X} {upper:04X}")?;
    put_references(out, reading.references, first, count)?;
    writeln!(out)
}

pub fn show_ranges(out: &mut impl Write, reading: &Reading) -> io::Result<()> {
    for i in 0..reading.counts.ranges {
        put_range(out, reading, i)?;
    }
    Ok(())
}
