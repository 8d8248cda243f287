// A dictionary's rows, built for what is asked: lines of them all, or the categories of code points.
#![tactic(auto)]

use command::{Asked, Command};
use hold::Reading;
use say::Stop;
use show_row::Rows;
use std::env::Env;
use std::io::Write;

// A call of its own, so that its caller's proof has no list of two million zeros in it.
fn empty_pool() -> [u16; paper::MAX_ROW_PLACES] {
    [0; paper::MAX_ROW_PLACES]
}

// What `show` or `at` writes of the rows.
fn put_built(
    rt: &impl Env,
    out: &mut impl Write,
    asked: Asked,
    reading: &Reading,
    rows: Rows,
) -> Result<(), Stop> {
    match asked.command {
        Some(Command::At) => show_row::show_codes(
            rt,
            out,
            asked.second(),
            asked.end,
            reading,
            rows,
        ),
        _ => Ok(show_row::show_rows(out, rows)?),
    }
}

// Room for every row that a dictionary can have: 17 is never given.
pub fn put_rows(
    rt: &impl Env,
    out: &mut impl Write,
    asked: Asked,
    reading: &Reading,
) -> Result<(), Stop> {
    let mut boundaries = [0u32; paper::MAX_ROWS];
    let mut starts = [0u32; paper::MAX_ROWS];
    let mut lengths = [0u16; paper::MAX_ROWS];
    let mut pool = empty_pool();
    match row::build_lookup_table(
        reading,
        &mut boundaries,
        &mut starts,
        &mut lengths,
        &mut pool,
    ) {
        Err(x) => refusal::put_refusal(rt, out, asked.first, b"", x),
        Ok(n) => {
            let rows = Rows {
                boundaries: &boundaries[..n.rows.min(paper::MAX_ROWS)],
                starts: &starts,
                lengths: &lengths,
                pool: &pool,
            };
            put_built(rt, out, asked, reading, rows)
        }
    }
}
