// The pack of a dictionary, written to the file that the second argument names.
#![tactic(auto)]

use command::Asked;
use hold::Reading;
use say::{ErrorStream, Stop};
use std::env::Env;
use std::fs::Files;
use std::io::Write;

// Behind - it goes to standard output, and nothing is said.
fn put_pack<R: Env + ErrorStream + Files>(
    rt: &R,
    out: &mut impl Write,
    asked: Asked,
    pack: &[u8],
) -> Result<(), Stop> {
    let to = asked.second();
    if command::is_argument(rt, to, b"-") {
        return Ok(out.write_all(pack)?);
    }
    file::write_file(rt, to, pack)?;
    say::put_argument(rt, out, to)?;
    writeln!(out, ": packed: {} bytes", pack.len())?;
    Ok(())
}

// Room for every pack: 22 is never given.
pub fn save_pack<R: Env + ErrorStream + Files>(
    rt: &R,
    out: &mut impl Write,
    asked: Asked,
    reading: &Reading,
) -> Result<(), Stop> {
    let mut pack = [0u8; paper::MAX_PACK_BYTES];
    match packer::write_pack(reading, &mut pack) {
        Err(x) => refusal::put_refusal(rt, out, asked.first, b"", x),
        Ok(n) => put_pack(rt, out, asked, &pack[..n.min(paper::MAX_PACK_BYTES)]),
    }
}
