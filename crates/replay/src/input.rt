// Standard input, read into a room.
ghost use Rattle.std.specs.Prelude.{◌≤◌, length, IfOk};

use std::io::{self, Read};

// Reads until the room is full or the input ends; how many bytes the room has of it.
pub fn read_full<R: Read>(input: &mut R, room: &mut [u8]) -> io::Result<usize>
    ensures { IfOk result (λ n. n ≤ length room.new) }
{
    let mut size = 0;
    // (a cursor: each turn goes on by as much as was read)
    while size < room.len() {
        let n = input.read(&mut room[size..])?;
        if n == 0 {
            return Ok(size);
        }
        size += n;
    }
    Ok(size)
}
