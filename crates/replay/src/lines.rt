// The lines of a list.
use crate::next_line;
use std::io;

// Takes each line's place and number, from the one behind `before` on; the number of the last line.
pub fn each_line<F: FnMut(usize, u64) -> io::Result<()>>(
    list: &[u8],
    before: u64,
    mut take: F,
) -> io::Result<u64>
    requires { F.IsAlwaysCallable take }
{
    let mut at = 0;
    let mut number = before;
    for _ in 0..list.len() {
        if list.len() <= at {
            break;
        }
        number = number.wrapping_add(1);
        take(at, number)?;
        at = next_line(list, at);
    }
    Ok(number)
}
