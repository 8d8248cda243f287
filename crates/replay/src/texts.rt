// A list whose lines build a text each, and ask one thing of it.
use crate::byte_at;
use crate::items::{self, Reader};
use crate::lines::each_line;
use crate::tally::Tally;
use std::io;

const TEXT_ROOM: usize = 73728;

// A base asks nothing of its text.
fn note<F: Fn(&[u8], Reader, &[u8]) -> bool>(
    rt: &impl Print,
    t: &mut Tally,
    list: &[u8],
    r: Reader,
    text: &[u8],
    number: u64,
    agrees: &F,
) -> io::Result<()>
    requires { (f : _) (x1 : _) (x2 : _) (x3 : _) → F.pre f x1 x2 x3 }
{
    if byte_at(list, r.at) == b'b' {
        return Ok(());
    }
    let agreed = match text.get(..r.size) {
        Some(part) => agrees(list, r, part),
        None => false,
    };
    t.note(rt, agreed, number)
}

// Replays a list whose bases fit a room: `agrees` is asked of each line's text.
pub fn replay_texts<F: Fn(&[u8], Reader, &[u8]) -> bool>(
    rt: &impl Print,
    list: &[u8],
    base: &mut [u8],
    agrees: F,
) -> io::Result<Tally>
    requires { (f : _) (x1 : _) (x2 : _) (x3 : _) → F.pre f x1 x2 x3 }
{
    let mut text = [0u8; TEXT_ROOM];
    let mut t = Tally::default();
    let mut kept = 0;
    each_line(
        list,
        0,
        |at, number|
            requires { (f : _) (x1 : _) (x2 : _) (x3 : _) → F.pre f x1 x2 x3 }
        {
            let r = items::built(list, at, kept, &mut text, base);
            kept = r.base;
            note(rt, &mut t, list, r, &text, number, &agrees)
        },
    )?;
    Ok(t)
}
