// A bit cursor over a pack: fields are read one after another from a bit position, most significant bit first. Every function takes whatever
// bytes, position and width it is handed.
#![tactic(auto)]

ghost use Rattle.std.specs.Prelude.{◌≡◌, ◌+◌, ◌*◌, ◌/◌, ◌≤◌, ◌<◌, length, get_or};
ghost use Rattle.paper.specs.Pack.Fields.{byte_width};
ghost use Rattle.paper.specs.Tables.Lent.{patch};
ghost use Rattle.field.specs.Bits.{bits_value, bytes_value, bytes_at};
ghost use Rattle.field.specs.Cursor.{widest, last_place, Has, said, field_at, Runs};

use paper::{PACK_ENDS, Refusal};

// "The pack": the widths of its fields in bits, as `Pack.Fields` has them.
pub const VERSION_WIDTH: usize = 8;

pub const CATEGORIES_WIDTH: usize = 10;

pub const LINES_WIDTH: usize = 10;

pub const RANGES_WIDTH: usize = 12;

pub const REFERENCES_WIDTH: usize = 14;

pub const NAME_LENGTH_WIDTH: usize = 15;

pub const FLAG_WIDTH: usize = 1;

pub const LENGTH_WIDTH: usize = 32;

pub const BOUND_WIDTH: usize = 16;

pub const COUNT_WIDTH: usize = 14;

pub const NUMBER_WIDTH: usize = 9;

pub const BYTE_WIDTH: usize = 8;

// The widest field, and the bytes that hold any field of it wherever it starts.
const WIDEST: usize = 32;

const WINDOW: usize = 5;

const WINDOW_WIDTH: usize = 40;

const BYTE_VALUES: u16 = 256;

// The last position that a cursor can have.
const LAST_PLACE: usize = 18446744073709551615;

// A bit position in a pack.
#[derive(Clone, Copy)]
pub struct BitCursor {
    pub at: usize,
}

// The byte at i; past the end 0.
fn byte_or_0(s: &[u8], i: usize) -> u8
    ensures { result ≡ get_or s.now i 0 }
{
    s.get(i).copied().unwrap_or(0)
}

// The five bytes from i on as one number. Near the end of the pack those that are missing count as 0.
fn five(s: &[u8], i: usize) -> u64
    requires { i ≤ last_place / byte_width }
    ensures { result ≡ bytes_value s.now i 5 }
{
    if i + WINDOW <= s.len() {
        return u64::from_be_bytes([0, 0, 0, s[i], s[i + 1], s[i + 2], s[i + 3], s[i + 4]]);
    }
    u64::from_be_bytes([
        0,
        0,
        0,
        byte_or_0(s, i),
        byte_or_0(s, i + 1),
        byte_or_0(s, i + 2),
        byte_or_0(s, i + 3),
        byte_or_0(s, i + 4),
    ])
}

// The number that the bits from a place on are: five bytes, a shift and a mask.
fn bits_at(pack: &[u8], at: usize, width: usize) -> u32
    requires { width ≤ widest }
    ensures { result ≡ bits_value pack.now at width }
{
    let all = five(pack, at / BYTE_WIDTH);
    let shift = WINDOW_WIDTH - at % BYTE_WIDTH - width;
    let mask = (1u64 << width) - 1;
    ((all >> shift) & mask) as u32
}

// A pack of `len` bytes has so many bytes and bits behind a place, and a cursor can stand behind them. Nothing is multiplied by the length.
fn has_bits(len: usize, at: usize, bytes: usize, bits: usize) -> bool
    requires { bits ≤ widest }
    ensures { Has len at (byte_width * bytes + bits) result }
{
    let first = at / BYTE_WIDTH;
    let room = LAST_PLACE - at;
    first <= len
        && bytes <= len - first
        && (at % BYTE_WIDTH + bits).div_ceil(BYTE_WIDTH) <= len - first - bytes
        && bytes <= room / BYTE_WIDTH
        && bits <= room - BYTE_WIDTH * bytes
}

// The byte whose bits start at a place: the low bits of one byte of the pack and the high bits of the next.
fn byte_at(pack: &[u8], at: usize) -> u8
    ensures { result ≡ bits_value pack.now at byte_width }
{
    let first = at / BYTE_WIDTH;
    let two = u16::from_be_bytes([byte_or_0(pack, first), byte_or_0(pack, first + 1)]);
    let shift = BYTE_WIDTH - at % BYTE_WIDTH;
    ((two >> shift) % BYTE_VALUES) as u8
}

// Bytes of the pack from a place on, into lent room.
fn copy_bytes(pack: &[u8], at: usize, n: usize, room: &mut [u8], to: usize)
    requires n_bound { at + byte_width * n ≤ last_place }
    requires n_in_bounds { to + n ≤ length room.old }
    ensures { room.new ≡ patch to (bytes_at pack.now at n) room.old }
{
    for i in 0..n {
        room[to + i] = byte_at(pack, at + BYTE_WIDTH * i);
    }
}

impl BitCursor {
    // The next field, of 1 to 32 bits.
    pub fn field(self, pack: &[u8], width: usize) -> Result<(u32, BitCursor), Refusal>
        ensures { said pack.now result ≡ field_at pack.now self.at width }
    {
        let at = self.at;
        if width == 0 || WIDEST < width || !has_bits(pack.len(), at, 0, width) {
            return Err(Refusal {
                number: PACK_ENDS,
                place: at,
            });
        }
        Ok((bits_at(pack, at, width), BitCursor { at: at + width }))
    }

    // The next n bytes, one field, into lent room at a place; where they have no room there nothing is written.
    pub fn bytes(
        self,
        pack: &[u8],
        n: usize,
        room: &mut [u8],
        to: usize,
    ) -> Result<BitCursor, Refusal>
        ensures { Runs pack.now self.at n to room.old room.new result }
    {
        let at = self.at;
        if n == 0 || !has_bits(pack.len(), at, n, 0) {
            return Err(Refusal {
                number: PACK_ENDS,
                place: at,
            });
        }
        let end = BitCursor {
            at: at + BYTE_WIDTH * n,
        };
        if n <= room.len() && to <= room.len() - n {
            copy_bytes(pack, at, n, room, to);
        }
        Ok(end)
    }
}
