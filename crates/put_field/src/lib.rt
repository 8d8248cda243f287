// Writes one field of a pack behind another, bit by bit, most significant bit first, into lent memory; and a run of bytes, each a field.
#![tactic(auto)]

ghost use Rattle.std.specs.Prelude.{◌≡◌, [], ◌∷◌, map, ◌+◌, ◌*◌, ◌≤◌, length, take, drop};
ghost use Rattle.paper.specs.Pack.Fields.{field, byte_width, length_width};
ghost use Rattle.put_field.specs.Writer.{Room, Puts};

use field::BYTE_WIDTH;

const BYTES: u64 = 256;

// Where a writer stands: `at` whole bytes are in memory, and the low `waiting` bits of `held` wait for the byte behind them to be whole.
#[derive(Clone, Copy)]
pub struct BitWriter {
    pub at: usize,
    pub waiting: usize,
    pub held: u8,
}

impl BitWriter {
    // A field behind the others: the low `width` bits of `value`. Bytes that are whole go to memory, the rest waits.
    pub fn put(self, out: &mut [u8], width: usize, value: u64) -> BitWriter
        requires width_in_bounds { width ≤ length_width }
        requires room { Room out.old self width }
        ensures { Puts out.old self (field width value ∷ []) width out.new result }
    {
        let low = value & ((1u64 << width) - 1);
        let held = (u64::from(self.held) << width) | low;
        let mut at = self.at;
        let mut left = self.waiting + width;
        // A `while`: it goes by the bits that are left, and counts no index.
        while BYTE_WIDTH <= left {
            left -= BYTE_WIDTH;
            out[at] = ((held >> left) % BYTES) as u8;
            at += 1;
        }
        BitWriter {
            at,
            waiting: left,
            held: (held % BYTES) as u8,
        }
    }
}

// n bytes of the name store from a place on.
pub fn put_bytes(from: BitWriter, out: &mut [u8], names: &[u8], first: usize, n: usize) -> BitWriter
    requires n_in_bounds { first + n ≤ length names.now }
    requires room { Room out.old from (byte_width * n) }
    ensures { Puts out.old from (map (field byte_width) (take n (drop first names.now))) (byte_width * n) out.new result }
{
    let mut w = from;
    for b in &names[first..first + n] {
        w = w.put(out, BYTE_WIDTH, u64::from(*b));
    }
    w
}
