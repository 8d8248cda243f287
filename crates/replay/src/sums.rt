// FNV-1a of 32 bits: the sum over numbers, the least byte first.

pub const START: u32 = 2166136261;

const FACTOR: u32 = 16777619;

// A number that a sum goes on by.
pub trait Summed: Copy {
    fn mixed_into(self, sum: u32) -> u32;
}

impl Summed for u8 {
    fn mixed_into(self, sum: u32) -> u32 {
        (sum ^ u32::from(self)).wrapping_mul(FACTOR)
    }
}

impl Summed for u16 {
    fn mixed_into(self, sum: u32) -> u32 {
        over(sum, &self.to_le_bytes())
    }
}

impl Summed for u32 {
    fn mixed_into(self, sum: u32) -> u32 {
        over(sum, &self.to_le_bytes())
    }
}

// On by numbers.
pub fn over<T: Summed>(sum: u32, part: &[T]) -> u32 {
    part.iter().fold(sum, |total, n| n.mixed_into(total))
}

// On by a row: its length, and its numbers.
pub fn row(sum: u32, part: &[u16]) -> u32 {
    over(((part.len() % 65536) as u16).mixed_into(sum), part)
}
