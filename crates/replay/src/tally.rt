// How many lines of a list agreed and differed; each that differs is named.
use std::io;

#[derive(Clone, Copy, Default)]
pub struct Tally {
    pub agreed: u64,
    pub differ: u64,
}

pub fn say_difference(rt: &impl Print, number: u64) -> io::Result<()> {
    println!(rt; "line {number} differs")
}

impl Tally {
    // Counts a line by its number.
    pub fn note(&mut self, rt: &impl Print, agreed: bool, number: u64) -> io::Result<()> {
        if agreed {
            self.agreed = self.agreed.wrapping_add(1);
            return Ok(());
        }
        say_difference(rt, number)?;
        self.differ = self.differ.wrapping_add(1);
        Ok(())
    }

    pub fn say(&self, rt: &impl Print) -> io::Result<()> {
        println!(rt; "{} agreed, {} differed", self.agreed, self.differ)
    }
}
