// How many cases of each kind agreed, over tables that are sound and over damaged ones, and how many differed; each
// that differs is named.
use replay::{after_field, byte_at, field_at};
use std::io::{self, Write};

// The cases of a kind that agreed.
#[derive(Clone, Copy, Default)]
struct Agreed {
    sound: u64,
    damaged: u64,
}

#[derive(Clone, Copy, Default)]
pub struct Tally {
    rows: Agreed,
    flat: Agreed,
    numbers: Agreed,
    names: Agreed,
    sums: Agreed,
    lookups: Agreed,
    packed: Agreed,
    places: Agreed,
    searches: Agreed,
    differ: u64,
}

impl Agreed {
    fn add(&mut self, damaged: bool) {
        if damaged {
            self.damaged = self.damaged.wrapping_add(1);
        } else {
            self.sound = self.sound.wrapping_add(1);
        }
    }

    fn say(&self, rt: &impl Print, name: &str) -> io::Result<()> {
        println!(rt;
            "{name}: {} agreed, {} more over damaged tables",
            self.sound, self.damaged
        )
    }
}

// The item by its letter and its first word.
fn say_item(rt: &impl Print, list: &[u8], at: usize) -> io::Result<()> {
    let word = after_field(list, at);
    let text = field_at(list, word).text;
    let Some(item) = list.get(at..word.wrapping_add(text.len())) else {
        return Ok(());
    };
    io::writer(rt).write_all(item)
}

impl Tally {
    fn add(&mut self, letter: u8, damaged: bool) {
        match letter {
            b'q' | b'y' | b'z' => self.rows.add(damaged),
            b'f' | b'u' => self.flat.add(damaged),
            b'm' => self.numbers.add(damaged),
            b'i' => self.names.add(damaged),
            b'a' => self.sums.add(damaged),
            b'l' => self.lookups.add(damaged),
            b'p' => self.packed.add(damaged),
            b'c' => self.places.add(damaged),
            _ => self.searches.add(damaged),
        }
    }

    pub fn differs(
        &mut self,
        rt: &impl Print,
        list: &[u8],
        at: usize,
        number: u64,
    ) -> io::Result<()> {
        print!(rt; "line {number}: ")?;
        say_item(rt, list, at)?;
        println!(rt; " differs")?;
        self.differ = self.differ.wrapping_add(1);
        Ok(())
    }

    // The case of the item at a place, in a line with this number.
    pub fn note(
        &mut self,
        rt: &impl Print,
        list: &[u8],
        at: usize,
        number: u64,
        damaged: bool,
        agreed: bool,
    ) -> io::Result<()> {
        if !agreed {
            return self.differs(rt, list, at, number);
        }
        self.add(byte_at(list, at), damaged);
        Ok(())
    }

    pub fn say(&self, rt: &impl Print) -> io::Result<()> {
        self.rows.say(rt, "rows")?;
        self.flat.say(rt, "flat tables")?;
        self.numbers.say(rt, "names and definitions by number")?;
        self.names.say(rt, "numbers by name")?;
        self.sums.say(rt, "sums over the BMP")?;
        self.lookups.say(rt, "lookups")?;
        self.packed.say(rt, "packed lookups")?;
        self.places.say(rt, "places of the flat pool")?;
        self.searches.say(rt, "searches among boundaries")?;
        println!(rt; "{} differed", self.differ)
    }
}
