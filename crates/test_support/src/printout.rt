//! Text that a test prints.
use crate::supply::Supply;
use base_types::NoMemory;
use std::alloc::Global;

/// Text that a test prints. If memory runs out while something is added, it remembers that.
#[derive(Drop)]
pub struct Printout {
    /// The memory of this text, and of what is printed to it.
    pub supply: Supply,
    octets: Vec<u8>,
}

impl Printout {
    /// No text.
    pub fn new(alloc: Global) -> Printout {
        Printout {
            supply: Supply::new(alloc),
            octets: Vec::new(alloc),
        }
    }

    /// The allocator.
    pub fn alloc(&self) -> Global {
        self.supply.alloc
    }

    /// The octets.
    pub fn as_slice(&self) -> &[u8] {
        self.octets.as_slice()
    }

    /// The text; empty if the octets aren't UTF-8.
    pub fn as_str(&self) -> &str {
        str::from_utf8(self.octets.as_slice()).unwrap_or_default()
    }

    /// The octets, without a copy.
    pub fn into_octets(self) -> Vec<u8> {
        self.octets
    }

    /// An error if memory ran out.
    pub fn result(&self) -> Result<(), NoMemory> {
        self.supply.result()
    }

    /// Adds the octets.
    pub fn add_octets(&mut self, octets: &[u8]) {
        if self.octets.extend_from_slice(octets).is_err() {
            self.supply.ran_out = true;
        }
    }

    /// Adds the text.
    pub fn add(&mut self, text: &str) {
        self.add_octets(text.as_bytes());
    }

    /// Adds the texts.
    pub fn add_all(&mut self, texts: &[&str]) {
        for text in texts {
            self.add(text);
        }
    }

    /// Adds what was printed elsewhere.
    pub fn add_printout(&mut self, other: &Printout) {
        self.add_octets(other.as_slice());
        self.supply.note(other.result());
    }

    /// Adds the octet.
    pub fn add_octet(&mut self, octet: u8) {
        self.add_octets(&[octet]);
    }

    /// Adds the character.
    pub fn add_char(&mut self, c: char) {
        let mut one = String::new(self.supply.alloc);
        self.supply.note(one.push(c));
        self.add(one.as_str());
    }

    /// Adds the number.
    pub fn add_number(&mut self, number: u64) {
        match format!(in self.supply.alloc; "{number}") {
            Ok(digits) => self.add(digits.as_str()),
            Err(_) => self.supply.ran_out = true,
        }
    }

    /// Adds the label and the number.
    pub fn add_labelled(&mut self, label: &str, number: u64) {
        self.add(label);
        self.add_number(number);
    }

    /// Adds a number of octets, of items or the like.
    pub fn add_count(&mut self, label: &str, count: usize) {
        self.add_labelled(label, u64::try_from(count).unwrap_or(u64::MAX));
    }

    /// Adds the label, and each number after a space.
    pub fn add_numbers(&mut self, label: &str, numbers: &[u64]) {
        self.add(label);
        for number in numbers {
            self.add_labelled(" ", *number);
        }
    }

    /// Adds `true` or `false`.
    pub fn add_bool(&mut self, value: bool) {
        self.add(if value { "true" } else { "false" });
    }

    /// Adds the text in one line: `\r`, `\n` and `\\` stand for the characters.
    pub fn add_escaped(&mut self, text: &str) {
        for c in text.chars() {
            match c {
                '\r' => self.add("\\r"),
                '\n' => self.add("\\n"),
                '\\' => self.add("\\\\"),
                c => self.add_char(c),
            }
        }
    }
}
