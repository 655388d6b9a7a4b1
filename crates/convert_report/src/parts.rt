//! `Parts`: what is said of one card in one line of the report.
ghost use Rattle.std.specs.Prelude.{◌≡◌, count_by};
ghost use Rattle.std.specs.Str.{chars};
ghost use Rattle.import_text.specs.Encodings.{is_lost};
ghost use Rattle.convert_report.specs.Counts.{has_lost, have_lost};

use crate::reporting::Weight;
use base_types::NoMemory;
use std::alloc::Global;
use vcard_text::Line;

/// The most parts of a line that are shown. A card may have any number of them.
const PARTS_MAX: u64 = 8;

/// The parts of a line, with semicolons between them, and how much they matter.
#[derive(Drop)]
pub struct Parts {
    text: String,
    count: u64,
    /// How much the heaviest of them matters.
    pub weight: Weight,
}

impl Parts {
    /// No part.
    pub fn new(alloc: Global) -> Parts {
        Parts {
            text: String::new(alloc),
            count: 0,
            weight: Weight::Moved,
        }
    }

    /// Whether there is no part.
    pub fn is_empty(&self) -> bool {
        self.count == 0
    }

    /// Adds a part.
    pub fn add(&mut self, weight: Weight, words: &str) -> Result<(), NoMemory> {
        if self.count < PARTS_MAX {
            if self.count > 0 {
                self.text.push_str("; ")?;
            }
            self.text.push_str(words)?;
        }
        self.count = self.count.saturating_add(1);
        self.weight = self.weight.max(weight);
        Ok(())
    }

    /// The parts, and how many more there are.
    pub fn text(&self, alloc: Global) -> Result<String, NoMemory> {
        let text = self.text.as_str();
        if self.count <= PARTS_MAX {
            return Ok(String::from_str(alloc, text)?);
        }
        let more = self.count.saturating_sub(PARTS_MAX);
        Ok(format!(in alloc; "{text}; and {more} more")?)
    }
}

/// Whether the character is U+FFFD, which stands for one that couldn't be read.
fn is_lost(c: char) -> bool
    ensures { result ≡ is_lost c }
{
    c == '\u{FFFD}'
}

/// How many characters of the text couldn't be read.
#[tactic(auto, using(std::proofs::lemmas::Str::chars_from_encodes))]
fn count_lost(text: &str) -> usize
    ensures { result ≡ count_by is_lost (chars text.now) }
{
    text.chars().filter(|c| is_lost(*c)).count()
}

/// Whether the value of the line has characters that couldn't be read.
fn has_lost(line: &Line) -> bool
    ensures { result ≡ has_lost line.now.value }
{
    count_lost(line.value.as_str()) > 0
}

/// Whether one of the lines has characters that couldn't be read.
pub(crate) fn have_lost(lines: &[Line]) -> bool
    ensures { result ≡ have_lost lines.now }
{
    lines.iter().any(|line| has_lost(line))
}

/// The name of the first line that has a character that couldn't be read.
fn lost_name(lines: &[Line]) -> Option<&str> {
    let place = lines.iter().position(|line| has_lost(line))?;
    let line = lines.get(place)?;
    Some(line.name.as_str())
}

/// The words for a card that has characters that couldn't be read.
pub fn lost_words(alloc: Global, lines: &[Line]) -> Result<Option<String>, NoMemory> {
    match lost_name(lines) {
        Some(name) => Ok(Some(format!(in alloc;
            "{name} has U+FFFD in place of characters that couldn't be read"
        )?)),
        None => Ok(None),
    }
}
