//! `Report`: what is said of a conversion, and where.

use crate::fault::ConversionFault;
use crate::form_changes::{FormChanges, FormKind};
use crate::guesses::guess_words;
use crate::ledger::Summary;
use crate::media_delivery::MediaDelivery;
use base_types::{NoMemory, Text};
use std::alloc::Global;
use std::io;
use std::io::Write;

/// How much a line of the report matters, from the least on.
#[derive(Clone, Copy, PartialEq, Eq)]
pub enum Weight {
    /// What a card says is kept, but not where it was.
    Moved,
    /// A part of a card is lost.
    Lost,
    /// A card isn't carried.
    NotCarried,
}

impl Weight {
    fn rank(self) -> u8 {
        match self {
            Weight::Moved => 1,
            Weight::Lost => 2,
            Weight::NotCarried => 3,
        }
    }

    /// The heavier one.
    pub(crate) fn max(self, other: Weight) -> Weight {
        if other.rank() > self.rank() {
            other
        } else {
            self
        }
    }
}

/// The first of the heaviest lines.
#[derive(Drop)]
struct FirstLine {
    weight: Weight,
    text: String,
}

/// The report of a conversion, of one file or of several.
///
/// Its reader gets a line for each card whose content changed or that isn't carried, and at the end
/// a line for each kind of change of form, with its number. A file, if there is one, gets a line
/// for each change. It keeps one number for each kind and name, and no lines but one.
#[derive(Drop)]
pub struct Report<E, T> {
    reader: E,
    /// What gets all lines, if it is wanted.
    file: Option<T>,
    /// The name of the file that is converted and a colon, if there are several; else empty.
    source: String,
    forms: FormChanges,
    /// The number of cells that were read as Windows-1252 since they aren't UTF-8.
    guessed_cells: u64,
    /// The number of such lines of cards.
    guessed_lines: u64,
    /// Whether the lines of the file that is converted end with a carriage return alone.
    are_returns: bool,
    /// Whether something was read as Windows-1252 of a file whose lines do.
    are_guessed_returns: bool,
    /// The number of cards of which a line or a cell is kept aside.
    aside: u64,
    /// The number of pictures and sounds that were written beside their cards.
    media: u64,
    /// The number of those that were to be written and weren't.
    lost_media: u64,
    first: Option<FirstLine>,
}

fn write_text<W: Write>(writer: &mut W, text: &str) -> Result<(), ConversionFault> {
    match writer.write_all(text.as_bytes()) {
        Ok(()) => Ok(()),
        Err(_) => Err(ConversionFault::Report),
    }
}

impl<E: Write, T: Write + Drop> Report<E, T> {
    /// Gives all lines from now on to the file, too.
    pub fn set_file(&mut self, file: Option<T>) {
        self.file = file;
    }
}

impl<E: Write, T: Write> Report<E, T> {
    /// A report to a reader.
    pub fn new(alloc: Global, reader: E) -> Report<E, T> {
        Report {
            reader,
            file: None,
            source: String::new(alloc),
            forms: FormChanges::new(alloc),
            guessed_cells: 0,
            guessed_lines: 0,
            are_returns: false,
            are_guessed_returns: false,
            aside: 0,
            media: 0,
            lost_media: 0,
            first: None,
        }
    }

    /// Names the file that is converted from now on before each line.
    pub fn set_source(&mut self, alloc: Global, name: &str) -> Result<(), NoMemory> {
        self.source = format!(in alloc; "{name}: ")?;
        Ok(())
    }

    /// Says whether the lines of the file that is converted from now on end with a carriage return
    /// alone, as those of programs of Mac OS did.
    pub fn set_line_ends(&mut self, are_returns: bool) {
        self.are_returns = are_returns;
    }

    /// What stands before each line.
    pub fn source(&self) -> &str {
        self.source.as_str()
    }

    /// Whether a file gets all lines.
    pub fn has_file(&self) -> bool {
        self.file.is_some()
    }

    /// Writes lines to the file alone.
    pub fn list(&mut self, lines: &str) -> Result<(), ConversionFault> {
        match &mut self.file {
            Some(file) => write_text(file, lines),
            None => Ok(()),
        }
    }

    /// Writes lines to the reader and to the file.
    pub fn say(&mut self, lines: &str) -> Result<(), ConversionFault> {
        write_text(&mut self.reader, lines)?;
        self.list(lines)
    }

    /// Writes a line to the reader alone, and keeps it if it is the first of its weight.
    pub fn write_line(
        &mut self,
        alloc: Global,
        weight: Weight,
        line: &str,
    ) -> Result<(), ConversionFault> {
        let source = self.source.as_str();
        let text = format!(in alloc; "{source}{line}\n")?;
        write_text(&mut self.reader, text.as_str())?;
        let is_first = match &self.first {
            Some(first) => weight.rank() > first.weight.rank(),
            None => true,
        };
        if is_first {
            self.first = Some(FirstLine { weight, text });
        }
        Ok(())
    }

    /// Writes a line to the reader and to the file.
    pub fn write_to_both(
        &mut self,
        alloc: Global,
        weight: Weight,
        line: &str,
    ) -> Result<(), ConversionFault> {
        self.write_line(alloc, weight, line)?;
        self.list_line(alloc, line)
    }

    /// Writes a line to the file alone.
    pub fn list_line(&mut self, alloc: Global, line: &str) -> Result<(), ConversionFault> {
        if !self.has_file() {
            return Ok(());
        }
        let source = self.source.as_str();
        let text = format!(in alloc; "{source}{line}\n")?;
        self.list(text.as_str())
    }

    /// Counts a change of form of a line or a cell of this name.
    pub fn count(&mut self, alloc: Global, kind: FormKind, name: &str) -> Result<(), NoMemory> {
        self.forms.count(alloc, kind, name)
    }

    /// Counts cells that were read as Windows-1252.
    pub fn count_guessed_cells(&mut self, count: u64) {
        self.guessed_cells = self.guessed_cells.saturating_add(count);
        self.note_returns();
    }

    /// Counts lines of a card that were read as Windows-1252.
    pub(crate) fn count_guessed_lines(&mut self, count: u64) {
        self.guessed_lines = self.guessed_lines.saturating_add(count);
        self.note_returns();
    }

    /// Remembers that something was read as Windows-1252 where lines end with a carriage return
    /// alone, if they do.
    fn note_returns(&mut self) {
        self.are_guessed_returns = self.are_guessed_returns || self.are_returns;
    }

    /// Counts a card of which something is kept aside.
    pub fn count_aside(&mut self) {
        self.aside = self.aside.saturating_add(1);
    }

    /// Counts the pictures and sounds that a card is carried without.
    pub fn count_media(&mut self, deliveries: &[MediaDelivery]) {
        for each in deliveries {
            match each {
                MediaDelivery::Written(_) => self.media = self.media.saturating_add(1),
                MediaDelivery::Refused(_) => self.lost_media = self.lost_media.saturating_add(1),
            }
        }
    }

    /// Whether a picture or a sound was to be written beside its card and wasn't.
    pub fn has_lost_media(&self) -> bool {
        self.lost_media > 0
    }

    /// The end of the last line: how many pictures and sounds were written, and how many weren't.
    fn media_text(&self, alloc: Global) -> Result<String, NoMemory> {
        let mut text = String::new(alloc);
        let media = self.media;
        if media > 0 {
            let things = media_things(media);
            text.push_str(format!(in alloc; ", {media} {things} written")?.as_str())?;
        }
        let lost = self.lost_media;
        if lost > 0 {
            let things = media_things(lost);
            text.push_str(format!(in alloc; ", {lost} {things} not written")?.as_str())?;
        }
        Ok(text)
    }

    /// The lines that say how much was read as Windows-1252, and that it may be Mac Roman if lines
    /// end as those of a Mac did.
    fn guessed_text(&self, alloc: Global) -> Result<String, NoMemory> {
        let mut text = guessed_line(alloc, self.guessed_cells, "cell")?;
        text.push_str(guessed_line(alloc, self.guessed_lines, "line")?.as_str())?;
        if self.are_guessed_returns {
            text.push_str(MAC_ROMAN_WORDS)?;
        }
        Ok(text)
    }

    /// Writes the end: the numbers of changes of form and of what was read as Windows-1252, the
    /// line to look at first, and the numbers of cards and of pictures and sounds beside them.
    /// `files` is the number of files of cards or rows that were made, if the conversion made
    /// files.
    pub fn finish(
        &mut self,
        alloc: Global,
        summary: Summary,
        files: Option<u64>,
    ) -> Result<(), ConversionFault> {
        let forms = self.forms.text(alloc)?;
        self.say(forms.as_str())?;
        let guessed = self.guessed_text(alloc)?;
        self.say(guessed.as_str())?;
        let first = self.first_text(alloc)?;
        self.say(first.as_str())?;
        let mut numbers = summary_text(alloc, summary, self.aside, files)?;
        numbers.push_str(self.media_text(alloc)?.as_str())?;
        numbers.push('\n')?;
        self.say(numbers.as_str())
    }

    /// The line that says what to look at first. Empty if there is nothing.
    fn first_text(&self, alloc: Global) -> Result<String, NoMemory> {
        match &self.first {
            Some(first) => {
                let line = first.text.as_str();
                Ok(format!(in alloc; "look first at: {line}")?)
            }
            None => Ok(String::new(alloc)),
        }
    }
}

/// What so many pictures and sounds are called.
fn media_things(count: u64) -> &'static str {
    if count == 1 {
        "picture or sound"
    } else {
        "pictures and sounds"
    }
}

/// What is said where something was read as Windows-1252 of a file whose lines end with a carriage
/// return alone.
const MAC_ROMAN_WORDS: &str =
    "lines end with CR alone, so the letters may be Mac Roman: if a name is \
     wrong, convert with --charset macintosh\n";

/// The line that says how many things were read as Windows-1252. Empty for none.
fn guessed_line(alloc: Global, count: u64, thing: &str) -> Result<String, NoMemory> {
    if count == 0 {
        return Ok(String::new(alloc));
    }
    let words = guess_words(alloc, count, thing)?;
    let words = words.as_str();
    Ok(format!(in alloc; "{words}\n")?)
}

/// The front of the last line of the report.
fn summary_text(
    alloc: Global,
    summary: Summary,
    aside: u64,
    files: Option<u64>,
) -> Result<String, NoMemory> {
    let Summary {
        written,
        changed,
        refused,
    } = summary;
    let numbers = format!(in alloc;
        "{written} cards written, {changed} changed, {aside} with parts kept aside, {refused} not \
         carried"
    )?;
    let numbers = numbers.as_str();
    match files {
        Some(files) => Ok(format!(in alloc; "{numbers}, {files} files made")?),
        None => Ok(String::from_str(alloc, numbers)?),
    }
}

/// Writes to the reader and to the file.
impl<E: Write, T: Write> Write for Report<E, T> {
    fn write(&mut self, buf: &[u8]) -> io::Result<usize> {
        let count = self.reader.write(buf)?;
        if let Some(file) = &mut self.file {
            file.write_all(buf.get(..count).unwrap_or(buf))?;
        }
        Ok(count)
    }

    fn flush(&mut self) -> io::Result<()> {
        if let Some(file) = &mut self.file {
            file.flush()?;
        }
        self.reader.flush()
    }
}
