//! `CharsetReader`: reads a file in a named encoding as UTF-8.

ghost use Rattle.std.specs.Prelude.{◌≡◌, IfOk, None, Some};
ghost use Rattle.cli_convert.specs.FileTexts.{shown_mark, shows_big, shows_little};
ghost use Rattle.cli_convert.specs.declared.charset_reader.Decoding.TheVariants.{Plain};
ghost use Rattle.cli_convert.specs.declared.charset_reader.Encoding.TheVariants.{Found};

use base_types::NoMemory;
use import_text::{Charset, begins_with_word, charset_named, joined, read_charset};
use std::alloc::Global;
use std::io;
use std::io::{Error, ErrorKind, Read};

/// The number of octets that show whether a file is of UTF-16.
const SHOWN_OCTETS: usize = 4;

/// The number of octets that are read at once.
const CHUNK_OCTETS: usize = 4096;

/// The most octets of a character in UTF-8.
const CHAR_OCTETS_MAX: u32 = 4;

/// How the text of a file is encoded.
#[derive(Clone, Copy)]
pub(crate) enum Encoding {
    /// As its octets say: UTF-8, UTF-16, or else Windows-1252.
    Found,
    /// UTF-8.
    Utf8,
    /// UTF-16, whose byte order mark, or else its first octets, say the order.
    Utf16,
    /// UTF-16 with the less significant octet first.
    Utf16Little,
    /// UTF-16 with the more significant octet first.
    Utf16Big,
    /// One octet for each character.
    Octets(Charset),
}

fn is_named(name: &str, one: &str, other: &str) -> bool {
    name.eq_ignore_ascii_case(one) || name.eq_ignore_ascii_case(other)
}

/// The encoding of this name, in any case; without a name the one that is found. `None` if the name
/// isn't known. The only `Err` is out of memory.
pub(crate) fn encoding_named(
    alloc: Global,
    name: Option<&str>,
) -> Result<Option<Encoding>, NoMemory>
    ensures { IfOk result (λ encoding. name.entry ≡ None → encoding ≡ Some Found) }
{
    let Some(name) = name else {
        return Ok(Some(Encoding::Found));
    };
    if is_named(name, "UTF-8", "UTF8") {
        return Ok(Some(Encoding::Utf8));
    }
    if is_named(name, "UTF-16", "UTF16") {
        return Ok(Some(Encoding::Utf16));
    }
    if is_named(name, "UTF-16LE", "UTF16LE") {
        return Ok(Some(Encoding::Utf16Little));
    }
    if is_named(name, "UTF-16BE", "UTF16BE") {
        return Ok(Some(Encoding::Utf16Big));
    }
    match charset_named(alloc, name)? {
        Some(charset) => Ok(Some(Encoding::Octets(charset))),
        None => Ok(None),
    }
}

/// Whether the octets begin with two characters of ASCII in UTF-16, the less significant octet of
/// each first.
fn shows_little(front: &[u8]) -> bool
    ensures { result ≡ shows_little front.now }
{
    front.len() >= SHOWN_OCTETS && front[0] != 0 && front[1] == 0 && front[2] != 0 && front[3] == 0
}

/// Whether the octets begin with two characters of ASCII in UTF-16, the more significant octet of
/// each first.
fn shows_big(front: &[u8]) -> bool
    ensures { result ≡ shows_big front.now }
{
    front.len() >= SHOWN_OCTETS && front[0] == 0 && front[1] != 0 && front[2] == 0 && front[3] != 0
}

/// The mark of the order that the first octets show, if these are UTF-16 of ASCII; else empty.
fn shown_mark(front: &[u8]) -> &'static [u8]
    ensures { result.now ≡ shown_mark front.now }
{
    if shows_little(front) {
        b"\xFF\xFE"
    } else if shows_big(front) {
        b"\xFE\xFF"
    } else {
        b""
    }
}

/// Whether the octets begin with a byte order mark of UTF-16.
fn has_mark(front: &[u8]) -> bool {
    front.starts_with(b"\xFF\xFE") || front.starts_with(b"\xFE\xFF")
}

/// Whether the octets begin with a card.
fn begins_card(front: &[u8]) -> bool {
    let text = front.strip_prefix(b"\xEF\xBB\xBF").unwrap_or(front);
    begins_with_word(text.trim_ascii_start(), b"BEGIN:VCARD")
}

impl Encoding {
    /// The byte order mark that a file in UTF-16 lacks that begins with these octets. Empty for any
    /// other file.
    pub(crate) fn missing_mark(self, front: &[u8]) -> &'static [u8]
        ensures { self ≡ Found → result.now ≡ shown_mark front.now }
    {
        if matches!(self, Encoding::Found) {
            return shown_mark(front);
        }
        if has_mark(front) {
            return b"";
        }
        match self {
            Encoding::Utf16 if shown_mark(front).is_empty() => b"\xFE\xFF",
            Encoding::Utf16 => shown_mark(front),
            Encoding::Utf16Little => b"\xFF\xFE",
            Encoding::Utf16Big => b"\xFE\xFF",
            Encoding::Found | Encoding::Utf8 | Encoding::Octets(_) => b"",
        }
    }

    /// How a file is decoded that begins with these octets. One with a byte order mark of UTF-16 is
    /// decoded later; so is one of cards in UTF-8, line by line, since a line may have another
    /// character set, or be folded within a character.
    pub(crate) fn decoding(self, front: &[u8]) -> Decoding
        ensures { self ≡ Found → result ≡ Plain }
    {
        match self {
            Encoding::Octets(charset) => Decoding::Octets(charset),
            Encoding::Utf8 if !has_mark(front) && !begins_card(front) => Decoding::Utf8,
            _ => Decoding::Plain,
        }
    }
}

/// How the octets of a file are decoded.
#[derive(Clone, Copy)]
pub(crate) enum Decoding {
    /// They are given on as they are.
    Plain,
    /// They are UTF-8, and U+FFFD stands for what is no character.
    Utf8,
    /// Each octet is a character.
    Octets(Charset),
}

/// The number of octets of the character in UTF-8 that begins with this one.
fn char_len(first: u8) -> usize {
    if first < 0xC0 {
        1
    } else if first < 0xE0 {
        2
    } else if first < 0xF0 {
        3
    } else {
        4
    }
}

/// The number of octets at the end that begin a character in UTF-8 and don't end it.
fn open_len(octets: &[u8]) -> usize {
    let place = octets
        .iter()
        .rposition(|octet| *octet < 0x80 || *octet >= 0xC0)
        .unwrap_or(octets.len());
    let begun = octets.get(place..).unwrap_or(&[]);
    match begun.first() {
        Some(first) if begun.len() < char_len(*first) => begun.len(),
        _ => 0,
    }
}

/// Reads a file as it is, or one in a named encoding as UTF-8.
#[derive(Drop)]
pub(crate) struct CharsetReader<R> {
    pub(crate) alloc: Global,
    pub(crate) reader: R,
    pub(crate) decoding: Decoding,
    /// The octets that were read last, if they begin a character and don't end it.
    pub(crate) begun: Vec<u8>,
    /// The text of the octets that were read, of which those from `start` weren't given on yet.
    pub(crate) text: String,
    pub(crate) start: usize,
}

impl<R: Read + Drop> CharsetReader<R> {
    /// The octets that weren't given on yet.
    fn unread(&self) -> &[u8] {
        self.text.as_bytes().get(self.start..).unwrap_or(&[])
    }

    /// Takes the next octets of UTF-8. None are the end of the source.
    fn take_utf8(&mut self, more: &[u8]) -> Result<(), NoMemory>
        ensures { self.new.decoding ≡ self.old.decoding }
    {
        let octets = joined(self.alloc, self.begun.as_slice(), more)?;
        let octets = octets.as_slice();
        let open = if more.is_empty() { 0 } else { open_len(octets) };
        let end = octets.len().saturating_sub(open);
        let whole = octets.get(..end).unwrap_or(octets);
        let begun = octets.get(end..).unwrap_or(&[]);
        self.text = String::from_utf8_lossy(self.alloc, whole)?;
        self.start = 0;
        self.begun = joined(self.alloc, begun, &[])?;
        Ok(())
    }

    /// Reads some octets of UTF-8. There is no text only at the end of the source: a character has
    /// ended after as many reads as it has octets.
    fn read_utf8(&mut self) -> io::Result<()>
        ensures { self.new.decoding ≡ self.old.decoding }
    {
        for _read in 0..CHAR_OCTETS_MAX {
            let mut chunk = [0; CHUNK_OCTETS];
            let count = self.reader.read(&mut chunk)?;
            if self.take_utf8(chunk.get(..count).unwrap_or(&[])).is_err() {
                return Err(Error::from(ErrorKind::OutOfMemory));
            }
            if count == 0 || !self.unread().is_empty() {
                break;
            }
        }
        Ok(())
    }

    /// Reads some octets of a character set. There are none at the end of the source.
    fn read_octets(&mut self, charset: Charset) -> io::Result<()>
        ensures { self.new.decoding ≡ self.old.decoding }
    {
        let mut chunk = [0; CHUNK_OCTETS];
        let count = self.reader.read(&mut chunk)?;
        let octets = chunk.get(..count).unwrap_or(&[]);
        match read_charset(self.alloc, charset, octets) {
            Ok(text) => {
                self.text = text;
                self.start = 0;
                Ok(())
            }
            Err(_) => Err(Error::from(ErrorKind::OutOfMemory)),
        }
    }

    /// Reads some text. There is none at the end of the source.
    fn read_more(&mut self) -> io::Result<()>
        ensures { self.new.decoding ≡ self.old.decoding }
    {
        match self.decoding {
            Decoding::Plain => Ok(()),
            Decoding::Utf8 => self.read_utf8(),
            Decoding::Octets(charset) => self.read_octets(charset),
        }
    }
}

impl<R: Read + Drop> Read for CharsetReader<R> {
    ghost use Rattle.cli_convert.specs.Readers.{charset_left};

    // What is known is only what is given on as it is.
    ghost remaining = { λ text. charset_left R.remaining text };

    fn read(&mut self, buf: &mut [u8]) -> io::Result<usize> {
        if matches!(self.decoding, Decoding::Plain) {
            return self.reader.read(buf);
        }
        if self.unread().is_empty() {
            self.read_more()?;
        }
        let mut unread = self.unread();
        let count = unread.read(buf)?;
        self.start = self.start.saturating_add(count);
        Ok(count)
    }
}
