//! `TextReader`: reads a file as it is, or UTF-16 as UTF-8.
ghost use Rattle.std.specs.Prelude.{◌≡◌, IfOk, IfSome, Some};
ghost use Rattle.import_text.specs.Readers.{text_left};
ghost use Rattle.import_text.specs.Texts.{text_octets};

use crate::filling::{fill, joined};
use crate::octets::Octets;
use crate::utf16_parts::mark_order;
use crate::utf16_reader::Utf16Reader;
use std::alloc::Global;
use std::io;
use std::io::{Chain, Error, ErrorKind, Read};

/// What a text is read from.
#[derive(Drop)]
pub(crate) enum Source<R> {
    /// The first octets, and those after them.
    Plain(Chain<Octets, R>),
    /// UTF-16 after its byte order mark.
    Utf16(Utf16Reader<R>),
}

/// A reader of a file's octets. Of a file that begins with a byte order mark of UTF-16 it gives the
/// text in UTF-8, without the mark; a lone surrogate becomes U+FFFD.
#[derive(Drop)]
pub struct TextReader<R> {
    source: Source<R>,
}

impl<R: Read + Drop> TextReader<R> {
    /// Reads the first octets of the file. An `Err` is one of the reader, or `OutOfMemory`.
    pub fn new(alloc: Global, reader: R) -> io::Result<TextReader<R>>
        // It gives the file's octets, or the text in UTF-8 of a file in UTF-16.
        ensures { IfOk result (λ text. IfSome (R.remaining reader) (λ octets.
            text_left R.remaining text ≡ Some (text_octets octets))) }
    {
        let mut reader = reader;
        let mut head = [0; 2];
        let count = fill(&mut reader, &mut head)?;
        let front = &head[..count];
        if let Some(is_big) = mark_order(front) {
            let reader = Utf16Reader::new(alloc, is_big, reader);
            return Ok(TextReader {
                source: Source::Utf16(reader),
            });
        }
        match joined(alloc, front, &[]) {
            Ok(front) => Ok(TextReader {
                source: Source::Plain(Octets::new(front).chain(reader)),
            }),
            Err(_) => Err(Error::from(ErrorKind::OutOfMemory)),
        }
    }
}

impl<R: Read> Read for TextReader<R> {
    ghost use Rattle.import_text.specs.Readers.{text_left};

    ghost remaining = { λ text. text_left R.remaining text };

    fn read(&mut self, buf: &mut [u8]) -> io::Result<usize> {
        match &mut self.source {
            Source::Plain(reader) => reader.read(buf),
            Source::Utf16(reader) => reader.read(buf),
        }
    }
}
