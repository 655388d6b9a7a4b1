//! Reads files whose lines end with a carriage return alone, as programs of Mac OS 9 wrote them.
ghost use Rattle.std.specs.Prelude.{◌≡◌, map};
ghost use Rattle.card_conversion.specs.LineEnds.{line_end};

use std::io;
use std::io::Read;

/// Whether the first line of a text ends with a carriage return alone, and not with one or two and
/// a line feed.
pub fn ends_with_returns(head: &[u8]) -> bool {
    let place = head
        .iter()
        .position(|octet| *octet == b'\r' || *octet == b'\n')
        .unwrap_or(head.len());
    let end = head.get(place..).unwrap_or(&[]);
    end.starts_with(b"\r") && !end.starts_with(b"\r\n") && !end.starts_with(b"\r\r\n")
}

/// A line feed for a carriage return.
fn line_end(octet: u8) -> u8
    ensures { result ≡ line_end octet }
{
    if octet == b'\r' { b'\n' } else { octet }
}

/// Makes a line feed of each carriage return.
fn end_lines(octets: &mut [u8])
    ensures { octets.new ≡ map line_end octets.old }
{
    for octet in octets.iter_mut() {
        *octet = line_end(*octet);
    }
}

/// A reader of a text whose lines end with line feeds, also where those of the file end with a
/// carriage return alone.
#[derive(Drop)]
pub struct LineEnds<R> {
    /// The reader of the file.
    pub reader: R,
    /// Whether each line of the file ends with a carriage return alone.
    pub are_returns: bool,
}

impl<R: Read> Read for LineEnds<R> {
    ghost use Rattle.std.specs.Prelude.{option_map};
    ghost use Rattle.card_conversion.specs.LineEnds.{with_line_feeds};

    ghost remaining = { λ text. option_map (with_line_feeds text.are_returns)
        (R.remaining text.reader) };

    fn read(&mut self, buf: &mut [u8]) -> io::Result<usize> {
        let count = self.reader.read(buf)?;
        if self.are_returns {
            end_lines(&mut buf[..count]);
        }
        Ok(count)
    }
}
