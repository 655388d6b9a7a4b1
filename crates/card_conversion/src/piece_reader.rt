//! Reads a file piece by piece: cards, and what is between them.
ghost use Rattle.import_text.specs.PieceLaws.{has_line_end};
ghost use Rattle.std.specs.Prelude.{◌≡◌, ◌≤◌, ◌||◌, nat_le, [], None, IfOk, IfSome, OnOk, length, take};
ghost use Rattle.std.specs.Io.KnownBytes.{Consumes, IsAtEnd};
ghost use Rattle.card_conversion.specs.internal.PieceReaders.{HasEnded, IsCutFrom, left_of, unread_of};

use crate::chunks::read_chunk;
use convert_report::ConversionFault;
use import_text::laws::pieces_stay;
use import_text::{joined, split_text};
use std::alloc::Global;
use std::io::Read;

/// The number of octets that are read at once, at least.
const CHUNK_OCTETS: usize = 65_536;

/// The most octets of a piece. A longer one is cut, and its front can't be converted.
pub(crate) const PIECE_OCTETS_MAX: usize = 8_388_608;

/// The most reads for one piece. Each but the last doubles the octets that are kept.
const READS_MAX: u32 = 64;

/// Whether a line ends in the octets.
fn ends_line(octets: &[u8]) -> bool
    ensures { result ≡ has_line_end octets.now }
{
    octets.iter().any(|octet| *octet == b'\n')
}

/// Whether a line ends in the octets. The last `count` of them are looked at first.
#[tactic(auto, using(crate::proofs::PieceLemmas::in_either))]
fn has_line_end(octets: &[u8], count: usize) -> bool
    ensures { result ≡ has_line_end octets.now }
{
    let (front, back) = octets.split_at(octets.len().saturating_sub(count));
    ends_line(back) || ends_line(front)
}

/// The number of octets from the last line feed on, or 0 if there is none.
fn last_line_end(octets: &[u8]) -> usize {
    let count = octets
        .iter()
        .rev()
        .take_while(|octet| **octet != b'\n')
        .count();
    if count < octets.len() { count + 1 } else { 0 }
}

/// A reader and the octets that were read from it but not passed yet. It keeps one piece and at
/// most as much again.
#[derive(Drop)]
pub(crate) struct PieceReader<R> {
    reader: R,
    buffer: Vec<u8>,
    /// Where the first piece begins in the buffer.
    start: usize,
    /// The number of octets from the buffer's last line feed on, or 0. It is only a hint: with it a
    /// line of many pieces isn't looked through for each of them.
    last_line_end: usize,
    is_at_end: bool,
}

impl<R: Read + Drop> PieceReader<R> {
    pub(crate) fn new(alloc: Global, reader: R) -> PieceReader<R>
        ensures left { Consumes (R.remaining reader) (left_of R.remaining result) [] }
        ensures ended { HasEnded R.remaining result }
    {
        PieceReader {
            reader,
            buffer: Vec::new(alloc),
            start: 0,
            last_line_end: 0,
            is_at_end: false,
        }
    }

    /// The octets that were read but not passed yet.
    fn unread(&self) -> &[u8]
        ensures { result.now ≡ unread_of self.now }
    {
        self.buffer.get(self.start..).unwrap_or(&[])
    }

    /// Reads at least as many octets as are unread, or to the end of the input. So the octets of a
    /// long piece are looked at a few times each, and not once for each read.
    #[tactic(auto, using(crate::proofs::PieceLemmas::read_on))]
    fn read_more(&mut self, alloc: Global) -> Result<(), ConversionFault>
        ensures left { OnOk result
            (Consumes (left_of R.remaining self.old) (left_of R.remaining self.new) []) }
        ensures ended { OnOk result (HasEnded R.remaining self.new) }
    {
        let len = self.unread().len();
        let size = if len < CHUNK_OCTETS {
            CHUNK_OCTETS
        } else {
            len
        };
        let chunk = read_chunk(alloc, &mut self.reader, size)?;
        let buffer = joined(alloc, self.unread(), chunk.as_slice())?;
        self.is_at_end = chunk.len() < size;
        self.last_line_end = last_line_end(buffer.as_slice());
        self.buffer = buffer;
        self.start = 0;
        Ok(())
    }

    /// Whether the first piece of the unread octets, after which these come, is that of all that is
    /// left, or so many octets were looked at that it is taken for it. Whether a line begins a card
    /// is known when the line has ended, so a piece is whole if a line after it has ended.
    fn is_whole(&self, rest: &[u8]) -> bool
        ensures { result ≡ (self.now.is_at_end || has_line_end rest.now
            || nat_le 8388608 (length (unread_of self.now))) }
    {
        if self.is_at_end || self.unread().len() >= PIECE_OCTETS_MAX {
            return true;
        }
        has_line_end(rest, self.last_line_end)
    }

    /// Reads until the first piece is whole, and returns its length; `None` at the end of the
    /// input.
    #[tactic(auto, using(crate::proofs::PieceLemmas::nothing_read, crate::proofs::PieceLemmas::no_more, crate::proofs::PieceLemmas::ends))]
    pub(crate) fn find_piece(&mut self, alloc: Global) -> Result<Option<usize>, ConversionFault>
        requires { HasEnded R.remaining self.old }
        ensures left { OnOk result
            (Consumes (left_of R.remaining self.old) (left_of R.remaining self.new) []) }
        ensures ended { OnOk result (HasEnded R.remaining self.new) }
        ensures within { IfOk result (λ found.
            IfSome found (λ len. len ≤ length (unread_of self.new))) }
        ensures cut { IfOk result (λ found. IfSome found (λ len.
            IsCutFrom (left_of R.remaining self.new) (take len (unread_of self.new)))) }
        ensures none { IfOk result (λ found. found ≡ None
            → IsAtEnd (left_of R.remaining self.new)) }
    {
        // A law: octets that come later don't change a piece after which a line has ended.
        pieces_stay();

        for _more in 0..READS_MAX {
            if self.is_at_end && self.unread().is_empty() {
                return Ok(None);
            }
            let (piece, rest) = split_text(self.unread());
            if self.is_whole(rest) {
                return Ok(Some(piece.len()));
            }
            self.read_more(alloc)?;
        }
        Err(ConversionFault::Input)
    }

    /// The first octets that weren't passed yet.
    pub(crate) fn piece(&self, len: usize) -> &[u8]
        requires { len ≤ length (unread_of self.now) }
        ensures { result.now ≡ take len (unread_of self.now) }
    {
        &self.unread()[..len]
    }

    /// Passes the first octets.
    #[tactic(auto, using(crate::proofs::PieceLemmas::passes))]
    pub(crate) fn pass(&mut self, len: usize)
        requires { len ≤ length (unread_of self.old) }
        ensures left { Consumes (left_of R.remaining self.old) (left_of R.remaining self.new)
            (take len (unread_of self.old)) }
        ensures ended { HasEnded R.remaining self.old → HasEnded R.remaining self.new }
    {
        self.start += len;
    }
}
