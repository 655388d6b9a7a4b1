//! Joins physical lines into logical lines, as octets.
ghost use Rattle.std.specs.Prelude.{◌≡◌, ◌++◌, ◌+◌, ◌-◌, ◌∷◌, ℕ, List, map, IfOk, OnOk, IsTrue};
ghost use Rattle.std.specs.Prelude.{if◌then◌else◌, ◌==◌, take, length};
ghost use Rattle.std.specs.List.{slice_split};
ghost use Rattle.std.specs.Str.Lines.{strip_carriage_return};
ghost use Rattle.base_types.specs.Octets.{line_feed};
ghost use Rattle.import_text.specs.RawLines.{continues, continues_base64, has_soft_break};
ghost use Rattle.import_text.specs.RawLines.{is_joined, joined, unfolded, nonempty, raw_line};
ghost use Rattle.import_text.specs.RawLines.{lines_from, raw_lines, without_returns};
ghost use Rattle.import_text.specs.internal.Heads.{head_of};

use crate::line_head::{Head, WORD_START_OCTETS_MAX, has_colon, searched};
use crate::raw_line::RawLine;
use base_types::{Items, NoMemory};
use std::alloc::{AllocError, Global};
use std::mem;

/// Whether the white space that begins a continuation line belongs to the logical line.
#[derive(Clone, Copy)]
pub enum Folding {
    /// It does, as in vCard 2.1.
    KeepsSpace,
    /// Its first character doesn't, as in vCard 3.0 and 4.0.
    DropsSpace,
}

/// The octets without one carriage return at their end.
fn strip_carriage_return(octets: &[u8]) -> &[u8]
    ensures { result.now ≡ strip_carriage_return octets.now }
{
    match octets.split_last() {
        Some((b'\r', front)) => front,
        _ => octets,
    }
}

/// A physical line without the carriage return at its end, or without two of them.
fn without_returns(octets: &[u8]) -> &[u8]
    ensures { result.now ≡ without_returns octets.now }
{
    strip_carriage_return(strip_carriage_return(octets))
}

/// The octets between line feeds.
fn split_lines(alloc: Global, octets: &[u8]) -> Result<Vec<&[u8]>, AllocError>
    ensures { IfOk result (λ lines. map (λ line. line.now) lines.items
        ≡ slice_split (λ octet. octet == line_feed) octets.now) }
{
    octets.split(|octet| *octet == b'\n').collect(alloc)
}

/// Whether a physical line begins with a space or a tab.
fn continues(piece: &[u8]) -> bool
    ensures { result ≡ continues piece.now }
{
    matches!(piece.first(), Some(b' ' | b'\t'))
}

/// A continuation line as it is joined.
fn unfolded(piece: &[u8], folding: Folding) -> &[u8]
    requires { IsTrue (continues piece.now) }
    ensures { result.now ≡ unfolded folding piece.now }
{
    match folding {
        Folding::KeepsSpace => piece,
        Folding::DropsSpace => &piece[1..],
    }
}

/// A logical line as far as it is read.
#[derive(Drop)]
struct LineSoFar {
    /// The place of its first physical line.
    place: usize,
    octets: Vec<u8>,
    /// What its head says.
    head: Head,
}

impl LineSoFar {
    /// A line of these octets.
    fn new(place: usize, octets: Vec<u8>) -> LineSoFar
        ensures place { result.place ≡ place }
        ensures octets { result.octets.items ≡ octets.items }
        ensures head { result.head ≡ head_of octets.items }
    {
        let none = Head {
            is_complete: false,
            is_quoted_printable: false,
            is_base64: false,
        };
        let head = searched(none, octets.as_slice());
        LineSoFar {
            place,
            octets,
            head,
        }
    }

    /// Whether the line is quoted-printable and goes on.
    fn has_soft_break(&self) -> bool
        requires { self.now.head ≡ head_of self.now.octets.items }
        ensures { result ≡ has_soft_break self.now.octets.items }
    {
        matches!(self.octets.last(), Some(b'=')) && self.head.is_quoted_printable
    }

    /// Whether a physical line without a colon continues the line, which is base64.
    fn continues_base64(&self, piece: &[u8]) -> bool
        requires { self.now.head ≡ head_of self.now.octets.items }
        ensures { result ≡ continues_base64 self.now.octets.items piece.now }
    {
        self.head.is_base64 && !piece.is_empty() && !has_colon(piece)
    }

    /// Appends octets.
    fn append(&mut self, octets: &[u8]) -> Result<(), NoMemory>
        requires { self.old.head ≡ head_of self.old.octets.items }
        ensures place { self.new.place ≡ self.old.place }
        ensures octets { OnOk result (self.new.octets.items
            ≡ self.old.octets.items ++ octets.now) }
        ensures head { OnOk result (self.new.head ≡ head_of self.new.octets.items) }
    {
        let from = self.octets.len().saturating_sub(WORD_START_OCTETS_MAX);
        self.octets.extend_from_slice(octets)?;
        self.head = searched(self.head, &self.octets.as_slice()[from..]);
        Ok(())
    }

    /// Drops the equals sign of a soft line break.
    fn drop_soft_break(&mut self)
        requires head { self.old.head ≡ head_of self.old.octets.items }
        requires soft { IsTrue (has_soft_break self.old.octets.items) }
        ensures place { self.new.place ≡ self.old.place }
        ensures octets { self.new.octets.items
            ≡ take (length self.old.octets.items - 1) self.old.octets.items }
        ensures head { self.new.head ≡ head_of self.new.octets.items }
    {
        self.octets.pop();
    }

    /// Appends a physical line if it belongs to the line. Returns whether it did.
    fn join(&mut self, piece: &[u8], folding: Folding) -> Result<bool, NoMemory>
        requires { self.old.head ≡ head_of self.old.octets.items }
        ensures test { IfOk result (λ is_joined_now. is_joined_now
            ≡ is_joined self.old.octets.items piece.now) }
        ensures place { self.new.place ≡ self.old.place }
        ensures octets { IfOk result (λ is_joined_now. self.new.octets.items
            ≡ (if is_joined_now then joined folding self.old.octets.items piece.now
            else self.old.octets.items)) }
        ensures head { OnOk result (self.new.head ≡ head_of self.new.octets.items) }
    {
        if self.has_soft_break() {
            self.drop_soft_break();
            self.append(piece)?;
            return Ok(true);
        }
        if continues(piece) {
            self.append(unfolded(piece, folding))?;
            return Ok(true);
        }
        if self.continues_base64(piece) {
            self.append(piece)?;
            return Ok(true);
        }
        Ok(false)
    }
}

/// Appends the line, unless it is empty.
fn push_nonempty(lines: &mut Vec<RawLine>, line: LineSoFar) -> Result<(), NoMemory>
    ensures { OnOk result (lines.new.items
        ≡ lines.old.items ++ nonempty (raw_line line.place line.octets.items)) }
{
    if line.octets.is_empty() {
        return Ok(());
    }
    let octets = Items::from_vec(line.octets);
    lines.push(RawLine {
        place: line.place,
        octets,
    })?;
    Ok(())
}

/// Joins one more physical line, the one at `place`, to the line so far, or begins a new line with
/// it.
fn read_piece(
    lines: &mut Vec<RawLine>,
    line: &mut LineSoFar,
    place: usize,
    piece: &[u8],
    folding: Folding,
) -> Result<(), NoMemory>
    requires { line.old.head ≡ head_of line.old.octets.items }
    ensures head { OnOk result (line.new.head ≡ head_of line.new.octets.items) }
    ensures lines { OnOk result ((pieces : List (List ℕ)) → lines.new.items
        ++ lines_from folding (raw_line line.new.place line.new.octets.items) (place + 1) pieces
        ≡ lines.old.items ++ lines_from folding
        (raw_line line.old.place line.old.octets.items) place (piece.now ∷ pieces)) }
{
    if line.join(piece, folding)? {
        return Ok(());
    }
    let octets = Vec::from_slice(*line.octets.allocator(), piece)?;
    let ended = mem::replace(line, LineSoFar::new(place, octets));
    push_nonempty(lines, ended)?;
    Ok(())
}

/// The logical lines of the octets, without the empty ones. The only `Err` is out of memory.
pub fn read_raw_lines(
    alloc: Global,
    octets: &[u8],
    folding: Folding,
) -> Result<Vec<RawLine>, NoMemory>
    ensures { IfOk result (λ lines. lines.items ≡ raw_lines folding octets.now) }
{
    let pieces = split_lines(alloc, octets)?;
    let mut lines = Vec::new(alloc);
    let mut line = LineSoFar::new(0, Vec::new(alloc));
    for (place, piece) in pieces.iter().enumerate() {
        let piece = without_returns(*piece);
        read_piece(&mut lines, &mut line, place, piece, folding)?;
    }
    push_nonempty(&mut lines, line)?;
    Ok(lines)
}
