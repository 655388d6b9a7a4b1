//! How the lines of a card are folded.
ghost use Rattle.std.specs.Prelude.{◌≡◌, ◌==◌, ◌&&◌, IfOk, count_by, drop, not};
ghost use Rattle.base_types.specs.Octets.{carriage_return};
ghost use Rattle.import_text.specs.RawLines.{continues};
ghost use Rattle.vcard_import.specs.Folds.{are_cut, are_cut_at, are_cut_so, begins_character};
ghost use Rattle.vcard_import.specs.Folds.{cut_at, first_octets, first_width, folding_by};
ghost use Rattle.vcard_import.specs.Folds.{folding_of, go_on, is_cut, is_encoded};
ghost use Rattle.vcard_import.specs.Folds.{is_encoded_or_cut, is_filled, octets_from};
ghost use Rattle.vcard_import.specs.Folds.{physical_line, physical_lines, width_of};

use crate::version::version_of;
use import_text::{Folding, RawLine, is_encoded_as, read_raw_lines};
use std::alloc::{AllocError, Global};
use vcard_property::Version;
use vcard_text::NoMemory;

/// What a physical line tells of how lines are folded.
#[derive(Clone, Copy)]
pub(crate) struct PhysicalLine {
    /// Whether it continues the line before it.
    pub(crate) continues: bool,
    /// The number of its octets.
    pub(crate) octets: usize,
    /// The number of its characters in UTF-8.
    pub(crate) characters: usize,
    /// The number of octets of the first character after its white space.
    pub(crate) first: usize,
}

/// How lines may be cut at a width.
#[derive(Clone, Copy)]
pub(crate) struct Cut {
    /// The width.
    pub(crate) width: usize,
    /// Whether it is a number of characters, and not of octets.
    pub(crate) by_characters: bool,
    /// Whether the white space before a continuation line counts.
    pub(crate) counts_blank: bool,
}

/// Whether the physical line continues the one before it.
fn continues(line: &[u8]) -> bool
    ensures { result ≡ continues line.now }
{
    matches!(line.first(), Some(b' ' | b'\t'))
}

fn begins_character(octet: u8) -> bool
    ensures { result ≡ begins_character octet }
{
    octet < 128 || 192 <= octet
}

/// The number of octets of a physical line. No carriage return counts.
fn count_octets(line: &[u8]) -> usize
    ensures { result ≡ count_by (λ octet. not (octet == carriage_return)) line.now }
{
    line.iter().filter(|octet| **octet != b'\r').count()
}

/// The number of characters of a physical line, but for carriage returns.
fn count_characters(line: &[u8]) -> usize
    ensures { result ≡ count_by
        (λ octet. not (octet == carriage_return) && begins_character octet) line.now }
{
    line.iter()
        .filter(|octet| **octet != b'\r' && begins_character(**octet))
        .count()
}

/// How many octets the character has that begins with this one.
fn octets_from(octet: u8) -> usize
    ensures { result ≡ octets_from octet }
{
    if octet < 192 {
        1
    } else if octet < 224 {
        2
    } else if octet < 240 {
        3
    } else {
        4
    }
}

/// How many octets the first character has.
fn first_octets(octets: &[u8]) -> usize
    ensures { result ≡ first_octets octets.now }
{
    match octets.first() {
        Some(octet) => octets_from(*octet),
        None => 1,
    }
}

/// What the physical line tells.
fn physical_line(line: &[u8]) -> PhysicalLine
    ensures { result ≡ physical_line line.now }
{
    PhysicalLine {
        continues: continues(line),
        octets: count_octets(line),
        characters: count_characters(line),
        first: first_octets(line.get(1..).unwrap_or(&[])),
    }
}

/// The physical lines of the octets.
fn physical_lines(alloc: Global, octets: &[u8]) -> Result<Vec<PhysicalLine>, AllocError>
    ensures { IfOk result (λ lines. lines.items ≡ physical_lines octets.now) }
{
    octets
        .split(|octet| *octet == b'\n')
        .map(|line| physical_line(line))
        .collect(alloc)
}

/// Whether the first of the physical lines continues the one before them.
fn go_on(lines: &[PhysicalLine]) -> bool
    ensures { result ≡ go_on lines.now }
{
    match lines.first() {
        Some(line) => line.continues,
        None => false,
    }
}

/// The width of the physical line.
fn width_of(cut: Cut, line: &PhysicalLine) -> usize
    ensures { result ≡ width_of cut line.now }
{
    let width = if cut.by_characters {
        line.characters
    } else {
        line.octets
    };
    let uncounted: usize = if line.continues && !cut.counts_blank {
        1
    } else {
        0
    };
    width.saturating_sub(uncounted)
}

/// The width of the first character of the first of the physical lines.
fn first_width(cut: Cut, lines: &[PhysicalLine]) -> usize
    ensures { result ≡ first_width cut lines.now }
{
    match lines.first() {
        Some(line) if !cut.by_characters => line.first,
        _ => 1,
    }
}

/// Whether the physical line isn't wider than the width, and would be with the next character.
fn is_filled(cut: Cut, line: &PhysicalLine, next: &[PhysicalLine]) -> bool
    ensures { result ≡ is_filled cut line.now next.now }
{
    let width = width_of(cut, line);
    width <= cut.width && cut.width - width < first_width(cut, next)
}

/// Whether the logical line ends with the physical line, or goes on though this one isn't filled.
fn stops_at(cut: Cut, line: &PhysicalLine, next: &[PhysicalLine]) -> bool
    ensures { result ≡ not (go_on next.now && is_filled cut line.now next.now) }
{
    !(go_on(next) && is_filled(cut, line, next))
}

/// Whether each physical line that the next one continues is filled, of the logical line that begins
/// with the first of them.
fn is_cut(cut: Cut, lines: &[PhysicalLine]) -> bool
    ensures { result ≡ is_cut cut lines.now }
{
    let mut rest = lines;
    while let Some((line, others)) = rest.split_first() {
        if stops_at(cut, line, others) {
            return !go_on(others);
        }
        rest = others;
    }
    true
}

/// Whether the head of the logical line says that its value is encoded.
fn is_encoded(raw: &RawLine) -> bool
    ensures { result ≡ is_encoded raw.now }
{
    let octets = raw.octets.as_slice();
    is_encoded_as(octets, b"BASE64")
        || is_encoded_as(octets, b"ENCODING=B")
        || is_encoded_as(octets, b"QUOTED-PRINTABLE")
}

/// The physical lines from the one at the place on.
fn lines_from(lines: &[PhysicalLine], place: usize) -> &[PhysicalLine]
    ensures { result.now ≡ drop place lines.now }
{
    lines.get(place..).unwrap_or(&[])
}

/// Whether the logical line of these physical lines is encoded, or folded only where it is filled.
fn is_encoded_or_cut(cut: Cut, lines: &[PhysicalLine], raw: &RawLine) -> bool
    ensures { result ≡ is_encoded_or_cut cut lines.now raw.now }
{
    is_encoded(raw) || is_cut(cut, lines_from(lines, raw.place))
}

/// Whether each logical line of text is folded only where it is filled.
fn are_cut_so(cut: Cut, lines: &[PhysicalLine], raws: &[RawLine]) -> bool
    ensures { result ≡ are_cut_so cut lines.now raws.now }
{
    raws.iter().all(|raw| is_encoded_or_cut(cut, lines, raw))
}

fn cut_at(width: usize, by_characters: bool, counts_blank: bool) -> Cut
    ensures { result ≡ cut_at width by_characters counts_blank }
{
    Cut {
        width,
        by_characters,
        counts_blank,
    }
}

/// Whether the lines are cut at this width, by octets or by characters, with or without the white
/// space before each continuation line.
fn are_cut_at(width: usize, lines: &[PhysicalLine], raws: &[RawLine]) -> bool
    ensures { result ≡ are_cut_at width lines.now raws.now }
{
    are_cut_so(cut_at(width, false, true), lines, raws)
        || are_cut_so(cut_at(width, false, false), lines, raws)
        || are_cut_so(cut_at(width, true, true), lines, raws)
        || are_cut_so(cut_at(width, true, false), lines, raws)
}

/// Whether the logical lines of text are cut at 75 or at 76. They are read for that alone, and read
/// again when it is known how they are folded.
fn are_cut(alloc: Global, octets: &[u8]) -> Result<bool, NoMemory>
    ensures { IfOk result (λ cut. cut ≡ are_cut octets.now) }
{
    let lines = physical_lines(alloc, octets)?;
    let lines = lines.as_slice();
    let raws = read_raw_lines(alloc, octets, Folding::DropsSpace)?;
    Ok(are_cut_at(75, lines, raws.as_slice()) || are_cut_at(76, lines, raws.as_slice()))
}

/// How lines of the version are folded, which were cut at a width or not.
fn folding_by(version: Version, cut: bool) -> Folding
    ensures { result ≡ folding_by version cut }
{
    match version {
        Version::Old if !cut => Folding::KeepsSpace,
        _ => Folding::DropsSpace,
    }
}

/// How the lines of a card with these octets are folded: as its version says, but in vCard 2.1 also
/// as later versions do, if its lines of text are cut at a width of 75 or 76. The only `Err` is out
/// of memory.
pub(crate) fn folding_of(alloc: Global, octets: &[u8]) -> Result<Folding, NoMemory>
    ensures { IfOk result (λ folding. folding ≡ folding_of octets.now) }
{
    let version = version_of(octets);
    match version {
        Version::Old => Ok(folding_by(version, are_cut(alloc, octets)?)),
        _ => Ok(Folding::DropsSpace),
    }
}
