//! Converts a part of a file of cards.
ghost use Rattle.std.specs.Prelude.{◌≡◌, ◌≤◌, IfOk, IfSome, length};
ghost use Rattle.convert_posts.specs.Parts.{IsPart};
ghost use Rattle.convert_posts.specs.declared.part.Kind.TheVariants.{Cards};

use crate::asked::Asked;
use crate::card_cut::{cut_cards, front};
use crate::content::HEAD_OCTETS;
use crate::converted::convert_pieces;
use crate::cut::{Cut, PIECE_OCTETS_MAX};
use crate::frame::{Frame, finished_part, small_part};
use crate::part::{Dates, Kind, Part};
use base_types::{NoMemory, Text};
use card_conversion::{LineEnds, ends_with_returns};
use std::alloc::Global;
use std::io::{ErrorKind, Read};

/// Whether the lines of a body end with a carriage return alone.
fn are_returns(body: &[u8]) -> bool {
    ends_with_returns(front(body, HEAD_OCTETS))
}

/// All octets of a reader, or none if it fails.
pub(crate) fn read_all<R: Read + Drop>(alloc: Global, reader: R) -> Result<Vec<u8>, NoMemory> {
    let mut source = reader;
    let mut octets = Vec::new(alloc);
    match source.read_to_end(&mut octets) {
        Ok(_) => Ok(octets),
        Err(error) if error.kind() == ErrorKind::OutOfMemory => Err(NoMemory),
        Err(_) => Ok(Vec::new(alloc)),
    }
}

/// The number of octets that are converted at once of cards, and their pieces, where lines end with
/// a carriage return alone.
fn cut_returns(alloc: Global, body: &[u8], more: bool) -> Result<(usize, Cut), NoMemory>
    ensures { IfOk result (λ cut. cut.0 ≤ length body.now) }
{
    let window = front(body, PIECE_OCTETS_MAX.saturating_add(1));
    let reader = LineEnds {
        reader: window,
        are_returns: true,
    };
    let text = read_all(alloc, reader)?;
    let goes_on = more || window.len() < body.len();
    let (len, cut) = cut_cards(alloc, text.as_slice(), goes_on)?;
    Ok((front(body, len).len(), cut))
}

/// The number of octets that are converted at once of cards, and their pieces.
fn cut_body(alloc: Global, body: &[u8], more: bool) -> Result<(usize, Cut), NoMemory>
    ensures { IfOk result (λ cut. cut.0 ≤ length body.now) }
{
    if are_returns(body) {
        cut_returns(alloc, body, more)
    } else {
        cut_cards(alloc, body, more)
    }
}

/// The cards of a frame, which begins with the body. `None` if they can't be read.
fn convert_frame(
    alloc: Global,
    body: &[u8],
    frame: Frame,
    cut: &Cut,
) -> Result<Option<Part>, NoMemory>
    requires kind { frame.kind ≡ Cards }
    requires within { frame.taken ≤ length body.now }
    ensures { IfOk result (λ done. IfSome done (IsPart body.now)) }
{
    let (text, _) = body.split_at(frame.taken);
    let reader = LineEnds {
        reader: text,
        are_returns: are_returns(body),
    };
    match convert_pieces(alloc, reader, frame.origin, cut.starts.as_slice())? {
        Some(converted) => {
            let columns = Text::copy_of(alloc, "")?;
            let part = finished_part(alloc, frame, converted, columns, Dates::None)?;
            Ok(Some(part))
        }
        None => Ok(None),
    }
}

/// Converts the front of a body of cards. `None` if it can't be read.
pub(crate) fn cards_part(
    alloc: Global,
    asked: &Asked,
    body: &[u8],
) -> Result<Option<Part>, NoMemory>
    ensures { IfOk result (λ done. IfSome done (IsPart body.now)) }
{
    let (taken, cut) = cut_body(alloc, body, asked.more)?;
    let frame = Frame {
        kind: Kind::Cards,
        header: 0,
        taken,
        origin: asked.origin(),
        cards: cut.starts.len() as u64,
        feeds: cut.feeds,
    };
    match small_part(alloc, frame, &cut)? {
        Some(part) => Ok(Some(part)),
        None => convert_frame(alloc, body, frame, &cut),
    }
}
