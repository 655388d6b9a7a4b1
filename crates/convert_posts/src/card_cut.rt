//! Which cards of a text are converted at once.
ghost use Rattle.std.specs.Prelude.{◌≤◌, IfOk, length};

use crate::cut::{Cut, Front, PIECE_OCTETS_MAX, PIECES_MAX};
use crate::weight::card_weight;
use base_types::NoMemory;
use import_text::{is_card, split_text};
use std::alloc::Global;

/// The first octets, at most `most`.
pub(crate) fn front(octets: &[u8], most: usize) -> &[u8]
    ensures { length result.now ≤ length octets.now }
{
    if octets.len() <= most {
        return octets;
    }
    &octets[..most]
}

/// What is at the front of the text: a card, or what is before the next one. `more` says that the
/// text goes on. Whether a line begins a card is known when the line has ended.
fn front_of(text: &[u8], more: bool) -> Front {
    let window = front(text, PIECE_OCTETS_MAX);
    let is_whole_text = window.len() == text.len();
    let (piece, after) = split_text(window);
    if after.contains(&b'\n') || is_whole_text && !more {
        return Front::Whole(piece.len());
    }
    if is_whole_text {
        return Front::Open;
    }
    if is_card(piece) && after.is_empty() {
        Front::Long(piece.len())
    } else {
        Front::Whole(piece.len())
    }
}

/// The weight of a piece, which is none if it isn't a card.
fn piece_weight(piece: &[u8], is_counted: bool) -> u64 {
    if is_counted { card_weight(piece) } else { 0 }
}

/// Takes the piece with which the text begins, if there is room for it, and returns the number of
/// octets that were taken. `len` is the number of those before it.
fn take_card(text: &[u8], more: bool, len: usize, cut: &mut Cut) -> Result<usize, NoMemory>
    ensures { IfOk result (λ count. count ≤ length text.now) }
{
    match front_of(text, more) {
        Front::Whole(count) => {
            let piece = front(text, count);
            let is_counted = is_card(piece);
            let weight = piece_weight(piece, is_counted);
            if !cut.has_room(len.saturating_add(piece.len()), weight) {
                return Ok(0);
            }
            cut.take(piece, weight, is_counted)?;
            Ok(piece.len())
        }
        Front::Long(count) if len == 0 => {
            let piece = front(text, count);
            cut.pass_long(piece)?;
            Ok(piece.len())
        }
        _ => Ok(0),
    }
}

/// The number of octets that are converted at once of a text of cards, and their pieces. `more`
/// says that the text goes on. The only `Err` is out of memory.
pub(crate) fn cut_cards(alloc: Global, text: &[u8], more: bool) -> Result<(usize, Cut), NoMemory>
    ensures { IfOk result (λ cut. cut.0 ≤ length text.now) }
{
    let mut cut = Cut::after(alloc, 0);
    let mut len: usize = 0;
    for _piece in 0..PIECES_MAX {
        let (_, rest) = text.split_at(len);
        let count = take_card(rest, more, len, &mut cut)?;
        len += count;
        if count == 0 || cut.passed.is_some() {
            break;
        }
    }
    Ok((len, cut))
}
