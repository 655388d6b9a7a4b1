//! What a piece of a file is, and what becomes of it.
ghost use Rattle.std.specs.Prelude.{◌≡◌, IfOk, MatchResult, ℕ, List, count_by, length};
ghost use Rattle.std.specs.List.{Contains};
ghost use Rattle.vcard_text.specs.Cards.{uid_of};
ghost use Rattle.card_conversion.specs.Deliveries.{HasUids};
ghost use Rattle.card_conversion.specs.Moved.{own_uid};
ghost use Rattle.vcard_import.specs.Conversions.{IsRefused};
ghost use Rattle.std.specs.List.{list_all};
ghost use Rattle.card_conversion.specs.Fates.{IsApart, IsConversion, first_line, is_blank};
ghost use Rattle.card_conversion.specs.Fates.{is_card, is_overfull, is_semicolon, is_white};
ghost use Rattle.card_conversion.specs.internal.States.{DeliversNew, TakesPiece, TakesAfter};

use crate::card_sink::{CardSink, Delivery};
use crate::moved::{card_under, own_uid};
use crate::piece_reader::PIECE_OCTETS_MAX;
use base_types::{NoMemory, TextMap};
use convert_report::{ConversionFault, Fate};
use import_text::begins_with_word;
use std::alloc::Global;
use vcard_changes::{Conversion, ImportFault};
use vcard_import::{convert_card, without_bom};

/// Whether all octets are white space.
fn are_white(octets: &[u8]) -> bool
    ensures { result ≡ list_all is_white octets.now }
{
    octets.iter().all(|octet| *octet == b' '
        || *octet == b'\t'
        || *octet == b'\r'
        || *octet == b'\n')
}

/// The number of octets before the first line feed.
fn line_len(octets: &[u8]) -> usize
    ensures { result ≡ length (first_line octets.now) }
{
    octets.iter().take_while(|octet| **octet != b'\n').count()
}

/// The octets before the first line feed.
#[tactic(auto, using(crate::proofs::LineLemmas::take_first))]
fn first_line(octets: &[u8]) -> &[u8]
    ensures { result.now ≡ first_line octets.now }
{
    let (line, _) = octets.split_at(line_len(octets));
    line
}

/// Whether the first line begins a card.
fn is_card(piece: &[u8]) -> bool
    ensures { result ≡ is_card piece.now }
{
    let line = first_line(without_bom(piece));
    begins_with_word(line, b"BEGIN:VCARD") && are_white(&line[11..])
}

/// The most semicolons of a card. Each may begin a parameter, which takes some 400 octets of
/// memory.
const SEMICOLONS_MAX: usize = 65_536;

fn is_semicolon(octet: &u8) -> bool
    ensures { result ≡ is_semicolon octet.now }
{
    *octet == b';'
}

fn count_semicolons(piece: &[u8]) -> usize
    ensures { result ≡ count_by is_semicolon piece.now }
{
    piece.iter().filter(|octet| is_semicolon(*octet)).count()
}

/// Whether there are more semicolons than a card may have.
fn is_overfull(piece: &[u8]) -> bool
    ensures { result ≡ is_overfull piece.now }
{
    count_semicolons(piece) > SEMICOLONS_MAX
}

/// Writes the card that a piece became, and remembers its UID. Of one that was written it remembers
/// the UID of its own, too.
fn write_new<O: CardSink>(
    alloc: Global,
    uids: &mut TextMap<()>,
    number: u64,
    piece: &[u8],
    made: &Conversion,
    sink: &mut O,
) -> Result<Delivery, ConversionFault>
    ensures { (known : List (List ℕ)) → HasUids uids.old known
        → IfOk result (DeliversNew O.writes known piece.now made.now uids.new sink.old sink.new) }
{
    let uid = String::from_str(alloc, made.card.uid())?;
    let own = own_uid(alloc, piece, made)?;
    uids.insert(uid, ())?;
    match sink.put(alloc, number, &made.card)? {
        Delivery::Written => {
            uids.insert(own, ())?;
            Ok(Delivery::Written)
        }
        Delivery::Refused(words) => Ok(Delivery::Refused(words)),
    }
}

/// Writes a card that got a UID of its own.
fn write_moved<O: CardSink>(
    alloc: Global,
    uids: &mut TextMap<()>,
    number: u64,
    piece: &[u8],
    moved: Conversion,
    sink: &mut O,
) -> Result<Fate, ConversionFault>
    ensures { (known : List (List ℕ)) → HasUids uids.old known
        → IsApart known piece.now moved → (Contains known (uid_of moved.card) → ⊥)
        → IfOk result (TakesAfter O.writes piece.now known uids.new sink.old sink.new) }
{
    match write_new(alloc, uids, number, piece, &moved, sink)? {
        Delivery::Written => Ok(Fate::Moved(moved)),
        Delivery::Refused(words) => Ok(Fate::Declined(moved, words)),
    }
}

/// What becomes of a card with the UID of an earlier one: the same card is passed, if it is carried
/// without the same, and another one is written under a UID of its own.
fn take_again<O: CardSink>(
    alloc: Global,
    uids: &mut TextMap<()>,
    number: u64,
    piece: &[u8],
    conversion: Conversion,
    sink: &mut O,
) -> Result<Fate, ConversionFault>
    ensures { (known : List (List ℕ)) → HasUids uids.old known
        → Contains known (uid_of conversion.card) → IsConversion piece.now conversion
        → IfOk result (TakesAfter O.writes piece.now known uids.new sink.old sink.new) }
{
    let own = own_uid(alloc, piece, &conversion)?;
    if uids.get(own.as_str()).is_some() {
        return Ok(Fate::Repeated(conversion));
    }
    match card_under(alloc, &conversion.card, own.as_str())? {
        Some(card) => {
            let Conversion { card: _, changes } = conversion;
            write_moved(
                alloc,
                uids,
                number,
                piece,
                Conversion { card, changes },
                sink,
            )
        }
        None => Ok(Fate::Crowded(conversion)),
    }
}

/// Writes the card that a piece became, under a UID of its own if another card has the same. The
/// same card is passed.
fn deliver_piece<O: CardSink>(
    alloc: Global,
    uids: &mut TextMap<()>,
    number: u64,
    piece: &[u8],
    conversion: Conversion,
    sink: &mut O,
) -> Result<Fate, ConversionFault>
    ensures { IsConversion piece.now conversion
        → IfOk result (TakesPiece O.writes piece.now uids.old uids.new sink.old sink.new) }
{
    if uids.get(conversion.card.uid()).is_some() {
        return take_again(alloc, uids, number, piece, conversion, sink);
    }
    match write_new(alloc, uids, number, piece, &conversion, sink)? {
        Delivery::Written => Ok(Fate::Written(conversion)),
        Delivery::Refused(words) => Ok(Fate::Declined(conversion, words)),
    }
}

/// Converts a card. The inner `Err` is the fault of one that can't be converted.
fn convert(alloc: Global, piece: &[u8]) -> Result<Result<Conversion, ImportFault>, NoMemory>
    ensures { IfOk result (λ converted.
        MatchResult converted (IsConversion piece.now) (IsRefused piece.now)) }
{
    match convert_card(alloc, piece) {
        Ok(conversion) => {
            // Its clause says that the lines keep the rules of a card.
            let _lines = conversion.card.lines();
            Ok(Ok(conversion))
        }
        Err(fault) => match fault {
            ImportFault::Memory => Err(NoMemory),
            _ => Ok(Err(fault)),
        },
    }
}

/// Converts a piece if it is a card, and writes the card to the sink. `number` counts the cards
/// of the file, from 1.
pub(crate) fn take_piece<O: CardSink>(
    alloc: Global,
    uids: &mut TextMap<()>,
    number: u64,
    piece: &[u8],
    sink: &mut O,
) -> Result<Fate, ConversionFault>
    ensures { IfOk result (TakesPiece O.writes piece.now uids.old uids.new sink.old sink.new) }
{
    if are_white(without_bom(piece)) {
        return Ok(Fate::Blank);
    }
    if !is_card(piece) {
        return Ok(Fate::Other);
    }
    if piece.len() >= PIECE_OCTETS_MAX {
        return Ok(Fate::Long);
    }
    if is_overfull(piece) {
        return Ok(Fate::Overfull);
    }
    match convert(alloc, piece)? {
        Ok(conversion) => deliver_piece(alloc, uids, number, piece, conversion, sink),
        Err(fault) => Ok(Fate::Refused(fault)),
    }
}
