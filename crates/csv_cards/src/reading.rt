//! Reads cards from CSV text.
ghost use Rattle.std.specs.Prelude.{◌≡◌, ◌≢◌, ◌∷◌, ◌++◌, [], ℕ, List, IfOk, IfErr, OnOk, Ok, Err};
ghost use Rattle.std.specs.Prelude.{MatchResult, Contains, map};
ghost use Rattle.csv.specs.Records.{fields_of};
ghost use Rattle.vcard_lines.specs.declared.line.Line.{Line};
ghost use Rattle.vcard_text.specs.Cards.{uid_of};
ghost use Rattle.csv_cards.specs.Rows.{AreRows, RowsBeginWith, header};
ghost use Rattle.csv_cards.specs.Reading.{TextHasCards, IsFirstRowFault, IsFirstFaultyRow};
ghost use Rattle.csv_cards.specs.Reading.{IsLeastCause, HasBadHeader, row_fault};
ghost use Rattle.csv_cards.specs.internal.ReaderState.{HasUids, HasReadRows, AppendsRowCard};
ghost use Rattle.csv_cards.specs.declared.cause.CsvCause.TheVariants.{BadHeader, DuplicateUid};
ghost use Rattle.csv_cards.specs.declared.cause.CsvCause.TheVariants.{Memory};

use crate::cause::CsvCause;
use crate::fault::CsvFault;
use crate::form::Form;
use crate::laws::{cards_of_rows_are_unique, first_fault_without_cards};
use crate::records::{form_of, read_record, reader_of};
use crate::row::card_of_row;
use csv::{ByteRecord, Reader};
use std::alloc::Global;
use vcard_text::laws::card_is_unique;
use vcard_text::{Card, TextMap};

/// Appends the card. `DuplicateUid` if an earlier card has its UID.
fn push_card(
    alloc: Global,
    cards: &mut Vec<Card>,
    uids: &mut TextMap<()>,
    card: Card,
) -> Result<(), CsvCause>
    requires { HasUids uids.old cards.old.items }
    ensures card { OnOk result (cards.new.items ≡ cards.old.items ++ card ∷ []) }
    ensures uids { OnOk result (HasUids uids.new cards.new.items) }
    ensures new { OnOk result (Contains (map uid_of cards.old.items) (uid_of card) → ⊥) }
    ensures repeated { IfErr result (λ cause. cause ≢ Memory → (cause ≡ DuplicateUid)
        × Contains (map uid_of cards.old.items) (uid_of card)) }
{
    if uids.get(card.uid()).is_some() {
        return Err(CsvCause::DuplicateUid);
    }
    uids.insert(String::from_str(alloc, card.uid())?, ())?;
    cards.push(card)?;
    Ok(())
}

/// Appends the card of one more row.
fn push_row(
    alloc: Global,
    form: Form,
    cards: &mut Vec<Card>,
    uids: &mut TextMap<()>,
    row: &ByteRecord,
) -> Result<(), CsvCause>
    requires { HasUids uids.old cards.old.items }
    ensures appended { OnOk result (AppendsRowCard form cards.old.items (fields_of row.now)
        cards.new.items) }
    ensures uids { OnOk result (HasUids uids.new cards.new.items) }
    ensures cause { IfErr result (λ cause. cause ≢ Memory
        → IsLeastCause form cards.old.items (fields_of row.now) cause) }
{
    // A law: a text spells at most one card.
    card_is_unique();

    let card = card_of_row(alloc, form, row)?;
    push_card(alloc, cards, uids, card)
}

/// Reads the header and returns its form.
fn read_header(alloc: Global, reader: &mut Reader<&[u8]>) -> Result<Form, CsvFault>
    ensures form { (text : List ℕ) → HasReadRows reader.old text []
        → IfOk result (λ form. HasReadRows reader.new text (header form ∷ [])) }
    ensures fault { (text : List ℕ) → HasReadRows reader.old text []
        → IfErr result (λ fault. fault.cause ≢ Memory
        → HasBadHeader text × (fault ≡ row_fault 0 BadHeader)) }
{
    let mut row = ByteRecord::new(alloc);
    let Ok(found) = read_record(reader, &mut row) else {
        return Err(CsvFault {
            row: 0,
            cause: CsvCause::Memory,
        });
    };
    if !found {
        return Err(CsvFault {
            row: 0,
            cause: CsvCause::BadHeader,
        });
    }
    match form_of(&row) {
        Some(form) => Ok(form),
        None => Err(CsvFault {
            row: 0,
            cause: CsvCause::BadHeader,
        }),
    }
}

/// Reads the cards of the rows after the header.
fn read_cards(alloc: Global, form: Form, reader: &mut Reader<&[u8]>) -> Result<Vec<Card>, CsvFault>
    ensures cards { (text : List ℕ) → HasReadRows reader.old text (header form ∷ [])
        → IfOk result (λ cards. TextHasCards text cards.items) }
    ensures fault { (text : List ℕ) → HasReadRows reader.old text (header form ∷ [])
        → IfErr result (λ fault. fault.cause ≢ Memory → IsFirstFaultyRow text fault) }
{
    let mut cards = Vec::new(alloc);
    let mut uids = TextMap::new(alloc);
    let mut row = ByteRecord::new(alloc);
    for number in 1..u64::MAX {
        let Ok(found) = read_record(reader, &mut row) else {
            return Err(CsvFault {
                row: number,
                cause: CsvCause::Memory,
            });
        };
        if !found {
            return Ok(cards);
        }
        match push_row(alloc, form, &mut cards, &mut uids, &row) {
            Ok(()) => {}
            Err(cause) => return Err(CsvFault { row: number, cause }),
        }
    }
    Err(CsvFault {
        row: u64::MAX,
        cause: CsvCause::Memory,
    })
}

/// Reads the cards of a CSV text (RFC 4180), in row order. The library `csv` reads the records:
/// fields separated by commas, quoted or not, after an optional byte order mark.
///
/// Under the header `uid,vcard` a row has a card's UID, which may be empty, and the card's text.
/// Under `uid,fn,family,given,email,tel,org,note` a row has a card's parts, of which the first two
/// must not be empty. All fields must be UTF-8, and no two cards may have the same UID.
///
/// An `Err` is the first faulty row, with the cause of the least number among those that apply to
/// it. `Memory` replaces any result if an allocation fails. The work is linear in the text, apart
/// from the lookups of UIDs. Besides the cards and their UIDs only one row at a time is kept.
pub fn read_rows(alloc: Global, text: &[u8]) -> Result<Vec<Card>, CsvFault>
    // Cards that are returned are the ones that the rows represent.
    ensures cards { IfOk result (λ cards. TextHasCards text.now cards.items) }

    // For a text whose rows represent cards these are returned, unless memory runs out.
    ensures every { (cards : List (List Line)) → TextHasCards text.now cards
        → MatchResult result (λ read. read.items ≡ cards) (λ fault. fault.cause ≡ Memory) }

    // An `Err` is the text's first fault, unless memory ran out.
    ensures fault { IfErr result (λ fault. fault.cause ≢ Memory → IsFirstRowFault text.now fault) }
{
    // Laws: a text has exactly one list of cards, or a first fault.
    cards_of_rows_are_unique();
    first_fault_without_cards();

    let mut reader = reader_of(alloc, text);
    let form = read_header(alloc, &mut reader)?;
    read_cards(alloc, form, &mut reader)
}
