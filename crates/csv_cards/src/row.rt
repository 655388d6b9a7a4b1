//! Converts one row into a card.
ghost use Rattle.std.specs.Prelude.{◌≡◌, ◌≢◌, ◌⊎◌, [], true, false, IfOk, IfErr, IsTrue, List};
ghost use Rattle.std.specs.Prelude.{length};
ghost use Rattle.csv.specs.Records.{AllText, fields_of};
ghost use Rattle.vcard_lines.specs.declared.line.Line.{Line};
ghost use Rattle.vcard_text.specs.Cards.{uid_of};
ghost use Rattle.csv_cards.specs.Rows.{header};
ghost use Rattle.csv_cards.specs.Columns.{name_in};
ghost use Rattle.csv_cards.specs.Reading.{IsLeastCause, ColumnsListCard, RowSpellsCard};
ghost use Rattle.csv_cards.specs.Reading.{RowRepresents};
ghost use Rattle.csv_cards.specs.internal.RowCauses.{IsColumnsCause, IsTextCause};
ghost use Rattle.csv_cards.specs.declared.cause.CsvCause.TheVariants.{Memory};

use crate::cause::CsvCause;
use crate::columns::{column, column_lines};
use crate::form::Form;
use crate::records::{is_utf8_row, row_field};
use csv::ByteRecord;
use std::alloc::Global;
use vcard_text::laws::{
    first_fault_of_lines_is_computed, first_fault_without_card, spelled_is_card,
};
use vcard_text::{Card, NoMemory, card_of_lines, read_card};

/// The number of fields in a row of the form.
fn field_count(form: Form) -> usize
    ensures { result ≡ length (header form) }
{
    match form {
        Form::Cards => 2,
        Form::Columns => 8,
    }
}

/// Whether the UID in a row is empty or the card's.
fn is_uid_of(given: &[u8], card: &Card) -> bool
    ensures yes { IsTrue result → (given.now ≡ []) ⊎ (given.now ≡ uid_of card.now) }
    ensures no { result ≡ false → (given.now ≢ []) × (given.now ≢ uid_of card.now) }
{
    given.is_empty() || given == card.uid().as_bytes()
}

/// The card of a row with a UID and a card's text.
fn card_of_text_row(alloc: Global, row: &ByteRecord) -> Result<Card, CsvCause>
    ensures card { IfOk result (λ card. RowSpellsCard (fields_of row.now) card) }
    ensures cause { IfErr result (λ cause. cause ≢ Memory
        → IsTextCause (fields_of row.now) cause) }
{
    let card = read_card(alloc, row_field(row, 1))?;
    if !is_uid_of(row_field(row, 0), &card) {
        return Err(CsvCause::UidMismatch);
    }
    Ok(card)
}

/// Whether the name column of the row isn't empty.
fn has_name(alloc: Global, row: &ByteRecord) -> Result<bool, NoMemory>
    requires { AllText (fields_of row.now) }
    ensures yes { IfOk result (λ has. has ≡ true → name_in (fields_of row.now) ≢ []) }
    ensures no { IfOk result (λ has. has ≡ false → name_in (fields_of row.now) ≡ []) }
{
    Ok(!column(alloc, row, 1)?.is_empty())
}

/// The card of a row of columns.
fn card_of_column_row(alloc: Global, row: &ByteRecord) -> Result<Card, CsvCause>
    requires { AllText (fields_of row.now) }
    ensures card { IfOk result (λ card. ColumnsListCard (fields_of row.now) card) }
    ensures cause { IfErr result (λ cause. cause ≢ Memory
        → IsColumnsCause (fields_of row.now) cause) }
{
    // A law: what a text spells is a card.
    spelled_is_card();

    if !has_name(alloc, row)? {
        return Err(CsvCause::EmptyName);
    }
    let lines = column_lines(alloc, row)?;
    Ok(card_of_lines(alloc, lines)?)
}

/// The card of the row, regardless of the rows before it, or the least-numbered cause for which it
/// has none.
pub(crate) fn card_of_row(alloc: Global, form: Form, row: &ByteRecord) -> Result<Card, CsvCause>
    ensures card { IfOk result (λ card. RowRepresents form (fields_of row.now) card) }
    ensures cause { IfErr result (λ cause. cause ≢ Memory → (earlier : List (List Line))
        → IsLeastCause form earlier (fields_of row.now) cause) }
{
    // Laws: a text and lines have at most one first fault.
    first_fault_without_card();
    first_fault_of_lines_is_computed();

    if row.len() != field_count(form) {
        return Err(CsvCause::Columns);
    }
    if !is_utf8_row(row) {
        return Err(CsvCause::NotUtf8);
    }
    match form {
        Form::Cards => card_of_text_row(alloc, row),
        Form::Columns => card_of_column_row(alloc, row),
    }
}
