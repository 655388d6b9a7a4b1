//! Reads the columns of a row by type. A column past the end of the row is null.
ghost use Rattle.store_rows.specs.Values.{natural, text_or_none, text_or_empty};
ghost use Rattle.sqlite.specs.Order.{column};
ghost use Rattle.sqlite_rules.specs.Edit.{id_in};
ghost use Rattle.sqlite_value.specs.Value.{owned};
ghost use Rattle.std.specs.Option.{option_map};
ghost use Rattle.store_check.specs.RowChecks.{HasNatural, HasNumber, HasText, HasTextIfAny};
ghost use Rattle.std.specs.Prelude.{◌≡◌, ◌↔◌, IsTrue};

use sqlite::Row;
use sqlite::types::ValueRef;

/// The value of the column.
fn column_at(row: &Row, at: usize) -> ValueRef<'_>
    ensures { owned result ≡ column row.now at }
{
    match row.get_ref(at) {
        Ok(value) => value,
        Err(_) => ValueRef::Null,
    }
}

/// The integer in the column, or 0 if it has none.
pub fn number_or_zero_at(row: &Row, at: usize) -> i64
    // `id_in` is the integer of a value, and 0 of a value of another type.
    ensures { result ≡ id_in (column row.now at) }
{
    match column_at(row, at) {
        ValueRef::Int(number) => number,
        _ => 0,
    }
}

/// The number, or 0 if it is negative.
pub(crate) fn natural_of(number: i64) -> u64
    ensures { result ≡ natural number }
{
    match u64::try_from(number) {
        Ok(number) => number,
        Err(_) => 0,
    }
}

/// The integer in the column, or 0 if it has none or a negative one.
pub(crate) fn natural_at(row: &Row, at: usize) -> u64
    ensures { result ≡ natural (id_in (column row.now at)) }
{
    natural_of(number_or_zero_at(row, at))
}

/// The text in the column, or an empty one if it has none.
pub(crate) fn text_at(row: &Row, at: usize) -> &[u8]
    ensures { result.now ≡ text_or_empty (column row.now at) }
{
    match column_at(row, at) {
        ValueRef::Text(text) => text,
        _ => &[],
    }
}

/// The text in the column, if it has one.
pub(crate) fn text_if_any_at(row: &Row, at: usize) -> Option<&[u8]>
    ensures { option_map (λ text. text.now) result ≡ text_or_none (column row.now at) }
{
    match column_at(row, at) {
        ValueRef::Text(text) => Some(text),
        _ => None,
    }
}

/// Whether the column has an integer.
pub fn has_number(row: &Row, at: usize) -> bool
    ensures { IsTrue result ↔ HasNumber at row.now }
{
    matches!(column_at(row, at), ValueRef::Int(_))
}

/// Whether the column has an integer that is not negative.
pub(crate) fn has_natural(row: &Row, at: usize) -> bool
    ensures { IsTrue result ↔ HasNatural at row.now }
{
    match column_at(row, at) {
        ValueRef::Int(number) => number >= 0,
        _ => false,
    }
}

/// Whether the column has a text.
pub(crate) fn has_text(row: &Row, at: usize) -> bool
    ensures { IsTrue result ↔ HasText at row.now }
{
    matches!(column_at(row, at), ValueRef::Text(_))
}

/// Whether the column has a text or is null.
pub(crate) fn has_text_if_any(row: &Row, at: usize) -> bool
    ensures { IsTrue result ↔ HasTextIfAny at row.now }
{
    matches!(column_at(row, at), ValueRef::Text(_) | ValueRef::Null)
}
