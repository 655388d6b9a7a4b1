//! Forms that describe tables and the indexes of their keys, and tests of a declared table or index
//! against its form.
ghost use Rattle.store_schema.specs.internal.SchemaTests.{HasNoStamps, IsPlainTable, IsTable};
ghost use Rattle.store_schema.specs.internal.SchemaTests.{all_match};
ghost use Rattle.store_schema.specs.internal.SchemaTests as tests;
ghost use Rattle.std.specs.Prelude.{◌≡◌, ◌↔◌, IsTrue, [], map};

use sqlite::types::Value;
use sqlite_items::Items;
use sqlite_schema::code::Terms;
use sqlite_schema::schema::{Action, Column, Index, Kind, Reference, Stamps, Table};
use sqlite_value::keys::{Collation, Order};
use sqlite_value::value::Bytes;

/// The type of a column.
#[derive(Clone, Copy)]
pub(crate) enum ColumnForm {
    /// An integer, never null.
    Number,
    /// A text, never null.
    RequiredText,
    /// A text or null.
    NullableText,
    /// The row id.
    RowId,
}

/// The expected declaration of a table. Columns are numbered from 1; the row id is 0.
#[derive(Clone, Copy)]
pub(crate) struct TableForm<'a> {
    pub(crate) name: &'a str,
    /// The number of the tree with its rows.
    pub(crate) tree: u32,
    /// The name and the type of each column.
    pub(crate) columns: &'a [(&'a str, ColumnForm)],
    /// Whether the first column is the row id.
    pub(crate) has_id: bool,
    /// The columns of the primary key.
    pub(crate) primary: &'a [usize],
    /// The columns of each key other than the row id.
    pub(crate) uniques: &'a [&'a [usize]],
    /// The columns that reference the id of a book.
    pub(crate) to_books: &'a [usize],
}

/// The expected declaration of the index of a key.
#[derive(Clone, Copy)]
pub(crate) struct IndexForm<'a> {
    pub(crate) name: &'a str,
    pub(crate) tree: u32,
    /// The number of the table whose key it is.
    pub(crate) table: u32,
    pub(crate) columns: &'a [usize],
}

// ---- columns

fn is_integer(kind: Kind) -> bool
    ensures { result ≡ tests.is_integer kind }
{
    match kind {
        Kind::Integer => true,
        _ => false,
    }
}

fn is_text(kind: Kind) -> bool
    ensures { result ≡ tests.is_text kind }
{
    match kind {
        Kind::Text => true,
        _ => false,
    }
}

fn is_null(value: &Value) -> bool
    ensures { result ≡ tests.is_null value.now }
{
    match value {
        Value::Null => true,
        _ => false,
    }
}

fn is_binary(collation: Collation) -> bool
    ensures { result ≡ tests.is_binary collation }
{
    match collation {
        Collation::Binary => true,
        _ => false,
    }
}

/// Whether a column of this kind, nullable or not, has the type.
fn has_column_kind(cell: ColumnForm, kind: Kind, not_null: bool) -> bool
    ensures { result ≡ tests.has_column_kind cell kind not_null }
{
    match cell {
        ColumnForm::Number => is_integer(kind) && not_null,
        ColumnForm::RequiredText => is_text(kind) && not_null,
        ColumnForm::NullableText => is_text(kind) && !not_null,
        ColumnForm::RowId => is_integer(kind) && !not_null,
    }
}

fn is_column(name: &str, cell: ColumnForm, column: &Column) -> bool
    ensures { result ≡ tests.is_column (name.now, cell) column.now }
{
    column.name.as_slice() == name.as_bytes()
        && has_column_kind(cell, column.kind, column.not_null)
        && column.is_strict
        && is_null(&column.default)
        && is_binary(column.collation)
}

fn are_columns(forms: &[(&str, ColumnForm)], columns: &[Column]) -> bool
    ensures { result ≡ all_match tests.is_column (map (λ form. (form.0.now, form.1)) forms.now)
        columns.now }
{
    let Some((form, others)) = forms.split_first() else {
        return columns.is_empty();
    };
    let Some((column, rest)) = columns.split_first() else {
        return false;
    };
    is_column(form.0, form.1, column) && are_columns(others, rest)
}

// ---- column numbers and names

fn are_places(own: &[usize], places: &[usize]) -> bool
    ensures { result ≡ tests.are_places own.now places.now }
{
    let Some((first, others)) = own.split_first() else {
        return places.is_empty();
    };
    let Some((place, rest)) = places.split_first() else {
        return false;
    };
    *first == *place && are_places(others, rest)
}

fn are_keys(own: &[&[usize]], keys: &[Items<usize>]) -> bool
    ensures { result ≡ tests.are_keys (map (λ key. key.now) own.now) keys.now }
{
    let Some((first, others)) = own.split_first() else {
        return keys.is_empty();
    };
    let Some((key, rest)) = keys.split_first() else {
        return false;
    };
    are_places(first, key.as_slice()) && are_keys(others, rest)
}

/// Whether the list is this name alone.
fn is_only_name(own: &str, names: &[Bytes]) -> bool
    ensures { result ≡ tests.is_only_name own.now names.now }
{
    let Some((name, rest)) = names.split_first() else {
        return false;
    };
    rest.is_empty() && name.as_slice() == own.as_bytes()
}

/// Whether each key has an order, ascending in the order of octets in every column.
fn are_plain(keys: &[&[usize]], orders: &[Order]) -> bool
    ensures { result ≡ all_match tests.is_plain_order (map (λ key. key.now) keys.now)
        orders.now }
{
    let Some((_, others)) = keys.split_first() else {
        return orders.is_empty();
    };
    let Some((order, rest)) = orders.split_first() else {
        return false;
    };
    order.digits == 0 && are_plain(others, rest)
}

/// Whether the row id is the first column, or no column, as the form states.
fn has_id_key(has_id: bool, key: Option<usize>) -> bool
    ensures { result ≡ tests.has_id_key has_id key }
{
    match key {
        Some(column) => has_id && column == 0,
        None => !has_id,
    }
}

// ---- references

fn is_no_action(action: Action) -> bool
    ensures { result ≡ tests.is_no_action action }
{
    match action {
        Action::NoAction => true,
        _ => false,
    }
}

/// Whether the column references the id of a book.
fn is_reference(column: usize, reference: &Reference) -> bool
    ensures { result ≡ tests.is_reference column reference.now }
{
    are_places(&[column], reference.columns.as_slice())
        && reference.parent.as_slice() == "book".as_bytes()
        && is_only_name("id", reference.parent_columns.as_slice())
        && is_no_action(reference.on_delete)
        && is_no_action(reference.on_update)
        && !reference.is_deferred
}

fn are_references(columns: &[usize], references: &[Reference]) -> bool
    ensures { result ≡ all_match tests.is_reference columns.now references.now }
{
    let Some((column, others)) = columns.split_first() else {
        return references.is_empty();
    };
    let Some((reference, rest)) = references.split_first() else {
        return false;
    };
    is_reference(*column, reference) && are_references(others, rest)
}

// ---- tables

fn has_no_terms(terms: &Terms) -> bool
    ensures { IsTrue result ↔ (terms.now ≡ []) }
{
    terms.roots.is_empty()
}

fn has_no_stamps(stamps: &Stamps) -> bool
    ensures { IsTrue result ↔ HasNoStamps stamps.now }
{
    stamps.places.is_empty() && has_no_terms(&stamps.terms) && stamps.formats.is_empty()
}

/// Whether the table has no check, no computed default and no autoincrement.
fn is_plain_table(table: &Table) -> bool
    ensures { IsTrue result ↔ IsPlainTable table.now }
{
    has_no_terms(&table.checks)
        && table.computed.is_empty()
        && has_no_stamps(&table.stamps)
        && !table.is_counted
}

/// Whether the table is declared as in the form.
pub(crate) fn is_table(form: &TableForm<'_>, table: &Table) -> bool
    ensures { IsTrue result ↔ IsTable form.now table.now }
{
    table.name.as_slice() == form.name.as_bytes()
        && table.tree == form.tree
        && are_columns(form.columns, table.columns.as_slice())
        && has_id_key(form.has_id, table.key)
        && are_places(form.primary, table.primary.as_slice())
        && are_keys(form.uniques, table.uniques.as_slice())
        && are_plain(form.uniques, table.orders.as_slice())
        && are_references(form.to_books, table.references.as_slice())
        && is_plain_table(table)
}

// ---- indexes

fn is_index(form: &IndexForm<'_>, index: &Index) -> bool
    ensures { result ≡ tests.is_index form.now index.now }
{
    index.name.as_slice() == form.name.as_bytes()
        && index.tree == form.tree
        && index.table == form.table
        && are_places(form.columns, index.columns.as_slice())
        && index.order.digits == 0
        && index.is_unique
}

/// Whether the indexes are declared as in the forms, in this order.
pub(crate) fn are_indexes(forms: &[IndexForm<'_>], indexes: &[Index]) -> bool
    ensures { result ≡ all_match tests.is_index forms.now indexes.now }
{
    let Some((form, others)) = forms.split_first() else {
        return indexes.is_empty();
    };
    let Some((index, rest)) = indexes.split_first() else {
        return false;
    };
    is_index(form, index) && are_indexes(others, rest)
}
