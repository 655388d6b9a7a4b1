//! Tests of a declared schema: the five tables of schema 2, or the four of schema 1, which has no
//! table `keeping`.
ghost use Rattle.store_tables.specs.SchemaCreation.{first_schema};
ghost use Rattle.store_tables.specs.Tables as wanted;
ghost use Rattle.std.specs.Prelude.{◌≡◌, ◌↔◌, IsTrue};

use crate::forms::ColumnForm::{NullableText, Number, RequiredText, RowId};
use crate::forms::{IndexForm, TableForm, are_indexes, is_table};
use sqlite_schema::schema::{Index, Schema, Table};

// ---- the tables of a store

fn is_meta(table: &Table) -> bool
    ensures { IsTrue result ↔ (table.now ≡ wanted.meta) }
{
    let form = TableForm {
        name: "meta",
        tree: 0,
        columns: &[("name", RequiredText), ("val", Number)],
        has_id: false,
        primary: &[1],
        uniques: &[&[1]],
        to_books: &[],
    };
    is_table(&form, table)
}

fn is_book(table: &Table) -> bool
    ensures { IsTrue result ↔ (table.now ≡ wanted.book) }
{
    let form = TableForm {
        name: "book",
        tree: 2,
        columns: &[
            ("id", RowId),
            ("name", RequiredText),
            ("number", Number),
            ("horizon", Number),
            ("created", Number),
            ("edited", Number),
            ("imported", Number),
            ("import_edited", Number),
            ("moved_in", Number),
            ("deleted", Number),
            ("moved_out", Number),
        ],
        has_id: true,
        primary: &[0],
        uniques: &[&[2]],
        to_books: &[],
    };
    is_table(&form, table)
}

fn is_member(table: &Table) -> bool
    ensures { IsTrue result ↔ (table.now ≡ wanted.member) }
{
    let form = TableForm {
        name: "member",
        tree: 4,
        columns: &[
            ("book", Number),
            ("uid", RequiredText),
            ("changed", Number),
            ("card", NullableText),
        ],
        has_id: false,
        primary: &[1, 2],
        uniques: &[&[1, 2], &[1, 3]],
        to_books: &[1],
    };
    is_table(&form, table)
}

fn is_import_key(table: &Table) -> bool
    ensures { IsTrue result ↔ (table.now ≡ wanted.import_key) }
{
    let form = TableForm {
        name: "import_key",
        tree: 7,
        columns: &[
            ("book", Number),
            ("ikey", RequiredText),
            ("added", Number),
            ("edited", Number),
            ("same", Number),
            ("number", Number),
        ],
        has_id: false,
        primary: &[1, 2],
        uniques: &[&[1, 2]],
        to_books: &[1],
    };
    is_table(&form, table)
}

fn is_keeping(table: &Table) -> bool
    ensures { IsTrue result ↔ (table.now ≡ wanted.keeping) }
{
    let form = TableForm {
        name: "keeping",
        tree: 9,
        columns: &[("book", RowId), ("keep", Number)],
        has_id: true,
        primary: &[0],
        uniques: &[],
        to_books: &[0],
    };
    is_table(&form, table)
}

/// Whether the tables are the five of schema 2, in this order.
fn are_store_tables(tables: &[Table]) -> bool
    ensures { IsTrue result ↔ (tables.now ≡ wanted.book_schema.tables) }
{
    let [meta, book, member, import_key, keeping] = tables else {
        return false;
    };
    is_meta(meta)
        && is_book(book)
        && is_member(member)
        && is_import_key(import_key)
        && is_keeping(keeping)
}

/// Whether the tables are the four of schema 1, in this order.
fn are_first_tables(tables: &[Table]) -> bool
    ensures { IsTrue result ↔ (tables.now ≡ first_schema.tables) }
{
    let [meta, book, member, import_key] = tables else {
        return false;
    };
    is_meta(meta) && is_book(book) && is_member(member) && is_import_key(import_key)
}

// ---- indexes

/// Whether the indexes are those of the keys, in this order. `keeping` has none.
fn are_key_indexes(indexes: &[Index]) -> bool
    ensures { IsTrue result ↔ (indexes.now ≡ wanted.key_indexes) }
{
    let meta = IndexForm {
        name: "sqlite_autoindex_meta_1",
        tree: 1,
        table: 0,
        columns: &[1],
    };
    let book = IndexForm {
        name: "sqlite_autoindex_book_1",
        tree: 3,
        table: 2,
        columns: &[2],
    };
    let member_uid = IndexForm {
        name: "sqlite_autoindex_member_1",
        tree: 5,
        table: 4,
        columns: &[1, 2],
    };
    let member_changed = IndexForm {
        name: "sqlite_autoindex_member_2",
        tree: 6,
        table: 4,
        columns: &[1, 3],
    };
    let import_key = IndexForm {
        name: "sqlite_autoindex_import_key_1",
        tree: 8,
        table: 7,
        columns: &[1, 2],
    };
    let forms = [meta, book, member_uid, member_changed, import_key];
    are_indexes(&forms, indexes)
}

// ---- the schemas

/// Whether exactly the five tables of schema 2 are declared, with the indexes of their keys.
pub(crate) fn is_book_schema(schema: &Schema) -> bool
    ensures { IsTrue result ↔ (schema.now ≡ wanted.book_schema) }
{
    are_store_tables(schema.tables.as_slice())
        && are_key_indexes(schema.indexes.as_slice())
        && schema.views.is_empty()
}

/// Whether exactly the four tables of schema 1 are declared, with the indexes of their keys.
pub(crate) fn is_first_schema(schema: &Schema) -> bool
    ensures { IsTrue result ↔ (schema.now ≡ first_schema) }
{
    are_first_tables(schema.tables.as_slice())
        && are_key_indexes(schema.indexes.as_slice())
        && schema.views.is_empty()
}
