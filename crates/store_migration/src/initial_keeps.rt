//! Computes the keep that a migration gives each book.
ghost use Rattle.store_check.specs.RowChecks.{decode_book};
ghost use Rattle.store_rows.specs.TableRows.{load_member};
ghost use Rattle.store_migration.specs.InitialKeeps.{initial_keep_rows, book_tombstones};
ghost use Rattle.sqlite.specs.declared.types.Value.TheVariants.{Int};
ghost use Rattle.std.specs.Prelude.{[], ◌∷◌, ◌≡◌, IfOk, map, max, pos};

use sqlite::Row;
use sqlite::types::ValueRef;
use sqlite_exec::work::FromRow;
use sqlite_value::row;
use std::alloc::Global;
use store_check::books::count_removed;
use store_check::cells::number_or_zero_at;
use vcard_text::NoMemory;

/// The least keep: that of a book with no more tombstones.
const LEAST_KEEP: usize = 10_000;

/// The book's keep: 10,000, or the number of its tombstones if that is greater.
fn initial_keep_of(members: &[Row], book: &Row) -> Result<i64, NoMemory>
    ensures { IfOk result (λ keep. keep
        ≡ pos (max 10000 (book_tombstones (map load_member members.now) (decode_book book.now)))) }
{
    let book_tombstones = count_removed(
        members,
        number_or_zero_at(book, 0),
        number_or_zero_at(book, 3),
    );
    let keep = if book_tombstones < LEAST_KEEP {
        LEAST_KEEP
    } else {
        book_tombstones
    };
    match i64::try_from(keep) {
        Ok(keep) => Ok(keep),
        // No memory can hold 2^63 rows.
        Err(_) => Err(NoMemory),
    }
}

/// The row of the book's keep.
fn initial_keep_row(alloc: Global, book: i64, keep: i64) -> Result<Row, NoMemory>
    ensures { IfOk result (λ row. row ≡ Int book ∷ Int keep ∷ []) }
{
    let mut values = row::Row::new(alloc);
    values.push(ValueRef::Int(book))?;
    values.push(ValueRef::Int(keep))?;
    Ok(Row::from_row(alloc, &values)?)
}

/// The row of each book's keep, in the order of the books.
pub fn keeps_of(alloc: Global, books: &[Row], members: &[Row]) -> Result<Vec<Row>, NoMemory>
    ensures { IfOk result (λ keeps. keeps.items ≡ initial_keep_rows books.now members.now) }
{
    let mut keeps = Vec::new(alloc);
    for book in books {
        let keep = initial_keep_of(members, book)?;
        keeps.push(initial_keep_row(alloc, number_or_zero_at(book, 0), keep)?)?;
    }
    Ok(keeps)
}
