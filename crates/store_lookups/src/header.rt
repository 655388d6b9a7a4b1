//! The header of a book: its row without the name, read and tested.
ghost use Rattle.book_model.specs.Counting.{total_changes};
ghost use Rattle.book_model.specs.declared.change.Change.TheVariants.{Stores};
ghost use Rattle.store_rows.specs.ChangeLaws.{header_after};
ghost use Rattle.store_rows.specs.ShownRows.{ShowsHeader, ShowsCounts};
ghost use Rattle.store_lookups.specs.Faults.{IsDeniedFault};
ghost use Rattle.store_lookups.specs.StoreFaults.{FailsOnlyForMemory, IsFaultlessBook};
ghost use Rattle.store_tables.specs.Books.{BookRow, numbers_shown};
ghost use Rattle.std.specs.Prelude.{◌≡◌, ◌≤◌, ◌+◌, ◌<◌, ◌^◌, IfErr, IfOk, IfSome, List, None};
ghost use Rattle.vcard_lines.specs.declared.line.Line.{Line};

use crate::columns::number_in;
use book_model::{Counts, Denied, Fault, StoreReason};
use sqlite::Row;
use std::marker::Model;

/// The id of a book, the number of its last change, its horizon and its counts. The counts sum to
/// the number, and the horizon is at most the number.
#[derive(Clone, Copy, Debug, PartialEq, Eq)]
pub struct BookHeader {
    id: u64,
    number: u64,
    horizon: u64,
    counts: Counts,
}

impl Model for BookHeader {
    ghost use Rattle.store_rows.specs.TableBooks.{HeaderRow};
    ghost use Rattle.store_lookups.specs.RowChecks.{IsConsistentHeader, header_of};

    ghost Value = { HeaderRow };

    ghost view = { λ f. header_of f.id f.number f.horizon f.counts };

    ghost inverse = { λ b. record {
      id = b.id;
      number = b.number;
      horizon = b.horizon;
      counts = b.counts;
    } };

    ghost invariant = { λ f. IsConsistentHeader (header_of f.id f.number f.horizon f.counts) };
}

impl BookHeader {
    /// Returns the id of the book.
    pub fn id(&self) -> u64
        ensures { result ≡ self.now.id }
    {
        self.id
    }

    /// Returns the number of the book's last change.
    pub fn number(&self) -> u64
        ensures { result ≡ self.now.number }
    {
        self.number
    }

    /// Returns the horizon: removals up to this number are forgotten.
    pub fn horizon(&self) -> u64
        ensures value { result ≡ self.now.horizon }
        ensures most { result ≤ self.now.number }
    {
        self.horizon
    }

    /// Returns the header after one more change that stored a card for this reason.
    pub fn after_storing(self, why: StoreReason) -> BookHeader
        requires { self.number + 1 < 2 ^ 63 }
        ensures { (card : List Line) → result ≡ header_after (Stores card why) self }
    {
        let mut counts = self.counts;
        match why {
            StoreReason::Creation => counts.created += 1,
            StoreReason::Edit => counts.edited += 1,
            StoreReason::Import => counts.imported += 1,
            StoreReason::ImportEdit => counts.import_edited += 1,
            StoreReason::MoveIn => counts.moved_in += 1,
        }
        BookHeader {
            number: self.number + 1,
            counts,
            ..self
        }
    }

    /// Returns the counts of the book's changes by reason; they sum to its number.
    pub fn counts(&self) -> Counts
        ensures value { result ≡ self.now.counts }
        ensures sum { total_changes result ≡ self.now.number }
    {
        self.counts
    }
}

/// Returns the sum of the counts; `None` if it is 2^64 or more.
fn total_of(counts: Counts) -> Option<u64>
    ensures sum { IfSome result (λ sum. sum ≡ total_changes counts) }
    ensures overflow { result ≡ None → 2 ^ 64 ≤ total_changes counts }
{
    counts
        .created
        .checked_add(counts.edited)?
        .checked_add(counts.imported)?
        .checked_add(counts.import_edited)?
        .checked_add(counts.moved_in)?
        .checked_add(counts.deleted)?
        .checked_add(counts.moved_out)
}

fn counts_in(row: &Row) -> Result<Counts, Denied>
    ensures counts { IfOk result (ShowsCounts 3 row.now) }
    ensures fault { IfErr result IsDeniedFault }
    ensures memory { (b : BookRow) → IsFaultlessBook b → row.now ≡ numbers_shown b
        → FailsOnlyForMemory result }
{
    Ok(Counts {
        created: number_in(row, 3)?,
        edited: number_in(row, 4)?,
        imported: number_in(row, 5)?,
        import_edited: number_in(row, 6)?,
        moved_in: number_in(row, 7)?,
        deleted: number_in(row, 8)?,
        moved_out: number_in(row, 9)?,
    })
}

/// Reads the header in a row of `find_book`: the id, the number, the horizon and the seven counts.
/// Fails with `Store` if a column is not a number, the counts do not sum to the number, or the
/// horizon is above it.
pub(crate) fn header_in(row: &Row) -> Result<BookHeader, Denied>
    ensures figures { IfOk result (ShowsHeader row.now) }
    ensures fault { IfErr result IsDeniedFault }
    ensures memory { (b : BookRow) → IsFaultlessBook b → row.now ≡ numbers_shown b
        → FailsOnlyForMemory result }
{
    let id = number_in(row, 0)?;
    let number = number_in(row, 1)?;
    let horizon = number_in(row, 2)?;
    let counts = counts_in(row)?;
    match total_of(counts) {
        Some(sum) if sum == number && horizon <= number => Ok(BookHeader {
            id,
            number,
            horizon,
            counts,
        }),
        _ => Err(Denied::Fault(Fault::Store)),
    }
}
