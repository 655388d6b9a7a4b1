//! Laws of stores over tables.
//!
//! The rows of well-formed books (`AreWellFormed`) can be read: no number is negative, each UID is
//! legal, and the text of each card is canonical. They don't contradict each other: ids and names
//! of books are unique, so are UIDs and keys in a book, and each row belongs to a book. And they
//! keep the invariants of every store (`IsWellFormed`): names and keys are legal, and the ids of n
//! books are 1 to n; in a book the counts add up to its number and to its live cards, no horizon
//! and no number of a row or an import is above that number, no two rows have the same number,
//! tombstones are above the horizon, and a live card is under its own UID; and the limits of books,
//! changes and tombstones are kept.
ghost use Rattle.book_model.specs.Books.{Books};
ghost use Rattle.book_model.specs.Bounds.{Bounds};
ghost use Rattle.book_resync.specs.ResyncLaws.{HasLegalCards};
ghost use Rattle.book_store.specs.Crashes.{StoresSurviveCrashes};
ghost use Rattle.book_store.specs.OpenOutcomes.{AreNewStoreTrees};
ghost use Rattle.book_store.specs.Restarts.{HoldsStore};
ghost use Rattle.book_store.specs.StoreViews.{StoredTrees};
ghost use Rattle.sqlite.specs.Effect.{Database};
ghost use Rattle.sqlite.specs.Files.{HoldsDatabase};
ghost use Rattle.sqlite.specs.Recovery.{Image};
ghost use Rattle.sqlite.specs.Tree.{Trees};
ghost use Rattle.store_check.specs.OpenResults.{max_limits};
ghost use Rattle.store_lookups.specs.ChangeFaults.{AcceptChanges};
ghost use Rattle.store_lookups.specs.StoreFaults.{AreFaultless};
ghost use Rattle.store_migration.specs.Migration.{CommitsMigration};
ghost use Rattle.store_rows.specs.SoundTables.{AreWellFormed, HoldsWellFormed};
ghost use Rattle.store_rows.specs.TableBooks.{books_in};
ghost use Rattle.store_rows.specs.TableRows.{TableRows};
ghost use Rattle.store_tables.specs.Tables.{book_schema};
ghost use Rattle.sqlite_trees.specs.Tree.{IsTable};
ghost use Rattle.std.specs.FinMap as finite;
ghost use Rattle.std.specs.List.{AllByRecursion};
ghost use Rattle.std.specs.Prelude.{◌<◌, ◌*◌, ◌^◌};

use sqlite::Alter;
use vcard_text::laws::{card_is_computed, spelled_is_card};

/// The rows of well-formed books cause no fault in a call that reads, if the limits allow fewer
/// than 2^63 books, fewer than 2^63 changes of each, and fewer than 2^63 - 1 of all together
/// (`AreFaultless`, which the clauses of those calls ask for). A fault may still come from outside,
/// or for lack of memory.
pub fn well_formed_rows_cause_no_fault()
    ensures { (limits : Bounds) (rows : TableRows)
        → limits.books_max * limits.changes_max < 9223372036854775807
        → limits.books_max < 2 ^ 63 → limits.changes_max < 2 ^ 63
        → AreWellFormed limits rows → AreFaultless rows }
{}

/// The rows of well-formed books accept changes, if the limits allow fewer than 2^63 - 1 books,
/// fewer than 2^63 changes of each, and fewer than 2^63 - 1 of all together. A change of such rows
/// fails with `Store` only from outside, while the engine has ids for new rows (`HaveFreeIds`).
pub fn well_formed_rows_accept_changes()
    ensures { (limits : Bounds) (rows : TableRows)
        → limits.books_max * limits.changes_max < 9223372036854775807
        → limits.books_max < 9223372036854775807 → limits.changes_max < 2 ^ 63
        → AreWellFormed limits rows → AcceptChanges rows }
{}

/// A crash between two calls of a store leaves its books, with each change that a call made before
/// it returned: an open after the crash finds these books and no others. The connection must be
/// open, and the disk must have returned what was written.
pub fn stores_survive_crashes<S: Alter>()
    ensures { StoresSurviveCrashes S.Store }
{}

/// What `SqlStore::into_files` leaves, `SqlStore::open_again` opens, with its books: it lists the
/// declared tables, and their rows pass each test of an opening.
pub fn left_stores_open()
    ensures { (image : Image) (trees : Trees) → HoldsDatabase image trees
        → (stored : StoredTrees trees) → HoldsStore image stored.books }
{}

/// The rows of each table of a file that holds a store are in the order of their ids, and no two of
/// a table have one id. So the id that the engine chooses for a new row, one above the last, is new.
pub fn stored_rows_are_in_order()
    ensures { (image : Image) (books : Books) → (stored : HoldsStore image books)
        → AllByRecursion (λ t. IsTable (stored.trees t.tree)) book_schema.tables }
{}

/// A life begins with a creation or with a migration.
/// - `created`: files with tables that were just created hold a store without books. That is what a
///   crash leaves of a creation, unless it leaves what it could leave before.
/// - `migrated`: files with the tables of a migration hold a store, with the books of these tables.
///   That is what a crash leaves of a migration, unless it leaves what it could leave before.
pub fn beginnings_open()
    ensures created { (image : Image) (trees : Trees) → HoldsDatabase image trees
        → AreNewStoreTrees trees → HoldsStore image finite.empty }
    ensures migrated { (image : Image) (first : Database) (trees : Trees)
        → HoldsDatabase image trees → CommitsMigration max_limits first trees
        → HoldsStore image (books_in trees) }
{}

/// A text can spell each live card of a file that holds a store, whoever wrote it, as the life of a
/// store asks before a resync.
/// - `files`: it is so of files that hold a store.
/// - `openings`: it is so of the rows that an opening accepts.
pub fn stored_cards_are_legal()
    ensures files { (image : Image) (books : Books) → HoldsStore image books
        → HasLegalCards books }
    ensures openings { (db : Database) → HoldsWellFormed max_limits db
        → HasLegalCards (books_in db.trees) }
{
    card_is_computed();
    spelled_is_card();
}
