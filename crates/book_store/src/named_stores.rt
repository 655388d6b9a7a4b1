//! Creates and opens stores over any system of files by name.
ghost use Rattle.book_model.specs.Books.{Books};
ghost use Rattle.book_store.specs.FileRefusals.{IsFileCreationRefusal, IsFileOpenRefusal};
ghost use Rattle.book_store.specs.FileRefusals.{IsUnlessEmpty};
ghost use Rattle.book_store.specs.OpenOutcomes.{StartsWithoutTables};
ghost use Rattle.book_store.specs.PageSums.{has_page_sums};
ghost use Rattle.book_store.specs.Restarts.{HasPathCause, HoldsStore, declared_over};
ghost use Rattle.named_files.specs.FileOpenings.{OpensFilled, OpensFound, OpensOrCreates};
ghost use Rattle.sqlite.specs.Files.{file_state};
ghost use Rattle.sqlite.specs.Start.{FindsIn};
ghost use Rattle.sqlite.specs.State.{HasCleanDisk};
ghost use Rattle.store_check.specs.OpenResults.{max_limits};
ghost use Rattle.store_lookups.specs.StoredBooks.{IsOpenOnHonestDisk, stored_books};
ghost use Rattle.store_rows.specs.SoundTables.{HoldsWellFormed};
ghost use Rattle.store_schema.specs.OpenFaults.{IsCreationFault};
ghost use Rattle.std.specs.FinMap as finite;
ghost use Rattle.std.specs.Prelude.{◌≡◌, IfErr, IfOk, IsTrue, true};

use crate::files::{FileBooksFrom, creation_refusal, open_refusal};
use crate::over_files::try_adopt;
use crate::sql_store::SqlStore;
use book_model::Limits;
use named_files::{NamedFiles, connect_found, into_store, is_empty_without_log};
use sqlite::{FileStore, Leftover};
use sqlite_std_file::{FileFrom, Start};
use std::alloc::Global;
use store_schema::{FileRefusal, OpenFault};

impl<S: Start> SqlStore<FileStore<FileFrom<S>>> {
    /// Creates a store without books in the file at the path. The file is created if there is none,
    /// and may exist if it is empty. Each page of a new file ends in a sum of its octets, and an
    /// opening refuses a file in which one is wrong.
    ///
    /// Fails with `NotEmpty` if it has tables, also if their rows break their declarations; with
    /// `NotOurs` if it is not a database; with `Memory` if memory runs out; and with `Store` if it
    /// can't be used: another process has it open, it has two names, or the disk fails. An error
    /// returns what is left of the files, if they were opened. What they hold then is only tested:
    /// no book, but a new file may remain, empty or as a database without tables.
    pub fn create_in<F: NamedFiles<S>>(
        files: &mut F,
        alloc: Global,
        path: &str,
        limits: Limits,
        start: S,
    ) -> Result<FileBooksFrom<S>, FileRefusal<S>>
        // One connection is opened, to the file at this path, and nothing else is asked of the
        // files.
        ensures calls { OpensOrCreates path.now result true (F.log files.old) (F.log files.new) }
        ensures found { IfOk result (λ store. IsOpenOnHonestDisk (file_state store.conn)
            → StartsWithoutTables file_state has_page_sums
            (F.image files.old path.now) store.conn) }
        ensures books { IfOk result (λ store. IsOpenOnHonestDisk (file_state store.conn)
            → stored_books (file_state store.conn) ≡ finite.empty) }
        ensures opened { IfOk result (λ store. HasCleanDisk (file_state store.conn)
            → IsTrue (file_state store.conn).is_open) }
        ensures limits { IfOk result (λ store. store.limits ≡ limits) }
        ensures fault { IfErr result (λ refused. IsCreationFault refused.0) }

        // The fault is right for what the file and its log held.
        ensures refused { IfErr result (λ refused.
            IsFileCreationRefusal (F.image files.old path.now) refused.0 refused.1) }
    {
        match files.connect(path, true, start) {
            Ok(connection) => match SqlStore::try_adopt_new(alloc, connection, limits) {
                Ok(store) => Ok(store),
                Err((fault, conn)) => Err((fault, Some(Leftover::Store(into_store(conn))))),
            },
            Err((error, left)) => Err(creation_refusal(alloc, error, left)),
        }
    }

    /// Opens the store in the file at the path, with the books that the file and the log beside it
    /// held. Only tested: no row is written; the log is created, or its commits are recovered; and
    /// an empty file may be written to before it is refused.
    ///
    /// Fails as `try_adopt` does for the tables in the file, with `Damaged` also if their rows
    /// break their declarations; with `NotOurs` if the file is not a database or is empty; with
    /// `Memory` if memory runs out; and with `Store` if there is no file or it can't be used:
    /// another process has it open, it has two names, or the disk fails. An error returns what is
    /// left of the files, if they were opened.
    pub fn open_in<F: NamedFiles<S>>(
        files: &mut F,
        alloc: Global,
        path: &str,
        limits: Limits,
        start: S,
    ) -> Result<FileBooksFrom<S>, FileRefusal<S>>
        // If something is at this path, one connection is opened to it; nothing else is asked.
        ensures calls { OpensFound path.now result (F.log files.old) (F.log files.new) }
        ensures found { IfOk result (λ store. IsOpenOnHonestDisk (file_state store.conn)
            → FindsIn (F.image files.old path.now) (file_state store.conn)) }
        ensures opens { (books : Books) → HoldsStore (F.image files.old path.now) books
            → IfOk result (λ store. IsOpenOnHonestDisk (file_state store.conn)
            → stored_books (file_state store.conn) ≡ books) }
        ensures opened { IfOk result (λ store. HasCleanDisk (file_state store.conn)
            → IsTrue (file_state store.conn).is_open) }
        ensures well_formed { IfOk result (λ store. IsOpenOnHonestDisk (file_state store.conn)
            → HoldsWellFormed max_limits (file_state store.conn).now) }
        ensures limits { IfOk result (λ store. store.limits ≡ limits) }

        // The fault is right for what the file and its log held.
        ensures refused { IfErr result (λ refused.
            IsFileOpenRefusal (F.image files.old path.now) refused.0 refused.1) }

        // If they held a store, it has a cause from outside.
        ensures cause { (books : Books) → (holds : HoldsStore (F.image files.old path.now) books)
            → IfErr result (λ refused. HasPathCause (F.image files.old path.now)
            (declared_over holds.trees) refused.0 refused.1) }
    {
        match connect_found(files, path, start) {
            Ok(connection) => match try_adopt(alloc, connection, limits) {
                Ok(store) => Ok(store),
                Err((fault, conn)) => Err((fault, Some(Leftover::Store(into_store(conn))))),
            },
            Err((error, left)) => Err(open_refusal(alloc, error, left)),
        }
    }

    /// `open_in`, but an empty file without a log is refused as `NotOurs`, and isn't opened.
    pub fn open_filled<F: NamedFiles<S>>(
        files: &mut F,
        alloc: Global,
        path: &str,
        limits: Limits,
        start: S,
    ) -> Result<FileBooksFrom<S>, FileRefusal<S>>
        ensures calls { OpensFilled path.now result (F.log files.old) (F.log files.new) }
        ensures found { IfOk result (λ store. IsOpenOnHonestDisk (file_state store.conn)
            → FindsIn (F.image files.old path.now) (file_state store.conn)) }
        ensures opens { (books : Books) → HoldsStore (F.image files.old path.now) books
            → IfOk result (λ store. IsOpenOnHonestDisk (file_state store.conn)
            → stored_books (file_state store.conn) ≡ books) }
        ensures opened { IfOk result (λ store. HasCleanDisk (file_state store.conn)
            → IsTrue (file_state store.conn).is_open) }
        ensures well_formed { IfOk result (λ store. IsOpenOnHonestDisk (file_state store.conn)
            → HoldsWellFormed max_limits (file_state store.conn).now) }
        ensures limits { IfOk result (λ store. store.limits ≡ limits) }

        // Unless the file is refused as empty, the fault is right for what it and its log held.
        ensures refused { IfErr result (λ refused. IsUnlessEmpty refused
            (IsFileOpenRefusal (F.image files.old path.now) refused.0 refused.1)) }
        ensures cause { (books : Books) → (holds : HoldsStore (F.image files.old path.now) books)
            → IfErr result (λ refused. IsUnlessEmpty refused
            (HasPathCause (F.image files.old path.now) (declared_over holds.trees)
            refused.0 refused.1)) }
    {
        match is_empty_without_log(files, alloc, path) {
            Ok(false) => SqlStore::open_in(files, alloc, path, limits, start),
            Ok(true) => Err((OpenFault::NotOurs, None)),
            Err(_) => Err((OpenFault::Memory, None)),
        }
    }
}
