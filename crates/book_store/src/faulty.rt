//! Finds the row at fault in a file that isn't opened since it is damaged.
ghost use Rattle.book_store.specs.FileSearches.{IsFileSearch, with_fault};
ghost use Rattle.named_files.specs.FileOpenings.{OpensFound};

use crate::files::open_refusal;
use crate::sql_store::SqlStore;
use book_model::Limits;
use named_files::{NamedFiles, SystemFiles, connect_found, into_store};
use sqlite::{FileStore, Leftover};
use sqlite_std_file::{FileFrom, Start, Unknown};
use std::alloc::Global;
use store_check::faults::FaultyRow;
use store_check::opening::find_faulty_row;
use store_schema::OpenFault;

/// What a search of files found, and what is left of them if they were opened.
pub type FileSearch<S> = (
    Result<Option<FaultyRow>, OpenFault>,
    Option<Leftover<FileFrom<S>>>,
);

impl<S: Start> SqlStore<FileStore<FileFrom<S>>> {
    /// Searches the file at the path for a row that has a fault, and returns one; `None` if the
    /// file holds well-formed books. Which of several faulty rows it is, is only tested, and so is
    /// that it writes no row.
    ///
    /// Fails as `open_in` does. It fails with `Damaged` only if rows break the declarations of
    /// their tables: then no connection opens, and no row can be named.
    pub fn find_fault_in<F: NamedFiles<S>>(
        files: &mut F,
        alloc: Global,
        path: &str,
        start: S,
    ) -> FileSearch<S>
        // If something is at this path, one connection is opened to it; nothing else is asked.
        ensures calls { OpensFound path.now (with_fault result.0 result.1)
            (F.log files.old) (F.log files.new) }

        // What was found is right for what the file and its log held.
        ensures right { IsFileSearch (F.image files.old path.now) result.0 result.1 }
    {
        match connect_found(files, path, start) {
            Ok(connection) => {
                let mut conn = connection;
                let found = find_faulty_row(alloc, &mut conn, Limits::standard());
                (found, Some(Leftover::Store(into_store(conn))))
            }
            Err((error, left)) => {
                let (fault, left) = open_refusal(alloc, error, left);
                (Err(fault), left)
            }
        }
    }
}

impl SqlStore<FileStore<FileFrom<Unknown>>> {
    /// `find_fault_in` over the files of the system, for a program that proves nothing about what
    /// the file holds. So no clause says what is found.
    pub fn find_fault(rt: &HostRuntime, path: &str) -> Result<Option<FaultyRow>, OpenFault> {
        let mut files = SystemFiles::new(rt);
        let (found, _left) = SqlStore::find_fault_in(&mut files, rt.alloc(), path, Unknown);
        found
    }
}
