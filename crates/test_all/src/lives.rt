//! A crash of the disks below a store, and the opening of the store after it, as a life of the
//! store has it (`book_service::live`).

ghost use Rattle.book_store.specs.Restarts.{HasCrashCause};
ghost use Rattle.sqlite.specs.Files.{file_state};

use book_service::Restarts;
use book_store::{OpenFault, SqlStore};
use sqlite::{FileStore, Leftover, Options};
use sqlite_disk::Crash;
use std::alloc::Global;

/// Crashes the disks of a store at this moment, and opens it again with these options.
#[derive(Clone, Copy)]
pub struct DiskCrashes {
    pub alloc: Global,
    pub options: Options,
}

/// Why the files of a store don't open again, and what is left of them.
pub type Refused<D> = (OpenFault, Leftover<D>);

impl<D: Crash + Drop> Restarts<SqlStore<FileStore<D>>, Refused<D>> for DiskCrashes {
    ghost refuses = { λ store refused. HasCrashCause (file_state store.conn) refused.1 refused.0 };

    fn restart(
        &mut self,
        store: SqlStore<FileStore<D>>,
    ) -> Result<SqlStore<FileStore<D>>, Refused<D>> {
        // Each time that files are opened they get other salts.
        self.options.seed = self.options.seed.wrapping_add(1);
        store.restart(self.alloc, self.options)
    }
}
