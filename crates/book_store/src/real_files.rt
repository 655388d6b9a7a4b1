//! The files of a program. Copying them is written over any disk: so the proof of each step needs
//! none of the clauses of the real one.
ghost use Rattle.book_store.specs.PageSums.{has_page_sums};
ghost use Rattle.sqlite.specs.Files.{file_state};
ghost use Rattle.sqlite.specs.State.{HasCleanDisk};
ghost use Rattle.std.specs.Prelude.{◌≡◌, IfOk, false, true};

use crate::closing::remove_new;
use crate::files::open_standard;
use crate::sql_store::SqlStore;
use named_files::drop_connection;
use sqlite::{Connection, FileStore};
use sqlite_disk::Disk;
use sqlite_std_file::{FileFrom, Unknown};
use std::fs::Permissions;
use std::os::unix::fs::{MetadataExt, PermissionsExt};
use std::{fs, io};
use store_schema::{OpenFault, open_fault_of};

/// Whether the file is there and has no octets.
fn is_empty_file(rt: &HostRuntime, path: &str) -> bool {
    match fs::metadata(rt, path) {
        Ok(metadata) => metadata.len() == 0,
        Err(_) => false,
    }
}

/// Gives the new file and its log the mode of the file at the path.
fn take_mode(rt: &HostRuntime, path: &str, target: &str, log: &str) -> io::Result<()> {
    let mode = fs::metadata(rt, path)?.mode() & 0o777;
    fs::set_permissions(rt, target, Permissions::from_mode(mode))?;
    fs::set_permissions(rt, log, Permissions::from_mode(mode))
}

/// Opens a new file, with the mode of the file at the path. If that fails, an empty file is
/// removed.
fn open_new(
    rt: &HostRuntime,
    path: &str,
    target: &str,
    log: &str,
) -> Result<Connection<FileStore<FileFrom<Unknown>>>, OpenFault>
    ensures settled { IfOk result (λ connection. connection.in_transaction ≡ false) }
    ensures sums { IfOk result (λ connection. HasCleanDisk (file_state connection)
        → has_page_sums connection ≡ true) }
{
    match Connection::open_with_sums(rt, target) {
        Ok(connection) => {
            // Before anything is written that others may not read.
            if take_mode(rt, path, target, log).is_err() {
                remove_new(rt, target, log);
                drop_connection(connection);
                return Err(OpenFault::Store);
            }
            Ok(connection)
        }
        Err(error) => {
            if is_empty_file(rt, target) {
                remove_new(rt, target, log);
            }
            Err(open_fault_of(error))
        }
    }
}

/// Files on a disk `D`, that hold stores or shall hold one.
pub(crate) trait OpensFiles<D: Disk + Drop> {
    /// Opens the store in the file at the path, within the standard limits.
    fn open_standard(
        &self,
        rt: &HostRuntime,
        path: &str,
    ) -> Result<SqlStore<FileStore<D>>, OpenFault>;

    /// Opens a new file, with the mode of the file at the path. If that fails, an empty file is
    /// removed. Each page of the file ends in a sum of its octets.
    fn open_new(
        &self,
        rt: &HostRuntime,
        path: &str,
        target: &str,
        log: &str,
    ) -> Result<Connection<FileStore<D>>, OpenFault>
        ensures settled { IfOk result (λ connection. connection.in_transaction ≡ false) }
        ensures sums { IfOk result (λ connection. HasCleanDisk (file_state connection)
            → has_page_sums connection ≡ true) };
}

/// The files of the system.
pub(crate) struct RealFiles;

impl OpensFiles<FileFrom<Unknown>> for RealFiles {
    fn open_standard(
        &self,
        rt: &HostRuntime,
        path: &str,
    ) -> Result<SqlStore<FileStore<FileFrom<Unknown>>>, OpenFault> {
        open_standard(rt, path)
    }

    fn open_new(
        &self,
        rt: &HostRuntime,
        path: &str,
        target: &str,
        log: &str,
    ) -> Result<Connection<FileStore<FileFrom<Unknown>>>, OpenFault> {
        open_new(rt, path, target, log)
    }
}
