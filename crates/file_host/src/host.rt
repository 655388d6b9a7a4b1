//! The host that the program runs on.
ghost use Rattle.std.specs.Prelude.{◌≡◌, IfOk};
ghost use Rattle.book_model.specs.Bounds.{standard_limits};

use crate::causes::{port_cause, rows_cause, socket_cause, store_cause};
use crate::file_care::may_be_unfinished;
use crate::ports::{listen_at, listener_at};
use crate::reading::{rows_from, site_from};
use crate::restoring::restore_file;
use crate::store_files::BookFiles;
use base_types::{Items, Text};
use book_store::{CopyFault, FileBooks, SqlStore};
use cli_host::Host;
use cli_orders::{Address, FoundCause, Restored, Stop};
use http_fronts::Front;
use request_log::RequestLog;
use site_files::{Site, read_site};
use socket_endpoint::SocketEndpoint;
use std::alloc::Global;
use std::io::{IsTerminal, Write};
use std::net::TcpListener;
use std::rt::HostRuntime;
use std::time::Instant;
use std::{fs, io};
use store_check::faults::FaultyRow;
use store_migration::migrate;
use store_schema::OpenFault;
use sync_core::Limits;

/// The host that the program runs on, with its files and ports, and the front of its server.
#[derive(Clone, Copy)]
pub struct FileHost<F> {
    rt: HostRuntime,
    front: F,
    /// Whether finishing a creation failed, so that no file is used any more. After a sync that
    /// failed, what the system has of the file may not be on the disk, and it need not say so again.
    has_failed: bool,
}

impl<F> FileHost<F> {
    /// The host of the program that has this handle of the system. Its server has this front.
    pub fn new(rt: HostRuntime, front: F) -> FileHost<F> {
        FileHost {
            rt,
            front,
            has_failed: false,
        }
    }
}

impl<F> RequestLog for FileHost<F> {
    fn print(&self, line: &[u8]) {
        RequestLog::print(&self.rt, line)
    }

    fn now(&self) -> Option<Instant> {
        RequestLog::now(&self.rt)
    }

    fn micros_since(&self, start: Option<Instant>) -> u64 {
        RequestLog::micros_since(&self.rt, start)
    }
}

/// The limits of the stores that the program creates and opens.
fn limits() -> Limits
    ensures { result ≡ standard_limits }
{
    Limits::standard()
}

/// Creates the store in a file whose creation was stopped: it has no tables, and perhaps only a
/// part of its first page. Any other file stays as it is. Returns whether the file can't be used,
/// as after a failure of the disk.
fn finish_creation(rt: &HostRuntime, file: &str) -> bool {
    matches!(SqlStore::create(rt, file, limits()), Err(OpenFault::Store))
}

impl<F: Front + Copy> Host<FileBooks, SocketEndpoint, TcpListener> for FileHost<F> {
    ghost use Rattle.file_host.specs.FileHosts.{IsAnyCall};

    type Front = F;

    ghost calls = { IsAnyCall };

    fn front(&self) -> F {
        self.front
    }

    fn create(&mut self, file: &str) -> Result<FileBooks, OpenFault>
        ensures limits { IfOk result (λ store. store.limits ≡ standard_limits) }
    {
        if self.has_failed {
            return Err(OpenFault::Store);
        }
        SqlStore::create(&self.rt, file, limits())
    }

    fn is_vacant(&mut self, file: &str) -> bool {
        if may_be_unfinished(&self.rt, file) && finish_creation(&self.rt, file) {
            self.has_failed = true;
        }
        match fs::metadata(&self.rt, file) {
            Ok(metadata) => metadata.is_file() && metadata.len() == 0,
            Err(error) => error.kind() == io::ErrorKind::NotFound,
        }
    }

    fn open(&mut self, file: &str) -> Result<FileBooks, OpenFault>
        ensures limits { IfOk result (λ store. store.limits ≡ standard_limits) }
    {
        if self.has_failed {
            return Err(OpenFault::Store);
        }
        SqlStore::open(&self.rt, file, limits())
    }

    fn find_fault(&mut self, file: &str) -> Result<Option<FaultyRow>, OpenFault> {
        SqlStore::find_fault(&self.rt, file)
    }

    fn migrate_file(&mut self, file: &str) -> Result<u64, OpenFault> {
        migrate(&self.rt, file)
    }

    fn copy_file(&mut self, file: &str, target: &str, without: &[Text]) -> Result<u64, Stop> {
        match SqlStore::copy_file_without(&self.rt, file, target, without) {
            Ok(books) => Ok(books),
            Err(CopyFault::Refused(refusal)) => Err(Stop::Refused(refusal)),
            Err(CopyFault::Open(fault)) => Err(Stop::Open(fault)),
        }
    }

    fn restore_file(&mut self, backup: &str, file: &str, pairs: u64) -> Result<Restored, Stop> {
        restore_file(&self.rt, &BookFiles, backup, file, pairs)
    }

    fn read_rows(&mut self, alloc: Global, file: &str) -> Result<Items<u8>, Stop> {
        rows_from(alloc, fs::open(&self.rt, file))
    }

    fn read_site(&mut self, dir: &str) -> Result<Site, Stop> {
        site_from(&self.rt, dir)
    }

    fn listen(
        &mut self,
        alloc: Global,
        address: Address,
        together: usize,
    ) -> Result<(SocketEndpoint, Address), Stop> {
        listen_at(&self.rt, alloc, address, together)
    }

    fn bind_listener(&mut self, port: u16) -> Result<(TcpListener, u16), Stop> {
        listener_at(&self.rt, port)
    }

    fn octets_of(&self, file: &str) -> u64 {
        match fs::metadata(&self.rt, file) {
            Ok(metadata) => metadata.len(),
            Err(_) => 0,
        }
    }

    fn has_watcher(&self) -> bool {
        self.rt.stderr().is_terminal()
    }

    fn say(&self, text: &[u8]) {
        let _said = self.rt.stderr().write(text);
    }

    fn cause_of_store(&self, file: &str, makes_file: bool) -> FoundCause {
        store_cause(&self.rt, file, makes_file)
    }

    fn cause_of_rows(&self, file: &str) -> FoundCause {
        rows_cause(&self.rt, file)
    }

    fn cause_of_socket(&self, path: &str) -> FoundCause {
        socket_cause(&self.rt, path)
    }

    fn cause_of_port(&self, port: u16) -> FoundCause {
        port_cause(&self.rt, port)
    }

    fn has_site(&self, dir: &str) -> bool {
        read_site(&self.rt, dir).is_ok()
    }

    fn close(&mut self, store: FileBooks) {
        drop(store)
    }

    fn finish(&mut self, endpoint: SocketEndpoint) {
        endpoint.finish()
    }
}
