//! The trait of hosts: the files and ports that orders use.
ghost use Rattle.std.specs.Prelude.{◌≡◌, ◌≢◌, ◌⊎◌, IfErr, IfOk};
ghost use Rattle.cli_host.specs.Hosts.{HostCall, Closes, Copies, Creates, Migrates, Opens};
ghost use Rattle.cli_host.specs.Hosts.{ReadsRows, ReadsSite, Restores};
ghost use Rattle.cli_host.specs.Hosts.{Binds, BindsListener, FindsFault, Finishes, IsBoundAs};
ghost use Rattle.cli_host.specs.Hosts.{Looks};
ghost use Rattle.cli_orders.specs.Stops.{out_of_memory};

use base_types::{Items, Text};
use cli_orders::{Address, FoundCause, Restored, Stop};
use http_fronts::Front;
use request_log::RequestLog;
use site_files::Site;
use std::alloc::Global;
use store_check::faults::FaultyRow;
use store_schema::OpenFault;

/// The host that orders run on, with its files and ports. A store `S` holds the books of a file, an
/// endpoint `P` has the connections to a port, all at once, and a listener `L` accepts them one
/// after another.
///
/// The contracts of the real host say neither what a file holds nor who connects to a port. The
/// contracts over any host say which calls are made of it, and one body runs orders on all hosts.
/// A host gets back each endpoint that it gave, and each store but that of `run`. So its log says
/// how an order left them.
///
/// A host also prints the lines of `run --log`, says that a long import or opening goes on, and
/// looks for why a file, a socket or a port couldn't be used. These are no calls: what an order
/// does and prints doesn't depend on them.
pub trait Host<S, P, L>: RequestLog {
    /// What answers some requests of `run` before the books and a site do.
    type Front: Front + Drop;

    /// What is known of a call: its result, and the host before and after it.
    ghost calls: { HostCall S P L → Self → Self → Type 0 };

    /// Creates a new store without books in the file.
    fn create(&mut self, file: &str) -> Result<S, OpenFault>
        ensures { calls (Creates file.now result) self.old self.new };

    /// Whether there is nothing under the file's name, or a file without octets, as far as the host
    /// can tell. A file whose creation was stopped may be finished first.
    fn is_vacant(&mut self, file: &str) -> bool
        ensures { calls (Looks file.now result) self.old self.new };

    /// Opens the store of the books in the file.
    fn open(&mut self, file: &str) -> Result<S, OpenFault>
        ensures { calls (Opens file.now result) self.old self.new };

    /// Searches a file that can't be opened, since it is damaged, for a row at fault. `None` if it
    /// holds well-formed books.
    fn find_fault(&mut self, file: &str) -> Result<Option<FaultyRow>, OpenFault>
        ensures { calls (FindsFault file.now result) self.old self.new };

    /// Migrates the file to the current schema, and returns its number of books.
    fn migrate_file(&mut self, file: &str) -> Result<u64, OpenFault>
        ensures { calls (Migrates file.now result) self.old self.new };

    /// Copies the store in the file into a new file, without the books with these names, and
    /// returns the number of books that it has. `NotEmpty` if something is there, and refused with
    /// `NoSuchBook` if a name isn't that of a book. No clause says what a stop leaves.
    fn copy_file(&mut self, file: &str, target: &str, without: &[Text]) -> Result<u64, Stop>
        ensures { calls (Copies file.now target.now without.now result) self.old self.new };

    /// Puts the copy in the file `backup` back in place of the file, and makes every device start
    /// again. Returns what became of the file. No clause says what a stop leaves.
    fn restore_file(&mut self, backup: &str, file: &str, pairs: u64) -> Result<Restored, Stop>
        ensures { calls (Restores backup.now file.now pairs result) self.old self.new };

    /// Reads a file of rows. `Device` if it can't be read or has more than 8,388,608 octets, and
    /// `Memory` if the buffer can't be allocated.
    fn read_rows(&mut self, alloc: Global, file: &str) -> Result<Items<u8>, Stop>
        ensures called { calls (ReadsRows file.now result) self.old self.new }
        ensures stop { IfErr result (λ stop. (stop ≡ out_of_memory) ⊎ (stop ≡ Stop.Device)) };

    /// Reads the files of a folder and of the folders within it. `Device` if it can't be used, and
    /// then the host has said why in words; `Memory` if an allocation fails.
    fn read_site(&mut self, dir: &str) -> Result<Site, Stop>
        ensures called { calls (ReadsSite dir.now result) self.old self.new }
        ensures stop { IfErr result (λ stop. (stop ≡ out_of_memory) ⊎ (stop ≡ Stop.Device)) };

    /// Binds an endpoint to the address, at any free port for port 0, and returns it with the
    /// address. Its places are those below `together`. `Device` if the address can't be used, and
    /// `Memory` if an allocation fails.
    fn listen(
        &mut self,
        alloc: Global,
        address: Address,
        together: usize,
    ) -> Result<(P, Address), Stop>
        ensures called { calls (Binds address together result) self.old self.new }

        // The address is the one that was asked for; only in place of port 0 it is any port.
        ensures bound { IfOk result (λ bound. IsBoundAs address bound.1) }
        ensures stop { IfErr result (λ stop. (stop ≡ out_of_memory) ⊎ (stop ≡ Stop.Device)) };

    /// Binds a listener to the port, or to any free port for 0, and returns it with its port.
    /// `Device` if this fails.
    fn bind_listener(&mut self, port: u16) -> Result<(L, u16), Stop>
        ensures called { calls (BindsListener port result) self.old self.new }
        ensures port { IfOk result (λ bound. port ≢ 0 → bound.1 ≡ port) }
        ensures stop { IfErr result (λ stop. stop ≡ Stop.Device) };

    /// The front of the server. Making it calls nothing.
    fn front(&self) -> Self::Front;

    /// The number of octets of a file; 0 if the host can't read it.
    fn octets_of(&self, file: &str) -> u64;

    /// Whether somebody watches standard error: whether it is a terminal.
    fn has_watcher(&self) -> bool;

    /// Says a text on standard error. If it can't be written, it is lost.
    fn say(&self, text: &[u8]);

    /// Looks for why the store file can't be used, which the order makes if it isn't there, or
    /// doesn't. For this it may open the file once more, and fill a file beside it, which it
    /// removes.
    fn cause_of_store(&self, file: &str, makes_file: bool) -> FoundCause;

    /// Looks for why the file of rows can't be read, or isn't one.
    fn cause_of_rows(&self, file: &str) -> FoundCause;

    /// Looks for why no endpoint can be bound to a Unix socket at the path.
    fn cause_of_socket(&self, path: &str) -> FoundCause;

    /// Looks for why no endpoint can be bound to the port.
    fn cause_of_port(&self, port: u16) -> FoundCause;

    /// Whether the folder can be read as a site. If it can't, `read_site` has said why.
    fn has_site(&self, dir: &str) -> bool;

    /// Closes the store of a file, after all that was done with it.
    fn close(&mut self, store: S)
        ensures { calls (Closes store) self.old self.new };

    /// Closes the endpoint, after its connections were served.
    fn finish(&mut self, endpoint: P)
        ensures { calls (Finishes endpoint) self.old self.new };
}
