//! What an order does.
ghost use Rattle.std.specs.Prelude.{◌≡◌};
ghost use Rattle.cli_host.specs.OrderWork.{address_of, file_work_of, limits_of, store_work_of};
ghost use Rattle.cli_host.specs.OrderWork.{work_of};
ghost use Rattle.cli_host.specs.declared.work.StoreWork.TheVariants.{Perform};
ghost use Rattle.cli_host.specs.declared.work.Work.TheVariants.{UseFile};

use crate::listing::Listing;
use base_types::{Items, Text};
use book_service::Command;
use cli_args::Order;
use cli_orders::Address;
use hub_server::ServeLimits;

/// More connections than anybody makes, 2^63, so that `run` serves until it is stopped.
const ENDLESS_CONNECTIONS: u64 = 9_223_372_036_854_775_808;

/// What an order does on a host.
#[derive(Drop)]
pub enum Work {
    /// Nothing that needs a store, a file of rows or a port.
    Nothing,
    /// Prints the program's version.
    PrintVersion,
    /// Checks the rows or the card of a file.
    CheckFile {
        /// The file's name.
        file: Text,
    },
    /// Creates a store in the file.
    CreateFile {
        /// The file's name.
        file: Text,
    },
    /// Migrates the file to the current schema.
    MigrateFile {
        /// The file's name.
        file: Text,
    },
    /// Copies the store in the file into a new file, without some of its books.
    CopyFile {
        /// The file's name.
        file: Text,
        /// The name of the new file.
        target: Text,
        /// The names of the books that are left out.
        without: Items<Text>,
    },
    /// Puts a copy back in place of the file, and makes every device start again.
    RestoreFile {
        /// The name of the copy.
        backup: Text,
        /// The file's name.
        file: Text,
        /// How many pairs of numbers each book takes.
        pairs: u64,
    },
    /// Opens the store in the file, which tests all its rows, and lists its books.
    VerifyFile {
        /// The file's name.
        file: Text,
    },
    /// Serves the store in the file to one connection after another.
    ServeFile {
        /// The file's name.
        file: Text,
        /// The port, or 0 for any free one.
        port: u16,
        /// The number of connections.
        connections: u64,
    },
    /// Serves the store in the file behind a guard.
    RunFile {
        /// The file's name.
        file: Text,
        /// Whether the file is created if it isn't there.
        creates: bool,
        /// The names of the server, beside those of the loopback.
        names: Items<Text>,
        /// Where it listens.
        address: Address,
        /// The number of connections, the most that are open at once, and the patience with a
        /// silent one in milliseconds.
        limits: ServeLimits,
        /// Whether a line is printed for each request.
        is_logged: bool,
        /// The folder of a site that is served beside the books, if there is one.
        site: Option<Text>,
    },
    /// Uses the store in the file.
    UseFile {
        /// The file's name.
        file: Text,
        /// What it does to the store.
        work: StoreWork,
    },
}

/// What an order does to a store.
#[derive(Drop)]
pub enum StoreWork {
    /// Performs a command.
    Perform(Command),
    /// Imports a file of rows into a book, under a key.
    ImportFile {
        /// The book's name.
        book: Text,
        /// The import's key.
        key: Text,
        /// The name of the file of rows.
        csv: Text,
    },
    /// Mirrors a book.
    MirrorBook {
        /// The book's name.
        book: Text,
        /// The most entries of a page; with 0 the first request for a page is refused.
        limit: u64,
        /// The most pages.
        pages: u64,
    },
    /// Exports the cards of a book as vCards.
    ExportCards {
        /// The book's name.
        book: Text,
        /// Whether they are written as vCard 3.0, and not 4.0.
        is_older: bool,
    },
    /// Lists the books.
    ListBooks(Listing),
    /// Makes every device start again.
    Resync {
        /// How many pairs of numbers each book takes.
        pairs: u64,
    },
}

/// The octets of a MiB.
const MEBIBYTE: u64 = 1_048_576;

/// The limits of a server, with its patience in seconds, and in MiB what its connections may hold.
fn limits_of(connections: u64, together: u64, patience: u64, held: u64) -> ServeLimits
    ensures { result ≡ limits_of connections together patience held }
{
    ServeLimits {
        connections,
        // The checker proves that this cast loses nothing.
        together: together as usize,
        patience: patience.saturating_mul(1_000),
        held: held.saturating_mul(MEBIBYTE),
    }
}

/// At the socket if there is one, and else at the port.
fn address_of(port: u16, socket: Option<Text>) -> Address
    ensures { result ≡ address_of port socket }
{
    match socket {
        Some(path) => Address::Socket(path),
        None => Address::Port(port),
    }
}

/// Performs a command on the store in the file.
fn perform_in(file: Text, command: Command) -> Work
    ensures { result ≡ UseFile file (Perform command) }
{
    Work::UseFile {
        file,
        work: StoreWork::Perform(command),
    }
}

/// Does work on the store in the file.
fn use_in(file: Text, work: StoreWork) -> Work
    ensures { result ≡ UseFile file work }
{
    Work::UseFile { file, work }
}

/// What an order does that uses the store in a file. For any other order: nothing.
fn store_work_of(order: Order) -> Work
    ensures { result ≡ store_work_of order }
{
    match order {
        Order::Import {
            file,
            book,
            key,
            csv,
        } => use_in(file, StoreWork::ImportFile { book, key, csv }),
        Order::Mirror {
            file,
            book,
            limit,
            pages,
        } => use_in(file, StoreWork::MirrorBook { book, limit, pages }),
        Order::Book { file, book } => perform_in(file, Command::CreateBook { book }),
        Order::Export { file, book, form } => perform_in(file, Command::Export { book, form }),
        Order::ExportCards {
            file,
            book,
            is_older,
        } => use_in(file, StoreWork::ExportCards { book, is_older }),
        Order::Tally { file, book } => perform_in(file, Command::TallyOf { book }),
        Order::Forget { file, book, upto } => perform_in(file, Command::Forget { book, upto }),
        Order::Expand { file, book, uid } => perform_in(file, Command::People { book, uid }),
        Order::Books { file } => use_in(file, StoreWork::ListBooks(Listing::Books)),
        Order::Resync { file, pairs } => use_in(file, StoreWork::Resync { pairs }),
        _ => Work::Nothing,
    }
}

/// What an order does that makes, copies or tests a whole file. For any other order: what it does
/// to the store in its file.
fn file_work_of(order: Order) -> Work
    ensures { result ≡ file_work_of order }
{
    match order {
        Order::Init { file } => Work::CreateFile { file },
        Order::Migrate { file } => Work::MigrateFile { file },
        Order::Copy {
            file,
            target,
            without,
        } => Work::CopyFile {
            file,
            target,
            without,
        },
        Order::Restore {
            backup,
            file,
            pairs,
        } => Work::RestoreFile {
            backup,
            file,
            pairs,
        },
        Order::Verify { file } => Work::VerifyFile { file },
        other => store_work_of(other),
    }
}

/// What the order does, with its arguments in their places.
pub fn work_of(order: Order) -> Work
    ensures { result ≡ work_of order }
{
    match order {
        Order::Try => Work::Nothing,
        Order::Version => Work::PrintVersion,
        Order::Check { file } => Work::CheckFile { file },
        Order::Run {
            file,
            port,
            socket,
            names,
            max_open,
            idle_timeout,
            max_held,
            creates,
            is_logged,
            site,
        } => Work::RunFile {
            file,
            creates,
            names,
            address: address_of(port, socket),
            limits: limits_of(ENDLESS_CONNECTIONS, max_open, idle_timeout, max_held),
            is_logged,
            site,
        },
        Order::Serve {
            file,
            port,
            connections,
        } => Work::ServeFile {
            file,
            port,
            connections,
        },
        other => file_work_of(other),
    }
}
