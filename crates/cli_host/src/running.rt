//! Runs orders on a host.
ghost use Rattle.std.specs.Prelude.{◌⊎◌, IfErr, OnOk};
ghost use Rattle.cli_host.specs.Hosts.{LogsCalls};
ghost use Rattle.cli_host.specs.OrdersOnHost.{ChecksFile, DoesInFile, DoesStoreWork, DoesWork};
ghost use Rattle.cli_host.specs.OrdersOnHost.{ImportsRows, StopsChecking};
ghost use Rattle.cli_host.specs.OrdersOnHost.{KeepsOrderOutput, MakesStore, MigratesFile};
ghost use Rattle.cli_host.specs.OrdersOnHost.{RunsOnHost};
ghost use Rattle.cli_host.specs.OrdersOnHost.{StopsInFile, StopsMaking, StopsMigrating};
ghost use Rattle.cli_host.specs.OrdersOnHost.{StopsOnHost, StopsOnImport, StopsReadingRows};
ghost use Rattle.cli_host.specs.OrdersOnHost.{StopsStoreWork, StopsWork};
ghost use Rattle.cli_orders.specs.Outputs.{Flushes};

use crate::card_export::run_card_export;
use crate::copying::{run_copy, run_restore};
use crate::host::Host;
use crate::listing::run_listing;
use crate::progress::{open_watched, run_import};
use crate::resyncing::run_resync;
use crate::serving::{run_file, run_serve};
use crate::verifying::run_verify;
use crate::work::{StoreWork, Work, work_of};
use base_types::Text;
use book_http::Listener;
use book_resync::AdminStore;
use book_service::Command;
use cli_args::Order;
use cli_orders::{
    Output, Stop, created_line, kind_of_file, line_feed_count, migrate_text, run_check,
    run_command, run_mirror, version_text, write_out,
};
use hub_server::Endpoint;
use std::alloc::Global;
use sync_core::BookStore;

/// Creates a store without books in the file, closes it, and prints `made`.
fn run_init<S, P, L, M: Host<S, P, L>, W: Output>(
    host: &mut M,
    file: Text,
    writer: &mut W,
) -> Result<(), Stop>
    ensures done { OnOk result (LogsCalls M.calls host.old host.new
        (MakesStore file (W.contents writer.old) (W.contents writer.new))) }
    ensures stopped { IfErr result (λ stop. LogsCalls M.calls host.old host.new
        (StopsMaking file stop (W.contents writer.old) (W.contents writer.new))) }
    ensures flushed { Flushes W.contents W.flushed writer.old writer.new result }
{
    let books = host.create(file.as_str())?;
    host.close(books);
    write_out(writer, created_line().as_bytes())
}

/// Migrates the file to the current schema, and prints its number of books. The migration remains
/// if this can't be written.
fn run_migrate<S, P, L, M: Host<S, P, L>, W: Output>(
    alloc: Global,
    host: &mut M,
    file: Text,
    writer: &mut W,
) -> Result<(), Stop>
    ensures done { OnOk result (LogsCalls M.calls host.old host.new
        (MigratesFile file (W.contents writer.old) (W.contents writer.new))) }
    ensures stopped { IfErr result (λ stop. LogsCalls M.calls host.old host.new
        (StopsMigrating file stop (W.contents writer.old) (W.contents writer.new))) }
    ensures flushed { Flushes W.contents W.flushed writer.old writer.new result }
{
    let books = host.migrate_file(file.as_str())?;
    let text = migrate_text(alloc, books)?;
    write_out(writer, text.as_slice())
}

/// Checks the rows or the card of a file, as its name says, and prints what was found.
fn run_check_of<S, P, L, M: Host<S, P, L>, W: Output>(
    alloc: Global,
    host: &mut M,
    file: &str,
    writer: &mut W,
) -> Result<(), Stop>
    ensures done { OnOk result (LogsCalls M.calls host.old host.new
        (ChecksFile file.now (W.contents writer.old) (W.contents writer.new))) }
    ensures stopped { IfErr result (λ stop. LogsCalls M.calls host.old host.new
        (StopsChecking file.now stop (W.contents writer.old) (W.contents writer.new))) }
    ensures flushed { Flushes W.contents W.flushed writer.old writer.new result }
{
    let octets = host.read_rows(alloc, file)?;
    run_check(alloc, kind_of_file(file), octets.as_slice(), writer)
}

/// Imports a file of rows into a book of the store, and prints the counts.
fn import_rows<S: BookStore, P, L, M: Host<S, P, L>, W: Output>(
    alloc: Global,
    host: &mut M,
    store: &mut S,
    book: Text,
    key: Text,
    csv: &str,
    writer: &mut W,
) -> Result<(), Stop>
    ensures done { OnOk result (LogsCalls M.calls host.old host.new
        (ImportsRows S.model store.old book key csv.now
        (W.contents writer.old) (W.contents writer.new) store.new)) }
    ensures stopped { IfErr result (λ stop. LogsCalls M.calls host.old host.new (λ log.
        StopsReadingRows S.model store.old csv.now stop
        (W.contents writer.old) (W.contents writer.new) store.new log
        ⊎ StopsOnImport S.model store.old book key csv.now stop
        (W.contents writer.old) (W.contents writer.new) store.new log)) }
    ensures flushed { Flushes W.contents W.flushed writer.old writer.new result }
{
    let body = host.read_rows(alloc, csv)?;
    let lines = line_feed_count(body.as_slice());
    let command = Command::Import { book, key, body };
    run_import(alloc, &*host, store, &command, lines, writer)
}

/// Does an order's work on a store, and prints the result.
fn do_store_work<S: AdminStore, P, L, M: Host<S, P, L>, W: Output>(
    alloc: Global,
    host: &mut M,
    store: &mut S,
    work: StoreWork,
    writer: &mut W,
) -> Result<(), Stop>
    ensures done { OnOk result (LogsCalls M.calls host.old host.new
        (DoesStoreWork S.model store.old work
        (W.contents writer.old) (W.contents writer.new) store.new)) }
    ensures stopped { IfErr result (λ stop. LogsCalls M.calls host.old host.new
        (StopsStoreWork S.model store.old work stop
        (W.contents writer.old) (W.contents writer.new) store.new)) }
    ensures flushed { Flushes W.contents W.flushed writer.old writer.new result }
{
    match work {
        StoreWork::Perform(command) => run_command(alloc, store, &command, writer),
        StoreWork::ImportFile { book, key, csv } => {
            import_rows(alloc, host, store, book, key, csv.as_str(), writer)
        }
        StoreWork::MirrorBook { book, limit, pages } => {
            run_mirror(alloc, store, book.as_str(), limit, pages, writer)
        }
        StoreWork::ExportCards { book, is_older } => {
            run_card_export(alloc, store, book.as_str(), is_older, writer)
        }
        StoreWork::ListBooks(what) => run_listing(alloc, store, what, writer),
        StoreWork::Resync { pairs } => run_resync(alloc, store, pairs, writer),
    }
}

/// Does an order's work on the store in the file, which is opened first, and closed last.
fn use_file<S: AdminStore, P, L, M: Host<S, P, L>, W: Output>(
    alloc: Global,
    host: &mut M,
    file: Text,
    work: StoreWork,
    writer: &mut W,
) -> Result<(), Stop>
    ensures done { OnOk result (LogsCalls M.calls host.old host.new
        (DoesInFile S.model file work (W.contents writer.old) (W.contents writer.new))) }
    ensures stopped { IfErr result (λ stop. LogsCalls M.calls host.old host.new
        (StopsInFile S.model file work stop (W.contents writer.old) (W.contents writer.new))) }
    ensures flushed { Flushes W.contents W.flushed writer.old writer.new result }
{
    let mut store = open_watched(alloc, host, file.as_str())?;
    let done = do_store_work(alloc, host, &mut store, work, writer);
    host.close(store);
    done
}

/// Does an order's work on a host, and prints its output.
fn do_work<S: AdminStore + Drop, P: Endpoint, L: Listener + Drop, M: Host<S, P, L>, W: Output>(
    alloc: Global,
    host: &mut M,
    work: Work,
    writer: &mut W,
) -> Result<(), Stop>
    ensures done { OnOk result (LogsCalls M.calls host.old host.new
        (DoesWork S.model M.Front.answers P.calls L.Stream.model L.coming work
        (W.contents writer.old) (W.contents writer.new))) }
    ensures stopped { IfErr result (λ stop. LogsCalls M.calls host.old host.new
        (StopsWork S.model M.Front.answers P.calls L.Stream.model L.coming work stop
        (W.contents writer.old) (W.contents writer.new))) }
    ensures flushed { Flushes W.contents W.flushed writer.old writer.new result }
{
    match work {
        Work::Nothing => Err(Stop::Device),
        Work::PrintVersion => write_out(writer, version_text().as_bytes()),
        Work::CheckFile { file } => run_check_of(alloc, host, file.as_str(), writer),
        Work::CreateFile { file } => run_init(host, file, writer),
        Work::MigrateFile { file } => run_migrate(alloc, host, file, writer),
        Work::CopyFile {
            file,
            target,
            without,
        } => run_copy(alloc, host, file, target, without, writer),
        Work::RestoreFile {
            backup,
            file,
            pairs,
        } => run_restore(alloc, host, backup, file, pairs, writer),
        Work::VerifyFile { file } => run_verify(alloc, host, file, writer),
        Work::ServeFile {
            file,
            port,
            connections,
        } => run_serve(alloc, host, file, port, connections, writer),
        Work::RunFile {
            file,
            creates,
            names,
            address,
            limits,
            is_logged,
            site,
        } => run_file(
            alloc, host, file, creates, names, address, limits, is_logged, site, writer,
        ),
        Work::UseFile { file, work } => use_file(alloc, host, file, work, writer),
    }
}

/// Runs an order on a host and prints its output. It opens the file, then reads the rows or binds
/// the port, then performs the order, and writes the output last; but the line that announces the
/// port is written before the first connection is accepted.
///
/// `Open` if the file can't be opened as a store of books; `Device` if the file of rows or the file
/// to check can't be read or has more than 8,388,608 octets, if the port can't be bound, if waiting
/// or accepting fails, or if the writer fails; `Memory` if an allocation fails, while connections
/// are served only before the first is accepted; `Serve` if one of the connections that `serve`
/// served one after another was aborted. Changes that were made remain if the output can't be
/// written. The stop for a faulty file is its refusal. `Device` for `Try`, which needs standard
/// input, and for `Convert`, which needs files of another kind (`cli_convert` runs it).
pub fn run_on_host<
    S: AdminStore + Drop,
    P: Endpoint,
    L: Listener + Drop,
    M: Host<S, P, L>,
    W: Output,
>(alloc: Global, host: &mut M, order: Order, writer: &mut W) -> Result<(), Stop>
    // The whole log of calls that were made of the host is that of the order.
    ensures done { OnOk result (LogsCalls M.calls host.old host.new
        (RunsOnHost S.model M.Front.answers P.calls L.Stream.model L.coming order
        (W.contents writer.old) (W.contents writer.new))) }
    ensures stopped { IfErr result (λ stop. LogsCalls M.calls host.old host.new
        (StopsOnHost S.model M.Front.answers P.calls L.Stream.model L.coming order stop
        (W.contents writer.old) (W.contents writer.new))) }

    // Nothing is written on a refusal, on a fault, or if the file can't be opened. But the order
    // `run` may have announced its port before memory ran out, the order to check a file has
    // written why it refuses the file, and the order to verify one which row is at fault.
    ensures output_kept { IfErr result (λ stop.
        KeepsOrderOutput order stop (W.contents writer.old) (W.contents writer.new)) }
    ensures flushed { Flushes W.contents W.flushed writer.old writer.new result }
{
    do_work(alloc, host, work_of(order), writer)
}
