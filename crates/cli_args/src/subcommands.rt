//! The command line for `clap`: the orders, their arguments and options, and the help texts.
ghost use Rattle.std.specs.Prelude.{[], ◌≡◌, ◌∷◌, ◌++◌, IfOk, List};
ghost use Rattle.clap.specs.Simple.{Shape};
ghost use Rattle.clap.specs.Words.{Rule, app_of};
ghost use Rattle.cli_args.specs.Subcommands as lines;
ghost use Rattle.cli_args.specs.Subcommands.{AreOrderCommands, AreArguments, IsArgument};
ghost use Rattle.cli_args.specs.Subcommands.{IsOrderCommand};

use crate::arguments::{
    argument, book_arg, file_arg, flag, free_option, number_arg, number_option, repeated_option,
    site_option, switch,
};
use crate::backup_orders::{copy_command, restore_command, resync_command};
use crate::convert_command::convert_command;
use crate::export_command::export_command;
use clap::{Arg, Command};
use std::alloc::{AllocError, Global};

/// The largest number on the command line, unless an argument has a smaller limit.
const MOST_NUMBER: u64 = 999_999_999_999_999;

/// An order with its arguments, description and example.
pub(crate) fn order_command<'a>(
    alloc: Global,
    name: &'a str,
    about: &'a str,
    example: &'a str,
    words: Vec<Arg<'a>>,
) -> Result<Command<'a>, AllocError>
    ensures { (rules : List Rule) → AreArguments rules words.entry.items
        → IfOk result (IsOrderCommand (lines.order_command name.entry.now rules)) }
{
    Command::new(alloc, name)
        .about(about)
        .after_help(example)
        .args(words)
}

fn try_command<'a>(alloc: Global) -> Result<Command<'a>, AllocError>
    ensures { IfOk result (IsOrderCommand lines.try_command) }
{
    order_command(
        alloc,
        "try",
        "Read a vCard from standard input, add it to an empty book in memory, and print the book's \
         initial report",
        "Example:\n  contacts try < ann.vcf\n\nA card may have up to 262,144 octets, and its UID 1 \
         to 255 octets.",
        Vec::new(alloc),
    )
}

fn init_command<'a>(alloc: Global) -> Result<Command<'a>, AllocError>
    ensures { IfOk result (IsOrderCommand lines.init_command) }
{
    order_command(
        alloc,
        "init",
        "Create a store file; an existing file must be empty",
        "Example:\n  contacts init office.db\n\nA store may have up to 100 books.",
        Vec::from_array(alloc, [file_arg(alloc)])?,
    )
}

fn book_command<'a>(alloc: Global) -> Result<Command<'a>, AllocError>
    ensures { IfOk result (IsOrderCommand lines.book_command) }
{
    order_command(
        alloc,
        "book",
        "Create an empty book and print its id",
        "Example:\n  contacts book office.db staff\n\nA store may have up to 100 books, and a book \
         up to 10,000 cards.",
        Vec::from_array(alloc, [file_arg(alloc), book_arg(alloc)])?,
    )
}

/// The option `--port`.
fn port_option<'a>(alloc: Global, default: &'a str) -> Arg<'a>
    ensures { IsArgument (lines.port_option default.entry.now) result }
{
    number_option(
        alloc,
        "P",
        "port",
        0,
        65_535,
        default,
        "Port to listen on, 0 to 65535; 0 picks a free port",
    )
}

fn serve_command<'a>(alloc: Global) -> Result<Command<'a>, AllocError>
    ensures { IfOk result (IsOrderCommand lines.serve_command) }
{
    let connections = number_option(
        alloc,
        "N",
        "connections",
        1,
        1_000_000,
        "1",
        "Number of connections to serve before exiting, 1 to 1000000",
    );
    order_command(
        alloc,
        "serve",
        "Serve one connection after another over HTTP on 127.0.0.1",
        "Example:\n  contacts serve office.db --port 8080 --connections 2\n\nFor scripts and \
         tests: it waits for each client, checks no Host, and ends after the last connection. To \
         serve an office, use `run`.\n\nPrints the address and port before accepting connections. \
         A request body may have up to 8,388,608 octets.",
        Vec::from_array(
            alloc,
            [file_arg(alloc), port_option(alloc, "0"), connections],
        )?,
    )
}

fn socket_option<'a>(alloc: Global) -> Arg<'a>
    ensures { IsArgument lines.socket_option result }
{
    free_option(
        alloc,
        "PATH",
        "socket",
        "Unix socket to listen at in place of a port; its owner and its group may connect",
    )
}

fn host_option<'a>(alloc: Global) -> Arg<'a>
    ensures { IsArgument lines.host_option result }
{
    repeated_option(
        alloc,
        "NAME",
        "host",
        "A name of this server, which requests may have in their Host field; 127.0.0.1, localhost \
         and [::1] are always allowed. May be given more than once",
    )
}

fn max_open_option<'a>(alloc: Global) -> Arg<'a>
    ensures { IsArgument lines.max_open_option result }
{
    number_option(
        alloc,
        "M",
        "max-open",
        1,
        1_000,
        "256",
        "Maximum number of connections open at once, 1 to 1000",
    )
}

fn idle_timeout_option<'a>(alloc: Global) -> Arg<'a>
    ensures { IsArgument lines.idle_timeout_option result }
{
    number_option(
        alloc,
        "S",
        "idle-timeout",
        1,
        3_600,
        "60",
        "Seconds after which a silent connection is closed, or one whose request isn't complete, 1 \
         to 3600; a long request has one more for each 4096 octets",
    )
}

fn max_held_option<'a>(alloc: Global) -> Arg<'a>
    ensures { IsArgument lines.max_held_option result }
{
    number_option(
        alloc,
        "MIB",
        "max-held",
        16,
        1_024,
        "64",
        "Maximum memory for long requests and replies that are on their way, in MiB, 16 to 1024; \
         one by itself may have more",
    )
}

fn create_switch<'a>(alloc: Global) -> Arg<'a>
    ensures { IsArgument lines.create_switch result }
{
    switch(
        alloc,
        "create",
        "create",
        "Create the file if it isn't there",
    )
}

fn log_switch<'a>(alloc: Global) -> Arg<'a>
    ensures { IsArgument lines.log_switch result }
{
    switch(
        alloc,
        "log",
        "log",
        "Print a line for each request on standard error when it is answered",
    )
}

fn run_command<'a>(alloc: Global) -> Result<Command<'a>, AllocError>
    ensures { IfOk result (IsOrderCommand lines.run_command) }
{
    order_command(
        alloc,
        "run",
        "Serve the books over HTTP on 127.0.0.1, or at a Unix socket, until it is stopped",
        "Example:\n  contacts run office.db --create\n\nPrints where it listens before accepting \
         connections. A request is refused if its Host is none of the server's names, if \
         a page of another site sends a change, or if a change has a precondition such as \
         If-Match. A request body may have up to 8,388,608 octets.",
        Vec::from_array(
            alloc,
            [
                file_arg(alloc),
                port_option(alloc, "8080"),
                socket_option(alloc),
                host_option(alloc),
                max_open_option(alloc),
                idle_timeout_option(alloc),
                max_held_option(alloc),
                create_switch(alloc),
                log_switch(alloc),
                site_option(alloc),
            ],
        )?,
    )
}

fn import_command<'a>(alloc: Global) -> Result<Command<'a>, AllocError>
    ensures { IfOk result (IsOrderCommand lines.import_command) }
{
    let key = argument(
        alloc,
        "KEY",
        "Import key, 1 to 64 characters of A-Z, a-z, 0-9, . _ -; repeating the key of a completed \
         import changes nothing and prints its result again",
    );
    let csv = argument(
        alloc,
        "CSV",
        "CSV file with a header row, up to 8,388,608 octets",
    );
    order_command(
        alloc,
        "import",
        "Import cards from a CSV file into a book",
        "Example:\n  contacts import office.db staff \"$(date +%F-%H%M%S)\" people.csv\n\nUse a \
         new key for each import: repeating a key imports nothing, and its output looks like that \
         of the first import.\n\nThe header row is `uid,vcard` for a UID and a vCard per row, or \
         `uid,fn,family,given,email,tel,org,note` for one property per column. Either all cards \
         are imported or none. A card may have up to 262,144 octets, and a book up to 10,000 \
         cards.",
        Vec::from_array(alloc, [file_arg(alloc), book_arg(alloc), key, csv])?,
    )
}

fn tally_command<'a>(alloc: Global) -> Result<Command<'a>, AllocError>
    ensures { IfOk result (IsOrderCommand lines.tally_command) }
{
    order_command(
        alloc,
        "tally",
        "Print how many cards a book has, and counts of its changes by kind",
        "Example:\n  contacts tally office.db staff",
        Vec::from_array(alloc, [file_arg(alloc), book_arg(alloc)])?,
    )
}

fn forget_command<'a>(alloc: Global) -> Result<Command<'a>, AllocError>
    ensures { IfOk result (IsOrderCommand lines.forget_command) }
{
    let upto = number_arg(
        alloc,
        "UPTO",
        0,
        MOST_NUMBER,
        "Number of the last change to forget, 0 to 999999999999999",
    );
    order_command(
        alloc,
        "forget",
        "Forget the removals recorded in a book up to a change number",
        "Example:\n  contacts forget office.db staff 100\n\nUPTO must be from the book's horizon \
         to its number; `contacts tally` prints both. Devices with an older sync token must start \
         over with a full sync.",
        Vec::from_array(alloc, [file_arg(alloc), book_arg(alloc), upto])?,
    )
}

fn mirror_command<'a>(alloc: Global) -> Result<Command<'a>, AllocError>
    ensures { IfOk result (IsOrderCommand lines.mirror_command) }
{
    let limit = number_option(
        alloc,
        "L",
        "limit",
        0,
        MOST_NUMBER,
        "100",
        "Maximum entries per page, 0 to 999999999999999; a page never has more than 100, and 0 is \
         refused",
    );
    let pages = number_option(
        alloc,
        "P",
        "pages",
        1,
        1_000_000,
        "1000",
        "Maximum number of pages to request, 1 to 1000000",
    );
    order_command(
        alloc,
        "mirror",
        "Sync a book to a new device page by page, and print the device's copy",
        "Example:\n  contacts mirror office.db staff --limit 10 --pages 100",
        Vec::from_array(alloc, [file_arg(alloc), book_arg(alloc), limit, pages])?,
    )
}

fn expand_command<'a>(alloc: Global) -> Result<Command<'a>, AllocError>
    ensures { IfOk result (IsOrderCommand lines.expand_command) }
{
    let uid = argument(alloc, "UID", "UID of the group, 1 to 255 octets");
    order_command(
        alloc,
        "expand",
        "List the people in a group and in its nested groups",
        "Example:\n  contacts expand office.db staff choir",
        Vec::from_array(alloc, [file_arg(alloc), book_arg(alloc), uid])?,
    )
}

fn migrate_command<'a>(alloc: Global) -> Result<Command<'a>, AllocError>
    ensures { IfOk result (IsOrderCommand lines.migrate_command) }
{
    order_command(
        alloc,
        "migrate",
        "Convert a store file from schema 1 to schema 2, and print its number of books",
        "Example:\n  contacts migrate office.db",
        Vec::from_array(alloc, [file_arg(alloc)])?,
    )
}

fn check_command<'a>(alloc: Global) -> Result<Command<'a>, AllocError>
    ensures { IfOk result (IsOrderCommand lines.check_command) }
{
    let file = argument(
        alloc,
        "FILE",
        "CSV file with a header row, or a vCard if the name ends in `.vcf`, up to 8,388,608 octets",
    );
    order_command(
        alloc,
        "check",
        "Check a CSV file or a vCard, and print its number of rows or the first fault",
        "Example:\n  contacts check people.csv\n\nNeeds no store file. Row 0 is the header, and \
         row 1 the first row after it. A file with a fault is refused, with status 1.",
        Vec::from_array(alloc, [file])?,
    )
}

fn books_command<'a>(alloc: Global) -> Result<Command<'a>, AllocError>
    ensures { IfOk result (IsOrderCommand lines.books_command) }
{
    order_command(
        alloc,
        "books",
        "List the books with their ids, cards, numbers, horizons and keeps",
        "Example:\n  contacts books office.db",
        Vec::from_array(alloc, [file_arg(alloc)])?,
    )
}

fn verify_command<'a>(alloc: Global) -> Result<Command<'a>, AllocError>
    ensures { IfOk result (IsOrderCommand lines.verify_command) }
{
    order_command(
        alloc,
        "verify",
        "Test the whole store file, and list its books or print the row at fault",
        "Example:\n  contacts verify office.db\n\nTests what each command that uses the file tests \
         first: every row of the file. A damaged file ends with `fault open 4`.",
        Vec::from_array(alloc, [file_arg(alloc)])?,
    )
}

/// The orders with one more appended, if it could be built. (Building the list in one expression
/// would give the prover one path for each order whose allocation fails.)
fn with_command<'a>(
    lines: Vec<Command<'a>>,
    line: Result<Command<'a>, AllocError>,
) -> Result<Vec<Command<'a>>, AllocError>
    ensures { (shapes : List Shape) (shape : Shape) → AreOrderCommands shapes lines.entry.items
        → IfOk line.entry (IsOrderCommand shape)
        → IfOk result (λ made. AreOrderCommands (shapes ++ shape ∷ []) made.items) }
{
    let mut lines = lines;
    let line = line?;
    lines.push(line)?;
    Ok(lines)
}

/// All orders, in the sequence of the help text.
fn order_commands<'a>(alloc: Global) -> Result<Vec<Command<'a>>, AllocError>
    ensures { IfOk result (λ made. AreOrderCommands lines.order_commands made.items) }
{
    let lines = with_command(Vec::new(alloc), try_command(alloc))?;
    let lines = with_command(lines, init_command(alloc))?;
    let lines = with_command(lines, book_command(alloc))?;
    let lines = with_command(lines, run_command(alloc))?;
    let lines = with_command(lines, serve_command(alloc))?;
    let lines = with_command(lines, import_command(alloc))?;
    let lines = with_command(lines, export_command(alloc))?;
    let lines = with_command(lines, tally_command(alloc))?;
    let lines = with_command(lines, forget_command(alloc))?;
    let lines = with_command(lines, mirror_command(alloc))?;
    let lines = with_command(lines, expand_command(alloc))?;
    let lines = with_command(lines, migrate_command(alloc))?;
    let lines = with_command(lines, copy_command(alloc))?;
    let lines = with_command(lines, restore_command(alloc))?;
    let lines = with_command(lines, resync_command(alloc))?;
    let lines = with_command(lines, check_command(alloc))?;
    let lines = with_command(lines, convert_command(alloc))?;
    let lines = with_command(lines, books_command(alloc))?;
    with_command(lines, verify_command(alloc))
}

/// The flag that asks for the version.
fn version_flag<'a>(alloc: Global) -> Arg<'a>
    ensures { IsArgument lines.version_flag result }
{
    flag(
        alloc,
        "version",
        "version",
        'V',
        "Print the version of the program, of its files and of its toolchain",
    )
}

/// The whole command line after the program's name.
pub(crate) fn contacts_command<'a>(alloc: Global) -> Result<Command<'a>, AllocError>
    ensures { IfOk result (λ made. app_of made ≡ lines.contacts_command) }
{
    Command::new(alloc, "contacts")
        .about("Contact server that stores address books and syncs them to many devices")
        .after_help(
            "Start an office: run, init, book, serve.\n\
             Move in:         convert, check, import.\n\
             Look:            books, tally, export, mirror, expand, verify.\n\
             Keep:            copy, restore, resync, migrate, forget.\n\n\
             Without a command, `try` runs. `contacts help COMMAND` shows the arguments, defaults \
             and limits of a command.\n\nExample:\n  contacts tally office.db staff",
        )
        .no_binary_name(true)
        .bin_name("contacts")?
        .arg(version_flag(alloc))?
        .subcommands(order_commands(alloc)?)
}
