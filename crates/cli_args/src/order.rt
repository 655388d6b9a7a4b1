//! The orders of the program.

use base_types::{Items, Text};
use csv_cards::Form;

/// An order of the command line, with its arguments.
#[derive(Drop)]
pub enum Order {
    /// Put one card from standard input into an empty book, and print the initial report.
    Try,
    /// Create a store file without books.
    Init {
        /// The path of a new or empty file.
        file: Text,
    },
    /// Create an empty book.
    Book {
        /// The path of a store file.
        file: Text,
        /// The new book's name.
        book: Text,
    },
    /// Serve the books over HTTP to one connection after another.
    Serve {
        /// The path of a store file.
        file: Text,
        /// The port to listen on; 0 for any free port.
        port: u16,
        /// The number of connections to serve, 1 to 1,000,000.
        connections: u64,
    },
    /// Serve the books over HTTP to many connections at once, until the program is stopped.
    Run {
        /// The path of a store file.
        file: Text,
        /// The port to listen on; 0 for any free port; 8080 if it wasn't given.
        port: u16,
        /// The path of a Unix socket to listen at in place of the port, if it was given.
        socket: Option<Text>,
        /// The names that a request's Host may have, beside those of the loopback.
        names: Items<Text>,
        /// The maximum number of connections open at once, 1 to 1,000; 256 if it wasn't given.
        max_open: u64,
        /// The seconds that a connection may be silent, and that a request may take, but for one
        /// more for each 4,096 octets of it, 1 to 3,600; 60 if it wasn't given.
        idle_timeout: u64,
        /// The MiB that all connections together may hold of long requests and replies, 16 to
        /// 1,024; 64 if it wasn't given.
        max_held: u64,
        /// Whether the file is created if it isn't there.
        creates: bool,
        /// Whether a line is printed on standard error for each request.
        is_logged: bool,
        /// The folder of a site that is served beside the books, if it was given.
        site: Option<Text>,
    },
    /// Import cards from a CSV file.
    Import {
        /// The path of a store file.
        file: Text,
        /// The name of the target book.
        book: Text,
        /// The import's key, which makes it idempotent.
        key: Text,
        /// The path of a CSV file.
        csv: Text,
    },
    /// Print the book's cards as CSV.
    Export {
        /// The path of a store file.
        file: Text,
        /// The book's name.
        book: Text,
        /// The form of the rows.
        form: Form,
    },
    /// Print the book's cards as vCards.
    ExportCards {
        /// The path of a store file.
        file: Text,
        /// The book's name.
        book: Text,
        /// Whether they are written as vCard 3.0, and not 4.0.
        is_older: bool,
    },
    /// Print the book's statistics.
    Tally {
        /// The path of a store file.
        file: Text,
        /// The book's name.
        book: Text,
    },
    /// Drop tombstones and raise the horizon.
    Forget {
        /// The path of a store file.
        file: Text,
        /// The book's name.
        book: Text,
        /// The new horizon, at most 999,999,999,999,999.
        upto: u64,
    },
    /// Copy the book to a new device and print the copy.
    Mirror {
        /// The path of a store file.
        file: Text,
        /// The book's name.
        book: Text,
        /// The maximum number of entries in a page, at most 999,999,999,999,999.
        limit: u64,
        /// The maximum number of pages, 1 to 1,000,000.
        pages: u64,
    },
    /// List the people in a group and its nested groups.
    Expand {
        /// The path of a store file.
        file: Text,
        /// The book's name.
        book: Text,
        /// The group's UID.
        uid: Text,
    },
    /// Migrate a store file from schema 1 to schema 2.
    Migrate {
        /// The path of a store file of schema 1.
        file: Text,
    },
    /// Copy the books of a store file into a new file.
    Copy {
        /// The path of a store file.
        file: Text,
        /// The path of the new file.
        target: Text,
        /// The names of the books that are left out.
        without: Items<Text>,
    },
    /// Put a copy back in place of a store file, and make every device start again.
    Restore {
        /// The path of the copy.
        backup: Text,
        /// The path of the store file.
        file: Text,
        /// Half of the numbers that each book takes, 1 to 500,000,000.
        pairs: u64,
    },
    /// Make every device start again, after the file was put back from a copy.
    Resync {
        /// The path of a store file.
        file: Text,
        /// Half of the numbers that each book takes, 1 to 500,000,000.
        pairs: u64,
    },
    /// Check a CSV file or a card, without a store.
    Check {
        /// The path of a file with rows, or with one card if its name ends in `.vcf`.
        file: Text,
    },
    /// Convert files of cards to rows or to files, without a store.
    Convert {
        /// The path of the first file.
        file: Text,
        /// The paths of the files after it.
        more: Items<Text>,
        /// The folder for the files that are written, if it was given.
        folder: Option<Text>,
        /// The maximum number of rows of a file, 1 to 10,000, if it was given.
        rows: Option<u64>,
        /// The maximum number of octets of a file of rows, 1 to 8,388,608, if it was given.
        octets: Option<u64>,
        /// Whether the day comes first in dates with slashes.
        day_first: bool,
        /// Whether the month comes first in them. Both aren't given.
        month_first: bool,
        /// What the columns of a spreadsheet become, if it was given.
        columns: Option<Text>,
        /// The name of the file's character set, if it was given.
        charset: Option<Text>,
        /// The path of a new file for the report, if it was given.
        report: Option<Text>,
        /// The folder for photos that cards are carried without, if it was given.
        photos: Option<Text>,
    },
    /// List the books.
    Books {
        /// The path of a store file.
        file: Text,
    },
    /// Test the whole store file, and list its books or print the row at fault.
    Verify {
        /// The path of a store file.
        file: Text,
    },
    /// Print the program's version.
    Version,
}
