//! The words for why an order stopped, and which order helps.
ghost use Rattle.std.specs.Prelude.{◌≡◌};
ghost use Rattle.cli_orders.specs.StopWords.{damage_advice, device_words, open_advice, open_words};
ghost use Rattle.cli_orders.specs.StopWords.{other_words, refusal_advice, refusal_words};
ghost use Rattle.cli_orders.specs.StopWords.{schema_advice, schema_words, store_advice};
ghost use Rattle.cli_orders.specs.StopWords.{store_words};

use crate::advice::Advice;
use crate::found_cause::FoundCause;
use crate::order_names::OrderKind;
use store_schema::OpenFault;
use sync_core::Refusal;

/// Why a store file can't be used.
pub(crate) fn store_words(cause: FoundCause) -> &'static str
    ensures { result.now ≡ store_words cause }
{
    match cause {
        FoundCause::Missing => "there is no such file",
        FoundCause::NoFolder => "there is no folder for it; make that first",
        FoundCause::IsFolder => "it is a folder; name a file",
        FoundCause::NotPlain => "it isn't a plain file with one name",
        FoundCause::Denied => "you may not read and write it",
        FoundCause::FolderDenied => "you may not make files in its folder, where its log belongs",
        FoundCause::ReadOnly => "its disk is read-only",
        FoundCause::DiskFull => "its disk is full; make room",
        FoundCause::Taken => "another program has it open",
        FoundCause::HasJournal => "a journal of SQLite is beside it; open it with sqlite3 first",
        FoundCause::Damaged => "its pages are damaged, or sqlite3 wrote to it; restore a backup",
        _ => "its disk failed or is full, or what it holds can't be read",
    }
}

/// What a file of another schema is.
fn schema_words(has: i64) -> &'static str
    ensures { result.now ≡ schema_words has }
{
    if has > 2 {
        "a newer version of this program made it; use that one"
    } else if has < 2 {
        "it has an older schema"
    } else {
        "it has the current schema already"
    }
}

/// Why a file isn't opened as a store, or no store is made in it.
pub(crate) fn open_words(fault: OpenFault, cause: FoundCause) -> &'static str
    ensures { result.now ≡ open_words fault cause }
{
    match fault {
        OpenFault::Store => store_words(cause),
        OpenFault::NotOurs => "it isn't a file of this program, or its log isn't beside it",
        OpenFault::OtherSchema { has } => schema_words(has),
        OpenFault::Damaged => "it is damaged; restore a backup",
        OpenFault::NotEmpty => "something is there already; nothing was changed",
        OpenFault::Memory => "there isn't enough memory to open it",
    }
}

/// Which order helps if a store file can't be used.
fn store_advice(kind: OrderKind, cause: FoundCause) -> Advice
    ensures { result ≡ store_advice kind cause }
{
    match cause {
        FoundCause::Missing => match kind {
            OrderKind::Run => Advice::RunWithCreate,
            OrderKind::Serve | OrderKind::Import | OrderKind::Other => Advice::InitFile,
            _ => Advice::Nothing,
        },
        _ => Advice::Nothing,
    }
}

/// Which order helps if a row isn't well formed: `verify` has said what it found.
fn damage_advice(kind: OrderKind) -> Advice
    ensures { result ≡ damage_advice kind }
{
    match kind {
        OrderKind::Verify => Advice::Nothing,
        _ => Advice::VerifyFile,
    }
}

/// Which order helps with a file of another schema.
fn schema_advice(has: i64) -> Advice
    ensures { result ≡ schema_advice has }
{
    if has < 2 {
        Advice::MigrateFile
    } else {
        Advice::Nothing
    }
}

/// Which order helps if a file isn't opened.
pub(crate) fn open_advice(kind: OrderKind, fault: OpenFault, cause: FoundCause) -> Advice
    ensures { result ≡ open_advice kind fault cause }
{
    match fault {
        OpenFault::Store => store_advice(kind, cause),
        OpenFault::OtherSchema { has } => schema_advice(has),
        OpenFault::Damaged => damage_advice(kind),
        OpenFault::NotOurs | OpenFault::NotEmpty | OpenFault::Memory => Advice::Nothing,
    }
}

/// Why a file that is no store can't be used, or a socket.
pub(crate) fn other_words(cause: FoundCause) -> &'static str
    ensures { result.now ≡ other_words cause }
{
    match cause {
        FoundCause::Missing => "there is no such file",
        FoundCause::IsFolder => "it is a folder; name a file",
        FoundCause::Denied => "you may not read it",
        FoundCause::TooLong => "it has more than 8,388,608 octets; make several files of it",
        FoundCause::NoFolder => "there is no folder for it; make that first",
        FoundCause::FolderDenied => "you may not make files in its folder",
        FoundCause::SocketTaken => "another program listens there",
        FoundCause::LongPath => "a socket's path has at most 107 octets; name a shorter one",
        FoundCause::NotSocket => "something else is there; move it away, or name another path",
        _ => "it can't be read",
    }
}

/// What else than a file or a port can't be used.
pub(crate) fn device_words(kind: OrderKind) -> &'static str
    ensures { result.now ≡ device_words kind }
{
    match kind {
        OrderKind::Try => "standard input can't be read, or standard output can't be written",
        OrderKind::Serve | OrderKind::Run => {
            "standard output can't be written, or waiting for connections failed"
        }
        OrderKind::Restore => {
            "the system refuses to write or to rename a file, or to write standard output"
        }
        _ => "standard output can't be written",
    }
}

/// Why the books don't allow what was asked.
pub(crate) fn refusal_words(refusal: Refusal) -> &'static str
    ensures { result.now ≡ refusal_words refusal }
{
    match refusal {
        Refusal::NoSuchBook => "there is no such book",
        Refusal::BookExists => "there is a book of this name already",
        Refusal::BadBookName => "a book's name is 1 to 40 of a to z, 0 to 9 and the hyphen",
        Refusal::NoSuchCard => "there is no card with this UID in the book",
        Refusal::BadCard(_) => "the card isn't accepted",
        Refusal::UidMismatch => "the UID isn't that of the card",
        Refusal::VersionMismatch { .. } => "the card has another version",
        Refusal::UidTaken => "the other book has a card with this UID",
        Refusal::SameBook => "both books are the same",
        Refusal::BadToken(_) => "the sync token isn't accepted",
        Refusal::BadLimit => "the limit may not be 0",
        Refusal::BookFull => "the book would have more cards than it may",
        Refusal::ChangesSpent => "the book would have more changes than it may",
        Refusal::BadImport { .. } => "a row isn't accepted",
        Refusal::BadKey => "a key is 1 to 64 of A to Z, a to z, 0 to 9, dot, underscore and hyphen",
        Refusal::BadForget => "the number is below the book's horizon or above its last change",
        Refusal::NotGroup => "the card isn't a group's",
        Refusal::TooManyBooks => "it has as many books as it may",
    }
}

/// Which order helps after a refusal.
pub(crate) fn refusal_advice(refusal: Refusal) -> Advice
    ensures { result ≡ refusal_advice refusal }
{
    match refusal {
        Refusal::NoSuchBook => Advice::ListBooks,
        _ => Advice::Nothing,
    }
}
