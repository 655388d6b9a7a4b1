//! The outputs that are one line.
ghost use Rattle.std.specs.Prelude.{◌≡◌, IfOk};
ghost use Rattle.cli_orders.specs.OrderOutputs.{book_output, copy_output, forget_output};
ghost use Rattle.cli_orders.specs.OrderOutputs.{import_output, made_output, migrate_output};
ghost use Rattle.cli_orders.specs.OrderOutputs.{resync_output};

use std::alloc::Global;
use sync_core::ImportTally;
use vcard_text::NoMemory;

/// The output of `init`: `made`.
pub fn created_line() -> &'static str
    ensures { result.now ≡ made_output }
{
    "made\n"
}

/// The output of `book` for a new book with this id, such as `book 1`.
pub fn book_text(alloc: Global, id: u64) -> Result<Vec<u8>, NoMemory>
    ensures { IfOk result (λ text. text.items ≡ book_output id) }
{
    Ok(format!(in alloc; "book {id}\n")?.into_bytes())
}

/// The output of `import`, such as `new 3 edited 0 same 0 number 5`.
pub fn imported_text(alloc: Global, tally: &ImportTally) -> Result<Vec<u8>, NoMemory>
    ensures { IfOk result (λ text. text.items ≡ import_output tally.now) }
{
    let ImportTally {
        added,
        edited,
        same,
        number,
    } = *tally;
    Ok(format!(in alloc; "new {added} edited {edited} same {same} number {number}\n")?.into_bytes())
}

/// The output of `forget`, such as `dropped 1 horizon 5`.
pub fn forget_text(alloc: Global, dropped: u64, horizon: u64) -> Result<Vec<u8>, NoMemory>
    ensures { IfOk result (λ text. text.items ≡ forget_output dropped horizon) }
{
    Ok(format!(in alloc; "dropped {dropped} horizon {horizon}\n")?.into_bytes())
}

/// The output of `migrate` for a file with this number of books, such as `migrated 2`.
pub fn migrate_text(alloc: Global, books: u64) -> Result<Vec<u8>, NoMemory>
    ensures { IfOk result (λ text. text.items ≡ migrate_output books) }
{
    Ok(format!(in alloc; "migrated {books}\n")?.into_bytes())
}

/// The output of `copy` for a file with this number of books, such as `copied 2`.
pub fn copy_text(alloc: Global, books: u64) -> Result<Vec<u8>, NoMemory>
    ensures { IfOk result (λ text. text.items ≡ copy_output books) }
{
    Ok(format!(in alloc; "copied {books}\n")?.into_bytes())
}

/// The output of `resync` for a file with this number of books, such as `resynced 2`.
pub fn resync_text(alloc: Global, books: u64) -> Result<Vec<u8>, NoMemory>
    ensures { IfOk result (λ text. text.items ≡ resync_output books) }
{
    Ok(format!(in alloc; "resynced {books}\n")?.into_bytes())
}
