//! What a sentence says to do next.
ghost use Rattle.std.specs.Prelude.{◌≡◌, IfOk, string_bytes};
ghost use Rattle.cli_orders.specs.Advice.{advice_words};

use base_types::NoMemory;
use std::alloc::Global;

/// What to do about a stop: an order that helps.
#[derive(Clone, Copy)]
pub(crate) enum Advice {
    /// Nothing in particular.
    Nothing,
    /// Make the file with `init`.
    InitFile,
    /// Make the file with `run --create`.
    RunWithCreate,
    /// Convert the file to the current schema.
    MigrateFile,
    /// Look for the row at fault.
    VerifyFile,
    /// List the books of the file.
    ListBooks,
    /// Check a file of rows.
    CheckFile,
    /// Convert cards to rows.
    ConvertFile,
}

/// The words for an advice about the file of this name: for example
/// `; contacts init office.db makes one`.
pub(crate) fn advice_text(alloc: Global, advice: Advice, name: &str) -> Result<String, NoMemory>
    ensures { IfOk result (λ text. string_bytes text ≡ advice_words advice name.now) }
{
    let text = match advice {
        Advice::Nothing => String::new(alloc),
        Advice::InitFile => format!(in alloc; "; contacts init {name} makes one")?,
        Advice::RunWithCreate => format!(in alloc; "; contacts run {name} --create makes it")?,
        Advice::MigrateFile => format!(in alloc; "; back it up, then run contacts migrate {name}")?,
        Advice::VerifyFile => format!(in alloc; "; contacts verify {name} names the row")?,
        Advice::ListBooks => format!(in alloc; "; contacts books {name} lists them")?,
        Advice::CheckFile => format!(in alloc; "; contacts check {name} tells more")?,
        Advice::ConvertFile => format!(in alloc; "; contacts convert {name} makes rows of it")?,
    };
    Ok(text)
}
