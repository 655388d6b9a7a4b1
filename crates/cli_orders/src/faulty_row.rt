//! The output of `verify` for a damaged file.
ghost use Rattle.std.specs.Prelude.{◌≡◌, ◌⊎◌, ◌++◌, IfOk, OnOk};
ghost use Rattle.cli_orders.specs.FaultyRows.{ReportsDamage, book_word, damage_text, fault_words};
ghost use Rattle.cli_orders.specs.FaultyRows.{faulty_row_line, labelled, row_label, table_word};
ghost use Rattle.cli_orders.specs.Outputs.{LeavesFlushed};
ghost use Rattle.cli_orders.specs.declared.stop.Stop.TheVariants.{Device};

use crate::output::Output;
use crate::row_fault_words::row_fault_words;
use crate::stop::Stop;
use crate::writing::write_out;
use request_log::write_shown;
use std::alloc::Global;
use store_check::faults::{FaultyRow, RowFault};
use store_schema::OpenFault;
use vcard_text::NoMemory;

/// The most octets of a name, a UID or a key that are printed.
const LABEL_OCTETS_MAX: usize = 255;

/// What the row is.
fn table_word(fault: RowFault) -> &'static str
    ensures { result.now ≡ table_word fault }
{
    match fault {
        RowFault::Book(_) => "book",
        RowFault::Member(_) => "member",
        RowFault::Import(_) => "import",
        RowFault::Keep(_) => "keep",
    }
}

/// What comes before the name of the row's book.
fn book_word(fault: RowFault) -> &'static str
    ensures { result.now ≡ book_word fault }
{
    match fault {
        RowFault::Book(_) => " ",
        RowFault::Member(_) | RowFault::Import(_) | RowFault::Keep(_) => " of ",
    }
}

/// Appends the word and the label, unless the label is empty.
fn write_label(out: &mut Vec<u8>, word: &str, label: &[u8]) -> Result<(), NoMemory>
    ensures { OnOk result (out.new.items ≡ out.old.items ++ labelled word.now label.now) }
{
    if label.is_empty() {
        return Ok(());
    }
    out.extend_from_slice(word.as_bytes())?;
    write_shown(out, label, LABEL_OCTETS_MAX)
}

/// Appends what the row is, its UID or key, and its book.
fn write_row_label(out: &mut Vec<u8>, row: &FaultyRow) -> Result<(), NoMemory>
    ensures { OnOk result (out.new.items ≡ out.old.items ++ row_label row.now) }
{
    out.extend_from_slice(table_word(row.fault).as_bytes())?;
    write_label(out, " ", row.key.as_slice())?;
    write_label(out, book_word(row.fault), row.book.as_slice())
}

/// Appends the row id, and what is wrong with the row.
fn write_fault_words(out: &mut Vec<u8>, row: &FaultyRow) -> Result<(), NoMemory>
    ensures { OnOk result (out.new.items ≡ out.old.items ++ fault_words row.now) }
{
    let alloc = *out.allocator();
    let id = row.row;
    let words = row_fault_words(row.fault);
    let text = format!(in alloc; " (row {id}): {words}\n")?;
    out.extend_from_slice(text.as_bytes())?;
    Ok(())
}

/// Appends the line of a row.
fn write_faulty_row(out: &mut Vec<u8>, row: &FaultyRow) -> Result<(), NoMemory>
    ensures { OnOk result (out.new.items ≡ out.old.items ++ faulty_row_line row.now) }
{
    write_row_label(out, row)?;
    write_fault_words(out, row)
}

/// The text for what the search of a damaged file found: for example
/// `member u7 of book2 (row 208): the card isn't a card's canonical text`. Empty if nothing was
/// found.
fn damage_text(
    alloc: Global,
    found: Result<Option<FaultyRow>, OpenFault>,
) -> Result<Vec<u8>, NoMemory>
    ensures { IfOk result (λ text. text.items ≡ damage_text found) }
{
    let mut out = Vec::new(alloc);
    match found {
        Ok(Some(row)) => write_faulty_row(&mut out, &row)?,
        Err(OpenFault::Damaged) => {
            out.extend_from_slice(b"a row breaks the declaration of its table\n")?;
        }
        Ok(None) | Err(_) => {}
    }
    Ok(out)
}

/// Prints which row of a damaged file is at fault, and why, as far as the search found it. Returns
/// why the file can't be used: it is damaged.
///
/// The names, UIDs and keys are cut after 255 octets. Octets that aren't visible ASCII characters
/// are escaped, and so is the backslash. Returns `Memory` instead if an allocation fails, and
/// `Device` if the writer fails.
pub fn report_damage<W: Output>(
    alloc: Global,
    found: Result<Option<FaultyRow>, OpenFault>,
    writer: &mut W,
) -> Stop
    ensures reported { ReportsDamage found result (W.contents writer.old) (W.contents writer.new) }
    ensures flushed { (result ≡ Device) ⊎ LeavesFlushed W.contents W.flushed writer.old writer.new }
{
    let text = match damage_text(alloc, found) {
        Ok(text) => text,
        Err(NoMemory) => return Stop::out_of_memory(),
    };
    match write_out(writer, text.as_slice()) {
        Ok(()) => Stop::Open(OpenFault::Damaged),
        Err(stop) => stop,
    }
}
