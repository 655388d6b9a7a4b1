//! What `check` finds in a file.
ghost use Rattle.std.specs.Prelude.{◌≡◌, IfOk, string_bytes};
ghost use Rattle.cli_orders.specs.Findings.{IsFound, finding_output};
ghost use Rattle.cli_orders.specs.Findings.{kind_of_file, names_card, verdict_of};

use crate::card_rows::line_in_row;
use crate::cause_words::CauseWords;
use crate::fault_line::line_of_fault;
use crate::hints::{cause_hint, fault_hint};
use crate::stop::Stop;
use csv_cards::{CsvCause, CsvFault, read_rows};
use std::alloc::Global;
use sync_core::Refusal;
use vcard_text::{CardFault, NoMemory, read_card};

/// What a file has.
#[derive(Clone, Copy)]
pub enum FileKind {
    /// Rows of cards as CSV, after a header.
    CsvRows,
    /// One vCard.
    OneCard,
}

/// What was found in a file.
#[derive(Clone, Copy)]
pub enum Finding {
    /// A header and this number of rows, each a card.
    Rows(u64),
    /// The first faulty row, and the line of its card if the fault is one of that line.
    BadRow(CsvFault, Option<u64>),
    /// One card.
    Card,
    /// The first fault of a text that isn't a card's, and its line if it is one of a line.
    BadCard(CardFault, Option<u64>),
}

/// Whether the name ends in `.vcf` or `.VCF`.
fn names_card(name: &str) -> bool
    ensures { result ≡ names_card name.now }
{
    name.ends_with(".vcf") || name.ends_with(".VCF")
}

/// The kind of a file with this name: a card if it ends in `.vcf` or `.VCF`, and rows otherwise.
pub fn kind_of_file(name: &str) -> FileKind
    ensures { result ≡ kind_of_file name.now }
{
    if names_card(name) {
        FileKind::OneCard
    } else {
        FileKind::CsvRows
    }
}

/// Looks for the first faulty row.
fn check_rows(alloc: Global, octets: &[u8]) -> Result<Finding, NoMemory>
    ensures { IfOk result (IsFound FileKind.CsvRows octets.now) }
{
    match read_rows(alloc, octets) {
        Ok(cards) => Ok(Finding::Rows(cards.len() as u64)),
        Err(fault) => match fault.cause {
            CsvCause::Memory => Err(NoMemory),
            _ => Ok(Finding::BadRow(fault, line_in_row(alloc, octets, fault)?)),
        },
    }
}

/// Looks for the first fault of a card.
fn check_card(alloc: Global, octets: &[u8]) -> Result<Finding, NoMemory>
    ensures { IfOk result (IsFound FileKind.OneCard octets.now) }
{
    match read_card(alloc, octets) {
        Ok(_card) => Ok(Finding::Card),
        Err(fault) => match fault {
            CardFault::Memory => Err(NoMemory),
            _ => Ok(Finding::BadCard(fault, line_of_fault(alloc, octets, fault)?)),
        },
    }
}

/// Looks for the first fault of a file of this kind.
pub(crate) fn check_octets(
    alloc: Global,
    file: FileKind,
    octets: &[u8],
) -> Result<Finding, NoMemory>
    ensures { IfOk result (IsFound file octets.now) }
{
    match file {
        FileKind::CsvRows => check_rows(alloc, octets),
        FileKind::OneCard => check_card(alloc, octets),
    }
}

/// The line for a card's first fault, with the number of its own line if it has one.
fn bad_card_text(alloc: Global, fault: CardFault, line: Option<u64>) -> Result<String, NoMemory>
    ensures { IfOk result (λ text.
        string_bytes text ≡ finding_output (Finding.BadCard fault line)) }
{
    let hint = fault_hint(fault);
    let text = match line {
        None => format!(in alloc; "card: {fault}{hint}\n")?,
        Some(line) => format!(in alloc; "card: line {line}: {fault}{hint}\n")?,
    };
    Ok(text)
}

/// The line for the first faulty row, with the number of the line in its card if it has one.
fn bad_row_text(alloc: Global, fault: CsvFault, line: Option<u64>) -> Result<String, NoMemory>
    ensures { IfOk result (λ text.
        string_bytes text ≡ finding_output (Finding.BadRow fault line)) }
{
    let row = fault.row;
    let words = CauseWords(fault.cause);
    let hint = cause_hint(fault.cause);
    let text = match line {
        None => format!(in alloc; "row {row}: {words}{hint}\n")?,
        Some(line) => format!(in alloc; "row {row}: line {line}: {words}{hint}\n")?,
    };
    Ok(text)
}

/// The line for what was found: for example `rows 2000`, `card`, `row 1500: the name is empty`,
/// `card: FN is missing`, or `card: line 2: the version isn't 4.0; try contacts convert`. The line
/// of a row's card follows the row, as in `row 3: line 5: a line isn't a property line`.
pub(crate) fn finding_text(alloc: Global, finding: Finding) -> Result<Vec<u8>, NoMemory>
    ensures { IfOk result (λ text. text.items ≡ finding_output finding) }
{
    let text = match finding {
        Finding::Rows(count) => format!(in alloc; "rows {count}\n")?,
        Finding::BadRow(fault, line) => bad_row_text(alloc, fault, line)?,
        Finding::Card => format!(in alloc; "card\n")?,
        Finding::BadCard(fault, line) => bad_card_text(alloc, fault, line)?,
    };
    Ok(text.into_bytes())
}

/// Whether a file in which this was found is accepted: `BadImport` for a faulty row, and `BadCard`
/// for a text that isn't a card's.
pub(crate) fn verdict_of(finding: Finding) -> Result<(), Stop>
    ensures { result ≡ verdict_of finding }
{
    match finding {
        Finding::Rows(_) | Finding::Card => Ok(()),
        Finding::BadRow(fault, _) => Err(Stop::Refused(Refusal::BadImport {
            row: fault.row,
            cause: fault.cause.number(),
        })),
        Finding::BadCard(fault, _) => Err(Stop::Refused(Refusal::BadCard(fault))),
    }
}
