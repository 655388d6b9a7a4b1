//! Converts the text of a part.
ghost use Rattle.std.specs.Prelude.{None, IfOk, IfSome};
ghost use Rattle.contact_csv.specs.Contacts.{IsReady};
ghost use Rattle.convert_posts.specs.Parts.{IsOfContacts, IsOfPieces};

use crate::part::CardRow;
use crate::row_list::{Origin, RowList};
use base_types::{Items, NoMemory};
use card_conversion::laws::written_cards_differ;
use card_conversion::{
    ConversionFault, Course, NoMedia, Report, Summary, convert_contacts_under, convert_more_cards,
    convert_more_exports,
};
use contact_csv::{AboveLine, ContactReader};
use csv_cards::ExportRows;
use std::alloc::Global;
use std::io;
use std::io::Read;

/// What became of the text of a part.
#[derive(Drop)]
pub(crate) struct Converted {
    pub(crate) summary: Summary,
    pub(crate) rows: Items<CardRow>,
    /// The report, as lines.
    pub(crate) report: Vec<u8>,
}

/// Whether the fault is out of memory. The report is kept in memory too.
fn is_memory(fault: &ConversionFault) -> bool {
    matches!(fault, ConversionFault::Memory | ConversionFault::Report)
}

/// Converts cards. `None` if the reader fails.
pub(crate) fn convert_pieces<R: Read + Drop>(
    alloc: Global,
    reader: R,
    origin: Origin,
    starts: &[u64],
) -> Result<Option<Converted>, NoMemory>
    ensures { IfOk result (λ done. IfSome done (λ it.
        IsOfPieces (R.remaining reader) it.summary it.rows)) }
{
    // A law: no two cards that are written have the same UID.
    written_cards_differ();
    let mut rows = RowList::new(alloc, origin, starts);
    let mut lines = Vec::new(alloc);
    let mut report = Report::new(alloc, io::sink());
    report.set_file(Some(&mut lines));
    let mut course = Course::new(alloc);
    let mut media = NoMedia;
    match convert_more_cards(
        alloc,
        &mut course,
        reader,
        &mut rows,
        &mut media,
        &mut report,
    ) {
        Ok(()) => {
            drop(report);
            Ok(Some(Converted {
                summary: course.summary(),
                rows: rows.rows,
                report: lines,
            }))
        }
        Err(fault) if is_memory(&fault) => Err(NoMemory),
        Err(_) => Ok(None),
    }
}

/// Converts the cards in rows of an export. `None` if the reader fails.
pub(crate) fn convert_exports<R: Read + Drop>(
    alloc: Global,
    cards: ExportRows<R>,
    origin: Origin,
    starts: &[u64],
) -> Result<Option<Converted>, NoMemory>
    ensures { IfOk result (λ done. IfSome done (λ it.
        IsOfPieces None it.summary it.rows)) }
{
    written_cards_differ();
    let mut rows = RowList::new(alloc, origin, starts);
    let mut lines = Vec::new(alloc);
    let mut report = Report::new(alloc, io::sink());
    report.set_file(Some(&mut lines));
    let mut course = Course::new(alloc);
    let mut media = NoMedia;
    match convert_more_exports(
        alloc,
        &mut course,
        cards,
        &mut rows,
        &mut media,
        &mut report,
    ) {
        Ok(()) => {
            drop(report);
            Ok(Some(Converted {
                summary: course.summary(),
                rows: rows.rows,
                report: lines,
            }))
        }
        Err(fault) if is_memory(&fault) => Err(NoMemory),
        Err(_) => Ok(None),
    }
}

/// Converts contacts, which come after a header that is under these lines. `None` if the reader
/// fails.
pub(crate) fn convert_rows<R: Read + Drop>(
    alloc: Global,
    above: &[AboveLine],
    reader: ContactReader<R>,
    origin: Origin,
    starts: &[u64],
) -> Result<Option<Converted>, NoMemory>
    ensures { IsReady reader → IfOk result (λ done. IfSome done (λ it.
        IsOfContacts it.summary it.rows)) }
{
    written_cards_differ();
    let mut rows = RowList::new(alloc, origin, starts);
    let mut lines = Vec::new(alloc);
    let mut report = Report::new(alloc, io::sink());
    report.set_file(Some(&mut lines));
    let mut course = Course::new(alloc);
    match convert_contacts_under(alloc, &mut course, above, reader, &mut rows, &mut report) {
        Ok(()) => {
            drop(report);
            Ok(Some(Converted {
                summary: course.summary(),
                rows: rows.rows,
                report: lines,
            }))
        }
        Err(fault) if is_memory(&fault) => Err(NoMemory),
        Err(_) => Ok(None),
    }
}
