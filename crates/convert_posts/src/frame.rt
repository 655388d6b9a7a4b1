//! `Frame`: what is converted of a body, and the part that comes of it.
ghost use Rattle.std.specs.Prelude.{◌≡◌, [], IfOk, IfSome};
ghost use Rattle.convert_posts.specs.Parts.{IsOpen, IsPassed, only_refused};

use crate::asked::Asked;
use crate::converted::Converted;
use crate::cut::Cut;
use crate::part::{Dates, Kind, Part, ReportLine};
use crate::report::{passed_line, report_lines};
use crate::row_list::Origin;
use base_types::{Items, NoMemory, Text};
use card_conversion::Summary;
use std::alloc::Global;

/// What is converted of a body, and where it is in its file.
#[derive(Clone, Copy)]
pub(crate) struct Frame {
    pub(crate) kind: Kind,
    /// The number of octets of the header, and of what is before it.
    pub(crate) header: usize,
    /// The number of octets that are converted.
    pub(crate) taken: usize,
    pub(crate) origin: Origin,
    /// The number of cards or rows.
    pub(crate) cards: u64,
    /// The number of line feeds up to the end.
    pub(crate) feeds: u64,
}

/// A part without cards, of which so many aren't carried.
fn part_without_cards(
    alloc: Global,
    frame: Frame,
    refused: u64,
    report: Items<ReportLine>,
) -> Result<Part, NoMemory>
    ensures taken { IfOk result (λ part. part.taken ≡ frame.taken) }
    ensures summary { IfOk result (λ part. part.summary ≡ only_refused refused) }
    ensures report { IfOk result (λ part. part.report ≡ report) }
    ensures rows { IfOk result (λ part. part.rows ≡ []) }
{
    let columns = Text::copy_of(alloc, "")?;
    Ok(Part {
        kind: frame.kind,
        header: frame.header,
        taken: frame.taken,
        card: frame.origin.card.saturating_add(frame.cards),
        line: frame.origin.line_after(frame.feeds),
        columns,
        dates: Dates::None,
        summary: Summary {
            written: 0,
            changed: 0,
            refused,
        },
        report,
        rows: Items::new(alloc),
    })
}

/// A part of a body of which nothing is converted, as more of the file has to be known.
pub(crate) fn open_part(alloc: Global, asked: &Asked, kind: Kind) -> Result<Part, NoMemory>
    ensures { IfOk result IsOpen }
{
    let frame = Frame {
        kind,
        header: 0,
        taken: 0,
        origin: asked.origin(),
        cards: 0,
        feeds: 0,
    };
    part_without_cards(alloc, frame, 0, Items::new(alloc))
}

/// A part whose one card or row isn't converted. `None` for any other.
pub(crate) fn small_part(alloc: Global, frame: Frame, cut: &Cut) -> Result<Option<Part>, NoMemory>
    ensures taken { IfOk result (λ done. IfSome done (λ part. part.taken ≡ frame.taken)) }
    ensures passed { IfOk result (λ done. IfSome done IsPassed) }
{
    let Some(passed) = cut.passed else {
        return Ok(None);
    };
    let feeds = cut.starts.first().copied().unwrap_or(0);
    let line = passed_line(alloc, frame.origin, feeds, passed.words())?;
    let mut report = Items::new(alloc);
    report.push(line)?;
    let part = part_without_cards(alloc, frame, 1, report)?;
    Ok(Some(part))
}

/// A part with the cards that were converted.
pub(crate) fn finished_part(
    alloc: Global,
    frame: Frame,
    converted: Converted,
    columns: Text,
    dates: Dates,
) -> Result<Part, NoMemory>
    ensures kind { IfOk result (λ part. part.kind ≡ frame.kind) }
    ensures taken { IfOk result (λ part. part.taken ≡ frame.taken) }
    ensures summary { IfOk result (λ part. part.summary ≡ converted.summary) }
    ensures rows { IfOk result (λ part. part.rows ≡ converted.rows) }
{
    let report = report_lines(alloc, frame.origin, converted.report.as_slice())?;
    Ok(Part {
        kind: frame.kind,
        header: frame.header,
        taken: frame.taken,
        card: frame.origin.card.saturating_add(frame.cards),
        line: frame.origin.line_after(frame.feeds),
        columns,
        dates,
        summary: converted.summary,
        report,
        rows: converted.rows,
    })
}
