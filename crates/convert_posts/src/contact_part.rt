//! Converts a part of a file of contacts.
ghost use Rattle.std.specs.Prelude.{◌≡◌, ◌≤◌, IfOk, IfSome, length};
ghost use Rattle.contact_csv.specs.Contacts.{IsReady};
ghost use Rattle.convert_posts.specs.Parts.{IsOfContacts, IsPart};
ghost use Rattle.convert_posts.specs.declared.part.Kind.TheVariants as TheKind;

use crate::asked::Asked;
use crate::card_cut::front;
use crate::content::HEAD_OCTETS;
use crate::converted::{Converted, convert_rows};
use crate::cut::{Cut, count_feeds};
use crate::frame::{Frame, finished_part, open_part, small_part};
use crate::part::{Dates, Kind, Part};
use crate::row_cut::{RowKind, cut_rows, header_len};
use crate::row_list::Origin;
use base_types::{NoMemory, Text};
use contact_columns::{
    DateOrder, RowText, end_rows, made_header, mapped_columns, read_date_order,
    rows_end_with_returns,
};
use contact_csv::{AboveLine, ContactFault, ContactReader, Header};
use std::alloc::Global;
use std::io::{Chain, Read};

/// What is known of the order of day and month: what is said, or else what the dates of the text
/// show, which begins with the header, or comes after `above`.
fn dates_in(
    alloc: Global,
    asked: &Asked,
    above: &[u8],
    text: &[u8],
    header: Header<'_>,
) -> Result<Dates, NoMemory> {
    let found = match asked.dates {
        Some(order) => Some(order),
        None => {
            let rows = RowText::new(alloc, above.chain(text), header.delimiter, header.width);
            read_date_order(alloc, rows, header)?
        }
    };
    Ok(match found {
        Some(DateOrder::DayFirst) => Dates::Day,
        Some(DateOrder::MonthFirst) => Dates::Month,
        Some(DateOrder::Unknown) => Dates::None,
        None => Dates::Unknown,
    })
}

/// The order of day and month.
fn order_of(dates: Dates) -> DateOrder {
    match dates {
        Dates::Day => DateOrder::DayFirst,
        Dates::Month => DateOrder::MonthFirst,
        Dates::Unknown | Dates::None => DateOrder::Unknown,
    }
}

/// The lines above the header that are told with a part: all with the first part, which begins with
/// them, and none with a later one.
fn reported_lines<'a>(asked: &Asked, header: &'a Header<'_>) -> &'a [AboveLine] {
    if asked.line > 1 { &[] } else { &header.above }
}

/// Whether lines above the header are told with a part.
fn reports_lines(asked: &Asked, header: &Header<'_>) -> bool {
    let lines = reported_lines(asked, header);
    lines.iter().any(|line| *line != AboveLine::Blank)
}

/// Where a part of rows is in its file. `feeds` is the number of lines up to the end of the header.
/// In a later part they stand there again, and the part's lines begin after them.
pub(crate) fn origin_of(asked: &Asked, feeds: u64) -> Origin {
    let origin = asked.origin();
    Origin {
        card: origin.card,
        line: origin.line,
        feeds: if asked.line > 1 { feeds } else { 0 },
    }
}

/// The contacts of a part, what becomes of their columns, and what is known of their dates.
#[derive(Drop)]
struct Contacts {
    converted: Converted,
    columns: Text,
    dates: Dates,
}

/// A reader of contacts, after its header, with which the text begins, or which is `above` it.
/// `None` if there is no such header.
fn read_contacts<'a>(
    alloc: Global,
    above: &'a [u8],
    text: &'a [u8],
    header: Header<'_>,
) -> Result<Option<ContactReader<RowText<Chain<&'a [u8], &'a [u8]>>>>, NoMemory>
    ensures { IfOk result (λ read. IfSome read (λ contacts. IsReady contacts)) }
{
    let rows = RowText::new(alloc, above.chain(text), header.delimiter, header.width);
    match ContactReader::new(alloc, rows, header) {
        Ok(contacts) => Ok(Some(contacts)),
        Err(ContactFault::Memory) => Err(NoMemory),
        Err(_) => Ok(None),
    }
}

/// Converts the contacts of a text, which begins with the header. `None` if it has no such header.
fn convert_contacts_in(
    alloc: Global,
    asked: &Asked,
    text: &[u8],
    header: Header<'_>,
    origin: Origin,
    starts: &[u64],
) -> Result<Option<Contacts>, NoMemory>
    ensures { IfOk result (λ done. IfSome done (λ it.
        IsOfContacts it.converted.summary it.converted.rows)) }
{
    // The part before may have ended between the octets of a CR LF. Its LF is no line of this part.
    let rows = text.strip_prefix(b"\n").unwrap_or(text);
    let made = made_header(alloc, header, rows)?;
    let dates = dates_in(alloc, asked, made.as_slice(), text, header)?;
    let header = header.with_dates(order_of(dates));
    let Some(contacts) = read_contacts(alloc, made.as_slice(), text, header)? else {
        return Ok(None);
    };
    let columns = mapped_columns(alloc, contacts.columns(), header)?;
    let above = reported_lines(asked, &header);
    match convert_rows(alloc, above, contacts, origin, starts)? {
        Some(converted) => Ok(Some(Contacts {
            converted,
            columns,
            dates,
        })),
        None => Ok(None),
    }
}

/// Converts the contacts of a body up to where it is cut. `None` if they can't be read.
fn convert_cut(
    alloc: Global,
    asked: &Asked,
    body: &[u8],
    header: Header<'_>,
    frame: Frame,
    cut: &Cut,
) -> Result<Option<Part>, NoMemory>
    requires kind { frame.kind ≡ TheKind.Contacts }
    requires within { frame.taken ≤ length body.now }
    ensures { IfOk result (λ done. IfSome done (IsPart body.now)) }
{
    if let Some(part) = small_part(alloc, frame, cut)? {
        return Ok(Some(part));
    }
    let text = front(body, frame.taken).get(header.start..).unwrap_or(&[]);
    let starts = cut.starts.as_slice();
    match convert_contacts_in(alloc, asked, text, header, frame.origin, starts)? {
        Some(done) => {
            let part = finished_part(alloc, frame, done.converted, done.columns, done.dates)?;
            Ok(Some(part))
        }
        None => Ok(None),
    }
}

/// The front of a body of contacts.
#[derive(Drop)]
struct RowsCut {
    /// The number of octets up to the end of the header.
    header: usize,
    /// The number of lines in them.
    feeds: u64,
    /// The number of octets that are converted at once.
    taken: usize,
    /// The rows.
    cut: Cut,
}

/// The number of octets of the header in a text; 0 if the file has none.
fn written_len(kind: RowKind, text: &[u8], header: Header<'_>) -> usize {
    if header.is_missing {
        0
    } else {
        header_len(kind, text.get(header.start..).unwrap_or(&[]))
    }
}

/// The octets of the header in the front of a body; none if the file has none.
pub(crate) fn header_octets<'b>(
    alloc: Global,
    body: &'b [u8],
    header: Header<'_>,
) -> Result<&'b [u8], NoMemory> {
    let kind = RowKind::Contacts(header.delimiter, header.width);
    let rows = body.get(header.start..).unwrap_or(&[]);
    if !rows_end_with_returns(front(body, HEAD_OCTETS)) {
        return Ok(front(rows, written_len(kind, body, header)));
    }
    let mut text = Vec::new(alloc);
    text.extend_from_slice(body)?;
    end_rows(text.as_mut_slice());
    Ok(front(rows, written_len(kind, text.as_slice(), header)))
}

/// The front of a text of contacts whose lines end with line feeds.
fn cut_text(alloc: Global, text: &[u8], header: Header<'_>, more: bool) -> Result<RowsCut, NoMemory>
    ensures { IfOk result (λ rows. rows.taken ≤ length text.now) }
{
    let kind = RowKind::Contacts(header.delimiter, header.width);
    let end = header.start.saturating_add(written_len(kind, text, header));
    let (taken, cut) = cut_rows(alloc, kind, text, end, more)?;
    Ok(RowsCut {
        header: end,
        feeds: count_feeds(front(text, end)),
        taken,
        cut,
    })
}

/// The front of a body of contacts.
fn cut_body(alloc: Global, body: &[u8], header: Header<'_>, more: bool) -> Result<RowsCut, NoMemory>
    ensures { IfOk result (λ rows. rows.taken ≤ length body.now) }
{
    if !rows_end_with_returns(front(body, HEAD_OCTETS)) {
        return cut_text(alloc, body, header, more);
    }
    // The lines are counted as `RowText` counts them: CR LF in a cell is one end.
    let mut text = Vec::new(alloc);
    text.extend_from_slice(body)?;
    end_rows(text.as_mut_slice());
    let rows = cut_text(alloc, text.as_slice(), header, more)?;
    Ok(RowsCut {
        header: rows.header,
        feeds: rows.feeds,
        taken: front(body, rows.taken).len(),
        cut: rows.cut,
    })
}

/// Converts no row, but tells the lines above the header. The first row is too large, so that it is
/// told with the next part.
fn header_part(
    alloc: Global,
    asked: &Asked,
    body: &[u8],
    header: Header<'_>,
    rows: &RowsCut,
) -> Result<Option<Part>, NoMemory>
    ensures { IfOk result (λ done. IfSome done (IsPart body.now)) }
{
    let frame = Frame {
        kind: Kind::Contacts,
        header: rows.header,
        taken: front(body, rows.header).len(),
        origin: origin_of(asked, rows.feeds),
        cards: 0,
        feeds: rows.feeds,
    };
    convert_cut(
        alloc,
        asked,
        body,
        header,
        frame,
        &Cut::after(alloc, rows.feeds),
    )
}

/// Converts the front of a body of contacts. `None` if it can't be read.
pub(crate) fn contacts_part(
    alloc: Global,
    asked: &Asked,
    body: &[u8],
    header: Header<'_>,
) -> Result<Option<Part>, NoMemory>
    ensures { IfOk result (λ done. IfSome done (IsPart body.now)) }
{
    let rows = cut_body(alloc, body, header, asked.more)?;
    if rows.cut.passed.is_some() && reports_lines(asked, &header) {
        return header_part(alloc, asked, body, header, &rows);
    }
    if asked.more && rows.cut.is_empty() {
        let part = open_part(alloc, asked, Kind::Contacts)?;
        return Ok(Some(part));
    }
    let frame = Frame {
        kind: Kind::Contacts,
        header: rows.header,
        taken: rows.taken,
        origin: origin_of(asked, rows.feeds),
        cards: rows.cut.starts.len() as u64,
        feeds: rows.cut.feeds,
    };
    convert_cut(alloc, asked, body, header, frame, &rows.cut)
}
