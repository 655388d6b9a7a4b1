//! What a body has.

use crate::asked::Asked;
use crate::card_cut::front;
use crate::contact_part::header_octets;
use crate::cut::PIECE_OCTETS_MAX;
use crate::unconverted::Unconverted;
use base_types::NoMemory;
use card_conversion::{
    foreign_format, foreign_text, has_card, is_quoted_export, is_utf32, without_bom,
};
use contact_columns::{are_numbers, has_row_form, rows_end_with_returns, wish_fault};
use contact_csv::{Header, find_header};
use csv_cards::is_export;
use import_text::begins_with_word;
use std::alloc::Global;

/// The most octets among which a header is.
pub(crate) const HEAD_OCTETS: usize = 16_384;

/// The octets from which a format is known, and among which a card begins.
const FRONT_OCTETS: usize = 131_072;

/// The most cells of a header, and of each line above it.
const CELLS_MAX: u64 = 1_000;

/// The lines among which a header is. So many times the cells of one may be looked at in all.
const LINES_MAX: u64 = 5;

/// The most columns of which something is said.
const ENTRIES_MAX: u64 = 256;

/// The most times that a name of a column is compared with one of which something is said.
const COMPARED_MAX: u64 = 65_536;

/// The most times that two names are compared that both aren't of ASCII, whose case costs more.
const WIDE_COMPARED_MAX: u64 = 3_000;

/// Why a later part of a file without a header isn't converted: by its own rows it may be cut into
/// other columns than the first part.
const OPEN_FORM: &str = "--columns: a later part of a file without a header needs the entry rows=, \
     which the reply to the first part has";

/// What a body has.
#[derive(Clone, Copy)]
pub(crate) enum Content<'a> {
    /// Cards, or what is no card.
    Cards,
    /// Rows of an export.
    Export,
    /// Contacts with this header.
    Contacts(Header<'a>),
    /// Nothing that is converted, for this reason.
    None(NotContent),
}

/// Why a body has nothing that is converted.
#[derive(Clone, Copy)]
pub(crate) enum NotContent {
    /// It is of another format, or too large in some way, as these words say.
    Foreign(&'static str),
    /// It has cards, and something is said of columns.
    NoColumns,
    /// Something is wrong with what is said of its columns.
    Columns,
    /// Its header isn't known.
    Header,
}

/// The first line with the octet that ends it, and the octets after it.
fn split_line(octets: &[u8], end: u8) -> (&[u8], &[u8]) {
    match octets.iter().position(|octet| *octet == end) {
        Some(place) => {
            let len = place.saturating_add(1);
            (front(octets, len), octets.get(len..).unwrap_or(&[]))
        }
        None => (octets, &[]),
    }
}

/// How many texts there are between separators, and how many of them aren't of ASCII.
#[derive(Clone, Copy)]
struct Texts {
    all: u64,
    wide: u64,
}

impl Texts {
    /// Those of the octets.
    fn count(octets: &[u8], separators: &[u8]) -> Texts {
        let mut texts = Texts { all: 1, wide: 0 };
        let mut is_wide = false;
        for octet in octets {
            if separators.contains(octet) {
                texts.all = texts.all.saturating_add(1);
                is_wide = false;
            } else if !is_wide && !octet.is_ascii() {
                texts.wide = texts.wide.saturating_add(1);
                is_wide = true;
            }
        }
        texts
    }
}

/// Whether too many names are compared, if there are so many lines of so many cells.
fn are_too_many(cells: Texts, entries: Texts, lines: u64) -> bool {
    let compared = cells.all.saturating_mul(entries.all);
    let wide = cells.wide.saturating_mul(entries.wide);
    compared > COMPARED_MAX.saturating_mul(lines) || wide > WIDE_COMPARED_MAX.saturating_mul(lines)
}

/// Why a line of so many cells is no header here: to compare its names with the columns of which
/// something is said would take too long.
fn line_fault(cells: Texts, entries: Texts) -> Option<&'static str> {
    if cells.all > CELLS_MAX {
        Some("a header of more than 1,000 cells; convert it by `contacts convert`")
    } else if are_too_many(cells, entries, 1) {
        Some("--columns: it names too many columns for so wide a header; name only some")
    } else {
        None
    }
}

/// The columns of which something is said.
fn entries_of(columns: &str) -> Texts {
    Texts::count(columns.as_bytes(), b",")
}

/// Where a header is looked for.
#[derive(Clone, Copy)]
struct View<'b> {
    /// The first lines of the file.
    lines: &'b [u8],
    /// Why the next line isn't among them, if it is too wide.
    fault: Option<&'static str>,
}

/// The lines of the head up to the first one that is too wide for a header. What comes after a
/// header doesn't matter: a note may have any number of commas.
///
/// The work stays bounded for any octets. A row may have several lines, if cells in quotes have
/// them, so all lines together have no more cells than five that aren't too wide; and a header is
/// looked for in five places, with four delimiters.
fn header_view<'b>(head: &'b [u8], columns: &str) -> View<'b> {
    let entries = entries_of(columns);
    let end = if rows_end_with_returns(head) {
        b'\r'
    } else {
        b'\n'
    };
    let mut all = Texts { all: 0, wide: 0 };
    let mut len: usize = 0;
    for _line in 0..head.len() {
        let (line, _) = split_line(head.get(len..).unwrap_or(&[]), end);
        let cells = Texts::count(line, b",;\t|");
        let fault = line_fault(cells, entries);
        // A line without a delimiter counts as none: a header may be after any number of empty
        // ones.
        all.all = all.all.saturating_add(cells.all.saturating_sub(1));
        all.wide = all.wide.saturating_add(cells.wide);
        let is_over = all.all > CELLS_MAX.saturating_mul(LINES_MAX)
            || are_too_many(all, entries, LINES_MAX);
        if line.is_empty() || fault.is_some() || is_over {
            return View {
                lines: front(head, len),
                fault,
            };
        }
        len = len.saturating_add(line.len());
    }
    View {
        lines: head,
        fault: None,
    }
}

/// Why a header that was found isn't read: it may go on after the head.
fn header_fault(
    alloc: Global,
    body: &[u8],
    header: Header<'_>,
) -> Result<Option<&'static str>, NoMemory> {
    let window = front(body, PIECE_OCTETS_MAX);
    let octets = header_octets(alloc, window, header)?;
    let end = header.start.saturating_add(octets.len());
    if end >= window.len() && window.len() < body.len() {
        return Ok(Some("a header of more than 524,288 octets; convert it by `contacts convert`"));
    }
    let cells = Texts::count(octets, &[header.delimiter]);
    Ok(line_fault(cells, entries_of(header.wished)))
}

/// Whether all octets are white space, perhaps after a byte order mark.
fn is_blank(octets: &[u8]) -> bool {
    let text = without_bom(octets);
    text.iter().all(|octet| octet.is_ascii_whitespace())
}

/// Why a body isn't converted, whatever is asked of its columns: the format of a file that begins
/// with it. A later part may begin with any octets.
fn format_fault(asked: &Asked, body: &[u8]) -> Option<&'static str> {
    if asked.line > 1 {
        return None;
    }
    if is_utf32(body) {
        return Some("text in UTF-32; send it in UTF-8");
    }
    if body.starts_with(b"\xFF\xFE") || body.starts_with(b"\xFE\xFF") {
        return Some("text in UTF-16; send it in UTF-8");
    }
    foreign_format(front(body, FRONT_OCTETS))
}

/// What a body has in which no header is looked for, as these words say. A later part without
/// columns begins with text between cards.
fn without_header<'a>(asked: &'a Asked, words: &'static str) -> Content<'a> {
    if asked.line > 1 && asked.columns.is_empty() {
        Content::Cards
    } else {
        Content::None(NotContent::Foreign(words))
    }
}

/// What a body with this header has.
fn with_header<'a>(
    alloc: Global,
    body: &[u8],
    header: Header<'a>,
) -> Result<Content<'a>, NoMemory> {
    match header_fault(alloc, body, header)? {
        Some(words) => Ok(Content::None(NotContent::Foreign(words))),
        None => Ok(Content::Contacts(header)),
    }
}

/// What a body has that isn't of another format, no export, and begins with no card.
fn contacts_in<'a>(alloc: Global, asked: &'a Asked, body: &[u8]) -> Result<Content<'a>, NoMemory> {
    let columns = asked.columns.as_str();
    if entries_of(columns).all > ENTRIES_MAX {
        return Ok(without_header(
            asked,
            "--columns: it names more than 256 columns; name only some",
        ));
    }
    let view = header_view(front(body, HEAD_OCTETS), columns);
    let head = view.lines;
    let found = find_header(alloc, head, columns)?;
    if let Some(words) = view.fault {
        if found.is_none() {
            return Ok(without_header(asked, words));
        }
    }
    let is_by_number = asked.line > 1 && are_numbers(columns);
    if is_by_number && !has_row_form(columns) && find_header(alloc, head, "")?.is_none() {
        return Ok(Content::None(NotContent::Foreign(OPEN_FORM)));
    }
    // A later part of a file without a header may have no row with all columns that are wished.
    if !columns.is_empty() && !is_by_number && wish_fault(alloc, head, columns)?.is_some() {
        return Ok(Content::None(NotContent::Columns));
    }
    if let Some(header) = found {
        return with_header(alloc, body, header);
    }
    if !columns.is_empty() {
        return Ok(Content::None(NotContent::NoColumns));
    }
    let octets = front(body, FRONT_OCTETS);
    if asked.line > 1 || is_blank(octets) || has_card(octets) {
        Ok(Content::Cards)
    } else {
        Ok(Content::None(NotContent::Header))
    }
}

/// What such a body has. If it is a file's first part, has neither contacts nor cards, and nothing
/// is said of columns, the words are those for what it begins with, if this is known.
fn texts_in<'a>(alloc: Global, asked: &'a Asked, body: &[u8]) -> Result<Content<'a>, NoMemory> {
    let found = contacts_in(alloc, asked, body)?;
    let is_none = matches!(found, Content::None(_));
    if !is_none || asked.line > 1 || !asked.columns.is_empty() {
        return Ok(found);
    }
    match foreign_text(front(body, FRONT_OCTETS)) {
        Some(words) => Ok(Content::None(NotContent::Foreign(words))),
        None => Ok(found),
    }
}

/// Whether a body that begins with these octets has rows of cards.
fn is_of_rows(head: &[u8]) -> bool {
    is_export(head) || is_quoted_export(head)
}

/// What a body has.
pub(crate) fn content_of<'a>(
    alloc: Global,
    asked: &'a Asked,
    body: &[u8],
) -> Result<Content<'a>, NoMemory> {
    if let Some(words) = format_fault(asked, body) {
        return Ok(Content::None(NotContent::Foreign(words)));
    }
    let text = without_bom(body);
    let is_of_rows = is_of_rows(front(body, HEAD_OCTETS));
    if !is_of_rows && !begins_with_word(text, b"BEGIN:VCARD") {
        return texts_in(alloc, asked, body);
    }
    if !asked.columns.is_empty() {
        Ok(Content::None(NotContent::NoColumns))
    } else if is_of_rows {
        Ok(Content::Export)
    } else {
        Ok(Content::Cards)
    }
}

impl NotContent {
    /// The fault with its words.
    pub(crate) fn fault(
        self,
        alloc: Global,
        asked: &Asked,
        body: &[u8],
    ) -> Result<Unconverted, NoMemory> {
        let columns = asked.columns.as_str();
        let head = header_view(front(body, HEAD_OCTETS), columns).lines;
        match self {
            NotContent::Foreign(words) => Unconverted::with_words(alloc, words),
            NotContent::NoColumns => {
                Unconverted::with_columns(alloc, "the file has cards, and no columns")
            }
            NotContent::Columns => {
                let words = wish_fault(alloc, head, columns)?;
                let words = words.as_ref().map_or("", |text| text.as_str());
                Unconverted::with_columns(alloc, words)
            }
            NotContent::Header => Unconverted::with_header(alloc, head),
        }
    }
}
