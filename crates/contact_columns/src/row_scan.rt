//! Where a row of a file ends.

/// The most lines of one cell. A quote that isn't closed before is taken for one that is never
/// closed.
const CELL_LINES_MAX: u32 = 200;

/// The byte order mark of UTF-8.
const MARK: &[u8] = b"\xEF\xBB\xBF";

/// Where an octet is in a row (RFC 4180).
#[derive(Clone, Copy, PartialEq, Eq)]
enum Place {
    /// At the beginning of a cell.
    Start,
    /// In a cell without quotes.
    Plain,
    /// In a cell in quotes.
    Quoted,
    /// After a quote in such a cell, which closes it unless another one follows.
    Closed,
}

/// What the octets before have shown of a row.
#[derive(Clone, Copy)]
struct RowScan {
    place: Place,
    /// The number of cells that have ended.
    cells: usize,
    /// The number of cells up to the last one that isn't empty.
    filled: usize,
    /// The number of lines of the present cell in quotes.
    lines: u32,
    /// Where the first line ends that ends in the present cell in quotes.
    cell_line: Option<usize>,
    /// Where the first line ends that ends in any cell in quotes.
    row_line: Option<usize>,
    /// Whether the last octet is a carriage return in a cell in quotes.
    is_after_return: bool,
}

/// Where the row at the front of some octets ends.
#[derive(Clone, Copy, PartialEq, Eq)]
pub enum RowEnd {
    /// After this many octets.
    At(usize),
    /// A quote isn't closed, or not before text; the line in which it stands has this many octets.
    /// The second number is that of the octets that were looked at.
    Broken(usize, usize),
    /// A cell in quotes has more than 200 lines, or its quote isn't closed. The line in which the
    /// quote stands has this many octets. The second number is that of the octets that were looked
    /// at.
    Long(usize, usize),
    /// A quote isn't closed so far. If it stays so, the line in which it stands has this many
    /// octets.
    Open(usize),
    /// A quote isn't closed, or not before text, and no line ends after it; or one ends with a
    /// carriage return, which is the last octet.
    Endless,
    /// It doesn't end.
    Unended,
}

fn is_line_end(octet: u8) -> bool {
    octet == b'\n' || octet == b'\r'
}

/// The number of octets of the first line, with its end: a line feed, a carriage return, or both.
/// `None` if it doesn't end, or with the last octet, which is a carriage return: a line feed that
/// follows would belong to the end.
pub(crate) fn ended_line_len(octets: &[u8]) -> Option<usize> {
    let place = octets.iter().position(|octet| is_line_end(*octet))?;
    let after = place.saturating_add(1);
    if octets.get(place).copied() == Some(b'\n') {
        return Some(after);
    }
    match octets.get(after).copied() {
        Some(b'\n') => Some(after.saturating_add(1)),
        Some(_) => Some(after),
        None => None,
    }
}

impl RowScan {
    fn new() -> RowScan {
        RowScan {
            place: Place::Start,
            cells: 0,
            filled: 0,
            lines: 0,
            cell_line: None,
            row_line: None,
            is_after_return: false,
        }
    }

    /// Begins a cell in quotes.
    fn open(&mut self) {
        self.place = Place::Quoted;
        self.lines = 0;
        self.cell_line = None;
    }

    /// Begins the next cell.
    fn next_cell(&mut self) {
        self.place = Place::Start;
        self.cells = self.cells.saturating_add(1);
    }

    /// Notes that a line ends in a cell in quotes. `after` is the place after it.
    fn end_line(&mut self, after: usize) {
        self.cell_line = self.cell_line.or(Some(after));
        self.row_line = self.row_line.or(Some(after));
    }

    /// Notes that a line feed belongs to the end of the line that a carriage return ended.
    fn extend_line(&mut self, after: usize) {
        let before = Some(after.saturating_sub(1));
        if self.cell_line == before {
            self.cell_line = Some(after);
        }
        if self.row_line == before {
            self.row_line = Some(after);
        }
    }

    /// Takes an octet of a cell in quotes. A carriage return alone ends a line, too, since rows may
    /// end with it though the first line doesn't; but only line feeds are counted, so that a cell
    /// which is closed may have any number of carriage returns.
    fn take_quoted(&mut self, octet: u8, after: usize) {
        if octet == b'"' {
            self.place = Place::Closed;
        } else if octet == b'\r' {
            self.end_line(after);
        } else if octet == b'\n' {
            self.lines = self.lines.saturating_add(1);
            if self.is_after_return {
                self.extend_line(after);
            }
            self.end_line(after);
        }
        self.is_after_return = octet == b'\r';
    }

    /// Whether the octet can't stand where it stands, or its cell has too many lines.
    fn is_broken_by(&self, delimiter: u8, octet: u8) -> bool {
        match self.place {
            Place::Closed => octet != b'"' && octet != delimiter && !is_line_end(octet),
            Place::Quoted => self.lines >= CELL_LINES_MAX,
            _ => false,
        }
    }

    /// Whether the octet ends the row.
    fn ends_with(&self, octet: u8) -> bool {
        self.place != Place::Quoted && is_line_end(octet)
    }

    /// Takes an octet that ends no row.
    fn take(&mut self, delimiter: u8, octet: u8, after: usize) {
        if octet != delimiter || self.place == Place::Quoted {
            self.filled = self.cells.saturating_add(1);
        }
        match self.place {
            Place::Quoted => self.take_quoted(octet, after),
            Place::Closed if octet == b'"' => self.place = Place::Quoted,
            Place::Start if octet == b'"' => self.open(),
            _ => {
                if octet == delimiter {
                    self.next_cell();
                } else {
                    self.place = Place::Plain;
                }
            }
        }
    }

    /// The end of a row in which a quote isn't closed: that of the line in which the quote stands.
    fn broken_end(&self, octets: &[u8], from: usize) -> RowEnd {
        let looked = from.saturating_add(1);
        match self.cell_line {
            Some(end) if self.lines >= CELL_LINES_MAX => return RowEnd::Long(end, looked),
            Some(end) => return RowEnd::Broken(end, looked),
            None => {}
        }
        match ended_line_len(octets.get(from..).unwrap_or(&[])) {
            Some(more) => {
                let end = from.saturating_add(more);
                RowEnd::Broken(end, end)
            }
            None => RowEnd::Endless,
        }
    }

    /// Whether a row that ends has as many cells as the header, but for empty ones after them.
    fn has_width(&self, width: usize) -> bool {
        let cells = self.cells.saturating_add(1);
        cells == width || cells > width && self.filled <= width
    }

    /// The end of a row that ends after this many octets. One of several lines that hasn't as many
    /// cells as the header is taken for one with a quote that isn't closed.
    fn whole_end(&self, width: usize, after: usize) -> RowEnd {
        match self.row_line {
            Some(line) if !self.has_width(width) => RowEnd::Broken(line, after),
            _ => RowEnd::At(after),
        }
    }
}

/// The number of octets of a byte order mark at the front, where a file was put after another one.
pub(crate) fn mark_len(octets: &[u8]) -> usize {
    if octets.starts_with(MARK) {
        MARK.len()
    } else {
        0
    }
}

/// Where the row at the front of the octets ends, as `RowText` cuts rows: `Open`, `Endless` and
/// `Unended` are so only if no octets follow. A byte order mark may come before the row. `width` is
/// the number of cells of the header.
pub fn row_end(delimiter: u8, width: usize, octets: &[u8]) -> RowEnd {
    let mut scan = RowScan::new();
    let mut after = mark_len(octets);
    for octet in octets.get(after..).unwrap_or(&[]) {
        let octet = *octet;
        if scan.is_broken_by(delimiter, octet) {
            return scan.broken_end(octets, after);
        }
        after = after.saturating_add(1);
        if scan.ends_with(octet) {
            return scan.whole_end(width, after);
        }
        scan.take(delimiter, octet, after);
    }
    match scan.cell_line {
        _ if scan.place != Place::Quoted => RowEnd::Unended,
        Some(end) => RowEnd::Open(end),
        None => RowEnd::Endless,
    }
}
