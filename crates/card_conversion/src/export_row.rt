//! Where a row of cards ends, whatever its quotes.

/// Where an octet is in a row (RFC 4180).
#[derive(Clone, Copy, PartialEq, Eq)]
enum Place {
    /// At the beginning of a cell.
    Start,
    /// In a cell without quotes.
    Plain,
    /// In a cell in quotes.
    Quoted,
    /// After a quote in such a cell, which closes it unless another one follows.
    Closed,
    /// After a quote that other text followed.
    Broken,
}

/// Where the row at the front of some octets ends.
#[derive(Clone, Copy)]
pub enum ExportEnd {
    /// After this many octets.
    At(usize),
    /// After this many octets. A quote of the card isn't doubled, and the card is known to its end.
    Undoubled(usize),
    /// The last quote is missing. The next row begins after this many octets, or none does.
    Unclosed(usize),
    /// In a cell in quotes, a quote is before other text than a quote, a comma or the end of the
    /// line, and it isn't known where the card ends. The next row begins after this many octets, or
    /// none does.
    Broken(usize),
    /// It doesn't end so far.
    Open,
}

impl Place {
    /// Where the octet after this one is.
    fn after(self, octet: u8) -> Place {
        match self {
            Place::Broken => Place::Broken,
            Place::Quoted => {
                if octet == b'"' {
                    Place::Closed
                } else {
                    Place::Quoted
                }
            }
            Place::Start | Place::Closed if octet == b'"' => Place::Quoted,
            _ if octet == b',' || octet == b'\r' || octet == b'\n' => Place::Start,
            Place::Closed => Place::Broken,
            _ => Place::Plain,
        }
    }

    /// Where the octet after these is.
    fn after_all(self, octets: &[u8]) -> Place {
        let mut place = self;
        for octet in octets {
            place = place.after(*octet);
        }
        place
    }
}

/// The first line with its line feed, if it has one.
pub(crate) fn first_line(octets: &[u8]) -> &[u8] {
    match octets.iter().position(|octet| *octet == b'\n') {
        Some(place) => octets.get(..place.saturating_add(1)).unwrap_or(octets),
        None => octets,
    }
}

/// A line without its line feed, and without a carriage return before that.
pub(crate) fn without_end(line: &[u8]) -> &[u8] {
    let line = line.strip_suffix(b"\n").unwrap_or(line);
    line.strip_suffix(b"\r").unwrap_or(line)
}

/// The cell before a card in quotes that begins at the end of the line, as `u11` of
/// `u11,"BEGIN:VCARD`.
fn cell_before_card(line: &[u8]) -> Option<&[u8]> {
    let front: &[u8] = b",\"BEGIN:VCARD";
    let text = without_end(line.strip_suffix(b"\n")?);
    let start = text.len().saturating_sub(front.len());
    let last = text.get(start..).unwrap_or(&[]);
    if last.eq_ignore_ascii_case(front) {
        text.get(..start)
    } else {
        None
    }
}

/// Whether the line begins a row with a card in quotes, after a cell in quotes or without. In a
/// cell in quotes there is no such line: a quote there is doubled.
pub(crate) fn begins_row(line: &[u8]) -> bool {
    match cell_before_card(line) {
        Some(cell) => cell.starts_with(b"\"") == cell.ends_with(b"\""),
        None => false,
    }
}

/// Whether the octets are the line that ends a card.
fn is_card_end(octets: &[u8]) -> bool {
    octets.trim_ascii().eq_ignore_ascii_case(b"END:VCARD")
}

/// The octets of the line after the quote that closes the cell of a card: one at the end of its
/// last line, or at the beginning of the next. `has_ended` says that the lines before end a card.
pub(crate) fn after_card(has_ended: bool, line: &[u8]) -> Option<&[u8]> {
    let place = line.iter().position(|octet| *octet == b'"')?;
    let front = line.get(..place)?;
    if is_card_end(front) || has_ended && front.trim_ascii().is_empty() {
        line.get(place.saturating_add(1)..)
    } else {
        None
    }
}

/// Whether the lines up to this one end a card. `had_ended` says so of the lines before it.
pub(crate) fn ends_card(had_ended: bool, line: &[u8]) -> bool {
    is_card_end(line) || had_ended && line.trim_ascii().is_empty()
}

/// Whether a quote of the line stands alone, or is left over of pairs.
fn has_single(line: &[u8]) -> bool {
    let mut is_odd = false;
    for octet in line {
        if *octet == b'"' {
            is_odd = !is_odd;
        } else if is_odd {
            return true;
        }
    }
    is_odd
}

/// What is known of a row whose card begins at the end of its first line.
#[derive(Clone, Copy)]
struct CardRow {
    /// Where the octet after the lines is by RFC 4180.
    place: Place,
    /// The number of octets after which the row ends by RFC 4180, if it does.
    end: Option<usize>,
    /// Whether a line after that has more than white space.
    has_more: bool,
    /// Whether a quote of the card isn't doubled.
    has_single: bool,
    /// Whether the lines end a card.
    has_ended: bool,
    /// Where the octet after the lines is, if the cell of the card is closed after its end.
    after: Option<Place>,
}

impl CardRow {
    /// The row with the first line.
    fn new(line: &[u8]) -> CardRow {
        CardRow {
            place: Place::Start.after_all(line),
            end: None,
            has_more: false,
            has_single: false,
            has_ended: false,
            after: None,
        }
    }

    /// Reads a line as RFC 4180 does. The row has so many octets with it.
    fn read_line(&mut self, line: &[u8], len: usize) {
        if self.end.is_some() {
            self.has_more = self.has_more || !line.trim_ascii().is_empty();
            return;
        }
        self.place = self.place.after_all(line);
        if self.place == Place::Start {
            self.end = Some(len);
        }
    }

    /// Takes a line after the first. The row has so many octets with it.
    fn take(&mut self, line: &[u8], len: usize) {
        self.read_line(line, len);
        if let Some(place) = self.after {
            self.after = Some(place.after_all(line));
            return;
        }
        match after_card(self.has_ended, line) {
            Some(rest) => self.after = Some(Place::Closed.after_all(rest)),
            None => {
                self.has_single = self.has_single || has_single(line);
                self.has_ended = ends_card(self.has_ended, line);
            }
        }
    }

    /// The end of the row after so many octets, with its card whole.
    fn whole_end(&self, len: usize) -> ExportEnd {
        if self.has_single {
            ExportEnd::Undoubled(len)
        } else {
            ExportEnd::At(len)
        }
    }

    /// The end of a row without the end of its card, before the next row begins after so many
    /// octets. If RFC 4180 ends it before other text, a quote may have cut the card.
    fn end_by_quotes(&self, len: usize) -> ExportEnd {
        match self.end {
            Some(end) if !self.has_more => ExportEnd::At(end),
            Some(_) => ExportEnd::Broken(len),
            None => match self.place {
                Place::Closed => ExportEnd::At(len),
                Place::Quoted => ExportEnd::Unclosed(len),
                _ => ExportEnd::Broken(len),
            },
        }
    }

    /// The end of the row before the next one begins, after so many octets.
    fn end_before(&self, len: usize) -> ExportEnd {
        match self.after {
            Some(Place::Broken | Place::Quoted) => ExportEnd::Broken(len),
            Some(_) => self.whole_end(len),
            None if self.has_ended => ExportEnd::Unclosed(len),
            None => self.end_by_quotes(len),
        }
    }
}

/// Where the row ends whose card begins at the end of this line, its first.
fn card_row_end(octets: &[u8], first: &[u8], is_last: bool) -> ExportEnd {
    let mut row = CardRow::new(first);
    let mut len = first.len();
    for _line in 0..octets.len() {
        let line = first_line(octets.get(len..).unwrap_or(&[]));
        if begins_row(line) {
            return row.end_before(len);
        }
        if !line.ends_with(b"\n") && !is_last {
            return ExportEnd::Open;
        }
        len = len.saturating_add(line.len());
        row.take(line, len);
        if line.ends_with(b"\n") && row.after == Some(Place::Start) {
            return row.whole_end(len);
        }
        if line.is_empty() {
            break;
        }
    }
    row.end_before(len)
}

/// The end of another row before the next one begins, or before the end of the octets.
fn plain_end_before(place: Place, len: usize) -> ExportEnd {
    match place {
        Place::Broken => ExportEnd::Broken(len),
        Place::Quoted => ExportEnd::Unclosed(len),
        _ => ExportEnd::At(len),
    }
}

/// Where a row ends whose first line begins no card.
fn plain_row_end(octets: &[u8], is_last: bool) -> ExportEnd {
    let mut place = Place::Start;
    let mut len: usize = 0;
    for _line in 0..octets.len() {
        let line = first_line(octets.get(len..).unwrap_or(&[]));
        if begins_row(line) {
            return plain_end_before(place, len);
        }
        place = place.after_all(line);
        len = len.saturating_add(line.len());
        if !line.ends_with(b"\n") {
            break;
        }
        if place == Place::Start {
            return ExportEnd::At(len);
        }
    }
    if is_last {
        plain_end_before(place, len)
    } else {
        ExportEnd::Open
    }
}

/// Where the row at the front of the octets ends, as `ExportText` cuts rows. `is_last` says that
/// nothing follows the octets.
///
/// A card in quotes that begins at the end of the row's first line ends with the quote after its
/// END:VCARD, whatever other quotes it has. Any row ends before a line that begins one with such a
/// card. Else a line feed in quotes ends no row (RFC 4180).
pub fn export_row_end(octets: &[u8], is_last: bool) -> ExportEnd {
    let first = first_line(octets);
    if begins_row(first) {
        card_row_end(octets, first, is_last)
    } else {
        plain_row_end(octets, is_last)
    }
}
