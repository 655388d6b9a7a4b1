//! Parses the input. Each part begins with a mark and a title in one line.

/// Begins a row, which has a store of its own. The title follows, up to the end of the line, and
/// then a line with its setting.
pub(crate) const ROW: &[u8] = b"\n#### ";

/// Begins a connection of a row. The title follows in the same way, and then its octets up to the
/// next mark.
pub(crate) const CONNECTION: &[u8] = b"\n==== ";

/// The connections of a row, in their order, as their text from the first title on.
#[derive(Clone, Copy)]
pub(crate) struct Connections<'a> {
    pub(crate) left: Option<&'a [u8]>,
}

/// A connection of a row, and those after it.
#[derive(Clone, Copy)]
pub(crate) struct Connection<'a> {
    pub(crate) title: &'a [u8],
    pub(crate) octets: &'a [u8],
    pub(crate) others: Connections<'a>,
}

/// The text before the first mark, and the text after it.
pub(crate) fn split_at_mark<'a>(text: &'a [u8], mark: &[u8]) -> (&'a [u8], Option<&'a [u8]>) {
    for at in 0..text.len() {
        let (front, rest) = text.split_at(at);
        if rest.starts_with(mark) {
            return (front, rest.get(mark.len()..));
        }
    }
    (text, None)
}

/// The first line without its line feed, and the text after it.
pub(crate) fn first_line(text: &[u8]) -> (&[u8], &[u8]) {
    for at in 0..text.len() {
        let (front, rest) = text.split_at(at);
        if let Some((b'\n', rest)) = rest.split_first() {
            return (front, rest);
        }
    }
    (text, &[])
}

impl<'a> Connections<'a> {
    /// The first connection; one without a title and without octets if there is none.
    pub(crate) fn first(self) -> Connection<'a> {
        let (title, rest) = first_line(self.left.unwrap_or_default());
        let (octets, left) = split_at_mark(rest, CONNECTION);
        Connection {
            title,
            octets,
            others: Connections { left },
        }
    }

    /// More than the number of the connections.
    pub(crate) fn most(self) -> usize {
        self.left.unwrap_or_default().len().saturating_add(1)
    }
}
