//! How the lines of a file of rows end.

/// Whether a quote that begins a cell may stand after this octet.
fn is_before_cell(octet: u8) -> bool {
    matches!(
        octet,
        b',' | b';' | b'\t' | b'|' | b'\r' | b'\n' | b'"' | b'\xBF'
    )
}

/// The place of the first octet that ends a line. One in a cell in quotes counts only if the quote
/// isn't closed, or not before the end of its cell. The last octet of a byte order mark may be
/// before a cell, too.
pub(crate) fn first_end_place(octets: &[u8]) -> Option<usize> {
    let mut is_quoted = false;
    let mut quoted: Option<usize> = None;
    let mut before = b'\n';
    for (place, octet) in octets.iter().enumerate() {
        let octet = *octet;
        if octet == b'"' && is_quoted {
            let after = octets.get(place.saturating_add(1)).copied();
            if quoted.is_some() && !is_before_cell(after.unwrap_or(b'\n')) {
                return quoted;
            }
            is_quoted = false;
        } else if octet == b'"' && is_before_cell(before) {
            is_quoted = true;
            // The second of two quotes is one of the cell's own.
            if before != b'"' {
                quoted = None;
            }
        } else if octet == b'\n' || octet == b'\r' {
            if !is_quoted {
                return Some(place);
            }
            quoted = quoted.or(Some(place));
        }
        before = octet;
    }
    quoted
}

/// Whether the first line ends with a carriage return, and no line feed comes after it. `None` if
/// the octets don't show it. A line end in quotes belongs to a cell.
pub(crate) fn first_end(octets: &[u8]) -> Option<bool> {
    let place = first_end_place(octets)?;
    let end = octets.get(place..).unwrap_or(&[]);
    let returns = end.iter().position(|octet| *octet != b'\r')?;
    Some(returns > 0 && end.get(returns).copied() != Some(b'\n'))
}

/// Whether the lines of a file of rows end with a carriage return alone: so its first line does,
/// and no line feed comes after it. `head` is the beginning of the file.
pub fn rows_end_with_returns(head: &[u8]) -> bool {
    first_end(head) == Some(true)
}

/// Makes a line feed of each carriage return, but not of those of CR LF and CR CR LF.
pub fn end_rows(octets: &mut [u8]) {
    for place in 0..octets.len() {
        let rest = octets.get(place..).unwrap_or(&[]);
        let is_before_feed = rest.starts_with(b"\r\n") || rest.starts_with(b"\r\r\n");
        if let Some(octet) = octets.get_mut(place) {
            if *octet == b'\r' && !is_before_feed {
                *octet = b'\n';
            }
        }
    }
}

/// Drops each carriage return before CR LF, as where a program wrote CR LF for the LF of a CR LF.
pub(crate) fn drop_returns(octets: &mut Vec<u8>) {
    let mut kept: usize = 0;
    for place in 0..octets.len() {
        let rest = octets.get(place..).unwrap_or(&[]);
        if rest.starts_with(b"\r\r\n") {
            continue;
        }
        let octet = rest.first().copied().unwrap_or(0);
        if let Some(room) = octets.as_mut_slice().get_mut(kept) {
            *room = octet;
        }
        kept = kept.saturating_add(1);
    }
    octets.truncate(kept);
}
