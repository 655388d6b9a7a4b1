//! Addresses within an Exchange server, and those of SMTP that Outlook writes beside them.

use crate::row_lines::RowLines;
use base_types::{NoMemory, Text};
use contact_columns::Column;
use std::alloc::Global;
use vcard_lines::{Line, escape};

/// Whether the text is an address within an Exchange server, as `/o=ExchangeLabs/ou=..`. Nobody
/// outside can write to it.
pub(crate) fn is_exchange_address(text: &str) -> bool {
    match text.as_bytes().get(..3) {
        Some(front) => front.eq_ignore_ascii_case(b"/o="),
        None => false,
    }
}

fn is_address_char(c: char) -> bool {
    c.is_alphanumeric()
        || matches!(
            c,
            '.' | '-' | '_' | '+' | '@' | '\'' | '&' | '=' | '~' | '#'
        )
}

/// Whether the text has the form of an address of SMTP, as `pat@example.com`.
fn is_smtp_address(text: &str) -> bool {
    match text.split_once('@') {
        Some((local, domain)) => {
            !local.is_empty() && domain.contains(".") && text.chars().all(is_address_char)
        }
        None => false,
    }
}

/// The address in parentheses at the end of a name that is shown, as in `Pat Lee
/// (pat@example.com)`.
fn smtp_address(text: &str) -> Option<&str> {
    let (_, rest) = text.rsplit_once('(')?;
    let address = rest.trim_end().strip_suffix(")")?;
    if is_smtp_address(address) {
        Some(address)
    } else {
        None
    }
}

/// The address of SMTP in the name that is shown for the address at the index. Outlook has it in
/// one of the next two columns, in each language.
fn shown_address(cells: &[Text], place: usize) -> Option<&str> {
    let after = place.saturating_add(1);
    for cell in cells.get(after..).unwrap_or(&[]).iter().take(2) {
        if let Some(address) = smtp_address(cell.as_str()) {
            return Some(address);
        }
    }
    None
}

/// Whether the line has this address of electronic mail.
fn has_address(line: &Line, address: &str) -> bool {
    line.name.as_str() == "EMAIL" && line.value.as_str().eq_ignore_ascii_case(address)
}

/// Appends an address, unless a line has it.
fn push_address(alloc: Global, made: &mut RowLines, address: &str) -> Result<(), NoMemory> {
    let value = escape(alloc, address)?;
    for line in made.lines.as_slice() {
        if has_address(line, value.as_str()) {
            return Ok(());
        }
    }
    made.push_plain(alloc, "EMAIL", value)
}

/// Appends the addresses of SMTP that are shown for addresses within an Exchange server.
pub(crate) fn push_shown_addresses(
    alloc: Global,
    made: &mut RowLines,
    columns: &[Column],
    cells: &[Text],
) -> Result<(), NoMemory> {
    for (place, column) in columns.iter().enumerate() {
        let cell = match cells.get(place) {
            Some(cell) => cell.as_str(),
            None => "",
        };
        if column.property.as_str() == "EMAIL" && is_exchange_address(cell) {
            if let Some(address) = shown_address(cells, place) {
                push_address(alloc, made, address)?;
            }
        }
    }
    Ok(())
}
