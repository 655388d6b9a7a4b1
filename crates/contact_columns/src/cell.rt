//! The text of a cell, and cells without a value.
ghost use Rattle.std.specs.Prelude.{◌≡◌, ◌++◌, IfOk, OnOk, string_bytes};
ghost use Rattle.std.specs.List.{list_all};
ghost use Rattle.std.specs.Str.{encode_utf8_all};
ghost use Rattle.contact_columns.specs.Cells.{clean_char, clean_text, cell_text};
ghost use Rattle.contact_columns.specs.Cells.{is_blank, is_void};

use base_types::{NoMemory, Text};
use import_text::read_text;
use std::alloc::Global;

/// Appends what a character of a cell becomes. `is_after_return` says that it comes right after a
/// carriage return, which ended a line, so that a line feed ends no other.
fn push_clean(text: &mut String, is_after_return: bool, c: char) -> Result<(), NoMemory>
    ensures { OnOk result (string_bytes text.new
        ≡ string_bytes text.old ++ encode_utf8_all (clean_char is_after_return c)) }
{
    if c == '\r' {
        text.push('\n')?;
    } else if c == '\n' {
        if !is_after_return {
            text.push(c)?;
        }
    } else if c == '\t' {
        text.push(c)?;
    } else if c.is_ascii_control() {
        text.push(' ')?;
    } else {
        text.push(c)?;
    }
    Ok(())
}

/// The text with what its characters become.
fn clean_text(alloc: Global, text: &str) -> Result<String, NoMemory>
    ensures { IfOk result (λ clean. string_bytes clean ≡ clean_text text.now) }
{
    let mut clean = String::new(alloc);
    let mut is_after_return = false;
    for c in text.chars() {
        push_clean(&mut clean, is_after_return, c)?;
        is_after_return = c == '\r';
    }
    Ok(clean)
}

/// The text of a cell, as `read_text` reads it. Line feeds are its only line ends, one for each CR
/// LF, CR or LF, and each other control character but the tab is a space. The only `Err` is out of
/// memory.
#[tactic(auto, unfolding(crate::specs::Cells::cell_text))]
pub fn cell_text(alloc: Global, octets: &[u8]) -> Result<Text, NoMemory>
    ensures { IfOk result (λ text. text ≡ cell_text octets.now) }
{
    let text = read_text(alloc, octets)?;
    Ok(Text::new(clean_text(alloc, text.as_str())?))
}

/// Whether the text is white space.
fn is_blank(text: &str) -> bool
    ensures { result ≡ list_all is_blank text.now }
{
    text.as_bytes().iter().all(|octet| *octet == b' ' || *octet == b'\t' || *octet == b'\n')
}

/// Whether the text is what the programs write where there is no value: white space, Google's `* `
/// for a preferred value without a label, or Outlook's `0/0/00` or `0.0.00` for no date.
pub fn is_void(text: &str) -> bool
    ensures { result ≡ is_void text.now }
{
    is_blank(text) || text == "* " || text == "0/0/00" || text == "0.0.00"
}
