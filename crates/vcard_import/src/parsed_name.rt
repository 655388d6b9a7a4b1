//! The formatted name of a card that has none, from its other properties.
ghost use Rattle.std.specs.Prelude.{◌≡◌, [], true, IfOk, codes, string_bytes};
ghost use Rattle.std.specs.Str.{trim};
ghost use Rattle.vcard_lines.specs.Grammar.{AllInClass, is_permitted};
ghost use Rattle.vcard_text.specs.Cards.{line_is_named};

use crate::rules::is_named;
use std::alloc::Global;
use vcard_property::text_value;
use vcard_text::{Line, NoMemory, components};

/// Appends a word, after a space if there is one before it.
fn push_word(name: &mut String, word: &str) -> Result<(), NoMemory> {
    let word = word.trim();
    if word.is_empty() {
        return Ok(());
    }
    if !name.is_empty() {
        name.push(' ')?;
    }
    name.push_str(word)?;
    Ok(())
}

/// The component at the index, or an empty text.
fn part(parts: &[String], place: usize) -> &str {
    match parts.get(place) {
        Some(part) => part.as_str(),
        None => "",
    }
}

/// The name that the components of N give: prefixes, given, additional and family names, suffixes
/// (RFC 6350, section 6.2.2).
fn name_of_parts(alloc: Global, parts: &[String]) -> Result<String, NoMemory> {
    let mut name = String::new(alloc);
    for place in [3usize, 1, 2, 0, 4] {
        push_word(&mut name, part(parts, place))?;
    }
    Ok(name)
}

/// The value with spaces in place of the commas between the items of its lists. A comma after a
/// backslash is one of the text.
fn with_spaces(alloc: Global, value: &str) -> Result<String, NoMemory> {
    let mut spaced = String::new(alloc);
    let mut is_escaped = false;
    for c in value.chars() {
        spaced.push(if c == ',' && !is_escaped { ' ' } else { c })?;
        is_escaped = c == '\\' && !is_escaped;
    }
    Ok(spaced)
}

/// The name that the value of N gives: its words with a space between them.
fn name_of_n(alloc: Global, value: &str) -> Result<String, NoMemory> {
    let value = with_spaces(alloc, value)?;
    let parts = components(alloc, value.as_str())?;
    let text = name_of_parts(alloc, parts.as_slice())?;
    let mut name = String::new(alloc);
    for word in text.as_str().split(' ') {
        push_word(&mut name, word)?;
    }
    Ok(name)
}

/// The name that a line gives: all components of N, and the first of any other.
fn name_of_line(alloc: Global, line: &Line) -> Result<String, NoMemory> {
    if line.name.as_str() == "N" {
        return name_of_n(alloc, line.value.as_str());
    }
    let parts = components(alloc, line.value.as_str())?;
    let mut name = String::new(alloc);
    push_word(&mut name, part(parts.as_slice(), 0))?;
    Ok(name)
}

/// The first nonempty name that a line of that name gives.
fn name_from(alloc: Global, lines: &[Line], source: &str) -> Result<Option<String>, NoMemory> {
    for line in lines {
        if line.name.as_str() == source {
            let name = name_of_line(alloc, line)?;
            if !name.is_empty() {
                return Ok(Some(name));
            }
        }
    }
    Ok(None)
}

/// The formatted name of a card without FN: from N, or else from NICKNAME, ORG, EMAIL or TEL. It is
/// empty if none of them gives one.
fn name_of_lines(alloc: Global, lines: &[Line]) -> Result<String, NoMemory> {
    for source in ["N", "NICKNAME", "ORG", "EMAIL", "TEL"] {
        if let Some(name) = name_from(alloc, lines, source)? {
            return Ok(name);
        }
    }
    Ok(String::new(alloc))
}

/// The formatted name of a card without FN, as a value: its escapes are those of vCard 4.0.
pub(crate) fn name_value(alloc: Global, lines: &[Line]) -> Result<String, NoMemory>
    ensures { IfOk result (λ name. AllInClass is_permitted (string_bytes name)) }
{
    let name = name_of_lines(alloc, lines)?;
    text_value(alloc, name.as_str())
}

/// Whether the line is an FN that has no name.
pub(crate) fn is_empty_name(line: &Line) -> bool
    ensures named { result ≡ true → line_is_named (codes "FN") line.now ≡ true }
    ensures blank { result ≡ true → trim line.now.value ≡ [] }
{
    is_named(line, "FN") && line.value.as_str().trim().is_empty()
}

/// The formatted name for the empty FN lines of a card, if it has no other FN. Empty if it needs
/// none.
pub(crate) fn name_for_empty(alloc: Global, lines: &[Line]) -> Result<String, NoMemory> {
    let mut has_empty = false;
    for line in lines {
        if is_empty_name(line) {
            has_empty = true;
        } else if line.name.as_str() == "FN" {
            return Ok(String::new(alloc));
        }
    }
    if !has_empty {
        return Ok(String::new(alloc));
    }
    name_of_lines(alloc, lines)
}
