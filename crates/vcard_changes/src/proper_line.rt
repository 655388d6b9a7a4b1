//! Lines that are proper by themselves: their names are in upper case, and their parts match the
//! grammar (RFC 6350, section 3.3).
ghost use Rattle.std.specs.Prelude.{◌≡◌, ◌↔◌, ◌++◌, IfOk, IsTrue, codes, string_bytes};
ghost use Rattle.std.specs.Str.{str_to_ascii_uppercase};
ghost use Rattle.vcard_lines.specs.Grammar.{AllInClass, IsName, is_permitted};
ghost use Rattle.vcard_text.specs.Cards.{IsProperLine};
ghost use Rattle.vcard_text.specs.Making.{upper_line};
ghost use Rattle.vcard_changes.specs.Lines.{plain_line, extension_line};
ghost use Rattle.vcard_changes.specs.internal.ProperTests.{has_proper_parts, has_upper_name};

use std::alloc::Global;
use vcard_lines::{has_legal_parts, is_permitted_text, write_line};
use vcard_text::{Items, Line, NoMemory, Text};

/// The line with its name in upper case. Allocates nothing.
pub fn with_upper_name(line: Line) -> Line
    ensures { result ≡ upper_line line }
{
    let Line {
        group,
        name,
        params,
        value,
    } = line;
    let mut name = name.into_string();
    name.make_ascii_uppercase();
    Line {
        group,
        name: Text::new(name),
        params,
        value,
    }
}

/// Whether the name has no letter in lower case.
fn has_upper_name(line: &Line) -> bool
    ensures { result ≡ has_upper_name line.now }
{
    line.name
        .as_str()
        .as_bytes()
        .iter()
        .all(|octet| !matches!(*octet, b'a'..=b'z'))
}

/// Whether the name is in upper case, and the parts match the grammar.
fn has_proper_parts(line: &Line) -> bool
    ensures { result ≡ has_proper_parts line.now }
{
    has_upper_name(line) && has_legal_parts(line)
}

/// Whether the line is proper: its name is in upper case, its group, name and parameters match the
/// grammar, and it has no control character but the tab. The only `Err` is out of memory.
pub fn is_proper_line(alloc: Global, line: &Line) -> Result<bool, NoMemory>
    ensures { IfOk result (λ proper. IsTrue proper ↔ IsProperLine line.now) }
{
    let mut text = String::new(alloc);
    write_line(&mut text, line)?;
    if !is_permitted_text(text.as_str()) {
        return Ok(false);
    }
    Ok(has_proper_parts(line))
}

/// A line without group and parameters. The only `Err` is out of memory.
pub fn plain_line(alloc: Global, name: &str, value: String) -> Result<Line, NoMemory>
    ensures line { IfOk result (λ line. line ≡ plain_line name.now (string_bytes value)) }

    // It is proper if the name is a legal one in upper case, and the value has no control character
    // but the tab.
    ensures proper { IsName name.now → name.now ≡ str_to_ascii_uppercase name.now
        → AllInClass is_permitted (string_bytes value) → IfOk result IsProperLine }
{
    Ok(Line {
        group: None,
        name: Text::copy_of(alloc, name)?,
        params: Items::new(alloc),
        value: Text::new(value),
    })
}

/// The name with X- before it. The only `Err` is out of memory.
pub fn extension_name(alloc: Global, name: &str) -> Result<Text, NoMemory>
    ensures { IfOk result (λ aside. aside ≡ codes "X-" ++ name.now) }
{
    let mut aside = String::from_str(alloc, "X-")?;
    aside.push_str(name)?;
    Ok(Text::new(aside))
}

/// The line with X- before its name, for one that the card can't have. The only `Err` is out of
/// memory.
pub fn extension_line(alloc: Global, line: Line) -> Result<Line, NoMemory>
    ensures line { IfOk result (λ aside. aside ≡ extension_line line) }
    ensures proper { IsProperLine line → IfOk result IsProperLine }
{
    let Line {
        group,
        name,
        params,
        value,
    } = line;
    let name = extension_name(alloc, name.as_str())?;
    Ok(Line {
        group,
        name,
        params,
        value,
    })
}
