//! Reads a property line (RFC 6350, section 3.3).
ghost use Rattle.std.specs.Prelude.{◌≡◌, ◌<◌, length, drop, take_while, option_map, [], Ok};
ghost use Rattle.std.specs.List.{list_all};
ghost use Rattle.vcard_lines.specs.ParseSteps.{ResultIs, strip_byte, or_bad_line};
ghost use Rattle.vcard_lines.specs.Grammar.{is_name_octet, is_value_octet, is_permitted};
ghost use Rattle.vcard_lines.specs.Parsing.{parse_name, param_value, parse_quoted};
ghost use Rattle.vcard_lines.specs.Parsing.{parse_param_value, parse_values, parse_param};
ghost use Rattle.vcard_lines.specs.Parsing.{parse_params, parse_head, parse_line, parse_parts};

use crate::fault::CardFault;
use crate::line::{Line, Param, ParamValue};
use base_types::{Items, Text};
use std::alloc::Global;

/// The text after a leading octet, or `None` if the text doesn't begin with it.
fn strip_byte(text: &str, octet: u8) -> Option<&str>
    requires { octet < 128 }
    ensures { option_map (λ rest. rest.now) result ≡ strip_byte octet text.now }
{
    match text.as_bytes().first() {
        Some(first) if *first == octet => Some(&text[1..]),
        _ => None,
    }
}

/// The text after a required leading octet. `BadLine` if the text doesn't begin with it.
fn expect_byte(text: &str, octet: u8) -> Result<&str, CardFault>
    requires { octet < 128 }
    ensures { ResultIs (λ rest. rest.now) result (or_bad_line (strip_byte octet text.now)) }
{
    match strip_byte(text, octet) {
        Some(rest) => Ok(rest),
        None => Err(CardFault::BadLine),
    }
}

pub(crate) fn is_name_octet(octet: u8) -> bool
    ensures { result ≡ is_name_octet octet }
{
    // Most octets of a name are letters, whose codes are above those of the others.
    if octet >= b'A' {
        matches!(octet, b'A'..=b'Z' | b'a'..=b'z')
    } else {
        matches!(octet, b'0'..=b'9' | b'-')
    }
}

pub(crate) fn is_value_octet(octet: u8, quoted: bool) -> bool
    ensures { result ≡ is_value_octet quoted octet }
{
    // Most octets have greater codes than all that end a value, so one comparison settles them.
    octet > b';' || !(octet == b'"' || !quoted && matches!(octet, b';' | b':' | b','))
}

fn is_permitted(octet: u8) -> bool
    ensures { result ≡ is_permitted octet }
{
    !(octet < 32 && octet != b'\t' || octet == 127)
}

/// Whether a text has no control character except the tab. The loop doesn't stop at the first such
/// character, so that many octets can be tested at once.
pub fn is_permitted_text(text: &str) -> bool
    ensures { result ≡ list_all is_permitted text.now }
{
    let mut permitted = true;
    for octet in text.as_bytes() {
        permitted &= is_permitted(*octet);
    }
    permitted
}

/// The number of leading octets of a name.
fn name_len(text: &str) -> usize
    ensures { result ≡ length (take_while is_name_octet text.now) }
{
    text.as_bytes()
        .iter()
        .take_while(|octet| is_name_octet(**octet))
        .count()
}

/// The number of leading octets of a parameter value.
fn value_len(text: &str, quoted: bool) -> usize
    ensures { result ≡ length (take_while (is_value_octet quoted) text.now) }
{
    text.as_bytes()
        .iter()
        .take_while(|octet| is_value_octet(**octet, quoted))
        .count()
}

/// The leading octets of a name, and the text after them.
fn split_name(text: &str) -> (&str, &str)
    ensures name { result.0.now ≡ take_while is_name_octet text.now }
    ensures rest { result.1.now ≡ drop (length (take_while is_name_octet text.now)) text.now }
{
    text.split_at(name_len(text))
}

/// The leading octets of a parameter value, and the text after them.
fn split_value(text: &str, quoted: bool) -> (&str, &str)
    ensures value { result.0.now ≡ take_while (is_value_octet quoted) text.now }
    ensures rest { result.1.now ≡ drop (length (take_while (is_value_octet quoted) text.now))
        text.now }
{
    text.split_at(value_len(text, quoted))
}

/// A name, and the text after it. `BadLine` if the name is empty.
#[tactic(auto, unfolding(crate::specs::Parsing::parse_name))]
fn read_name(text: &str) -> Result<(&str, &str), CardFault>
    ensures { ResultIs (λ read. (read.0.now, read.1.now)) result (parse_name text.now) }
{
    let (name, rest) = split_name(text);
    if name.is_empty() {
        return Err(CardFault::BadLine);
    }
    Ok((name, rest))
}

/// A value whose opening quote was read, borrowed, and the text after its closing quote.
#[tactic(auto, unfolding(crate::specs::Parsing::parse_quoted))]
fn find_quoted(text: &str) -> Result<(bool, &str, &str), CardFault>
    ensures { ResultIs (λ found. (param_value found.0 found.1.now, found.2.now)) result
        (parse_quoted text.now) }
{
    let (inside, rest) = split_value(text, true);
    let rest = expect_byte(rest, b'"')?;
    Ok((true, inside, rest))
}

/// Whether a value is in quotes, its text, borrowed, and the text after it.
#[tactic(auto, unfolding(crate::specs::Parsing::parse_param_value))]
fn find_value(text: &str) -> Result<(bool, &str, &str), CardFault>
    ensures { ResultIs (λ found. (param_value found.0 found.1.now, found.2.now)) result
        (parse_param_value text.now) }
{
    match strip_byte(text, b'"') {
        Some(inside) => find_quoted(inside),
        None => {
            let (value, rest) = split_value(text, false);
            Ok((false, value, rest))
        }
    }
}

/// A parameter value, and the text after it.
fn read_value(alloc: Global, text: &str) -> Result<(ParamValue, &str), CardFault>
    ensures { ResultIs (λ read. (read.0, read.1.now)) result (parse_param_value text.now) }
{
    let (quoted, inside, rest) = find_value(text)?;
    let text = Text::copy_of(alloc, inside)?;
    Ok((ParamValue { quoted, text }, rest))
}

/// Values separated by commas, and the text after them. Reserves room for one, since most
/// parameters have no more.
#[tactic(auto, unfolding(crate::specs::Parsing::parse_values))]
fn read_values(alloc: Global, text: &str) -> Result<(Items<ParamValue>, &str), CardFault>
    ensures { ResultIs (λ read. (read.0, read.1.now)) result (parse_values text.now) }
{
    let (value, mut rest) = read_value(alloc, text)?;
    let mut values = Items::from_vec(Vec::with_capacity(alloc, 1)?);
    values.push(value)?;
    while let Some(more) = strip_byte(rest, b',') {
        let (value, tail) = read_value(alloc, more)?;
        values.push(value)?;
        rest = tail;
    }
    Ok((values, rest))
}

/// A parameter, and the text after it.
#[tactic(auto, unfolding(crate::specs::Parsing::parse_param))]
fn read_param(alloc: Global, text: &str) -> Result<(Param, &str), CardFault>
    ensures { ResultIs (λ read. (read.0, read.1.now)) result (parse_param text.now) }
{
    let (name, rest) = read_name(text)?;
    let rest = expect_byte(rest, b'=')?;
    let (values, rest) = read_values(alloc, rest)?;
    let name = Text::copy_of(alloc, name)?;
    Ok((Param { name, values }, rest))
}

/// An empty list of parameters, with room for two if there is one, since most lines have no more.
fn empty_params(alloc: Global, text: &str) -> Result<Items<Param>, CardFault>
    ensures { ResultIs (λ params. params) result (Ok []) }
{
    let room = if strip_byte(text, b';').is_some() {
        2
    } else {
        0
    };
    Ok(Items::from_vec(Vec::with_capacity(alloc, room)?))
}

/// Parameters, each after a semicolon, and the text after them.
#[tactic(auto, unfolding(crate::specs::Parsing::parse_params))]
fn read_params(alloc: Global, text: &str) -> Result<(Items<Param>, &str), CardFault>
    ensures { ResultIs (λ read. (read.0, read.1.now)) result (parse_params text.now) }
{
    let mut params = empty_params(alloc, text)?;
    let mut rest = text;
    while let Some(more) = strip_byte(rest, b';') {
        let (param, tail) = read_param(alloc, more)?;
        params.push(param)?;
        rest = tail;
    }
    Ok((params, rest))
}

/// The group, if there is one, the name, and the text after it.
#[tactic(auto, unfolding(crate::specs::Parsing::parse_head, crate::specs::Parsing::parse_head_by))]
fn read_head(alloc: Global, text: &str) -> Result<(Option<Text>, &str, &str), CardFault>
    ensures { ResultIs (λ read. (read.0, read.1.now, read.2.now)) result (parse_head text.now) }
{
    let (first, rest) = read_name(text)?;
    match strip_byte(rest, b'.') {
        None => Ok((None, first, rest)),
        Some(more) => {
            let (name, rest) = read_name(more)?;
            let group = Text::copy_of(alloc, first)?;
            Ok((Some(group), name, rest))
        }
    }
}

/// The parts of a line.
#[tactic(auto, unfolding(crate::specs::Parsing::parse_parts))]
fn read_parts(alloc: Global, text: &str) -> Result<Line, CardFault>
    ensures { ResultIs (λ line. line) result (parse_parts text.now) }
{
    let (group, name, rest) = read_head(alloc, text)?;
    let (params, rest) = read_params(alloc, rest)?;
    let value = expect_byte(rest, b':')?;
    Ok(Line {
        group,
        name: Text::new(name.to_ascii_uppercase(alloc)?),
        params,
        value: Text::copy_of(alloc, value)?,
    })
}

/// Reads the property line that a logical line spells, with its name in upper case.
///
/// An `Err` is the first fault: `BadChar` if the text has a control character other than the tab,
/// and otherwise `BadLine` if it doesn't match the grammar. `Memory` replaces any result if an
/// allocation fails.
#[tactic(auto, unfolding(crate::specs::Parsing::parse_line))]
pub fn read_line(alloc: Global, text: &str) -> Result<Line, CardFault>
    ensures { ResultIs (λ line. line) result (parse_line text.now) }
{
    if !is_permitted_text(text) {
        return Err(CardFault::BadChar);
    }
    read_parts(alloc, text)
}
