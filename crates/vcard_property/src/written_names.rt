//! The name and the group of a line, as its octets have them.
ghost use Rattle.std.specs.Prelude.{◌≡◌, IfOk, string_bytes, true};
ghost use Rattle.std.specs.List.{list_all};
ghost use Rattle.std.specs.Str.{str_to_ascii_uppercase};
ghost use Rattle.vcard_lines.specs.Grammar.{is_name_octet};
ghost use Rattle.vcard_lines.specs.LegalParts.{is_name};
ghost use Rattle.vcard_property.specs.Names.{bare_name, group_of, has_clear_name, has_clear_uri};
ghost use Rattle.vcard_property.specs.Names.{has_group, has_legal_name, is_agent};

use std::alloc::Global;
use vcard_text::{NoMemory, Text};
use vcard_values::{after, before, has_clear_form, has_octet, written_name};

/// Whether the octets are letters, digits and hyphens.
fn are_name_octets(octets: &[u8]) -> bool
    ensures { result ≡ list_all is_name_octet octets.now }
{
    octets
        .iter()
        .all(|octet| octet.is_ascii_alphanumeric() || *octet == b'-')
}

/// Whether the octets are a legal name.
fn is_name(octets: &[u8]) -> bool
    ensures { result ≡ is_name octets.now }
{
    !octets.is_empty() && are_name_octets(octets)
}

/// Whether there is a group before the name.
fn has_group(line: &[u8]) -> bool
    ensures { result ≡ has_group line.now }
{
    has_octet(written_name(line), b'.')
}

/// The name without its group.
fn bare_name(line: &[u8]) -> &[u8]
    ensures { result.now ≡ bare_name line.now }
{
    if has_group(line) {
        after(written_name(line), b'.')
    } else {
        written_name(line)
    }
}

/// Whether the name and the group, if there is one, are legal.
fn has_legal_name(line: &[u8]) -> bool
    ensures { result ≡ has_legal_name line.now }
{
    is_name(bare_name(line)) && (!has_group(line) || is_name(before(written_name(line), b'.')))
}

/// Whether it is clear whether the value is a URI.
fn has_clear_uri(line: &[u8]) -> bool
    ensures { result ≡ has_clear_uri line.now }
{
    has_clear_form(line) && !has_octet(before(line, b':'), b'"')
}

/// Whether the name is AGENT.
pub(crate) fn is_agent(line: &[u8]) -> bool
    ensures { result ≡ is_agent line.now }
{
    bare_name(line).eq_ignore_ascii_case(b"AGENT")
}

/// Whether the name that the line gets is clear from its octets.
pub(crate) fn has_clear_name(line: &[u8]) -> bool
    ensures { result ≡ has_clear_name line.now }
{
    has_octet(line, b':') && has_legal_name(line) && (!is_agent(line) || has_clear_uri(line))
}

/// The text of a legal name.
#[tactic(auto, using(crate::proofs::NameLemmas::name_is_text))]
fn name_text(alloc: Global, octets: &[u8]) -> Result<String, NoMemory>
    ensures { is_name octets.now ≡ true → IfOk result (λ name. string_bytes name ≡ octets.now) }
{
    Ok(String::from_utf8_lossy(alloc, octets)?)
}

/// The name of the line in upper case, without its group.
pub(crate) fn upper_name_of(alloc: Global, line: &[u8]) -> Result<Text, NoMemory>
    ensures { has_clear_name line.now ≡ true → IfOk result (λ name.
        name ≡ str_to_ascii_uppercase (bare_name line.now)) }
{
    let mut name = name_text(alloc, bare_name(line))?;
    name.make_ascii_uppercase();
    Ok(Text::new(name))
}

/// The group of the line, if it has one.
pub(crate) fn group_of(alloc: Global, line: &[u8]) -> Result<Option<Text>, NoMemory>
    ensures { has_clear_name line.now ≡ true → IfOk result (λ group. group ≡ group_of line.now) }
{
    if !has_group(line) {
        return Ok(None);
    }
    let group = name_text(alloc, before(written_name(line), b'.'))?;
    Ok(Some(Text::new(group)))
}
