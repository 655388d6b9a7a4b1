//! The types of a property, as the octets of its line have them.
ghost use Rattle.std.specs.Prelude.{◌≡◌, ◌==◌, ◌++◌, IfOk, OnOk, flat_map, map, true};
ghost use Rattle.std.specs.Prelude.{string_bytes};
ghost use Rattle.std.specs.Char.{is_ascii_graphic};
ghost use Rattle.std.specs.List.{list_all, slice_split};
ghost use Rattle.std.specs.Str.{str_to_ascii_lowercase};
ghost use Rattle.base_types.specs.Octets.{comma, semicolon};
ghost use Rattle.vcard_values.specs.OwnLabels.{own_label_type, values_in};
ghost use Rattle.vcard_values.specs.Types.{has_clear_types, is_encoding_word, is_place_word};
ghost use Rattle.vcard_values.specs.Types.{is_pref, is_preferred, is_type, part_prefers, part_types};
ghost use Rattle.vcard_values.specs.Types.{types_of, types_text, word_types};

use crate::cuts::has_octet;
use crate::forms::{head, params};
use crate::own_labels::{is_own_label, own_label_type};
use base_types::{Items, NoMemory, Text};
use import_text::begins_with_word;
use std::alloc::{AllocError, Global};
use vcard_lines::ParamValue;

/// The types of a property.
#[derive(Drop)]
pub struct Types {
    /// The values of TYPE in lower case, without `pref`.
    pub values: Items<ParamValue>,
    /// Whether `pref` was among them.
    pub is_preferred: bool,
}

fn are_graphic(octets: &[u8]) -> bool
    ensures { result ≡ list_all is_ascii_graphic octets.now }
{
    octets.iter().all(|octet| octet.is_ascii_graphic())
}

/// Whether the types are clear from the octets of the line.
pub fn has_clear_types(line: &[u8]) -> bool
    ensures { result ≡ has_clear_types line.now }
{
    are_graphic(head(line)) && !has_octet(head(line), b'"')
}

/// Whether the word says how the value is encoded.
fn is_encoding_word(word: &[u8]) -> bool
    ensures { result ≡ is_encoding_word word.now }
{
    word.eq_ignore_ascii_case(b"QUOTED-PRINTABLE")
        || word.eq_ignore_ascii_case(b"BASE64")
        || word.eq_ignore_ascii_case(b"B")
        || word.eq_ignore_ascii_case(b"8BIT")
        || word.eq_ignore_ascii_case(b"7BIT")
}

/// Whether the word says where the value is.
fn is_place_word(word: &[u8]) -> bool
    ensures { result ≡ is_place_word word.now }
{
    word.eq_ignore_ascii_case(b"URL") || word.eq_ignore_ascii_case(b"INLINE")
}

/// The types of a parameter, with commas between them.
fn types_text(part: &[u8]) -> &[u8]
    ensures { result.now ≡ types_text part.now }
{
    if begins_with_word(part, b"TYPE=") {
        let (_, types) = part.split_at(5);
        return types;
    }
    if has_octet(part, b'=') || is_encoding_word(part) || is_place_word(part) {
        let (none, _) = part.split_at(0);
        return none;
    }
    part
}

/// The octets between commas.
fn split_commas(alloc: Global, octets: &[u8]) -> Result<Vec<&[u8]>, AllocError>
    ensures { IfOk result (λ parts. map (λ part. part.now) parts.items
        ≡ slice_split (λ octet. octet == comma) octets.now) }
{
    octets.split(|octet| *octet == b',').collect(alloc)
}

/// The octets between semicolons.
pub(crate) fn split_semicolons(alloc: Global, octets: &[u8]) -> Result<Vec<&[u8]>, AllocError>
    ensures { IfOk result (λ parts. map (λ part. part.now) parts.items
        ≡ slice_split (λ octet. octet == semicolon) octets.now) }
{
    octets.split(|octet| *octet == b';').collect(alloc)
}

fn is_pref(word: &[u8]) -> bool
    ensures { result ≡ is_pref word.now }
{
    word.eq_ignore_ascii_case(b"PREF")
}

fn is_type(word: &[u8]) -> bool
    ensures { result ≡ is_type word.now }
{
    !word.is_empty() && are_graphic(word) && !is_pref(word)
}

/// The word in lower case.
#[tactic(auto, using(crate::proofs::TypeLemmas::graphic_is_text))]
fn lower_word(alloc: Global, word: &[u8]) -> Result<String, NoMemory>
    ensures { list_all is_ascii_graphic word.now ≡ true
        → IfOk result (λ lower. string_bytes lower ≡ str_to_ascii_lowercase word.now) }
{
    let mut lower = String::from_utf8_lossy(alloc, word)?;
    lower.make_ascii_lowercase();
    Ok(lower)
}

/// Appends the word, if it is a type.
fn push_type(alloc: Global, types: &mut Items<ParamValue>, word: &[u8]) -> Result<(), NoMemory>
    ensures { OnOk result (types.new ≡ types.old ++ word_types word.now) }
{
    if !is_type(word) {
        return Ok(());
    }
    let text = Text::new(lower_word(alloc, word)?);
    types.push(ParamValue {
        quoted: false,
        text,
    })?;
    Ok(())
}

/// Appends the words that are types.
fn push_types(alloc: Global, types: &mut Items<ParamValue>, words: &[&[u8]]) -> Result<(), NoMemory>
    ensures { OnOk result (types.new
        ≡ types.old ++ flat_map word_types (map (λ word. word.now) words.now)) }
{
    for word in words {
        push_type(alloc, types, *word)?;
    }
    Ok(())
}

/// Appends the type that a label of one's own is, if it is one.
fn push_own_label(alloc: Global, types: &mut Items<ParamValue>, part: &[u8]) -> Result<(), NoMemory>
    ensures { OnOk result (types.new ≡ types.old ++ values_in (own_label_type part.now)) }
{
    if let Some(value) = own_label_type(alloc, part)? {
        types.push(value)?;
    }
    Ok(())
}

/// Appends the types that a parameter has.
fn push_part(alloc: Global, types: &mut Items<ParamValue>, part: &[u8]) -> Result<(), NoMemory>
    ensures { OnOk result (types.new ≡ types.old ++ part_types part.now) }
{
    if is_own_label(part) {
        return push_own_label(alloc, types, part);
    }
    let words = split_commas(alloc, types_text(part))?;
    push_types(alloc, types, words.as_slice())
}

/// Appends the types that the parameters have.
fn push_parts(alloc: Global, types: &mut Items<ParamValue>, parts: &[&[u8]]) -> Result<(), NoMemory>
    ensures { OnOk result (types.new
        ≡ types.old ++ flat_map part_types (map (λ part. part.now) parts.now)) }
{
    for part in parts {
        push_part(alloc, types, *part)?;
    }
    Ok(())
}

/// The values of TYPE that the line has.
fn values_of(alloc: Global, line: &[u8]) -> Result<Items<ParamValue>, NoMemory>
    ensures { IfOk result (λ types. types ≡ types_of line.now) }
{
    let parts = split_semicolons(alloc, params(line))?;
    let mut types = Items::new(alloc);
    push_parts(alloc, &mut types, parts.as_slice())?;
    Ok(types)
}

/// Whether a word of the parameter says that the property is the preferred one.
fn part_prefers(part: &[u8]) -> bool
    ensures { result ≡ part_prefers part.now }
{
    types_text(part)
        .split(|octet| *octet == b',')
        .any(|word| is_pref(word))
}

/// Whether a parameter of the line says so.
fn is_preferred(line: &[u8]) -> bool
    ensures { result ≡ is_preferred line.now }
{
    params(line)
        .split(|octet| *octet == b';')
        .any(|part| part_prefers(part))
}

/// The types of the property of the line.
pub fn types_of(alloc: Global, line: &[u8]) -> Result<Types, NoMemory>
    ensures values { IfOk result (λ types. types.values ≡ types_of line.now) }
    ensures pref { IfOk result (λ types. types.is_preferred ≡ is_preferred line.now) }
{
    Ok(Types {
        values: values_of(alloc, line)?,
        is_preferred: is_preferred(line),
    })
}
