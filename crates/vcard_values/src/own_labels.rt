//! Labels of one's own, as Samsung's telephones write them.
ghost use Rattle.std.specs.Prelude.{◌≡◌, IfOk, drop, string_bytes, true};
ghost use Rattle.std.specs.List.{list_all};
ghost use Rattle.std.specs.Str.{is_utf8};
ghost use Rattle.vcard_values.specs.OwnLabels.{is_label_octet, is_label_text, is_own_label};
ghost use Rattle.vcard_values.specs.OwnLabels.{label_type, own_label, own_label_type};

use crate::cuts::before;
use base_types::{NoMemory, Text};
use import_text::{begins_with_word, read_quoted_printable};
use std::alloc::Global;
use vcard_lines::ParamValue;

/// What a parameter begins with that is a label of one's own.
const LABEL_FRONT: &[u8] = b"X-CUSTOM(CHARSET=UTF-8,ENCODING=QUOTED-PRINTABLE,";

/// Whether the parameter is a label of one's own.
pub(crate) fn is_own_label(part: &[u8]) -> bool
    ensures { result ≡ is_own_label part.now }
{
    begins_with_word(part, LABEL_FRONT)
}

/// The octets from the one at the place on.
fn octets_from(octets: &[u8], place: usize) -> &[u8]
    ensures { result.now ≡ drop place octets.now }
{
    octets.get(place..).unwrap_or(&[])
}

/// The octets of the label.
fn own_label(alloc: Global, part: &[u8]) -> Result<Vec<u8>, NoMemory>
    ensures { IfOk result (λ label. label.items ≡ own_label part.now) }
{
    read_quoted_printable(alloc, before(octets_from(part, LABEL_FRONT.len()), b')'))
}

/// Whether the octet stands for itself in double quotes.
fn is_label_octet(octet: u8) -> bool
    ensures { result ≡ is_label_octet octet }
{
    32 <= octet && octet != 127 && octet != b'"' && octet != b'^'
}

fn are_label_octets(label: &[u8]) -> bool
    ensures { result ≡ list_all is_label_octet label.now }
{
    label.iter().all(|octet| is_label_octet(*octet))
}

fn is_utf8(octets: &[u8]) -> bool
    ensures { result ≡ is_utf8 octets.now }
{
    match str::from_utf8(octets) {
        Ok(_) => true,
        Err(_) => false,
    }
}

/// Whether the octets are a text that stands for itself in double quotes.
fn is_label_text(label: &[u8]) -> bool
    ensures { result ≡ is_label_text label.now }
{
    is_utf8(label) && !label.is_empty() && are_label_octets(label)
}

/// The text of octets in UTF-8.
#[tactic(auto, using(crate::proofs::LabelLemmas::label_is_text))]
fn text_of(alloc: Global, label: &[u8]) -> Result<String, NoMemory>
    ensures { is_utf8 label.now ≡ true
        → IfOk result (λ text. string_bytes text ≡ label.now) }
{
    Ok(String::from_utf8_lossy(alloc, label)?)
}

/// The label as a value of TYPE, if it is a text that stands for itself in double quotes.
fn label_type(alloc: Global, label: &[u8]) -> Result<Option<ParamValue>, NoMemory>
    ensures { IfOk result (λ found. found ≡ label_type label.now) }
{
    if !is_label_text(label) {
        return Ok(None);
    }
    let text = Text::new(text_of(alloc, label)?);
    Ok(Some(ParamValue { quoted: true, text }))
}

/// The value of TYPE for a parameter that is a label of one's own. `None` if it is none, or if
/// its text doesn't stand for itself in double quotes. The only `Err` is out of memory.
pub fn own_label_type(alloc: Global, part: &[u8]) -> Result<Option<ParamValue>, NoMemory>
    ensures { IfOk result (λ found. found ≡ own_label_type part.now) }
{
    if !is_own_label(part) {
        return Ok(None);
    }
    let label = own_label(alloc, part)?;
    label_type(alloc, label.as_slice())
}
