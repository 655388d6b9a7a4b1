//! Whether there is something in a value, and in a line.
ghost use Rattle.std.specs.Prelude.{◌≡◌};
ghost use Rattle.vcard_property.specs.Contents.{has_content, has_full_label, has_text};
ghost use Rattle.vcard_property.specs.Contents.{is_content, is_emptied, is_full};
ghost use Rattle.vcard_property.specs.Contents.{is_full_label, line_has_content};

use crate::labels::is_label;
use vcard_text::{Line, Param, ParamValue};
use vcard_values::after;

/// Whether the octet is one of a visible character that doesn't part values, in ASCII or beyond.
fn is_content(octet: u8) -> bool
    ensures { result ≡ is_content octet }
{
    (octet.is_ascii_graphic() || octet >= 128) && !(octet == b',' || octet == b';')
}

/// Whether there is something in the value.
fn has_content(value: &[u8]) -> bool
    ensures { result ≡ has_content value.now }
{
    value.iter().any(|octet| is_content(*octet))
}

/// Whether there is something in a value of a parameter.
fn has_text(value: &ParamValue) -> bool
    ensures { result ≡ has_text value.now }
{
    has_content(value.text.as_str().as_bytes())
}

/// Whether there is something in the parameter.
fn is_full(param: &Param) -> bool
    ensures { result ≡ is_full param.now }
{
    param.values.as_slice().iter().any(has_text)
}

/// Whether the parameter is a label, and there is something in it.
fn is_full_label(param: &Param) -> bool
    ensures { result ≡ is_full_label param.now }
{
    is_label(param) && is_full(param)
}

/// Whether the line has such a label.
fn has_full_label(line: &Line) -> bool
    ensures { result ≡ has_full_label line.now }
{
    line.params.as_slice().iter().any(is_full_label)
}

/// Whether there is something in the value of the line, or in its label.
fn line_has_content(line: &Line) -> bool
    ensures { result ≡ line_has_content line.now }
{
    has_content(line.value.as_str().as_bytes()) || has_full_label(line)
}

/// Whether there is something after the first colon of the octets, and nothing in the line.
pub(crate) fn is_emptied(octets: &[u8], line: &Line) -> bool
    ensures { result ≡ is_emptied octets.now line.now }
{
    has_content(after(octets, b':')) && !line_has_content(line)
}
