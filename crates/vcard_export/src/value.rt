//! The value of a property in vCard 3.0.
ghost use Rattle.std.specs.Prelude.{◌≡◌, ◌++◌, OnOk, codes, encode_utf8, flat_map, string_bytes};
ghost use Rattle.vcard_export.specs.OlderValues.{added_params, day_text, older_value};
ghost use Rattle.vcard_export.specs.OlderValues.{picture_type, restates};
ghost use Rattle.vcard_export.specs.OlderValues.{yearless_text};

use crate::form::{Form, Picture, has_value_type, picture_prefix};
use crate::prefix::without_prefix;
use crate::spelling::{Spelling, push_spelled};
use vcard_text::{Line, NoMemory};

/// The name of the format in TYPE.
fn picture_type(picture: Picture) -> &'static str
    ensures { result.now ≡ picture_type picture }
{
    match picture {
        Picture::Jpeg => "JPEG",
        Picture::Png => "PNG",
        Picture::Gif => "GIF",
    }
}

/// Appends octets as characters.
fn push_octets(out: &mut String, octets: &[u8]) -> Result<(), NoMemory>
    ensures { OnOk result (string_bytes out.new
        ≡ string_bytes out.old ++ flat_map encode_utf8 octets.now) }
{
    for octet in octets {
        out.push(char::from(*octet))?;
    }
    Ok(())
}

/// Appends a date with hyphens.
fn push_day(out: &mut String, value: &str) -> Result<(), NoMemory>
    ensures { OnOk result (string_bytes out.new ≡ string_bytes out.old ++ day_text value.now) }
{
    match value.as_bytes() {
        [a, b, c, d, e, f, g, h] => {
            push_octets(out, &[*a, *b, *c, *d, b'-', *e, *f, b'-', *g, *h])
        }
        _ => Ok(()),
    }
}

/// Appends a date without a year with the year that stands for none.
fn push_yearless(out: &mut String, value: &str) -> Result<(), NoMemory>
    ensures { OnOk result (string_bytes out.new
        ≡ string_bytes out.old ++ yearless_text value.now) }
{
    match value.as_bytes() {
        [_, _, a, b, c, d] => {
            out.push_str("1604-")?;
            push_octets(out, &[*a, *b, b'-', *c, *d])
        }
        _ => Ok(()),
    }
}

/// Appends the value of that form.
pub(crate) fn push_value(out: &mut String, form: Form, value: &str) -> Result<(), NoMemory>
    ensures { OnOk result (string_bytes out.new
        ≡ string_bytes out.old ++ older_value form value.now) }
{
    match form {
        Form::Number => push_spelled(out, without_prefix(value, "tel:"), Spelling::Uri),
        Form::Day => push_day(out, value),
        Form::Yearless => push_yearless(out, value),
        Form::Place => push_spelled(out, without_prefix(value, "geo:"), Spelling::Place),
        Form::Inline(picture) => {
            out.push_str(without_prefix(value, picture_prefix(picture)))?;
            Ok(())
        }
        Form::Reference | Form::Uri => push_spelled(out, value, Spelling::Uri),
        Form::Whole => push_spelled(out, value, Spelling::Whole),
        Form::Listed => push_spelled(out, value, Spelling::Listed),
    }
}

/// Whether the value no longer is what the parameter VALUE says.
pub(crate) fn restates(form: Form) -> bool
    ensures { result ≡ restates form }
{
    match form {
        Form::Number | Form::Day | Form::Yearless | Form::Place | Form::Inline(_) => true,
        Form::Reference | Form::Uri | Form::Whole | Form::Listed => false,
    }
}

/// Appends the encoding and the format of a picture.
fn push_encoding(out: &mut String, picture: Picture) -> Result<(), NoMemory>
    ensures { OnOk result (string_bytes out.new
        ≡ string_bytes out.old ++ (codes ";ENCODING=b;TYPE=" ++ picture_type picture)) }
{
    out.push_str(";ENCODING=b;TYPE=")?;
    out.push_str(picture_type(picture))?;
    Ok(())
}

/// Appends the parameters that vCard 3.0 needs for the form of the value.
pub(crate) fn push_added_params(out: &mut String, form: Form, line: &Line) -> Result<(), NoMemory>
    ensures { OnOk result (string_bytes out.new
        ≡ string_bytes out.old ++ added_params form line.now) }
{
    match form {
        Form::Yearless => out.push_str(";X-APPLE-OMIT-YEAR=1604")?,
        Form::Inline(picture) => push_encoding(out, picture)?,
        Form::Reference if !has_value_type(line) => out.push_str(";VALUE=uri")?,
        _ => {}
    }
    Ok(())
}
