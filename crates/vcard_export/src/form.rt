//! What a value is, and so how vCard 3.0 writes it.
ghost use Rattle.std.specs.Prelude.{◌≡◌, count_by};
ghost use Rattle.std.specs.List.{list_all};
ghost use Rattle.base_types.specs.Octets.{is_digit};
ghost use Rattle.vcard_export.specs.Forms.{form_of, has_only, has_value_type, is_comma, is_day};
ghost use Rattle.vcard_export.specs.Forms.{is_param, is_place, is_place_octet, is_text_instead};
ghost use Rattle.vcard_export.specs.Forms.{is_word, is_yearless, names_type, picture_form};
ghost use Rattle.vcard_export.specs.Forms.{picture_prefix, says_type, text_form};

use crate::names::{is_date_name, is_named, is_picture_name, is_uri_name, is_whole_name};
use crate::prefix::{begins_with, without_prefix};
use vcard_text::{Line, Param, ParamValue};

/// The format of a picture that is within the card.
#[derive(Clone, Copy)]
pub(crate) enum Picture {
    Jpeg,
    Png,
    Gif,
}

/// What a value is.
#[derive(Clone, Copy)]
pub(crate) enum Form {
    /// A `tel:` URI, which becomes the number.
    Number,
    /// A date, which gets hyphens.
    Day,
    /// A date without a year, which gets the year 1604 and a parameter that says so.
    Yearless,
    /// A `geo:` URI of two coordinates.
    Place,
    /// A picture within the card, as a `data:` URI of base64.
    Inline(Picture),
    /// Another picture, sound or key.
    Reference,
    /// Another URI, or a value in which nothing is escaped.
    Uri,
    /// A text without lists, in which a comma is a part of it. That of ORG has components.
    Whole,
    /// Any other text.
    Listed,
}

/// Whether the parameter has the name, in any case.
pub(crate) fn is_param(param: &Param, name: &str) -> bool
    ensures { result ≡ is_param name.now param.now }
{
    param.name.as_str().eq_ignore_ascii_case(name)
}

/// Whether each of the values is the word, in any case.
fn are_word(values: &[ParamValue], word: &str) -> bool
    ensures { result ≡ list_all (is_word word.now) values.now }
{
    values
        .iter()
        .all(|value| value.text.as_str().eq_ignore_ascii_case(word))
}

/// Whether the parameter has one value, which is the word in any case.
pub(crate) fn has_only(param: &Param, word: &str) -> bool
    ensures { result ≡ has_only word.now param.now }
{
    let values = param.values.as_slice();
    values.len() == 1 && are_word(values, word)
}

/// Whether the parameter is VALUE, and the type of values that it names is the word.
fn names_type(param: &Param, word: &str) -> bool
    ensures { result ≡ names_type word.now param.now }
{
    is_param(param, "VALUE") && has_only(param, word)
}

/// Whether a parameter says that the value is of that type, as `uri` or `text`.
fn says_type(line: &Line, word: &str) -> bool
    ensures { result ≡ says_type word.now line.now }
{
    line.params
        .as_slice()
        .iter()
        .any(|param| names_type(param, word))
}

/// Whether a parameter says what the value is.
pub(crate) fn has_value_type(line: &Line) -> bool
    ensures { result ≡ has_value_type line.now }
{
    line.params
        .as_slice()
        .iter()
        .any(|param| is_param(param, "VALUE"))
}

fn are_digits(text: &str) -> bool
    ensures { result ≡ list_all is_digit text.now }
{
    text.as_bytes().iter().all(|octet| octet.is_ascii_digit())
}

fn is_day(value: &str) -> bool
    ensures { result ≡ is_day value.now }
{
    value.len() == 8 && are_digits(value)
}

fn is_yearless(value: &str) -> bool
    ensures { result ≡ is_yearless value.now }
{
    value.len() == 6 && begins_with(value, "--") && are_digits(without_prefix(value, "--"))
}

fn is_place_octet(octet: u8) -> bool
    ensures { result ≡ is_place_octet octet }
{
    matches!(octet, b'0'..=b'9' | b'-' | b'.' | b',')
}

/// Whether each octet is one that coordinates have.
fn are_coordinates(text: &str) -> bool
    ensures { result ≡ list_all is_place_octet text.now }
{
    text.as_bytes().iter().all(|octet| is_place_octet(*octet))
}

fn is_place(value: &str) -> bool
    ensures { result ≡ is_place value.now }
{
    let coordinates = without_prefix(value, "geo:");
    begins_with(value, "geo:")
        && are_coordinates(coordinates)
        && comma_count(coordinates.as_bytes()) == 1
}

/// The number of commas.
fn comma_count(octets: &[u8]) -> usize
    ensures { result ≡ count_by is_comma octets.now }
{
    let mut count = 0;
    for octet in octets {
        if *octet == b',' {
            count += 1;
        }
    }
    count
}

/// How the `data:` URI of a picture of the format begins.
pub(crate) fn picture_prefix(picture: Picture) -> &'static str
    ensures { result.now ≡ picture_prefix picture }
{
    match picture {
        Picture::Jpeg => "data:image/jpeg;base64,",
        Picture::Png => "data:image/png;base64,",
        Picture::Gif => "data:image/gif;base64,",
    }
}

/// What a picture is.
fn picture_form(value: &str) -> Form
    ensures { result ≡ picture_form value.now }
{
    if begins_with(value, picture_prefix(Picture::Jpeg)) {
        Form::Inline(Picture::Jpeg)
    } else if begins_with(value, picture_prefix(Picture::Png)) {
        Form::Inline(Picture::Png)
    } else if begins_with(value, picture_prefix(Picture::Gif)) {
        Form::Inline(Picture::Gif)
    } else {
        Form::Reference
    }
}

/// Whether the value is a text because VALUE says so, where it would be a URI, a date or a key.
fn is_text_instead(line: &Line) -> bool
    ensures { result ≡ is_text_instead line.now }
{
    (is_uri_name(line) || is_named(line, "KEY")) && says_type(line, "text")
}

/// What a value is that isn't written in another way.
fn text_form(line: &Line) -> Form
    ensures { result ≡ text_form line.now }
{
    if is_named(line, "SOUND") || is_named(line, "KEY") {
        Form::Reference
    } else if is_uri_name(line) || says_type(line, "uri") {
        Form::Uri
    } else if is_whole_name(line) {
        Form::Whole
    } else {
        Form::Listed
    }
}

/// What the value of the line is.
pub(crate) fn form_of(line: &Line) -> Form
    ensures { result ≡ form_of line.now }
{
    let value = line.value.as_str();
    if is_text_instead(line) {
        Form::Whole
    } else if is_named(line, "TEL") && says_type(line, "uri") && begins_with(value, "tel:") {
        Form::Number
    } else if is_date_name(line) && is_day(value) {
        Form::Day
    } else if is_date_name(line) && is_yearless(value) {
        Form::Yearless
    } else if is_named(line, "GEO") && is_place(value) {
        Form::Place
    } else if is_picture_name(line) {
        picture_form(value)
    } else {
        text_form(line)
    }
}
