//! Dates and timestamps of older versions that are known, in the basic form that vCard 4.0 wants
//! (RFC 6350, section 4.3).
ghost use Rattle.std.specs.Prelude.{◌≡◌, ◌++◌, IfOk, codes, string_bytes};
ghost use Rattle.std.specs.Option.{option_map};
ghost use Rattle.base_types.specs.Octets.{colon, hyphen};
ghost use Rattle.import_text.specs.Encodings.{text_of};
ghost use Rattle.vcard_values.specs.Cuts.{after, before};
ghost use Rattle.vcard_values.specs.Dates.{date_of, day_of, day_with, is_basic_day};
ghost use Rattle.vcard_values.specs.Dates.{is_basic_time, is_date_property, is_extended_time};
ghost use Rattle.vcard_values.specs.Dates.{is_plainly_dated, is_shape, joined, shape_of, time_of};
ghost use Rattle.vcard_values.specs.Dates.{time_with, upper_t, without_first};
ghost use Rattle.vcard_values.specs.Values.{known_date, may_have_date};

use crate::cuts::has_octet;
use crate::days::real_day;
use crate::forms::{has_clear_form, is_property, says_text, says_uri};
use crate::value_texts::value_text;
use crate::values::has_known_text;
use base_types::NoMemory;
use import_text::is_encoded_as;
use std::alloc::Global;

/// The octets with a 0 for each digit.
fn shape_of(alloc: Global, octets: &[u8]) -> Result<Vec<u8>, NoMemory>
    ensures { IfOk result (λ shape. shape.items ≡ shape_of octets.now) }
{
    let mut shape = Vec::new(alloc);
    for octet in octets {
        shape.push(if octet.is_ascii_digit() { b'0' } else { *octet })?;
    }
    Ok(shape)
}

/// The texts before and after the first hyphen. If there is none, all of it is before.
fn cut_hyphen(text: &str) -> (&str, &str)
    ensures before { result.0.now ≡ before hyphen text.now }
    ensures after { result.1.now ≡ after hyphen text.now }
{
    match text.split_once('-') {
        Some(parts) => parts,
        None => (text, ""),
    }
}

/// The texts before and after the first colon. If there is none, all of it is before.
fn cut_colon(text: &str) -> (&str, &str)
    ensures before { result.0.now ≡ before colon text.now }
    ensures after { result.1.now ≡ after colon text.now }
{
    match text.split_once(':') {
        Some(parts) => parts,
        None => (text, ""),
    }
}

/// The text without its first hyphen.
fn without_hyphen(alloc: Global, text: &str) -> Result<String, NoMemory>
    ensures { IfOk result (λ new. string_bytes new ≡ without_first hyphen text.now) }
{
    let (before, after) = cut_hyphen(text);
    let mut new = String::from_str(alloc, before)?;
    new.push_str(after)?;
    Ok(new)
}

/// The text without its first colon.
fn without_colon(alloc: Global, text: &str) -> Result<String, NoMemory>
    ensures { IfOk result (λ new. string_bytes new ≡ without_first colon text.now) }
{
    let (before, after) = cut_colon(text);
    let mut new = String::from_str(alloc, before)?;
    new.push_str(after)?;
    Ok(new)
}

fn is_shape(shape: &[u8], other: &[u8]) -> bool
    ensures { result ≡ is_shape shape.now other.now }
{
    shape == other
}

/// Whether the shape is that of a day in the basic form.
fn is_basic_day(shape: &[u8]) -> bool
    ensures { result ≡ is_basic_day shape.now }
{
    is_shape(shape, b"00000000") || is_shape(shape, b"--0000")
}

/// Whether the shape is that of a time in the basic form.
fn is_basic_time(shape: &[u8]) -> bool
    ensures { result ≡ is_basic_time shape.now }
{
    is_shape(shape, b"000000")
        || is_shape(shape, b"000000Z")
        || is_shape(shape, b"000000+0000")
        || is_shape(shape, b"000000-0000")
}

/// Whether the shape is that of a time in the extended form.
fn is_extended_time(shape: &[u8]) -> bool
    ensures { result ≡ is_extended_time shape.now }
{
    is_shape(shape, b"00:00:00")
        || is_shape(shape, b"00:00:00Z")
        || is_shape(shape, b"00:00:00+00:00")
        || is_shape(shape, b"00:00:00-00:00")
}

/// The day of any year in the basic form.
fn yearless_day(alloc: Global, day: &str) -> Result<String, NoMemory>
    ensures { IfOk result (λ new. string_bytes new
        ≡ codes "--" ++ without_first hyphen (after hyphen (after hyphen day.now))) }
{
    let (_, rest) = cut_hyphen(day);
    let (_, rest) = cut_hyphen(rest);
    let (month, day) = cut_hyphen(rest);
    let mut new = String::from_str(alloc, "--")?;
    new.push_str(month)?;
    new.push_str(day)?;
    Ok(new)
}

/// The digits as a day in the basic form, if they are of a shape in which days are written.
fn day_with(alloc: Global, shape: &[u8], day: &str) -> Result<Option<String>, NoMemory>
    ensures { IfOk result (λ found.
        option_map string_bytes found ≡ day_with shape.now day.now) }
{
    if is_basic_day(shape) {
        return Ok(Some(String::from_str(alloc, day)?));
    }
    if is_shape(shape, b"0000-00-00") {
        let day = without_hyphen(alloc, day)?;
        return Ok(Some(without_hyphen(alloc, day.as_str())?));
    }
    if is_shape(shape, b"--00-00") {
        return Ok(Some(yearless_day(alloc, day)?));
    }
    Ok(None)
}

/// The day in the basic form, if it is a real one.
fn day_of(alloc: Global, day: &str) -> Result<Option<String>, NoMemory>
    ensures { IfOk result (λ found. option_map string_bytes found ≡ day_of day.now) }
{
    let shape = shape_of(alloc, day.as_bytes())?;
    let day = day_with(alloc, shape.as_slice(), day)?;
    Ok(real_day(day))
}

/// The time without three of its colons.
fn without_colons(alloc: Global, time: &str) -> Result<String, NoMemory>
    ensures { IfOk result (λ new. string_bytes new
        ≡ without_first colon (without_first colon (without_first colon time.now))) }
{
    let time = without_colon(alloc, time)?;
    let time = without_colon(alloc, time.as_str())?;
    without_colon(alloc, time.as_str())
}

/// The time in the basic form, if it is one of this shape.
fn time_with(alloc: Global, shape: &[u8], time: &str) -> Result<Option<String>, NoMemory>
    ensures { IfOk result (λ found.
        option_map string_bytes found ≡ time_with shape.now time.now) }
{
    if is_basic_time(shape) {
        return Ok(Some(String::from_str(alloc, time)?));
    }
    if is_extended_time(shape) {
        return Ok(Some(without_colons(alloc, time)?));
    }
    Ok(None)
}

/// The time in the basic form, if it is one.
fn time_of(alloc: Global, time: &str) -> Result<Option<String>, NoMemory>
    ensures { IfOk result (λ found. option_map string_bytes found ≡ time_of time.now) }
{
    let shape = shape_of(alloc, time.as_bytes())?;
    time_with(alloc, shape.as_slice(), time)
}

/// The day and the time with a T between them, if there are both.
fn joined(day: Option<String>, time: Option<String>) -> Result<Option<String>, NoMemory>
    ensures { IfOk result (λ found. option_map string_bytes found
        ≡ joined (option_map string_bytes day) (option_map string_bytes time)) }
{
    let Some(mut day) = day else {
        return Ok(None);
    };
    let Some(time) = time else {
        return Ok(None);
    };
    day.push_str("T")?;
    day.push_str(time.as_str())?;
    Ok(Some(day))
}

/// The texts before and after the first T. If there is none, all of it is before.
fn cut_time(text: &str) -> (&str, &str)
    ensures before { result.0.now ≡ before upper_t text.now }
    ensures after { result.1.now ≡ after upper_t text.now }
{
    match text.split_once('T') {
        Some(parts) => parts,
        None => (text, ""),
    }
}

/// The day, or the day and the time, in the basic form. `None` if the text is neither, or its year
/// has only zeros.
fn date_of(alloc: Global, text: &str) -> Result<Option<String>, NoMemory>
    ensures { IfOk result (λ found. option_map string_bytes found ≡ date_of text.now) }
{
    if text.as_bytes().starts_with(b"0000") {
        return Ok(None);
    }
    if !has_octet(text.as_bytes(), b'T') {
        return day_of(alloc, text);
    }
    let (day, time) = cut_time(text);
    let day = day_of(alloc, day)?;
    let time = time_of(alloc, time)?;
    joined(day, time)
}

/// Whether the value of the property is a date, or the time of a change.
fn is_date_property(line: &[u8]) -> bool
    ensures { result ≡ is_date_property line.now }
{
    is_property(line, b"BDAY") || is_property(line, b"ANNIVERSARY") || is_property(line, b"REV")
}

/// Whether only the name says what the value is, and no parameter says that the year stands for
/// none.
fn is_plainly_dated(line: &[u8]) -> bool
    ensures { result ≡ is_plainly_dated line.now }
{
    has_clear_form(line)
        && !says_uri(line)
        && !says_text(line)
        && !is_encoded_as(line, b"X-APPLE-OMIT-YEAR")
}

/// Whether the value of the line is a date, if it is a known one.
fn may_have_date(line: &[u8]) -> bool
    ensures { result ≡ may_have_date line.now }
{
    has_known_text(line) && is_date_property(line) && is_plainly_dated(line)
}

/// The date that the line has, in the basic form, if it is known. `None` if it isn't. The only
/// `Err` is out of memory.
pub fn known_date(alloc: Global, line: &[u8], text: &str) -> Result<Option<String>, NoMemory>
    ensures { text.now ≡ text_of line.now → IfOk result (λ found.
        option_map string_bytes found ≡ known_date line.now) }
{
    if !may_have_date(line) {
        return Ok(None);
    }
    let value = value_text(alloc, line, text)?;
    date_of(alloc, value.as_str())
}
