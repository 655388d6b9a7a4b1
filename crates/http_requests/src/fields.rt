//! Reads the fields of a request head: the body length, and whether to close.
ghost use Rattle.std.specs.Prelude.{◌≡◌, ◌≤◌, ◌<◌, ◌+◌, ◌^◌, length, map, All, Some, None};
ghost use Rattle.std.specs.Prelude.{MatchOption, MatchResult, IfSome, true, false, eqb};
ghost use Rattle.std.specs.List.{list_all, list_any, position};
ghost use Rattle.std.specs.Char.{is_ascii_digit};
ghost use Rattle.std.specs.Str.Parse.{digits_value};
ghost use Rattle.httparse.specs.Spans.{IsHeaderWithin, header_bytes};
ghost use Rattle.base_types.specs.Octets.{comma};
ghost use Rattle.http_requests.specs.Fields.{field_is_named, count_fields_named, first_field_named};
ghost use Rattle.http_requests.specs.Fields.{is_length, fault_in_fields, length_in_fields};
ghost use Rattle.http_requests.specs.Fields.{longest_body, is_close, has_close, asks_close};
ghost use Rattle.http_requests.specs.Fields.{closes_by_fields, user_in_fields};

use crate::head_fault::HeadFault;
use httparse::spans::{HeaderSpan, Span};

/// Whether the field has the name, in any case.
pub(crate) fn field_is_named(text: &[u8], field: HeaderSpan, name: &str) -> bool
    requires { IsHeaderWithin (length text.now) field }
    ensures { result ≡ field_is_named name.now (header_bytes text.now field) }
{
    field.name.of(text).eq_ignore_ascii_case(name.as_bytes())
}

/// The number of fields with the name.
fn count_fields_named(text: &[u8], fields: &[HeaderSpan], name: &str) -> usize
    requires { All (IsHeaderWithin (length text.now)) fields.now }
    ensures { result ≡ count_fields_named name.now (map (header_bytes text.now) fields.now) }
{
    let mut count = 0;
    for i in 0..fields.len() {
        if field_is_named(text, fields[i], name) {
            count += 1;
        }
    }
    count
}

/// The first field with the name.
pub(crate) fn first_field_named(
    text: &[u8],
    fields: &[HeaderSpan],
    name: &str,
) -> Option<HeaderSpan>
    requires { All (IsHeaderWithin (length text.now)) fields.now }
    ensures { MatchOption result
        (first_field_named name.now (map (header_bytes text.now) fields.now) ≡ None)
        (λ field. (first_field_named name.now (map (header_bytes text.now) fields.now)
        ≡ Some (header_bytes text.now field)) × IsHeaderWithin (length text.now) field) }
{
    for i in 0..fields.len() {
        if field_is_named(text, fields[i], name) {
            return Some(fields[i]);
        }
    }
    None
}

/// The user that the first X-Remote-User names; nothing without one.
pub(crate) fn user_in_fields<'a>(text: &'a [u8], fields: &[HeaderSpan]) -> &'a [u8]
    requires { All (IsHeaderWithin (length text.now)) fields.now }
    ensures { result.now ≡ user_in_fields (map (header_bytes text.now) fields.now) }
{
    match first_field_named(text, fields, "x-remote-user") {
        Some(field) => field.value.of(text),
        None => &[],
    }
}

pub(crate) fn all_digits(value: &[u8]) -> bool
    ensures { result ≡ list_all is_ascii_digit value.now }
{
    value.iter().all(|octet| octet.is_ascii_digit())
}

/// The value of at most 15 decimal digits.
fn number(value: &[u8]) -> u64
    requires digits { list_all is_ascii_digit value.now ≡ true }
    requires short { length value.now ≤ 15 }
    ensures { result ≡ digits_value 10 value.now }
{
    let mut number = 0u64;
    for i in 0..value.len() {
        number = number * 10 + (value[i] - b'0') as u64;
    }
    number
}

/// The value as a number, or `None` unless it is 1 to 15 decimal digits.
fn parse_length(value: &[u8]) -> Option<u64>
    ensures { MatchOption result (is_length value.now ≡ false)
        (λ length. (is_length value.now ≡ true) × (length ≡ digits_value 10 value.now)) }
{
    if value.len() == 0 || value.len() > 15 || !all_digits(value) {
        None
    } else {
        Some(number(value))
    }
}

/// The length of the body, or the first fault of the fields.
pub(crate) fn length_or_fault(
    minor: u8,
    text: &[u8],
    fields: &[HeaderSpan],
) -> Result<u64, HeadFault>
    requires { All (IsHeaderWithin (length text.now)) fields.now }
    ensures { MatchResult result
        (λ octets. (fault_in_fields minor (map (header_bytes text.now) fields.now) ≡ None)
        × (length_in_fields minor (map (header_bytes text.now) fields.now) ≡ octets)
        × (octets ≤ longest_body))
        (λ fault. fault_in_fields minor (map (header_bytes text.now) fields.now) ≡ Some fault) }
{
    if minor == 1 && count_fields_named(text, fields, "host") != 1 {
        return Err(HeadFault::BadHost);
    }
    if count_fields_named(text, fields, "transfer-encoding") > 0 {
        return Err(HeadFault::TransferEncoding);
    }
    if count_fields_named(text, fields, "content-length") > 1 {
        return Err(HeadFault::BadLength);
    }
    let Some(field) = first_field_named(text, fields, "content-length") else {
        return Ok(0);
    };
    match parse_length(field.value.of(text)) {
        None => Err(HeadFault::BadLength),
        Some(octets) => {
            if octets > 8_388_608 {
                Err(HeadFault::BodyTooLarge)
            } else {
                Ok(octets)
            }
        }
    }
}

fn is_close(part: &[u8]) -> bool
    ensures { result ≡ is_close part.now }
{
    part.trim_ascii().eq_ignore_ascii_case(b"close")
}

/// The position of the first comma.
fn find_comma(value: &[u8]) -> Option<usize>
    ensures first { result ≡ position (λ octet. eqb octet comma) value.now }
    ensures bound { IfSome result (λ i. i < length value.now) }
    ensures fits { IfSome result (λ i. i + 1 < 2 ^ 64) }
{
    value.iter().position(|octet| *octet == b',')
}

fn has_close(value: &[u8]) -> bool
    ensures { result ≡ has_close value.now }
{
    let mut rest = value;
    while let Some(at) = find_comma(rest) {
        if is_close(&rest[..at]) {
            return true;
        }
        rest = &rest[at + 1..];
    }
    is_close(rest)
}

/// Whether a Connection field has the option `close`.
fn asks_close(text: &[u8], fields: &[HeaderSpan]) -> bool
    requires { All (IsHeaderWithin (length text.now)) fields.now }
    ensures { result ≡ list_any asks_close (map (header_bytes text.now) fields.now) }
{
    for i in 0..fields.len() {
        if field_is_named(text, fields[i], "connection") && has_close(fields[i].value.of(text)) {
            return true;
        }
    }
    false
}

/// Whether the connection is closed after the reply.
pub(crate) fn closes(minor: u8, text: &[u8], fields: &[HeaderSpan]) -> bool
    requires { All (IsHeaderWithin (length text.now)) fields.now }
    ensures { result ≡ closes_by_fields minor (map (header_bytes text.now) fields.now) }
{
    minor == 0 || asks_close(text, fields)
}
