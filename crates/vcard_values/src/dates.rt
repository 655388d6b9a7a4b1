//! Dates and times in the basic form that vCard 4.0 wants (RFC 6350, section 4.3).

use crate::days::{has_day, is_real_day, number_at};
use base_types::NoMemory;
use std::alloc::Global;

/// Whether the octets are all digits.
fn are_digits(octets: &[u8]) -> bool {
    octets.iter().all(|octet| octet.is_ascii_digit())
}

/// Whether the octets are all of a kind that a date or a time has.
fn are_of_dates(octets: &[u8]) -> bool {
    octets.iter().all(|octet| matches!(
        octet,
        b'0'..=b'9' | b'-' | b':' | b'T' | b'Z' | b'+' | b'.' | b','
    ))
}

/// Whether the text begins with a date in the extended form, as 1996-04-15.
fn has_extended_date(text: &str) -> bool {
    match text.as_bytes() {
        [a, b, c, d, b'-', e, f, b'-', g, h, ..] => {
            are_digits(&[*a, *b, *c, *d, *e, *f, *g, *h])
        }
        _ => false,
    }
}

/// Whether the text begins with a date in the basic form, as 19960415.
pub fn has_basic_date(text: &str) -> bool {
    match text.as_bytes() {
        [a, b, c, d, e, f, g, h, ..] => are_digits(&[*a, *b, *c, *d, *e, *f, *g, *h]),
        _ => false,
    }
}

/// Whether the text is a date without a year in the extended form, as --04-15.
fn is_extended_day(text: &str) -> bool {
    match text.as_bytes() {
        [b'-', b'-', a, b, b'-', c, d] => are_digits(&[*a, *b, *c, *d]),
        _ => false,
    }
}

/// Whether a date or a time has a fraction of a second, after a full stop or a comma.
pub fn has_fraction(text: &str) -> bool {
    text.as_bytes()
        .iter()
        .any(|octet| matches!(octet, b'.' | b','))
}

/// Appends the text without hyphens and colons, up to a fraction of a second, which is left out.
fn push_basic(out: &mut String, text: &str) -> Result<(), NoMemory> {
    let mut is_fraction = false;
    for c in text.chars() {
        is_fraction = c == '.' || c == ',' || (is_fraction && c.is_ascii_digit());
        if !is_fraction && c != ':' && c != '-' {
            out.push(c)?;
        }
    }
    Ok(())
}

/// The time of day and its zone in the basic form. The hyphen before a zone stays.
fn push_basic_time(out: &mut String, time: &str) -> Result<(), NoMemory> {
    match time.split_once('-') {
        Some((time, zone)) => {
            push_basic(out, time)?;
            out.push('-')?;
            push_basic(out, zone)
        }
        None => push_basic(out, time),
    }
}

/// The date in the basic form, and the time after its T.
fn push_basic_date(out: &mut String, text: &str) -> Result<(), NoMemory> {
    match text.split_once('T') {
        Some((date, time)) => {
            push_basic(out, date)?;
            out.push('T')?;
            push_basic_time(out, time)
        }
        None => push_basic(out, text),
    }
}

/// The text without the hyphens and colons of the extended form, if it is written in it, with or
/// without a time or a year; any other text as it is.
fn basic_form(alloc: Global, text: &str) -> Result<String, NoMemory> {
    let mut out = String::new(alloc);
    if has_extended_date(text) && are_of_dates(text.as_bytes()) {
        push_basic_date(&mut out, text)?;
    } else if is_extended_day(text) {
        out.push_str("--")?;
        push_basic(&mut out, text)?;
    } else {
        out.push_str(text)?;
    }
    Ok(out)
}

/// Whether a month has this number.
fn is_month(month: u32) -> bool {
    has_day(true, month, 1)
}

/// Whether a month has a day of this number.
fn is_day_of_month(day: u32) -> bool {
    has_day(true, 1, day)
}

/// Whether the text is a date of vCard 4.0 without a time (RFC 6350, section 4.3.1): one in the basic
/// form, or one without its year, its month or its day. There is such a month and a day.
fn is_day(text: &str) -> bool {
    let octets = text.as_bytes();
    match octets {
        [b'-', b'-', b'-', a, b] => {
            are_digits(&[*a, *b]) && is_day_of_month(number_at(octets, 3))
        }
        [b'-', b'-', a, b] => are_digits(&[*a, *b]) && is_month(number_at(octets, 2)),
        [b'-', b'-', a, b, c, d] => are_digits(&[*a, *b, *c, *d]) && is_real_day(octets),
        [a, b, c, d] => are_digits(&[*a, *b, *c, *d]),
        [a, b, c, d, b'-', e, f] => {
            are_digits(&[*a, *b, *c, *d, *e, *f]) && is_month(number_at(octets, 5))
        }
        [_, _, _, _, _, _, _, _] => has_basic_date(text) && is_real_day(octets),
        _ => false,
    }
}

/// Whether the text is a date of vCard 4.0, with or without a time after its T, or a time (section
/// 4.3.4). The day is one of the calendar; of a time only the marks are looked at.
pub fn is_date(text: &str) -> bool {
    match text.split_once('T') {
        Some((date, time)) => {
            (date.is_empty() || is_day(date)) && !time.is_empty() && are_of_dates(time.as_bytes())
        }
        None => is_day(text),
    }
}

/// The value in the basic form of vCard 4.0, if it is a date in the extended form, with or without
/// a time or a year; any other value as it is.
pub fn basic_date(alloc: Global, text: &str) -> Result<String, NoMemory> {
    let date = basic_form(alloc, text)?;
    if is_date(date.as_str()) {
        Ok(date)
    } else {
        Ok(String::from_str(alloc, text)?)
    }
}
