//! The value of GEO as a `geo:` URI (RFC 6350, section 6.5.2; RFC 5870).

use crate::version::Version;
use base_types::NoMemory;
use std::alloc::Global;

/// The number as RFC 5870 writes a coordinate: without white space and a plus sign. `None` if the
/// text is no number.
fn coordinate(text: &str) -> Option<&str> {
    let text = text.trim();
    let number = text.strip_prefix('+').unwrap_or(text);
    let digits = number.strip_prefix('-').unwrap_or(number);
    let begins = digits.starts_with(|c: char| c.is_ascii_digit());
    if begins && digits.chars().all(|c| c.is_ascii_digit() || c == '.') {
        return Some(number);
    }
    None
}

/// The latitude and the longitude. vCard 3.0 has the latitude first and a semicolon between the
/// two (RFC 2426, section 3.4.2), vCard 2.1 the longitude and a comma.
fn coordinates(value: &str, version: Version) -> Option<(&str, &str)> {
    if let Some((latitude, longitude)) = value.split_once(';') {
        return Some((coordinate(latitude)?, coordinate(longitude)?));
    }
    if version != Version::Old {
        return None;
    }
    let (longitude, latitude) = value.split_once(',')?;
    Some((coordinate(latitude)?, coordinate(longitude)?))
}

/// The value as a `geo:` URI, if it is a latitude and a longitude; any other value as it is.
pub fn geo_value(alloc: Global, value: String, version: Version) -> Result<String, NoMemory> {
    match coordinates(value.as_str(), version) {
        Some((latitude, longitude)) => Ok(format!(in alloc; "geo:{latitude},{longitude}")?),
        None => Ok(value),
    }
}
