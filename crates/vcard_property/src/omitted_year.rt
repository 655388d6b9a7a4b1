//! Dates without a year, as iOS writes them in vCard 3.0: the year is 1604 or any other, and the
//! parameter `X-APPLE-OMIT-YEAR` says which. Other programs write a year of zeros.

use crate::property::Property;
use std::alloc::Global;
use std::mem;
use vcard_text::{Items, NoMemory, Param, Text};
use vcard_values::{basic_date, has_basic_date, is_date};

/// Whether the parameter gives the year that is none.
fn is_omitted_year(param: &Param) -> bool {
    param
        .name
        .as_str()
        .eq_ignore_ascii_case("X-APPLE-OMIT-YEAR")
}

/// The year that is none, if a parameter gives it.
fn omitted_year(params: &[Param]) -> Option<&str> {
    let param = params.iter().find(|param| is_omitted_year(*param))?;
    let value = param.values.as_slice().first()?;
    Some(value.text.as_str())
}

/// The date without its year (RFC 6350, section 4.3.1), if it has that year, and is one without it.
fn date_without_year(alloc: Global, value: &str, year: &str) -> Result<Option<Text>, NoMemory> {
    let date = basic_date(alloc, value)?;
    if year.len() != 4 || !has_basic_date(date.as_str()) {
        return Ok(None);
    }
    let Some(day) = date.as_str().strip_prefix(year) else {
        return Ok(None);
    };
    let date = format!(in alloc; "--{day}")?;
    Ok(if is_date(date.as_str()) {
        Some(Text::new(date))
    } else {
        None
    })
}

/// The parameters without the one that gives the year.
fn without_omitted_year(alloc: Global, params: Items<Param>) -> Result<Items<Param>, NoMemory> {
    let mut others = Items::new(alloc);
    for param in params.into_vec() {
        if !is_omitted_year(&param) {
            others.push(param)?;
        }
    }
    Ok(others)
}

/// The year that counts as none without a parameter.
const NO_YEAR: &str = "0000";

/// Omits a year of zeros.
fn omit_zeros(alloc: Global, property: &mut Property) -> Result<(), NoMemory> {
    if let Some(value) = date_without_year(alloc, property.value.as_str(), NO_YEAR)? {
        property.value = value;
    }
    Ok(())
}

/// Omits the year of a date if it has only zeros; or if a parameter says that it is none, and then
/// the parameter.
pub(crate) fn omit_year(alloc: Global, property: &mut Property) -> Result<(), NoMemory> {
    omit_zeros(alloc, property)?;
    let Some(year) = omitted_year(property.params.as_slice()) else {
        return Ok(());
    };
    let Some(value) = date_without_year(alloc, property.value.as_str(), year)? else {
        return Ok(());
    };
    property.value = value;
    let params = mem::replace(&mut property.params, Items::new(alloc));
    property.params = without_omitted_year(alloc, params)?;
    Ok(())
}
