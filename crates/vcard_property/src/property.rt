//! `Property`: a line of any version, taken apart.

use crate::head::{split_group, split_line, split_parts};
use crate::names::{legal_name, upper_name};
use crate::params::read_param;
use import_text::Charset;
use std::alloc::Global;
use vcard_text::{Items, NoMemory, Param, ParamValue, Text};
use vcard_values::Version;

/// How a value is encoded.
#[derive(Clone, Copy)]
pub(crate) enum Encoding {
    Plain,
    QuotedPrintable,
    Base64,
}

/// What CHARSET says.
#[derive(Clone, Copy)]
pub(crate) enum CharsetParam {
    /// Nothing, or ASCII.
    Unnamed,
    /// UTF-8.
    Utf8,
    /// A character set with one octet for each character.
    Known(Charset),
    /// A character set that isn't known. The parameter X-CHARSET keeps its name.
    Unknown,
}

/// A property of any version. What vCard 4.0 says in another way is apart from the parameters.
#[derive(Drop)]
pub(crate) struct Property {
    pub(crate) group: Option<Text>,
    pub(crate) name: Text,
    /// The values of TYPE in lower case, without `pref`.
    pub(crate) types: Items<ParamValue>,
    /// Whether `pref` was among them.
    pub(crate) is_preferred: bool,
    /// The other parameters.
    pub(crate) params: Items<Param>,
    pub(crate) encoding: Encoding,
    /// What CHARSET says.
    pub(crate) charset: CharsetParam,
    /// Whether VALUE says that the value is a URI.
    pub(crate) is_uri: bool,
    /// The version that the line has.
    pub(crate) version: Version,
    /// The value.
    pub(crate) value: Text,
}

/// The legal form of a group.
fn read_group(alloc: Global, group: Option<&str>) -> Result<Option<Text>, NoMemory> {
    match group {
        Some(group) => legal_name(alloc, group),
        None => Ok(None),
    }
}

/// The property of that name and value, before its parameters are read.
fn bare_property(
    alloc: Global,
    group: Option<Text>,
    name: Text,
    value: Text,
    version: Version,
) -> Property {
    Property {
        group,
        name,
        types: Items::new(alloc),
        is_preferred: false,
        params: Items::new(alloc),
        encoding: Encoding::Plain,
        charset: CharsetParam::Unnamed,
        is_uri: false,
        version,
        value,
    }
}

fn read_params(alloc: Global, property: &mut Property, parts: &[&str]) -> Result<(), NoMemory> {
    for part in parts {
        read_param(alloc, property, part.trim())?;
    }
    Ok(())
}

/// Whether the text before a colon may be a name with its group, as programs write them. In a text
/// that goes on in another line it has other characters.
fn may_be_name(head: &str) -> bool {
    head.chars().all(|c| c.is_ascii_graphic() && c != '=')
}

/// The property of that value, without parameters. `None` if it has no name.
fn named_property(
    alloc: Global,
    head: &str,
    value: &str,
    version: Version,
) -> Result<Option<Property>, NoMemory> {
    if !may_be_name(head) {
        return Ok(None);
    }
    let (group, name) = split_group(head);
    let Some(name) = upper_name(alloc, name)? else {
        return Ok(None);
    };
    let group = read_group(alloc, group)?;
    let value = Text::copy_of(alloc, value)?;
    Ok(Some(bare_property(alloc, group, name, value, version)))
}

/// Reads a line leniently. `None` if it has no colon or no name.
pub(crate) fn read_property(
    alloc: Global,
    text: &str,
    version: Version,
) -> Result<Option<Property>, NoMemory> {
    let Some((head, value)) = split_line(text) else {
        return Ok(None);
    };
    let parts = split_parts(alloc, head, b';')?;
    let Some((first, params)) = parts.as_slice().split_first() else {
        return Ok(None);
    };
    let Some(mut property) = named_property(alloc, first.trim(), value, version)? else {
        return Ok(None);
    };
    read_params(alloc, &mut property, params)?;
    Ok(Some(property))
}
