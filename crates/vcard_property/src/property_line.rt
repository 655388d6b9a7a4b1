//! The line of vCard 4.0 for a property of any version (RFC 6350, section 6 and appendix A).
ghost use Rattle.std.specs.Prelude.{◌≡◌, IfOk, string_bytes, true};
ghost use Rattle.vcard_property.specs.Labels.{is_label};
ghost use Rattle.vcard_values.specs.Values.{IsUriOf};

use crate::line_parts::{make_param, make_value, with_carets};
use crate::names::is_one_of;
use crate::omitted_year::omit_year;
use crate::property::{Encoding, Property};
use std::alloc::Global;
use std::mem;
use vcard_text::{Items, Line, NoMemory, Param, ParamValue, Text, unescape};
use vcard_values::{
    TextForm, Types, ValueForm, Version, basic_date, data_uri, decoded_base64, geo_value,
    has_scheme, is_date, is_format, with_escapes,
};

/// The properties whose values aren't texts, so that nothing is escaped in them.
const PLAIN_NAMES: [&str; 18] = [
    "URL",
    "SOURCE",
    "IMPP",
    "FBURL",
    "CALURI",
    "CALADRURI",
    "UID",
    "MEMBER",
    "X-ADDRESSBOOKSERVER-MEMBER",
    "RELATED",
    "PHOTO",
    "LOGO",
    "SOUND",
    "KEY",
    "GEO",
    "REV",
    "BDAY",
    "ANNIVERSARY",
];

/// Whether a comma in a value of the name is a part of its text.
fn commas_are_text(name: &str, version: Version, is_text: bool) -> bool {
    match name {
        "BDAY" | "ANNIVERSARY" => is_text && version != Version::Fourth,
        "FN" | "NOTE" | "TITLE" | "ROLE" | "ORG" => version != Version::Fourth,
        "N" | "ADR" => version == Version::Old,
        _ => false,
    }
}

/// Whether the parameter says that the value is a text.
pub(crate) fn is_text_param(param: &Param) -> bool {
    param.name.as_str() == "VALUE"
        && param
            .values
            .as_slice()
            .iter()
            .all(|value| value.text.as_str().eq_ignore_ascii_case("text"))
}

/// Whether VALUE says that the value is a text, which else may be a URI or a date.
fn says_text(property: &Property) -> bool {
    property
        .params
        .as_slice()
        .iter()
        .any(|param| is_text_param(param))
}

/// Whether the property is a person in words, of which vCard 4.0 says that the value is a text (RFC
/// 6350, section 6.6.6).
fn is_in_words(property: &Property) -> bool {
    property.name.as_str() == "RELATED"
        && !property.is_uri
        && !property.value.is_empty()
        && !has_scheme(property.value.as_str().as_bytes())
}

/// How the value is written.
fn form_of(name: &str, property: &Property, version: Version) -> ValueForm {
    let is_text = says_text(property) || is_in_words(property);
    if property.is_uri || (is_one_of(name, &PLAIN_NAMES) && !is_text) {
        return ValueForm::Uri;
    }
    ValueForm::Text(TextForm {
        commas_are_text: commas_are_text(name, version, is_text),
        is_old: version == Version::Old,
    })
}

/// The value in the form of vCard 4.0.
fn text_value(alloc: Global, property: &Property, version: Version) -> Result<String, NoMemory> {
    let name = property.name.as_str();
    let form = form_of(name, property, version);
    let value = with_escapes(alloc, property.value.as_str(), form)?;
    if says_text(property) {
        return Ok(value);
    }
    match name {
        "GEO" => geo_value(alloc, value, version),
        "BDAY" | "ANNIVERSARY" | "REV" => basic_date(alloc, value.as_str()),
        _ => Ok(value),
    }
}

/// The properties whose values are dates.
const DATE_NAMES: [&str; 3] = ["BDAY", "ANNIVERSARY", "X-ANNIVERSARY"];

/// Whether the values of the name are dates.
pub(crate) fn is_date_name(name: &str) -> bool {
    is_one_of(name, &DATE_NAMES)
}

/// The values of TYPE that don't name the format of a value.
fn without_formats(
    alloc: Global,
    name: &str,
    types: Items<ParamValue>,
) -> Result<Items<ParamValue>, NoMemory> {
    let mut others = Items::new(alloc);
    for value in types.into_vec() {
        if !is_format(name, value.text.as_str()) {
            others.push(value)?;
        }
    }
    Ok(others)
}

/// A line before its name and its types are those of vCard 4.0.
#[derive(Drop)]
pub(crate) struct Draft {
    /// Under the name that the property has, without TYPE and PREF.
    pub(crate) line: Line,
    pub(crate) types: Types,
    /// Whether VALUE says that the value is a URI.
    pub(crate) is_uri: bool,
}

/// The draft of a property with a value.
pub(crate) fn draft_with(property: Property, value: String) -> Draft
    ensures { result.line.value ≡ string_bytes value }
{
    let Property {
        group,
        name,
        types,
        is_preferred,
        params,
        encoding: _,
        charset: _,
        is_uri,
        version: _,
        value: _,
    } = property;
    let value = Text::new(value);
    Draft {
        line: Line {
            group,
            name,
            params,
            value,
        },
        types: Types {
            values: types,
            is_preferred,
        },
        is_uri,
    }
}

/// Adds the type of an AGENT that is a URI, which is a RELATED in vCard 4.0.
fn add_agent(alloc: Global, property: &mut Property) -> Result<(), NoMemory> {
    if property.name.as_str() == "AGENT" && property.is_uri {
        property.types.push(make_value(alloc, "agent", false)?)?;
    }
    Ok(())
}

/// Omits the year of a property that is a date, if a parameter says that it is none.
fn omit_year_of_date(alloc: Global, property: &mut Property) -> Result<(), NoMemory> {
    if is_date_name(property.name.as_str()) && !says_text(property) {
        omit_year(alloc, property)?;
    }
    Ok(())
}

/// Whether the property is one of vCard 4.0 whose value should be a date, and is none.
fn is_dateless(alloc: Global, property: &Property) -> Result<bool, NoMemory> {
    let is_dated = matches!(property.name.as_str(), "BDAY" | "ANNIVERSARY");
    if !is_dated || property.is_uri || property.value.is_empty() || says_text(property) {
        return Ok(false);
    }
    let date = basic_date(alloc, property.value.as_str())?;
    Ok(!is_date(date.as_str()))
}

/// The parameters without VALUE.
fn without_value_type(alloc: Global, params: Items<Param>) -> Result<Items<Param>, NoMemory> {
    let mut others = Items::new(alloc);
    for param in params.into_vec() {
        if param.name.as_str() != "VALUE" {
            others.push(param)?;
        }
    }
    Ok(others)
}

/// Says that the value is a text (RFC 6350, sections 6.2.5 and 6.2.6), if it should be a date and
/// is none.
fn mark_text(alloc: Global, property: &mut Property) -> Result<(), NoMemory> {
    if !is_dateless(alloc, property)? {
        return Ok(());
    }
    let params = mem::replace(&mut property.params, Items::new(alloc));
    property.params = without_value_type(alloc, params)?;
    property.params.push(make_param(alloc, "VALUE", "text")?)?;
    Ok(())
}

/// Whether VALUE says what the value is.
fn has_value_type(property: &Property) -> bool {
    property
        .params
        .as_slice()
        .iter()
        .any(|param| param.name.as_str() == "VALUE")
}

/// Says that the value of a person in words is a text.
fn mark_words(alloc: Global, property: &mut Property) -> Result<(), NoMemory> {
    if is_in_words(property) && !has_value_type(property) {
        property.params.push(make_param(alloc, "VALUE", "text")?)?;
    }
    Ok(())
}

/// The draft of a property with this text or URI.
pub(crate) fn text_draft(
    alloc: Global,
    property: Property,
    value: String,
) -> Result<Draft, NoMemory>
    ensures { IfOk result (λ draft. draft.line.value ≡ string_bytes value) }
{
    let mut property = property;
    add_agent(alloc, &mut property)?;
    mark_words(alloc, &mut property)?;
    Ok(draft_with(property, value))
}

/// The draft of a text or a URI.
fn text_or_uri_draft(
    alloc: Global,
    property: Property,
    version: Version,
) -> Result<Draft, NoMemory> {
    let mut property = property;
    omit_year_of_date(alloc, &mut property)?;
    mark_text(alloc, &mut property)?;
    let value = text_value(alloc, &property, version)?;
    text_draft(alloc, property, value)
}

/// Leaves out of the types those that name the format of the value.
fn drop_formats(alloc: Global, property: &mut Property, name: &str) -> Result<(), NoMemory> {
    let types = mem::replace(&mut property.types, Items::new(alloc));
    property.types = without_formats(alloc, name, types)?;
    Ok(())
}

/// The words that may name the format of a value: those of MEDIATYPE (RFC 6350, section 5.7), if
/// none of TYPE does.
fn format_words<'a>(name: &str, property: &'a Property) -> &'a [ParamValue] {
    let types = property.types.as_slice();
    if types
        .iter()
        .any(|value| is_format(name, value.text.as_str()))
    {
        return types;
    }
    for param in property.params.as_slice() {
        if param.name.as_str().eq_ignore_ascii_case("MEDIATYPE") {
            return param.values.as_slice();
        }
    }
    types
}

/// The draft of a binary value, as a `data:` URI.
pub(crate) fn binary_draft(
    alloc: Global,
    property: Property,
    octets: &[u8],
) -> Result<Draft, NoMemory>
    ensures { IfOk result (λ draft. IsUriOf octets.now draft.line.value) }
{
    let mut property = property;
    let name = property.name.try_copy()?;
    let words = format_words(name.as_str(), &property);
    let uri = data_uri(alloc, name.as_str(), words, octets)?;
    drop_formats(alloc, &mut property, name.as_str())?;
    Ok(draft_with(property, uri))
}

/// The text of a label, as the value of a parameter.
pub(crate) fn label_text(
    alloc: Global,
    property: &Property,
    version: Version,
) -> Result<String, NoMemory> {
    let value = text_value(alloc, property, version)?;
    let text = unescape(alloc, value.as_str())?;
    with_carets(alloc, text.as_str())
}

/// The parameter LABEL with the text.
pub(crate) fn label_param(alloc: Global, text: &str) -> Result<Param, NoMemory>
    ensures { IfOk result (λ param. is_label param ≡ true) }
{
    let mut values = Items::new(alloc);
    values.push(make_value(alloc, text, true)?)?;
    let name = Text::copy_of(alloc, "LABEL")?;
    Ok(Param { name, values })
}

fn add_label(alloc: Global, property: &mut Property, version: Version) -> Result<(), NoMemory> {
    let text = label_text(alloc, property, version)?;
    property.params.push(label_param(alloc, text.as_str())?)?;
    Ok(())
}

/// The draft of a LABEL, which is an ADR in vCard 4.0: one without components, and the label as its
/// parameter.
fn label_draft(alloc: Global, property: Property, version: Version) -> Result<Draft, NoMemory> {
    let mut property = property;
    add_label(alloc, &mut property, version)?;
    let value = String::from_str(alloc, ";;;;;;")?;
    Ok(draft_with(property, value))
}

/// The octets of a binary value: base64 that isn't that of a text. A label is never binary.
fn binary_octets(alloc: Global, property: &Property) -> Result<Option<Vec<u8>>, NoMemory> {
    match property.encoding {
        Encoding::Base64 if property.name.as_str() == "LABEL" => Ok(None),
        Encoding::Base64 => decoded_base64(alloc, property.value.as_str()),
        Encoding::Plain | Encoding::QuotedPrintable => Ok(None),
    }
}

/// What a value that isn't the base64 that it should be keeps: a URI nothing, since it is the value
/// that vCard 4.0 has, and any other value its encoding.
fn keep_encoding(alloc: Global, property: &mut Property) -> Result<(), NoMemory> {
    if property.encoding != Encoding::Base64 {
        return Ok(());
    }
    if has_scheme(property.value.as_str().as_bytes()) {
        let name = property.name.try_copy()?;
        return drop_formats(alloc, property, name.as_str());
    }
    property.params.push(make_param(alloc, "ENCODING", "b")?)?;
    Ok(())
}

/// The draft of a value that isn't binary.
fn plain_draft(alloc: Global, property: Property, version: Version) -> Result<Draft, NoMemory> {
    let mut property = property;
    keep_encoding(alloc, &mut property)?;
    if property.name.as_str() == "LABEL" {
        return label_draft(alloc, property, version);
    }
    text_or_uri_draft(alloc, property, version)
}

/// The draft of a property. A value that isn't the base64 that its encoding says stays as it is,
/// and so does its encoding.
pub(crate) fn draft_of(
    alloc: Global,
    property: Property,
    version: Version,
) -> Result<Draft, NoMemory> {
    match binary_octets(alloc, &property)? {
        Some(octets) => binary_draft(alloc, property, octets.as_slice()),
        None => plain_draft(alloc, property, version),
    }
}
