//! Labels of addresses (RFC 2426, sections 3.2.1 and 3.2.2). In vCard 4.0 a label is a parameter of
//! its address (RFC 6350, section 6.3.1).
ghost use Rattle.std.specs.Prelude.{◌≡◌, IfOk, IfSome, true};
ghost use Rattle.vcard_text.specs.Cards.{IsProperLine};
ghost use Rattle.vcard_property.specs.Labels.{GotLabel, has_label, is_label, is_labelled};

use crate::decoding::decode;
use crate::property::{Property, read_property};
use crate::property_line::{is_text_param, label_param, label_text};
use crate::same_line::is_named;
use import_text::{is_encoded_as, read_text};
use std::alloc::Global;
use vcard_changes::is_proper_line;
use vcard_text::{Items, Line, NoMemory, Param, Part, Text};
use vcard_values::Version;

/// The types of an address, as far as a label has to have the same.
#[derive(Clone, Copy)]
pub struct AddressTypes {
    /// Whether one of them is `home`.
    pub home: bool,
    /// Whether one of them is `work`.
    pub work: bool,
}

/// What an address or a label has beside its types and its text.
#[derive(Drop, PartialEq, Eq)]
pub struct OtherParts {
    group: Option<Text>,
    /// The parameters but TYPE.
    params: Items<Param>,
}

impl OtherParts {
    /// Whether there is nothing.
    pub fn are_none(&self) -> bool {
        self.group.is_none() && self.params.is_empty()
    }

    /// Whether a label with these parts belongs to an address of its types with the others. A group
    /// alone ties it to any address of the group (RFC 6350, section 3.3), and else all are the same.
    pub fn belong_to(&self, others: &OtherParts) -> bool {
        if self.group.is_some() && self.params.is_empty() {
            return self.group == others.group;
        }
        self == others
    }
}

/// A line that gives an address or its label.
#[derive(Drop)]
pub enum AddressLine {
    /// An address of these types.
    Address(AddressTypes, OtherParts),
    /// The label of an address of these types, as the value of a parameter.
    Label(AddressTypes, OtherParts, Text),
}

/// Whether the property has the type.
fn has_type(property: &Property, word: &str) -> bool {
    property
        .types
        .as_slice()
        .iter()
        .any(|value| value.text.as_str() == word)
}

fn types_of(property: &Property) -> AddressTypes {
    AddressTypes {
        home: has_type(property, "home"),
        work: has_type(property, "work"),
    }
}

/// Whether the parameter is LABEL.
pub(crate) fn is_label(param: &Param) -> bool
    ensures { result ≡ is_label param.now }
{
    param.name.as_str().eq_ignore_ascii_case("LABEL")
}

/// What a property has beside its types and its text. A VALUE that says that it is a text is left
/// out.
fn other_parts(alloc: Global, property: Property) -> Result<OtherParts, NoMemory> {
    let mut params = Items::new(alloc);
    for param in property.params.as_slice() {
        if !is_text_param(param) {
            params.push(param.try_copy()?)?;
        }
    }
    Ok(OtherParts {
        group: property.group,
        params,
    })
}

/// The address or the label that a property is. `None` if it is neither, or has its label.
fn address_line(
    alloc: Global,
    property: Property,
    version: Version,
) -> Result<Option<AddressLine>, NoMemory> {
    let types = types_of(&property);
    if property.name.as_str() == "LABEL" {
        let text = label_text(alloc, &property, version)?;
        let parts = other_parts(alloc, property)?;
        return Ok(Some(AddressLine::Label(types, parts, Text::new(text))));
    }
    if property.name.as_str() != "ADR" || property.params.as_slice().iter().any(is_label) {
        return Ok(None);
    }
    let parts = other_parts(alloc, property)?;
    Ok(Some(AddressLine::Address(types, parts)))
}

/// The address or the label that a line of a card of that version gives. `None` if it gives
/// neither, or both. The only `Err` is out of memory.
pub fn read_address(
    alloc: Global,
    line: &[u8],
    version: Version,
) -> Result<Option<AddressLine>, NoMemory> {
    if !is_encoded_as(line, b"ADR") && !is_encoded_as(line, b"LABEL") {
        return Ok(None);
    }
    let text = read_text(alloc, line)?;
    let Some(mut property) = read_property(alloc, text.as_str(), version)? else {
        return Ok(None);
    };
    decode(alloc, &mut property, line)?;
    address_line(alloc, property, version)
}

/// Whether the line has the parameter LABEL.
fn has_label(line: &Line) -> bool
    ensures { result ≡ has_label line.now }
{
    line.params.as_slice().iter().any(is_label)
}

/// Whether the line is an address with a label.
fn is_labelled(line: &Line) -> bool
    ensures { result ≡ is_labelled line.now }
{
    is_named(line, "ADR") && has_label(line)
}

/// The line with a label, if it is an address and is then a proper line. The only `Err` is out of
/// memory.
pub fn with_label(alloc: Global, line: &Line, label: &str) -> Result<Option<Line>, NoMemory>
    ensures proper { IfOk result (λ made. IfSome made IsProperLine) }
    ensures labelled { IfOk result (λ made. IfSome made (λ line. is_labelled line ≡ true)) }
    ensures label { IfOk result (λ made. IfSome made (GotLabel line.now)) }
{
    let mut labelled = line.try_copy()?;
    labelled.params.push(label_param(alloc, label)?)?;
    if is_labelled(&labelled) && is_proper_line(alloc, &labelled)? {
        return Ok(Some(labelled));
    }
    Ok(None)
}
