//! Which label of a card belongs to which of its addresses.
ghost use Rattle.std.specs.Prelude.{◌≡◌, codes};
ghost use Rattle.vcard_values.specs.Forms.{is_property};

use crate::card_lines::depths;
use import_text::RawLine;
use std::alloc::Global;
use vcard_property::{AddressLine, AddressTypes, OtherParts, Version, read_address};
use vcard_text::{NoMemory, ParamValue, Text};
use vcard_values::{Types, is_property, types_of};

/// The most labels with a group or with parameters that get an address, and the most that get one by
/// all their types. Each is looked for among all addresses.
const OWN_LABELS_MAX: usize = 100;

/// The most types of a line that are compared with those of another one.
const TYPES_MAX: usize = 20;

/// What the labels of a card make of a logical line.
#[derive(Drop)]
pub(crate) enum Labelling {
    /// Nothing.
    Other,
    /// It is an address, which gets this label.
    Gets(Text),
    /// It is a label that its address gets.
    Joined,
}

/// A logical line that gives an address or a label.
#[derive(Drop)]
struct Found {
    index: usize,
    line: AddressLine,
    /// All its types.
    types: Types,
}

/// Whether the logical line is a LABEL, perhaps with a group.
pub(crate) fn is_label(raw: &RawLine) -> bool
    ensures { result ≡ is_property (codes "LABEL") raw.now.octets }
{
    is_property(raw.octets.as_slice(), b"LABEL")
}

/// The addresses and the labels of a card, but for those of the cards in it.
fn found_lines(alloc: Global, raws: &[RawLine], version: Version) -> Result<Vec<Found>, NoMemory> {
    let mut found = Vec::new(alloc);
    let mut depth = 0;
    for (index, raw) in raws.iter().enumerate() {
        let octets = raw.octets.as_slice();
        let (at, next) = depths(octets, depth);
        depth = next;
        if at <= 1 {
            if let Some(line) = read_address(alloc, octets, version)? {
                let types = types_of(alloc, octets)?;
                found.push(Found { index, line, types })?;
            }
        }
    }
    Ok(found)
}

fn are_same(a: AddressTypes, b: AddressTypes) -> bool {
    a.home == b.home && a.work == b.work
}

/// Whether the labels make nothing of a logical line so far.
fn is_free(labels: &[Labelling], index: usize) -> bool {
    matches!(labels.get(index), Some(Labelling::Other))
}

/// The places of the addresses of these types that have no label so far.
fn addresses_of(
    alloc: Global,
    labels: &[Labelling],
    found: &[Found],
    types: AddressTypes,
) -> Result<Vec<usize>, NoMemory> {
    let mut places = Vec::new(alloc);
    for item in found {
        match &item.line {
            AddressLine::Address(its, _) if are_same(*its, types) && is_free(labels, item.index) =>
                { places.push(item.index)? }
            _ => {}
        }
    }
    Ok(places)
}

/// The place of the first address of these types that has no label so far, and to which a label
/// with these parts belongs.
fn address_with(
    labels: &[Labelling],
    found: &[Found],
    types: AddressTypes,
    parts: &OtherParts,
) -> Option<usize> {
    for item in found {
        match &item.line {
            AddressLine::Address(its, others)
                if are_same(*its, types)
                    && parts.belong_to(others)
                    && is_free(labels, item.index) => {
                return Some(item.index);
            }
            _ => {}
        }
    }
    None
}

/// Whether one of the values is this text.
fn has_value(values: &[ParamValue], text: &str) -> bool {
    values.iter().any(|value| value.text.as_str() == text)
}

/// Whether each of the values is one of the others.
fn are_among(values: &[ParamValue], others: &[ParamValue]) -> bool {
    for value in values {
        if !has_value(others, value.text.as_str()) {
            return false;
        }
    }
    true
}

/// Whether the types are the same, in any order. Those of a line with very many are not.
fn are_equal(a: &Types, b: &Types) -> bool {
    let (a, b) = (a.values.as_slice(), b.values.as_slice());
    a.len() <= TYPES_MAX && b.len() <= TYPES_MAX && are_among(a, b) && are_among(b, a)
}

/// The place of the first address with exactly these types that has no label so far.
fn address_of_types(labels: &[Labelling], found: &[Found], types: &Types) -> Option<usize> {
    for item in found {
        let is_address = matches!(&item.line, AddressLine::Address(..));
        if is_address && is_free(labels, item.index) && are_equal(&item.types, types) {
            return Some(item.index);
        }
    }
    None
}

/// Sets what becomes of a logical line.
fn set(labels: &mut Vec<Labelling>, index: usize, labelling: Labelling) {
    if let Some(place) = labels.as_mut_slice().get_mut(index) {
        *place = labelling;
    }
}

/// Gives the labels with a group or with parameters to addresses that have the same, or that have
/// the same group if that is all.
fn join_own_labels(labels: &mut Vec<Labelling>, found: &[Found]) -> Result<(), NoMemory> {
    let mut count: usize = 0;
    for item in found {
        let AddressLine::Label(types, parts, text) = &item.line else {
            continue;
        };
        if parts.are_none() {
            continue;
        }
        count = count.saturating_add(1);
        if count > OWN_LABELS_MAX {
            break;
        }
        if let Some(address) = address_with(labels.as_slice(), found, *types, parts) {
            set(labels, address, Labelling::Gets(text.try_copy()?));
            set(labels, item.index, Labelling::Joined);
        }
    }
    Ok(())
}

/// Gives the labels without a group and parameters to addresses with exactly the same types.
fn join_equal_labels(labels: &mut Vec<Labelling>, found: &[Found]) -> Result<(), NoMemory> {
    let mut count: usize = 0;
    for item in found {
        let AddressLine::Label(_, parts, text) = &item.line else {
            continue;
        };
        if !parts.are_none() {
            continue;
        }
        count = count.saturating_add(1);
        if count > OWN_LABELS_MAX {
            break;
        }
        if let Some(address) = address_of_types(labels.as_slice(), found, &item.types) {
            set(labels, address, Labelling::Gets(text.try_copy()?));
            set(labels, item.index, Labelling::Joined);
        }
    }
    Ok(())
}

/// Gives the other addresses of these types the other labels without a group and parameters: the
/// first one the first, and so on. Their further types may differ.
fn join_labels(
    alloc: Global,
    labels: &mut Vec<Labelling>,
    found: &[Found],
    types: AddressTypes,
) -> Result<(), NoMemory> {
    let places = addresses_of(alloc, labels.as_slice(), found, types)?;
    let mut rest = places.as_slice();
    for item in found {
        let AddressLine::Label(its, parts, text) = &item.line else {
            continue;
        };
        if !are_same(*its, types) || !parts.are_none() || !is_free(labels.as_slice(), item.index) {
            continue;
        }
        let Some((address, others)) = rest.split_first() else {
            break;
        };
        set(labels, *address, Labelling::Gets(text.try_copy()?));
        set(labels, item.index, Labelling::Joined);
        rest = others;
    }
    Ok(())
}

/// What the labels of a card make of each of its logical lines. A label belongs to the next address
/// with exactly its types that has none, or else to the next that is as much of home and of work;
/// one with a group only to an address with that group, and one with parameters only to one with
/// the same group and parameters. Empty if there are no labels, or in vCard 4.0, which has none.
pub(crate) fn labels_of(
    alloc: Global,
    raws: &[RawLine],
    version: Version,
) -> Result<Vec<Labelling>, NoMemory> {
    let mut labels = Vec::new(alloc);
    if version == Version::Fourth || !raws.iter().any(is_label) {
        return Ok(labels);
    }
    let found = found_lines(alloc, raws, version)?;
    for _raw in raws {
        labels.push(Labelling::Other)?;
    }
    join_own_labels(&mut labels, found.as_slice())?;
    join_equal_labels(&mut labels, found.as_slice())?;
    for (home, work) in [(true, false), (false, true), (true, true), (false, false)] {
        join_labels(
            alloc,
            &mut labels,
            found.as_slice(),
            AddressTypes { home, work },
        )?;
    }
    Ok(labels)
}
