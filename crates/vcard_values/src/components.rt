//! Values in quoted-printable whose components semicolons part.
ghost use Rattle.std.specs.Prelude.{◌≡◌, ◌==◌, ◌++◌, IfOk, OnOk, drop, flat_map, map};
ghost use Rattle.std.specs.Prelude.{false};
ghost use Rattle.vcard_values.specs.ValueTexts.{decoded_component, decoded_components};
ghost use Rattle.vcard_values.specs.ValueTexts.{decoded_value, marked_after};
ghost use Rattle.vcard_values.specs.internal.MarkLoop.{mark_octet, mark_state};

use crate::cuts::has_octet;
use crate::forms::has_parts;
use crate::types::split_semicolons;
use base_types::NoMemory;
use import_text::read_quoted_printable;
use std::alloc::Global;

/// Appends an octet of a component, with a backslash if it is a semicolon that none precedes.
fn push_marked(out: &mut Vec<u8>, is_escaped: &mut bool, octet: u8) -> Result<(), NoMemory>
    ensures { OnOk result (mark_state out.new.items is_escaped.new
        ≡ mark_octet (mark_state out.old.items is_escaped.old) octet) }
{
    if octet == b';' && !*is_escaped {
        out.push(b'\\')?;
    }
    out.push(octet)?;
    *is_escaped = octet == b'\\' && !*is_escaped;
    Ok(())
}

/// The octets of a component, where each semicolon has a backslash before it.
fn marked(alloc: Global, octets: &[u8]) -> Result<Vec<u8>, NoMemory>
    ensures { IfOk result (λ marked. marked.items ≡ marked_after false octets.now) }
{
    let mut out = Vec::new(alloc);
    let mut is_escaped = false;
    for octet in octets {
        push_marked(&mut out, &mut is_escaped, *octet)?;
    }
    Ok(out)
}

/// Appends a semicolon and what a component encodes.
fn push_component(alloc: Global, out: &mut Vec<u8>, component: &[u8]) -> Result<(), NoMemory>
    ensures { OnOk result (out.new.items ≡ out.old.items ++ decoded_component component.now) }
{
    let octets = read_quoted_printable(alloc, component)?;
    let octets = marked(alloc, octets.as_slice())?;
    out.push(b';')?;
    out.extend_from_slice(octets.as_slice())?;
    Ok(())
}

/// Appends what the components encode.
fn push_components(alloc: Global, out: &mut Vec<u8>, components: &[&[u8]]) -> Result<(), NoMemory>
    ensures { OnOk result (out.new.items ≡ out.old.items
        ++ flat_map decoded_component (map (λ component. component.now) components.now)) }
{
    for component in components {
        push_component(alloc, out, *component)?;
    }
    Ok(())
}

/// The octets but the first one.
fn without_first(alloc: Global, octets: &[u8]) -> Result<Vec<u8>, NoMemory>
    ensures { IfOk result (λ rest. rest.items ≡ drop 1 octets.now) }
{
    let mut out = Vec::new(alloc);
    if let Some((_, rest)) = octets.split_first() {
        out.extend_from_slice(rest)?;
    }
    Ok(out)
}

/// What the components encode that are between semicolons.
fn decoded_components(alloc: Global, value: &[u8]) -> Result<Vec<u8>, NoMemory>
    ensures { IfOk result (λ octets. octets.items ≡ decoded_components value.now) }
{
    let components = split_semicolons(alloc, value)?;
    let mut out = Vec::new(alloc);
    push_components(alloc, &mut out, components.as_slice())?;
    without_first(alloc, out.as_slice())
}

/// The octets that a value in quoted-printable of a line encodes. In an N, an ADR or an ORG whose
/// components semicolons part, an encoded semicolon gets a backslash, since it parts nothing. The
/// only `Err` is out of memory.
pub fn decoded_value(alloc: Global, line: &[u8], value: &[u8]) -> Result<Vec<u8>, NoMemory>
    ensures { IfOk result (λ octets. octets.items ≡ decoded_value line.now value.now) }
{
    if has_parts(line) && has_octet(value, b';') {
        return decoded_components(alloc, value);
    }
    read_quoted_printable(alloc, value)
}
