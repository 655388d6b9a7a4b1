//! The parameters TYPE and PREF.
ghost use Rattle.std.specs.Prelude.{◌≡◌, ◌++◌, IfOk, OnOk, filter, true};
ghost use Rattle.vcard_property.specs.NewTypes.{HasTypesOf, agent_types, has_clear_new_types};
ghost use Rattle.vcard_property.specs.NewTypes.{is_other_param, is_pref_param, is_type_param};
ghost use Rattle.vcard_property.specs.NewTypes.{may_have_pref, new_params, new_types, pref_params};
ghost use Rattle.vcard_property.specs.NewTypes.{type_params};
ghost use Rattle.vcard_values.specs.Types.{is_preferred};

use crate::written_names::{has_clear_name, is_agent};
use import_text::is_encoded_as;
use std::alloc::Global;
use vcard_text::{Items, Line, NoMemory, Param, ParamValue, Text};
use vcard_values::{Types, has_clear_types, may_be_base64, says_uri, types_of};

/// Whether the parameter is TYPE.
fn is_type_param(param: &Param) -> bool
    ensures { result ≡ is_type_param param.now }
{
    param.name.as_str().eq_ignore_ascii_case("TYPE")
}

/// Appends the parameter TYPE, if there are values for it.
fn push_types(
    alloc: Global,
    params: &mut Items<Param>,
    types: Items<ParamValue>,
) -> Result<(), NoMemory>
    ensures { OnOk result (params.new ≡ params.old ++ type_params types) }
{
    if types.as_slice().is_empty() {
        return Ok(());
    }
    let name = Text::copy_of(alloc, "TYPE")?;
    params.push(Param {
        name,
        values: types,
    })?;
    Ok(())
}

/// Appends the parameter PREF of vCard 4.0, if the property is preferred.
fn push_pref(alloc: Global, params: &mut Items<Param>, is_preferred: bool) -> Result<(), NoMemory>
    ensures { OnOk result (params.new ≡ params.old ++ pref_params is_preferred) }
{
    if !is_preferred {
        return Ok(());
    }
    let mut values = Items::new(alloc);
    values.push(ParamValue {
        quoted: false,
        text: Text::copy_of(alloc, "1")?,
    })?;
    let name = Text::copy_of(alloc, "PREF")?;
    params.push(Param { name, values })?;
    Ok(())
}

/// Whether the parameter is PREF.
fn is_pref_param(param: &Param) -> bool
    ensures { result ≡ is_pref_param param.now }
{
    param.name.as_str().eq_ignore_ascii_case("PREF")
}

/// Whether the parameter is neither TYPE nor a PREF that the line may not have.
fn is_other_param(param: &Param, may_have_pref: bool) -> bool
    ensures { result ≡ is_other_param may_have_pref param.now }
{
    !is_type_param(param) && (may_have_pref || !is_pref_param(param))
}

/// Appends the other parameters.
fn push_others(
    params: &mut Items<Param>,
    may_have_pref: bool,
    others: Items<Param>,
) -> Result<(), NoMemory>
    ensures { OnOk result (params.new
        ≡ params.old ++ filter (is_other_param may_have_pref) others) }
{
    for param in others.into_vec() {
        if is_other_param(&param, may_have_pref) {
            params.push(param)?;
        }
    }
    Ok(())
}

/// All parameters in the form of vCard 4.0: TYPE, PREF and the others in order.
fn all_params(
    alloc: Global,
    types: Types,
    may_have_pref: bool,
    others: Items<Param>,
) -> Result<Items<Param>, NoMemory>
    ensures { IfOk result (λ params.
        params ≡ new_params types.values types.is_preferred may_have_pref others) }
{
    let Types {
        values,
        is_preferred,
    } = types;
    let mut params = Items::new(alloc);
    push_types(alloc, &mut params, values)?;
    push_pref(alloc, &mut params, is_preferred)?;
    push_others(&mut params, may_have_pref, others)?;
    Ok(params)
}

/// Whether the types that the line gets are clear from its octets.
fn has_clear_new_types(line: &[u8]) -> bool
    ensures { result ≡ has_clear_new_types line.now }
{
    has_clear_name(line) && has_clear_types(line) && !may_be_base64(line)
}

/// Whether the line may have a PREF of its own.
fn may_have_pref(line: &[u8]) -> bool
    ensures { result ≡ may_have_pref line.now }
{
    is_encoded_as(line, b"PREF=") || !has_clear_types(line)
}

/// The value of TYPE of an AGENT that is a URI, which is a RELATED in vCard 4.0.
fn push_agent(alloc: Global, types: &mut Items<ParamValue>, line: &[u8]) -> Result<(), NoMemory>
    ensures { OnOk result (types.new ≡ types.old ++ agent_types line.now) }
{
    if is_agent(line) && says_uri(line) {
        types.push(ParamValue {
            quoted: false,
            text: Text::copy_of(alloc, "agent")?,
        })?;
    }
    Ok(())
}

/// The types of a line of these octets, if they are clear.
fn new_types(alloc: Global, line: &[u8]) -> Result<Types, NoMemory>
    ensures values { IfOk result (λ types. types.values ≡ new_types line.now) }
    ensures pref { IfOk result (λ types. types.is_preferred ≡ is_preferred line.now) }
{
    let mut types = types_of(alloc, line)?;
    push_agent(alloc, &mut types.values, line)?;
    Ok(types)
}

/// The types of a line of these octets: those of the octets, if they are clear, and otherwise
/// these.
fn types_in(alloc: Global, line: &[u8], types: Types) -> Result<Types, NoMemory>
    ensures values { has_clear_new_types line.now ≡ true
        → IfOk result (λ types. types.values ≡ new_types line.now) }
    ensures pref { has_clear_new_types line.now ≡ true
        → IfOk result (λ types. types.is_preferred ≡ is_preferred line.now) }
{
    if has_clear_new_types(line) {
        return new_types(alloc, line);
    }
    Ok(types)
}

/// The line of these octets with TYPE and PREF before its other parameters. The types are those of
/// the octets, if they are clear, and otherwise these.
pub(crate) fn typed_line(
    alloc: Global,
    line: Line,
    octets: &[u8],
    types: Types,
) -> Result<Line, NoMemory>
    ensures typed { has_clear_new_types octets.now ≡ true
        → IfOk result (HasTypesOf octets.now) }
    ensures value { IfOk result (λ typed. typed.value ≡ line.value) }
{
    let Line {
        group,
        name,
        params,
        value,
    } = line;
    let types = types_in(alloc, octets, types)?;
    let params = all_params(alloc, types, may_have_pref(octets), params)?;
    Ok(Line {
        group,
        name,
        params,
        value,
    })
}
