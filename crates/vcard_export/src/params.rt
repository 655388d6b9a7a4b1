//! Parameters in vCard 3.0.
ghost use Rattle.std.specs.Prelude.{◌≡◌, ◌++◌, OnOk, string_bytes};
ghost use Rattle.vcard_export.specs.OlderParams.{is_label, is_left_out, is_pref, is_quoted};
ghost use Rattle.vcard_export.specs.OlderParams.{is_type, needs_quotes, older_param, older_params};
ghost use Rattle.vcard_export.specs.OlderParams.{older_param_value, older_param_values};
ghost use Rattle.vcard_export.specs.OlderParams.{label_of, label_text, label_values, type_param, type_params};

use crate::form::{has_only, is_param};
use crate::spelling::{Spelling, push_spelled};
use vcard_text::{NoMemory, Param, ParamValue};

/// What else becomes of the parameters of a line.
#[derive(Clone, Copy)]
pub(crate) struct ParamRules {
    /// Whether the value no longer is what VALUE says.
    pub(crate) drops_value_type: bool,
    /// Whether the label becomes a line of its own.
    pub(crate) drops_label: bool,
}

pub(crate) fn is_label(param: &Param) -> bool
    ensures { result ≡ is_label param.now }
{
    is_param(param, "LABEL")
}

fn is_type(param: &Param) -> bool
    ensures { result ≡ is_type param.now }
{
    is_param(param, "TYPE")
}

/// Whether the parameter says that the property is the preferred one.
fn is_pref(param: &Param) -> bool
    ensures { result ≡ is_pref param.now }
{
    is_param(param, "PREF") && has_only(param, "1")
}

/// Whether the parameter isn't written.
fn is_left_out(param: &Param, rules: ParamRules) -> bool
    ensures { result ≡ is_left_out rules param.now }
{
    (rules.drops_value_type && is_param(param, "VALUE")) || (rules.drops_label && is_label(param))
}

/// Whether the text must be in double quotes, also as a type.
fn needs_quotes(text: &str) -> bool
    ensures { result ≡ needs_quotes text.now }
{
    text.as_bytes()
        .iter()
        .any(|octet| *octet == b':' || *octet == b';')
}

/// Whether the value is in double quotes. A type isn't if it needn't be: its commas separate types.
fn is_quoted(value: &ParamValue, is_type: bool) -> bool
    ensures { result ≡ is_quoted is_type value.now }
{
    value.quoted && (!is_type || needs_quotes(value.text.as_str()))
}

/// Appends a value.
fn push_param_value(out: &mut String, value: &ParamValue, is_type: bool) -> Result<(), NoMemory>
    ensures { OnOk result (string_bytes out.new
        ≡ string_bytes out.old ++ older_param_value is_type value.now) }
{
    if is_quoted(value, is_type) {
        out.push('"')?;
        push_spelled(out, value.text.as_str(), Spelling::Param)?;
        out.push('"')?;
    } else {
        push_spelled(out, value.text.as_str(), Spelling::Param)?;
    }
    Ok(())
}

/// Appends values separated by commas.
fn push_param_values(out: &mut String, values: &[ParamValue], is_type: bool) -> Result<(), NoMemory>
    ensures { OnOk result (string_bytes out.new
        ≡ string_bytes out.old ++ older_param_values is_type values.now) }
{
    let Some((first, others)) = values.split_first() else {
        return Ok(());
    };
    push_param_value(out, first, is_type)?;
    for value in others {
        out.push(',')?;
        push_param_value(out, value, is_type)?;
    }
    Ok(())
}

/// Appends a parameter after a semicolon, unless it is left out. The preferred property has a type.
fn push_param(out: &mut String, param: &Param, rules: ParamRules) -> Result<(), NoMemory>
    ensures { OnOk result (string_bytes out.new
        ≡ string_bytes out.old ++ older_param rules param.now) }
{
    if is_left_out(param, rules) {
        return Ok(());
    }
    if is_pref(param) {
        out.push_str(";TYPE=pref")?;
        return Ok(());
    }
    out.push(';')?;
    out.push_str(param.name.as_str())?;
    out.push('=')?;
    push_param_values(out, param.values.as_slice(), is_type(param))
}

/// Appends the parameters.
pub(crate) fn push_params(
    out: &mut String,
    params: &[Param],
    rules: ParamRules,
) -> Result<(), NoMemory>
    ensures { OnOk result (string_bytes out.new
        ≡ string_bytes out.old ++ older_params rules params.now) }
{
    for param in params {
        push_param(out, param, rules)?;
    }
    Ok(())
}

/// Appends the parameter if it is a type.
fn push_type(out: &mut String, param: &Param) -> Result<(), NoMemory>
    ensures { OnOk result (string_bytes out.new
        ≡ string_bytes out.old ++ type_param param.now) }
{
    if !is_type(param) {
        return Ok(());
    }
    let rules = ParamRules {
        drops_value_type: false,
        drops_label: false,
    };
    push_param(out, param, rules)
}

/// Appends the parameters that are types.
pub(crate) fn push_types(out: &mut String, params: &[Param]) -> Result<(), NoMemory>
    ensures { OnOk result (string_bytes out.new
        ≡ string_bytes out.old ++ type_params params.now) }
{
    for param in params {
        push_type(out, param)?;
    }
    Ok(())
}

/// Appends the values of a label as the value of a property.
fn push_label_values(out: &mut String, values: &[ParamValue]) -> Result<(), NoMemory>
    ensures { OnOk result (string_bytes out.new
        ≡ string_bytes out.old ++ label_values values.now) }
{
    for value in values {
        push_spelled(out, value.text.as_str(), Spelling::Label)?;
    }
    Ok(())
}

fn push_label_of(out: &mut String, param: &Param) -> Result<(), NoMemory>
    ensures { OnOk result (string_bytes out.new
        ≡ string_bytes out.old ++ label_of param.now) }
{
    if !is_label(param) {
        return Ok(());
    }
    push_label_values(out, param.values.as_slice())
}

/// Appends the label that the parameters give, as the value of a property.
pub(crate) fn push_label(out: &mut String, params: &[Param]) -> Result<(), NoMemory>
    ensures { OnOk result (string_bytes out.new
        ≡ string_bytes out.old ++ label_text params.now) }
{
    for param in params {
        push_label_of(out, param)?;
    }
    Ok(())
}
