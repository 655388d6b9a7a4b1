//! Checks the parts of a property line against the grammar (RFC 6350, section 3.3).
ghost use Rattle.std.specs.Prelude.{◌≡◌};
ghost use Rattle.std.specs.List.{list_all};
ghost use Rattle.vcard_lines.specs.Grammar.{is_name_octet};
ghost use Rattle.vcard_lines.specs.LegalParts.{is_name, is_value, is_param, is_group_name};
ghost use Rattle.vcard_lines.specs.LegalParts.{has_legal_parts};

use crate::line::{Line, Param, ParamValue};
use crate::line_reader::{is_name_octet, is_value_octet};
use base_types::Text;

/// Whether each octet is allowed in a name.
fn are_name_octets(text: &str) -> bool
    ensures { result ≡ list_all is_name_octet text.now }
{
    text.as_bytes().iter().all(|octet| is_name_octet(*octet))
}

fn is_name(text: &str) -> bool
    ensures { result ≡ is_name text.now }
{
    !text.is_empty() && are_name_octets(text)
}

fn is_value(value: &ParamValue) -> bool
    ensures { result ≡ is_value value.now }
{
    let quoted = value.quoted;
    value
        .text
        .as_str()
        .as_bytes()
        .iter()
        .all(|octet| is_value_octet(*octet, quoted))
}

fn are_values(values: &[ParamValue]) -> bool
    ensures { result ≡ list_all is_value values.now }
{
    values.iter().all(|value| is_value(value))
}

fn is_param(param: &Param) -> bool
    ensures { result ≡ is_param param.now }
{
    let values = param.values.as_slice();
    is_name(param.name.as_str()) && !values.is_empty() && are_values(values)
}

fn are_params(params: &[Param]) -> bool
    ensures { result ≡ list_all is_param params.now }
{
    params.iter().all(|param| is_param(param))
}

fn is_group_name(group: &Option<Text>) -> bool
    ensures { result ≡ is_group_name group.now }
{
    match group {
        Some(group) => is_name(group.as_str()),
        None => true,
    }
}

/// Whether the group, the name and the parameters match the grammar (RFC 6350, section 3.3).
pub fn has_legal_parts(line: &Line) -> bool
    ensures { result ≡ has_legal_parts line.now }
{
    is_name(line.name.as_str()) && is_group_name(&line.group) && are_params(line.params.as_slice())
}
