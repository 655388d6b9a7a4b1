//! Writes a property line, unfolded (RFC 6350, section 3.3).
ghost use Rattle.std.specs.Prelude.{◌≡◌, ◌++◌, OnOk, string_bytes};
ghost use Rattle.vcard_lines.specs.Grammar.{value_text, values_text, param_text, params_text};
ghost use Rattle.vcard_lines.specs.Grammar.{group_text, line_text};

use crate::line::{Line, Param, ParamValue};
use base_types::{NoMemory, Text};

fn push_value(out: &mut String, value: &ParamValue) -> Result<(), NoMemory>
    ensures { OnOk result (string_bytes out.new ≡ string_bytes out.old ++ value_text value.now) }
{
    if value.quoted {
        out.push('"')?;
        out.push_str(value.text.as_str())?;
        out.push('"')?;
    } else {
        out.push_str(value.text.as_str())?;
    }
    Ok(())
}

/// Writes values separated by commas.
fn push_values(out: &mut String, values: &[ParamValue]) -> Result<(), NoMemory>
    ensures { OnOk result (string_bytes out.new ≡ string_bytes out.old ++ values_text values.now) }
{
    let Some((first, others)) = values.split_first() else {
        return Ok(());
    };
    push_value(out, first)?;
    for value in others {
        out.push(',')?;
        push_value(out, value)?;
    }
    Ok(())
}

fn push_param(out: &mut String, param: &Param) -> Result<(), NoMemory>
    ensures { OnOk result (string_bytes out.new ≡ string_bytes out.old ++ param_text param.now) }
{
    out.push_str(param.name.as_str())?;
    out.push('=')?;
    push_values(out, param.values.as_slice())
}

/// Writes parameters, each after a semicolon.
fn push_params(out: &mut String, params: &[Param]) -> Result<(), NoMemory>
    ensures { OnOk result (string_bytes out.new ≡ string_bytes out.old ++ params_text params.now) }
{
    for param in params {
        out.push(';')?;
        push_param(out, param)?;
    }
    Ok(())
}

/// Writes the group and its dot, if there is one.
fn push_group(out: &mut String, group: &Option<Text>) -> Result<(), NoMemory>
    ensures { OnOk result (string_bytes out.new ≡ string_bytes out.old ++ group_text group.now) }
{
    if let Some(group) = group {
        out.push_str(group.as_str())?;
        out.push('.')?;
    }
    Ok(())
}

/// Replaces the contents of `out` by the text of the line, without folds and without a line end
/// (RFC 6350, section 3.3). `NoMemory` if an allocation fails; `out` may then hold a part.
pub fn write_line(out: &mut String, line: &Line) -> Result<(), NoMemory>
    ensures { OnOk result (string_bytes out.new ≡ line_text line.now) }
{
    out.clear();
    push_group(out, &line.group)?;
    out.push_str(line.name.as_str())?;
    push_params(out, line.params.as_slice())?;
    out.push(':')?;
    out.push_str(line.value.as_str())?;
    Ok(())
}
