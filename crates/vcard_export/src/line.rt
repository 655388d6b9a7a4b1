//! The lines of vCard 3.0 for a line of vCard 4.0, unfolded.
ghost use Rattle.std.specs.Prelude.{◌≡◌, ◌++◌, OnOk, string_bytes};
ghost use Rattle.vcard_lines.specs.Grammar.{group_text};
ghost use Rattle.vcard_export.specs.OlderLines.{label_line, name_line, older_line, splits_label};

use crate::form::form_of;
use crate::names::{is_named, push_name};
use crate::params::{ParamRules, push_label, push_params, push_types};
use crate::spelling::{Spelling, push_spelled};
use crate::value::{push_added_params, push_value, restates};
use vcard_text::{Line, NoMemory, Text};

/// Appends the group and its dot, if there is one.
fn push_group(out: &mut String, group: &Option<Text>) -> Result<(), NoMemory>
    ensures { OnOk result (string_bytes out.new ≡ string_bytes out.old ++ group_text group.now) }
{
    if let Some(group) = group {
        out.push_str(group.as_str())?;
        out.push('.')?;
    }
    Ok(())
}

/// Whether the line is an address whose label becomes a line of its own.
pub(crate) fn splits_label(line: &Line, splits_labels: bool) -> bool
    ensures { result ≡ splits_label splits_labels line.now }
{
    splits_labels && is_named(line, "ADR")
}

/// Replaces the contents of `out` by the line in vCard 3.0.
pub(crate) fn write_older_line(
    out: &mut String,
    line: &Line,
    splits_labels: bool,
) -> Result<(), NoMemory>
    ensures { OnOk result (string_bytes out.new ≡ older_line splits_labels line.now) }
{
    let form = form_of(line);
    let rules = ParamRules {
        drops_value_type: restates(form),
        drops_label: splits_label(line, splits_labels),
    };
    out.clear();
    push_group(out, &line.group)?;
    push_name(out, line)?;
    push_added_params(out, form, line)?;
    push_params(out, line.params.as_slice(), rules)?;
    out.push(':')?;
    push_value(out, form, line.value.as_str())
}

/// Replaces the contents of `out` by the line of the label of an address.
pub(crate) fn write_label_line(out: &mut String, line: &Line) -> Result<(), NoMemory>
    ensures { OnOk result (string_bytes out.new ≡ label_line line.now) }
{
    out.clear();
    push_group(out, &line.group)?;
    out.push_str("LABEL")?;
    push_types(out, line.params.as_slice())?;
    out.push(':')?;
    push_label(out, line.params.as_slice())
}

/// Replaces the contents of `out` by a line that gives the formatted name as the family name.
pub(crate) fn write_name_line(out: &mut String, name: &str) -> Result<(), NoMemory>
    ensures { OnOk result (string_bytes out.new ≡ name_line name.now) }
{
    out.clear();
    out.push_str("N:")?;
    push_spelled(out, name, Spelling::Component)?;
    out.push_str(";;;;")?;
    Ok(())
}
