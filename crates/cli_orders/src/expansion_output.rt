//! The output of `expand`.
ghost use Rattle.std.specs.Prelude.{◌≡◌, ◌++◌, IfOk, OnOk};
ghost use Rattle.cli_orders.specs.OrderOutputs.{expand_lines, missing_line, missing_lines};
ghost use Rattle.cli_orders.specs.OrderOutputs.{people_lines, person_line};

use card_core::Expansion;
use std::alloc::Global;
use vcard_text::{NoMemory, Text};

/// Writes the line of a person.
fn write_person(out: &mut Vec<u8>, uid: &str) -> Result<(), NoMemory>
    ensures { OnOk result (out.new.items ≡ out.old.items ++ person_line uid.now) }
{
    let alloc = *out.allocator();
    let line = format!(in alloc; "person {uid}\n")?;
    out.extend_from_slice(line.as_bytes())?;
    Ok(())
}

fn write_people(out: &mut Vec<u8>, people: &[Text]) -> Result<(), NoMemory>
    ensures { OnOk result (out.new.items ≡ out.old.items ++ people_lines people.now) }
{
    for uid in people {
        write_person(out, uid.as_str())?;
    }
    Ok(())
}

/// Writes the line of a member value that names no card.
fn write_value(out: &mut Vec<u8>, value: &str) -> Result<(), NoMemory>
    ensures { OnOk result (out.new.items ≡ out.old.items ++ missing_line value.now) }
{
    let alloc = *out.allocator();
    let line = format!(in alloc; "missing {value}\n")?;
    out.extend_from_slice(line.as_bytes())?;
    Ok(())
}

fn write_missing(out: &mut Vec<u8>, values: &[Text]) -> Result<(), NoMemory>
    ensures { OnOk result (out.new.items ≡ out.old.items ++ missing_lines values.now) }
{
    for value in values {
        write_value(out, value.as_str())?;
    }
    Ok(())
}

/// The output of `expand`: the people of the group, then the member values that name no card.
pub fn expand_text(alloc: Global, expansion: &Expansion) -> Result<Vec<u8>, NoMemory>
    ensures { IfOk result (λ text. text.items ≡ expand_lines expansion.now) }
{
    let mut out = Vec::new(alloc);
    write_people(&mut out, expansion.people.as_slice())?;
    write_missing(&mut out, expansion.missing.as_slice())?;
    Ok(out)
}
