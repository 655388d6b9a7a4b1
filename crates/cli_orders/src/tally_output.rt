//! The output of `tally`.
ghost use Rattle.std.specs.Prelude.{◌≡◌, ◌++◌, IfOk, IsAscii, OnOk};
ghost use Rattle.cli_orders.specs.OrderOutputs.{tally_lines, tally_row};

use std::alloc::Global;
use sync_core::Tally;
use vcard_text::NoMemory;

/// Writes the line of one number.
fn write_number(out: &mut Vec<u8>, name: &str, number: u64) -> Result<(), NoMemory>
    requires ascii { IsAscii name.now }
    ensures { OnOk result (out.new.items ≡ out.old.items ++ tally_row name.now number) }
{
    let alloc = *out.allocator();
    let line = format!(in alloc; "{name:<14}{number:>13}\n")?;
    out.extend_from_slice(line.as_bytes())?;
    Ok(())
}

/// The output of `tally`: one line for each of its eleven numbers, in byte order of name, with the
/// name left-aligned to 14 columns and the number right-aligned to 13.
pub fn tally_text(alloc: Global, tally: &Tally) -> Result<Vec<u8>, NoMemory>
    ensures { IfOk result (λ text. text.items ≡ tally_lines tally.now) }
{
    let rows = tally.named();
    let mut out = Vec::new(alloc);
    for (name, number) in &rows {
        write_number(&mut out, name, *number)?;
    }
    Ok(out)
}
