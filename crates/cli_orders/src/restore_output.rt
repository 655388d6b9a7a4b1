//! The output of `restore`.
ghost use Rattle.std.specs.Prelude.{◌≡◌, ◌++◌, IfOk, OnOk};
ghost use Rattle.cli_orders.specs.RestoreOutputs.{kept_line, kept_lines, made_line, made_lines};
ghost use Rattle.cli_orders.specs.RestoreOutputs.{restore_output, restored_line, unread_line};

use base_types::Items;
use std::alloc::Global;
use vcard_text::{NoMemory, Text};

/// What became of a file in whose place a copy was put back.
#[derive(Drop)]
pub struct Restored {
    /// The names under which the file and its log are kept. None if there was no file.
    pub kept: Items<Text>,
    /// Whether the books of the file are known: it was read, or it wasn't there.
    pub is_read: bool,
    /// The names of the books that the file has and the copy hasn't, in the order in which they
    /// were made again, empty.
    pub made: Items<Text>,
    /// The number of books.
    pub books: u64,
}

/// Writes the line of a name under which something is kept.
fn write_kept(out: &mut Vec<u8>, name: &str) -> Result<(), NoMemory>
    ensures { OnOk result (out.new.items ≡ out.old.items ++ kept_line name.now) }
{
    let alloc = *out.allocator();
    let line = format!(in alloc; "kept {name}\n")?;
    out.extend_from_slice(line.as_bytes())?;
    Ok(())
}

fn write_all_kept(out: &mut Vec<u8>, names: &[Text]) -> Result<(), NoMemory>
    ensures { OnOk result (out.new.items ≡ out.old.items ++ kept_lines names.now) }
{
    for name in names {
        write_kept(out, name.as_str())?;
    }
    Ok(())
}

/// Writes the line of a book that was made again.
fn write_made(out: &mut Vec<u8>, name: &str) -> Result<(), NoMemory>
    ensures { OnOk result (out.new.items ≡ out.old.items ++ made_line name.now) }
{
    let alloc = *out.allocator();
    let line = format!(in alloc; "remade {name}\n")?;
    out.extend_from_slice(line.as_bytes())?;
    Ok(())
}

fn write_all_made(out: &mut Vec<u8>, names: &[Text]) -> Result<(), NoMemory>
    ensures { OnOk result (out.new.items ≡ out.old.items ++ made_lines names.now) }
{
    for name in names {
        write_made(out, name.as_str())?;
    }
    Ok(())
}

/// Writes that the file wasn't read, if that is so.
fn write_unread(out: &mut Vec<u8>, file: &str, is_read: bool) -> Result<(), NoMemory>
    ensures { OnOk result (out.new.items ≡ out.old.items ++ unread_line file.now is_read) }
{
    if is_read {
        return Ok(());
    }
    let alloc = *out.allocator();
    let line = format!(in alloc;
        "unread {file}: its books that the copy hasn't are not made again\n"
    )?;
    out.extend_from_slice(line.as_bytes())?;
    Ok(())
}

fn write_count(out: &mut Vec<u8>, books: u64) -> Result<(), NoMemory>
    ensures { OnOk result (out.new.items ≡ out.old.items ++ restored_line books) }
{
    let alloc = *out.allocator();
    let line = format!(in alloc; "restored {books}\n")?;
    out.extend_from_slice(line.as_bytes())?;
    Ok(())
}

/// The output of `restore` for this file.
pub fn restore_text(alloc: Global, file: &str, restored: &Restored) -> Result<Vec<u8>, NoMemory>
    ensures { IfOk result (λ text. text.items ≡ restore_output file.now restored.now) }
{
    let mut out = Vec::new(alloc);
    write_all_kept(&mut out, restored.kept.as_slice())?;
    write_unread(&mut out, file, restored.is_read)?;
    write_all_made(&mut out, restored.made.as_slice())?;
    write_count(&mut out, restored.books)?;
    Ok(out)
}
