//! The output of `mirror`.
ghost use Rattle.std.specs.Prelude.{◌≡◌, ◌++◌, IfOk, OnOk, string_bytes};
ghost use Rattle.base_types.specs.TextMaps.{octet_map};
ghost use Rattle.cli_orders.specs.OrderOutputs.{copy_line, copy_lines, mirror_lines, pages_line};
ghost use Rattle.cli_orders.specs.OrderOutputs.{token_line};

use book_service::Mirrored;
use std::alloc::Global;
use std::collections::BTreeMap;
use sync_core::{Device, Stored, Token, token_text};
use vcard_text::NoMemory;

/// Writes the number of applied pages, and whether the copy is complete.
fn write_pages(out: &mut Vec<u8>, pages: u64, done: bool) -> Result<(), NoMemory>
    ensures { OnOk result (out.new.items ≡ out.old.items ++ pages_line pages done) }
{
    let alloc = *out.allocator();
    let done = if done { "yes" } else { "no" };
    let line = format!(in alloc; "pages {pages} done {done}\n")?;
    out.extend_from_slice(line.as_bytes())?;
    Ok(())
}

/// Writes the version and UID of a card.
fn write_card(out: &mut Vec<u8>, uid: &str, version: u64) -> Result<(), NoMemory>
    ensures { OnOk result (out.new.items ≡ out.old.items ++ copy_line uid.now version) }
{
    let alloc = *out.allocator();
    let line = format!(in alloc; "{version:>13} {uid}\n")?;
    out.extend_from_slice(line.as_bytes())?;
    Ok(())
}

/// Writes a line for each card of the copy.
fn write_copy(out: &mut Vec<u8>, copy: &BTreeMap<String, Stored>) -> Result<(), NoMemory>
    ensures { OnOk result (out.new.items ≡ out.old.items ++ copy_lines (octet_map copy.now)) }
{
    for (uid, stored) in copy.iter() {
        write_card(out, uid.as_str(), stored.version)?;
    }
    Ok(())
}

/// Writes the token, if there is one.
fn write_token(out: &mut Vec<u8>, token: Option<Token>) -> Result<(), NoMemory>
    ensures { OnOk result (out.new.items ≡ out.old.items ++ token_line token) }
{
    let Some(token) = token else {
        return Ok(());
    };
    let alloc = *out.allocator();
    let text = token_text(alloc, &token)?;
    let text = text.as_str();
    let line = format!(in alloc; "token {text}\n")?;
    out.extend_from_slice(line.as_bytes())?;
    Ok(())
}

/// The output of `mirror`: the number of pages, each card of the copy in byte order of UID with its
/// version right-aligned to 13 columns, and the device's token, if there is one.
pub fn mirror_text(alloc: Global, mirrored: &Mirrored) -> Result<Vec<u8>, NoMemory>
    ensures { IfOk result (λ text. text.items ≡ mirror_lines mirrored.now) }
{
    let mut out = Vec::new(alloc);
    write_pages(&mut out, mirrored.pages, mirrored.done)?;
    write_copy(&mut out, mirrored.device.copy())?;
    write_token(&mut out, mirrored.device.token())?;
    Ok(out)
}
