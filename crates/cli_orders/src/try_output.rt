//! Formats the output of the order `try`.
ghost use Rattle.std.specs.Prelude.{◌≡◌, ◌++◌, IfOk, OnOk};
ghost use Rattle.cli_orders.specs.TryOutputs.{put_line, entry_lines, entries_lines, page_lines};
ghost use Rattle.cli_orders.specs.TryOutputs.{try_lines};
ghost use Rattle.cli_orders.specs.OrderOutputs.{yes_or_no};

use crate::try_result::FirstPath;
use std::alloc::Global;
use sync_core::{Entry, Page, PutAnswer, Token, token_text};
use vcard_text::{NoMemory, write_card};

/// Appends the line of a put, for example `put created 1`.
fn write_put(out: &mut Vec<u8>, put: PutAnswer) -> Result<(), NoMemory>
    ensures { OnOk result (out.new.items ≡ out.old.items ++ put_line put) }
{
    let alloc = *out.allocator();
    let line = match put {
        PutAnswer::Created { version } => format!(in alloc; "put created {version}\n")?,
        PutAnswer::Edited { version } => format!(in alloc; "put edited {version}\n")?,
        PutAnswer::Unchanged { version } => format!(in alloc; "put unchanged {version}\n")?,
    };
    out.extend_from_slice(line.as_bytes())?;
    Ok(())
}

/// Appends an entry of a page: a line, and for a changed member the text of its card.
fn write_entry(out: &mut Vec<u8>, entry: &Entry) -> Result<(), NoMemory>
    ensures { OnOk result (out.new.items ≡ out.old.items ++ entry_lines entry.now) }
{
    let alloc = *out.allocator();
    match entry {
        Entry::Changed { uid, version, card } => {
            let text = write_card(alloc, card)?;
            let octets = text.len();
            let line = format!(in alloc; "card {uid} version {version} octets {octets}\n")?;
            out.extend_from_slice(line.as_bytes())?;
            out.extend_from_slice(text.as_slice())?;
        }
        Entry::Removed { uid } => {
            let line = format!(in alloc; "removed {uid}\n")?;
            out.extend_from_slice(line.as_bytes())?;
        }
    }
    Ok(())
}

fn write_entries(out: &mut Vec<u8>, entries: &[Entry]) -> Result<(), NoMemory>
    ensures { OnOk result (out.new.items ≡ out.old.items ++ entries_lines entries.now) }
{
    for entry in entries {
        write_entry(out, entry)?;
    }
    Ok(())
}

fn yes_or_no(holds: bool) -> &'static str
    ensures { result.now ≡ yes_or_no holds }
{
    if holds { "yes" } else { "no" }
}

/// Appends a page: its entries, its sync token, and whether it is truncated.
fn write_page(out: &mut Vec<u8>, page: &Page) -> Result<(), NoMemory>
    ensures { OnOk result (out.new.items ≡ out.old.items ++ page_lines page.now) }
{
    let alloc = *out.allocator();
    let token = Token {
        book: page.book,
        mark: page.mark,
    };
    let token = token_text(alloc, &token)?;
    let token = token.as_str();
    let truncated = yes_or_no(page.truncated);
    let last_lines = format!(in alloc; "token {token}\ntruncated {truncated}\n")?;
    write_entries(out, page.entries.as_slice())?;
    out.extend_from_slice(last_lines.as_bytes())?;
    Ok(())
}

/// The output of the order `try`.
pub fn try_octets(alloc: Global, path: &FirstPath) -> Result<Vec<u8>, NoMemory>
    ensures { IfOk result (λ octets. octets.items ≡ try_lines path.now) }
{
    let mut out = Vec::new(alloc);
    write_put(&mut out, path.put)?;
    write_page(&mut out, &path.page)?;
    Ok(out)
}
