//! Writes the JSON text of a page.
ghost use Rattle.std.specs.Prelude.{◌≡◌, IfOk, OnOk};
ghost use Rattle.std.specs.List.{AllByRecursion};
ghost use Rattle.page_json.specs.PageTexts.{changed, removed};
ghost use Rattle.page_json.specs.PageValues.{member_value, page_value};
ghost use Rattle.page_json.specs.PageJson.{IsTextOfPage};
ghost use Rattle.page_json.specs.WrittenPages.{IsWellFormedPage, SpellsItsCard, member_texts};
ghost use Rattle.page_json.specs.WrittenPages.{page_texts, report_text};
ghost use Rattle.page_json.specs.internal.WrittenTokens.{AppendsTokens, value_tokens};
ghost use Rattle.page_json.specs.internal.WrittenTokens.{entries_tokens};

use crate::card_texts::write_card_text;
use crate::member::{STATUS_NOT_FOUND, STATUS_OK};
use crate::members::{write_number, write_text};
use book_model::{Entry, Page};
use json::Writer;
use std::alloc::Global;
use sync_core::token_text;
use vcard_text::NoMemory;

/// Writes the object of a live member, whose card has this text.
fn write_changed(out: &mut Writer, uid: &str, version: u64, text: &str) -> Result<(), NoMemory>
    ensures { AppendsTokens result out.old out.new
        (value_tokens (member_value (changed uid.now version text.now))) }
{
    out.begin_object()?;
    write_text(out, "card", text)?;
    write_number(out, "status", STATUS_OK)?;
    write_text(out, "uid", uid)?;
    write_number(out, "version", version)?;
    Ok(out.end_object()?)
}

/// Writes the object of a removed member.
fn write_removed(out: &mut Writer, uid: &str) -> Result<(), NoMemory>
    ensures { AppendsTokens result out.old out.new
        (value_tokens (member_value (removed uid.now))) }
{
    out.begin_object()?;
    write_number(out, "status", STATUS_NOT_FOUND)?;
    write_text(out, "uid", uid)?;
    Ok(out.end_object()?)
}

/// Writes the object of an entry. `text` and `line` are buffers for its card's text.
fn write_entry(
    out: &mut Writer,
    text: &mut String,
    line: &mut String,
    entry: &Entry,
) -> Result<(), NoMemory>
    ensures tokens { AppendsTokens result out.old out.new
        (value_tokens (member_value (member_texts entry.now))) }
    ensures card { OnOk result (SpellsItsCard entry.now) }
{
    match entry {
        Entry::Changed { uid, version, card } => {
            write_card_text(text, line, card)?;
            write_changed(out, uid.as_str(), *version, text.as_str())
        }
        Entry::Removed { uid } => write_removed(out, uid.as_str()),
    }
}

/// Writes the objects of the entries, in order.
fn write_entries(alloc: Global, out: &mut Writer, entries: &[Entry]) -> Result<(), NoMemory>
    ensures tokens { AppendsTokens result out.old out.new (entries_tokens entries.now) }
    ensures cards { OnOk result (AllByRecursion SpellsItsCard entries.now) }
{
    let mut text = String::new(alloc);
    let mut line = String::new(alloc);
    for entry in entries {
        write_entry(out, &mut text, &mut line, entry)?;
    }
    Ok(())
}

/// Writes the object of a page.
fn write_page(alloc: Global, out: &mut Writer, page: &Page) -> Result<(), NoMemory>
    ensures tokens { AppendsTokens result out.old out.new
        (value_tokens (page_value (page_texts page.now))) }
    ensures cards { OnOk result (AllByRecursion SpellsItsCard page.now.entries) }
{
    let token = token_text(alloc, &page.token())?;
    out.begin_object()?;
    out.key("members")?;
    out.begin_array()?;
    write_entries(alloc, out, page.entries.as_slice())?;
    out.end_array()?;
    write_text(out, "token", token.as_str())?;
    out.key("truncated")?;
    out.boolean(page.truncated)?;
    Ok(out.end_object()?)
}

/// The page as JSON (RFC 8259) in UTF-8, without white space: an object of `members`, `token` and
/// `truncated`, the names of each object ordered by their octets. A live member has its card's
/// canonical text as `card`, the `status` 200, its `uid` and its `version`; a removed one has the
/// `status` 404 and its `uid`. `NoMemory` where an allocation fails.
pub fn write_report(alloc: Global, page: &Page) -> Result<Vec<u8>, NoMemory>
    ensures text { IfOk result (λ text. text.items ≡ report_text page.now) }

    // The text of a well-formed page is read back as the same page. In such a page each card is
    // under its own UID, and has a version above 0 and below 10^13; the token's book, `at` and
    // `base` are below 10^13, and `at` is at most `base`. The pages of reports of well-formed books
    // are such (`report_pages_are_well_formed`).
    ensures read_back { IfOk result
        (λ text. IsWellFormedPage page.now → IsTextOfPage text.items page.now) }
{
    let mut out = Writer::new(Vec::new(alloc));
    write_page(alloc, &mut out, page)?;
    Ok(out.into_inner())
}
