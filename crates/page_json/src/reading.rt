//! Reads a page from a JSON text.
ghost use Rattle.std.specs.Prelude.{◌≡◌, ◌≢◌, IfOk, IfErr, MatchResult, map};
ghost use Rattle.serde_json.specs.Data.{Data};
ghost use Rattle.serde_json.specs.View.{view};
ghost use Rattle.book_model.specs.declared.page.Page.{Page};
ghost use Rattle.page_json.specs.PageTexts.{DescribeEntries, DescribesPage};
ghost use Rattle.page_json.specs.PageJson.{IsJson, IsTextOfPage};
ghost use Rattle.page_json.specs.FirstFaults.{IsFirstReportFault, IsFirstMemberFault};
ghost use Rattle.page_json.specs.FirstFaults.{HasPageTextFault};
ghost use Rattle.page_json.specs.internal.ParsedTexts.{texts_of, texts_of_parts};
ghost use Rattle.page_json.specs.declared.fault.ReportFault.TheVariants.{Memory, NotJson};

use crate::fault::ReportFault;
use crate::laws::{pages_have_no_first_fault, texts_determine_pages};
use crate::member::{Member, entry_of};
use crate::parts::{Parts, parts_of};
use book_model::{Entry, Page};
use serde_json::Value;
use std::alloc::Global;
use sync_core::read_token;
use vcard_text::Items;

/// The JSON value of the text.
fn value_of(alloc: Global, text: &[u8]) -> Result<Value, ReportFault>
    ensures json { IfOk result (λ value. IsJson text.now (view value)) }
    ensures fault { IfErr result (λ fault. fault ≢ Memory → (fault ≡ NotJson)
        × ((value : Data) → IsJson text.now value → ⊥)) }
{
    match Value::from_slice(alloc, text) {
        Ok(value) => Ok(value),
        Err(error) => {
            if error.is_memory() {
                return Err(ReportFault::Memory);
            }
            Err(ReportFault::NotJson)
        }
    }
}

/// The entries of the members, in order.
fn entries_of(alloc: Global, members: &[Member<'_>]) -> Result<Vec<Entry>, ReportFault>
    ensures entries { IfOk result (λ entries. DescribeEntries (map texts_of members.now)
        entries.items) }
    ensures fault { IfErr result (λ fault. fault ≢ Memory
        → IsFirstMemberFault (map texts_of members.now) fault) }
{
    let mut entries = Vec::new(alloc);
    for member in members {
        let entry = entry_of(alloc, *member)?;
        entries.push(entry)?;
    }
    Ok(entries)
}

/// The page of the parts: parses its cards, and then its token.
fn page_of(alloc: Global, parts: &Parts<'_>) -> Result<Page, ReportFault>
    ensures page { IfOk result (λ page. DescribesPage (texts_of_parts parts.now) page) }
    ensures fault { IfErr result (λ fault. fault ≢ Memory
        → HasPageTextFault (texts_of_parts parts.now) fault) }
{
    let entries = entries_of(alloc, parts.members.as_slice())?;
    let Some(token) = read_token(parts.token) else {
        return Err(ReportFault::BadToken);
    };
    Ok(Page {
        book: token.book,
        entries: Items::from_vec(entries),
        mark: token.mark,
        truncated: parts.truncated,
    })
}

/// The page of a JSON text (RFC 8259): an object of `members`, `token` and `truncated`, in any
/// order and with white space between. A member has its `card`, the `status` 200, its `uid` and its
/// `version`, or the `status` 404 and its `uid`. Of two values of one name the last counts.
///
/// An `Err` is the text's first fault: `NotJson`; then `BadShape`, wherever it is in the text; then
/// that of the first faulty member, `BadCard`, or `BadShape` where its UID isn't its card's; then
/// `BadToken`. `Memory` is returned instead of any other result where an allocation fails. The time
/// is linear in the length of the text.
pub fn read_report(alloc: Global, text: &[u8]) -> Result<Page, ReportFault>
    // What is read is the page of the text.
    ensures page { IfOk result (λ page. IsTextOfPage text.now page) }

    // The text of a page is read as that page, unless memory runs out.
    ensures every { (page : Page) → IsTextOfPage text.now page
        → MatchResult result (λ read. read ≡ page) (λ fault. fault ≡ Memory) }

    // A refused text is refused for its first fault, unless memory ran out.
    ensures fault { IfErr result (λ fault. fault ≢ Memory → IsFirstReportFault text.now fault) }
{
    // Laws without effect: a text is that of one page, or has a first fault.
    texts_determine_pages();
    pages_have_no_first_fault();

    let value = value_of(alloc, text)?;
    let parts = parts_of(alloc, &value)?;
    page_of(alloc, &parts)
}
