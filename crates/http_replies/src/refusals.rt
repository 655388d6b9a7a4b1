//! Refusals and faults as JSON values.
ghost use Rattle.std.specs.Prelude.{◌≡◌, IfOk};
ghost use Rattle.serde_json.specs.View.{view};
ghost use Rattle.http_replies.specs.ReplyValues.{cause_value, fault_value, mismatch_value};
ghost use Rattle.http_replies.specs.ReplyValues.{refusal_value, row_value};

use book_model::Refusal;
use serde_json::{Value, json};
use std::alloc::Global;
use vcard_text::NoMemory;

/// `{"fault":"..","number":19}`: a fault, or a refusal without details.
pub(crate) fn fault_value(alloc: Global, text: &str, number: u8) -> Result<Value, NoMemory>
    ensures { IfOk result (λ value. view value ≡ fault_value text.now number) }
{
    let number = u64::from(number);
    Ok(json!(in alloc; {"fault": text, "number": number})?)
}

/// A refusal and its cause.
fn cause_value(alloc: Global, cause: u8, text: &str, number: u8) -> Result<Value, NoMemory>
    ensures { IfOk result (λ value. view value ≡ cause_value cause text.now number) }
{
    let (cause, number) = (u64::from(cause), u64::from(number));
    Ok(json!(in alloc; {"cause": cause, "fault": text, "number": number})?)
}

/// A version mismatch and the version that the live card has.
fn mismatch_value(alloc: Global, has: u64, text: &str, number: u8) -> Result<Value, NoMemory>
    ensures { IfOk result (λ value. view value ≡ mismatch_value has text.now number) }
{
    let number = u64::from(number);
    Ok(json!(in alloc; {"fault": text, "has": has, "number": number})?)
}

/// A refused import: the row of the body and its cause.
fn row_value(alloc: Global, row: u64, cause: u8, text: &str, number: u8) -> Result<Value, NoMemory>
    ensures { IfOk result (λ value. view value ≡ row_value row cause text.now number) }
{
    let (cause, number) = (u64::from(cause), u64::from(number));
    Ok(json!(in alloc; {"cause": cause, "fault": text, "number": number, "row": row})?)
}

/// `{"fault":"..","number":1}`, plus the `cause` of a bad card, token or import, the `row` of a bad
/// import, and the version that the server `has` on a mismatch.
pub(crate) fn refusal_value(alloc: Global, refusal: Refusal) -> Result<Value, NoMemory>
    ensures { IfOk result (λ value. view value ≡ refusal_value refusal) }
{
    let (text, number) = (refusal.text(), refusal.number());
    match refusal {
        Refusal::BadCard(fault) => cause_value(alloc, fault.number(), text, number),
        Refusal::BadToken(cause) => cause_value(alloc, cause.number(), text, number),
        Refusal::VersionMismatch { has } => mismatch_value(alloc, has, text, number),
        Refusal::BadImport { row, cause } => row_value(alloc, row, cause, text, number),
        _ => fault_value(alloc, text, number),
    }
}
