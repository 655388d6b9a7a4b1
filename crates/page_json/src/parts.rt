//! The parts of a page in JSON.
ghost use Rattle.std.specs.Prelude.{◌≡◌, ◌≢◌, ℕ, Bool, List, IfOk, IfErr, IfSome, IfNone, map};
ghost use Rattle.serde_json.specs.Data.{Data, Items, array, boolean, string};
ghost use Rattle.serde_json.specs.View.{items_view, view};
ghost use Rattle.page_json.specs.PageTexts.{MemberTexts, PageTexts};
ghost use Rattle.page_json.specs.PageValues.{HasPageShape, EncodeMembers, page_object};
ghost use Rattle.page_json.specs.internal.ParsedTexts.{texts_of, texts_of_parts};
ghost use Rattle.page_json.specs.declared.fault.ReportFault.TheVariants.{BadShape, Memory};

use crate::fault::ReportFault;
use crate::member::{Member, member_of};
use serde_json::Value;
use std::alloc::Global;

/// A page whose cards and token are still unparsed texts.
#[derive(Drop)]
pub(crate) struct Parts<'a> {
    pub(crate) members: Vec<Member<'a>>,
    pub(crate) token: &'a str,
    pub(crate) truncated: bool,
}

/// The members, the token and the truncation flag of an object that has exactly these.
fn page_parts(value: &Value) -> Option<(&Value, &Value, &Value)>
    ensures some { IfSome result (λ parts. view value.now
        ≡ page_object (view parts.0.now) (view parts.1.now) (view parts.2.now)) }
    ensures none { IfNone result ((members token truncated : Data) →
        view value.now ≢ page_object members token truncated) }
{
    let mut members = value.as_object()?.iter();
    let (first, list) = members.next()?;
    let (second, token) = members.next()?;
    let (third, truncated) = members.next()?;
    if members.next().is_some() {
        return None;
    }
    if first.as_str() == "members" && second.as_str() == "token" && third.as_str() == "truncated" {
        Some((list, token, truncated))
    } else {
        None
    }
}

/// The members, the token and the truncation flag of an object that has exactly these, if they are
/// an array, a string and a boolean.
fn typed_parts(value: &Value) -> Option<(&Vec<Value>, &str, bool)>
    ensures some { IfSome result (λ parts. view value.now
        ≡ page_object (array (items_view parts.0.now.items)) (string parts.1.now)
        (boolean parts.2)) }
    ensures none { IfNone result ((members : Items) (token : List ℕ) (truncated : Bool) →
        view value.now ≢ page_object (array members) (string token) (boolean truncated)) }
{
    let (members, token, truncated) = page_parts(value)?;
    let members = members.as_array()?;
    let token = token.as_str()?;
    let truncated = truncated.as_bool()?;
    Some((members, token, truncated))
}

/// The members that the values encode. `BadShape` where one encodes none.
fn members_of<'a>(alloc: Global, values: &'a [Value]) -> Result<Vec<Member<'a>>, ReportFault>
    ensures members { IfOk result (λ members. EncodeMembers (map view values.now)
        (map texts_of members.items)) }
    ensures fault { IfErr result (λ fault. fault ≢ Memory → (fault ≡ BadShape)
        × ((texts : List MemberTexts) → EncodeMembers (map view values.now) texts → ⊥)) }
{
    let mut members = Vec::new(alloc);
    for value in values {
        match member_of(value) {
            Some(member) => members.push(member)?,
            None => return Err(ReportFault::BadShape),
        }
    }
    Ok(members)
}

/// The parts of the page that the value encodes. `BadShape` where it hasn't the shape of a page.
pub(crate) fn parts_of(alloc: Global, value: &Value) -> Result<Parts<'_>, ReportFault>
    ensures shape { IfOk result (λ parts. HasPageShape (view value.now) (texts_of_parts parts)) }
    ensures fault { IfErr result (λ fault. fault ≢ Memory → (fault ≡ BadShape)
        × ((page : PageTexts) → HasPageShape (view value.now) page → ⊥)) }
{
    let Some((values, token, truncated)) = typed_parts(value) else {
        return Err(ReportFault::BadShape);
    };
    let members = members_of(alloc, values)?;
    Ok(Parts {
        members,
        token,
        truncated,
    })
}
