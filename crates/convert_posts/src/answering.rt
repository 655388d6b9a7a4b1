//! Answers a request for a conversion.
ghost use Rattle.std.specs.Prelude.{◌≡◌, IfOk};
ghost use Rattle.http_replies.specs.Replies.{json_octets};
ghost use Rattle.http_routes.specs.Queries.{pairs_of};
ghost use Rattle.convert_posts.specs.ConvertReplies.{AnswersAsked, IsConversionReply};
ghost use Rattle.convert_posts.specs.ConvertReplies.{IsConvertReply};
ghost use Rattle.convert_posts.specs.ConvertRequests.{asked_in};
ghost use Rattle.convert_posts.specs.PartValues.{part_value, unconverted_value};

use crate::asked::{Asked, read_asked};
use crate::part::Part;
use crate::parts::convert_body;
use crate::unconverted::Unconverted;
use crate::values::{part_value, unconverted_value};
use base_types::NoMemory;
use http::StatusCode;
use http_replies::{json_bytes, method_fault_bytes, route_fault_bytes};
use http_requests::Head;
use http_routes::{NoCommand, split_target};
use std::alloc::Global;

/// The whole reply with a part.
fn part_reply(alloc: Global, part: &Part, close: bool) -> Result<Vec<u8>, NoMemory>
    ensures { IfOk result (λ reply. reply.items ≡ json_octets 200 (part_value part.now) close) }
{
    let value = part_value(alloc, part)?;
    json_bytes(alloc, StatusCode::OK, &value, close)
}

/// The whole reply with why a file isn't converted (RFC 9110, section 15.5.21).
fn unconverted_reply(alloc: Global, fault: &Unconverted, close: bool) -> Result<Vec<u8>, NoMemory>
    ensures { IfOk result (λ reply.
        reply.items ≡ json_octets 422 (unconverted_value fault.now) close) }
{
    let value = unconverted_value(alloc, fault)?;
    json_bytes(alloc, StatusCode::UNPROCESSABLE_ENTITY, &value, close)
}

/// The whole reply with what becomes of the front of the body.
fn conversion_reply(
    alloc: Global,
    asked: &Asked,
    body: &[u8],
    close: bool,
) -> Result<Vec<u8>, NoMemory>
    ensures { IfOk result (λ reply. IsConversionReply body.now close reply.items) }
{
    match convert_body(alloc, asked, body)? {
        Ok(part) => part_reply(alloc, &part, close),
        Err(fault) => unconverted_reply(alloc, &fault, close),
    }
}

/// The whole reply to what the query asks for, or the fault of a wrong query.
fn query_reply(alloc: Global, query: &str, body: &[u8], close: bool) -> Result<Vec<u8>, NoMemory>
    ensures { IfOk result (λ reply.
        AnswersAsked (asked_in (pairs_of query.now)) body.now close reply.items) }
{
    match read_asked(alloc, query) {
        Ok(asked) => conversion_reply(alloc, &asked, body, close),
        Err(NoCommand::Fault(fault)) => route_fault_bytes(alloc, fault, close),
        Err(NoCommand::Memory) => Err(NoMemory),
    }
}

/// The whole reply to a request for a conversion: what becomes of the front of its body, or why the
/// file isn't converted; or the fault of the API for a wrong method or a wrong query. `NoMemory` if
/// an allocation fails.
pub fn convert_reply(alloc: Global, head: &Head, body: &[u8]) -> Result<Vec<u8>, NoMemory>
    ensures { IfOk result (λ reply. IsConvertReply head.now body.now reply.items) }
{
    if head.method.as_str() != "POST" {
        return method_fault_bytes(alloc, "POST", head.close);
    }
    let (_, query) = split_target(head.target.as_str());
    query_reply(alloc, query, body, head.close)
}
