//! The octets to send for each reply and each fault.
ghost use Rattle.std.specs.Prelude.{◌≡◌, false, IfOk, option_map};
ghost use Rattle.http_replies.specs.Replies.{allow_field, head_fault_octets, reply_octets};
ghost use Rattle.http_replies.specs.Replies.{json_octets, method_fault_octets, retry_field};
ghost use Rattle.http_replies.specs.Replies.{route_fault_octets};
ghost use Rattle.serde_json.specs.View.{view};
ghost use Rattle.serde_json.specs.Written.{has_float};

use crate::bodies::{JSON, body_of, fault_json, media_type_of};
use crate::message::{Field, Message, message_octets};
use crate::statuses::reply_status;
use book_commands::Reply;
use http::StatusCode;
use http_requests::HeadFault;
use http_routes::RouteFault;
use serde_json::Value;
use std::alloc::Global;
use vcard_text::NoMemory;

/// The octets to send for a reply of the service: the status line, the fields Content-Type,
/// Content-Length and Connection, an empty line, and the body. With `close` the Connection field
/// announces that the connection closes after the reply. `NoMemory` if an allocation fails.
pub fn reply_bytes(alloc: Global, reply: Reply, close: bool) -> Result<Vec<u8>, NoMemory>
    ensures { IfOk result (λ octets. octets.items ≡ reply_octets reply close) }
{
    let status = reply_status(&reply);
    let media_type = media_type_of(&reply);
    let body = body_of(alloc, reply)?;
    let message = Message {
        status,
        media_type,
        more: None,
        body,
    };
    message_octets(alloc, &message, close)
}

/// When a client that was refused since the server is busy may come again, in seconds (RFC 9110,
/// section 10.2.3).
fn retry_field(fault: HeadFault) -> Option<Field>
    ensures { option_map (λ field. (field.name.now, field.value.now)) result ≡ retry_field fault }
{
    match fault {
        HeadFault::Busy => Some(Field {
            name: "Retry-After",
            value: "1",
        }),
        _ => None,
    }
}

/// The methods that are allowed in place of a wrong one (RFC 9110, section 10.2.1).
fn allow_field(fault: RouteFault) -> Option<Field>
    ensures { option_map (λ field. (field.name.now, field.value.now)) result ≡ allow_field fault }
{
    match fault.allow() {
        Some(methods) => Some(Field {
            name: "Allow",
            value: methods,
        }),
        None => None,
    }
}

/// The octets to send for a fault of a head, which closes the connection. `NoMemory` if an
/// allocation fails.
pub fn head_fault_bytes(alloc: Global, fault: HeadFault) -> Result<Vec<u8>, NoMemory>
    ensures { IfOk result (λ octets. octets.items ≡ head_fault_octets fault) }
{
    let Ok(status) = StatusCode::from_u16(fault.status()) else {
        unreachable!()
    };
    let body = fault_json(alloc, fault.text(), fault.number())?;
    let message = Message {
        status,
        media_type: JSON,
        more: retry_field(fault),
        body,
    };
    message_octets(alloc, &message, true)
}

/// The octets to send for a request that asks for no command, with an Allow field for a wrong
/// method (RFC 9110, section 15.5.6). `NoMemory` if an allocation fails.
pub fn route_fault_bytes(alloc: Global, fault: RouteFault, close: bool) -> Result<Vec<u8>, NoMemory>
    ensures { IfOk result (λ octets. octets.items ≡ route_fault_octets fault close) }
{
    let Ok(status) = StatusCode::from_u16(fault.status()) else {
        unreachable!()
    };
    let body = fault_json(alloc, fault.text(), fault.number())?;
    let message = Message {
        status,
        media_type: JSON,
        more: allow_field(fault),
        body,
    };
    message_octets(alloc, &message, close)
}

/// The octets to send for a reply to a request that isn't for the books, with this status and this
/// value in JSON. `NoMemory` if an allocation fails.
pub fn json_bytes(
    alloc: Global,
    status: StatusCode,
    value: &Value,
    close: bool,
) -> Result<Vec<u8>, NoMemory>
    ensures { has_float (view value.now) ≡ false → IfOk result (λ octets.
        octets.items ≡ json_octets status (view value.now) close) }
{
    let message = Message {
        status,
        media_type: JSON,
        more: None,
        body: value.to_vec(alloc)?,
    };
    message_octets(alloc, &message, close)
}

/// The octets to send for a method that the path of a request doesn't have: it has `methods`.
/// `NoMemory` if an allocation fails.
pub fn method_fault_bytes(
    alloc: Global,
    methods: &'static str,
    close: bool,
) -> Result<Vec<u8>, NoMemory>
    ensures { IfOk result (λ octets. octets.items ≡ method_fault_octets methods.now close) }
{
    let message = Message {
        status: StatusCode::METHOD_NOT_ALLOWED,
        media_type: JSON,
        more: Some(Field {
            name: "Allow",
            value: methods,
        }),
        body: fault_json(alloc, "bad-method", 28)?,
    };
    message_octets(alloc, &message, close)
}
