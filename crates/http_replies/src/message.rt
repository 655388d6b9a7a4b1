//! Formats a reply: the status line, the fields and the body.
ghost use Rattle.std.specs.Prelude.{◌≡◌, ◌++◌, IfOk, OnOk, decimal, length, option_map};
ghost use Rattle.std.specs.Prelude.{string_bytes};
ghost use Rattle.http_replies.specs.Messages.{connection_option, header_field, head_octets};
ghost use Rattle.http_replies.specs.Messages.{head_line, message_octets, message_value, more_line};
ghost use Rattle.http_replies.specs.Messages.{phrase_of, status_line};

use base_types::NoMemory;
use http::StatusCode;
use std::alloc::Global;

/// Most heads are shorter. A longer one makes the octets of the reply grow.
const HEAD_OCTETS: usize = 256;

/// A field of a head (RFC 9110, section 5).
#[derive(Clone, Copy)]
pub(crate) struct Field {
    pub(crate) name: &'static str,
    pub(crate) value: &'static str,
}

/// A reply before it is formatted. It may have one field more than every reply has.
#[derive(Drop)]
pub(crate) struct Message {
    pub(crate) status: StatusCode,
    pub(crate) media_type: &'static str,
    pub(crate) more: Option<Field>,
    pub(crate) body: Vec<u8>,
}

/// The reason phrase of a status, or the empty text if it has none (RFC 9110, section 15).
fn phrase_of(status: StatusCode) -> &'static str
    ensures { result.now ≡ phrase_of status }
{
    status.canonical_reason().unwrap_or("")
}

/// Appends the status line (RFC 9112, section 4).
fn push_status(head: &mut String, status: StatusCode) -> Result<(), NoMemory>
    ensures { OnOk result (string_bytes head.new
        ≡ string_bytes head.old ++ head_line (status_line status)) }
{
    head.push_str("HTTP/1.1 ")?;
    head.push_str(status.as_str())?;
    head.push_str(" ")?;
    head.push_str(phrase_of(status))?;
    head.push_str("\r\n")?;
    Ok(())
}

/// Appends a field (RFC 9112, section 5).
fn push_field(head: &mut String, name: &str, value: &str) -> Result<(), NoMemory>
    ensures { OnOk result (string_bytes head.new
        ≡ string_bytes head.old ++ head_line (header_field name.now value.now)) }
{
    head.push_str(name)?;
    head.push_str(": ")?;
    head.push_str(value)?;
    head.push_str("\r\n")?;
    Ok(())
}

/// Appends one more field, if there is one.
fn push_more(head: &mut String, more: Option<Field>) -> Result<(), NoMemory>
    ensures { OnOk result (string_bytes head.new ≡ string_bytes head.old
        ++ more_line (option_map (λ field. (field.name.now, field.value.now)) more)) }
{
    match more {
        Some(field) => push_field(head, field.name, field.value),
        None => Ok(()),
    }
}

/// The value of the Connection field (RFC 9110, section 7.6.1).
fn connection_option(close: bool) -> &'static str
    ensures { result.now ≡ connection_option close }
{
    if close { "close" } else { "keep-alive" }
}

/// The length of a body in decimal.
fn length_text(alloc: Global, body: &[u8]) -> Result<String, NoMemory>
    ensures { IfOk result (λ text. string_bytes text ≡ decimal (length body.now)) }
{
    let length = body.len();
    Ok(format!(in alloc; "{length}")?)
}

/// The head of the reply, with the empty line that ends it. It has capacity for the body after it.
fn head_of(alloc: Global, message: &Message, close: bool) -> Result<String, NoMemory>
    ensures { IfOk result (λ head.
        string_bytes head ≡ head_octets (message_value message.now) close) }
{
    let length = length_text(alloc, message.body.as_slice())?;
    let mut head = String::with_capacity(alloc, message.body.len() + HEAD_OCTETS)?;
    push_status(&mut head, message.status)?;
    push_field(&mut head, "Content-Type", message.media_type)?;
    push_more(&mut head, message.more)?;
    push_field(&mut head, "Content-Length", length.as_str())?;
    push_field(&mut head, "Connection", connection_option(close))?;
    head.push_str("\r\n")?;
    Ok(head)
}

/// The octets of the whole reply.
pub(crate) fn message_octets(
    alloc: Global,
    message: &Message,
    close: bool,
) -> Result<Vec<u8>, NoMemory>
    ensures { IfOk result (λ octets.
        octets.items ≡ message_octets (message_value message.now) close) }
{
    let mut octets = head_of(alloc, message, close)?.into_bytes();
    octets.extend_from_slice(message.body.as_slice())?;
    Ok(octets)
}
