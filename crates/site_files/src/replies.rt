//! The octets of a site's replies.
ghost use Rattle.std.specs.Prelude.{◌≡◌, ◌++◌, IfOk, OnOk, decimal, string_bytes};
ghost use Rattle.site_files.specs.SiteReplies.{bad_method_reply, connection_line, field_line};
ghost use Rattle.site_files.specs.SiteReplies.{file_head, file_reply, found_reply, last_lines};

use crate::media_type::media_type;
use crate::site::SiteFile;
use base_types::NoMemory;
use std::alloc::Global;

/// More octets than a head has.
const HEAD_OCTETS: usize = 1024;

/// The fields that each file is sent with, and the empty line after them. The policy is that of the
/// desk's page, and says beyond it that no page may frame one of the site, which a page can't say
/// itself.
const LAST_LINES: &str = "Content-Security-Policy: default-src 'none'; script-src 'self'; \
     style-src 'self'; img-src 'self' data:; connect-src 'self'; manifest-src 'self'; \
     worker-src 'self'; base-uri 'none'; form-action 'none'; frame-ancestors 'none'; \
     require-trusted-types-for 'script'; trusted-types desk\r\n\
     X-Content-Type-Options: nosniff\r\n\
     Cache-Control: no-cache\r\n\
     \r\n";

/// The body of the reply to another method than GET.
const BAD_METHOD_BODY: &str = "{\"fault\":\"bad-method\",\"number\":28}";

/// The field Connection.
fn connection_line(close: bool) -> &'static str
    ensures { result.now ≡ connection_line close }
{
    if close {
        "Connection: close\r\n"
    } else {
        "Connection: keep-alive\r\n"
    }
}

/// Appends a field.
fn push_field(head: &mut String, name: &str, value: &str) -> Result<(), NoMemory>
    ensures { OnOk result (string_bytes head.new
        ≡ string_bytes head.old ++ field_line name.now value.now) }
{
    head.push_str(name)?;
    head.push_str(": ")?;
    head.push_str(value)?;
    head.push_str("\r\n")?;
    Ok(())
}

/// A number in decimal.
fn decimal_text(alloc: Global, number: usize) -> Result<String, NoMemory>
    ensures { IfOk result (λ text. string_bytes text ≡ decimal number) }
{
    Ok(format!(in alloc; "{number}")?)
}

/// The head of the reply with a file. It has capacity for the file after it.
fn file_head(
    alloc: Global,
    media_type: &str,
    octets: usize,
    close: bool,
) -> Result<String, NoMemory>
    ensures { IfOk result (λ head. string_bytes head ≡ file_head media_type.now octets close) }
{
    let length = decimal_text(alloc, octets)?;
    let mut head = String::with_capacity(alloc, octets.saturating_add(HEAD_OCTETS))?;
    head.push_str("HTTP/1.1 200 OK\r\n")?;
    push_field(&mut head, "Content-Type", media_type)?;
    push_field(&mut head, "Content-Length", length.as_str())?;
    head.push_str(connection_line(close))?;
    head.push_str(LAST_LINES)?;
    Ok(head)
}

/// The whole reply with a file.
fn found_reply(alloc: Global, file: &SiteFile, close: bool) -> Result<Vec<u8>, NoMemory>
    ensures { IfOk result (λ reply. reply.items ≡ found_reply file.now close) }
{
    let octets = file.1.as_slice();
    let media = media_type(file.0.as_str().as_bytes());
    let mut reply = file_head(alloc, media, octets.len(), close)?.into_bytes();
    reply.extend_from_slice(octets)?;
    Ok(reply)
}

/// The whole reply to another method than GET.
fn bad_method_reply(alloc: Global, close: bool) -> Result<Vec<u8>, NoMemory>
    ensures { IfOk result (λ reply. reply.items ≡ bad_method_reply close) }
{
    let mut reply = String::with_capacity(alloc, HEAD_OCTETS)?;
    reply.push_str("HTTP/1.1 405 Method Not Allowed\r\n")?;
    push_field(&mut reply, "Content-Type", "application/json")?;
    push_field(&mut reply, "Allow", "GET")?;
    push_field(&mut reply, "Content-Length", "34")?;
    reply.push_str(connection_line(close))?;
    reply.push_str("\r\n")?;
    reply.push_str(BAD_METHOD_BODY)?;
    Ok(reply.into_bytes())
}

/// The whole reply to a request for a file: the file for GET, and the fault of the API for any other
/// method. `NoMemory` if an allocation fails.
pub(crate) fn file_reply(
    alloc: Global,
    method: &str,
    file: &SiteFile,
    close: bool,
) -> Result<Vec<u8>, NoMemory>
    ensures { IfOk result (λ reply. reply.items ≡ file_reply method.now file.now close) }
{
    if method == "GET" {
        found_reply(alloc, file, close)
    } else {
        bad_method_reply(alloc, close)
    }
}
