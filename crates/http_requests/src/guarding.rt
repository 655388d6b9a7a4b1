//! Why a guard refuses a request by its head.
ghost use Rattle.std.specs.Prelude.{◌≡◌, All, length, map};
ghost use Rattle.std.specs.List.{list_any};
ghost use Rattle.httparse.specs.Spans.{IsHeaderWithin, header_bytes};
ghost use Rattle.http_requests.specs.Guards.{guard, guard_writes, is_foreign_host};
ghost use Rattle.http_requests.specs.Guards.{is_foreign_site, is_precondition, writes};

use crate::fields::{field_is_named, first_field_named};
use crate::head_fault::HeadFault;
use crate::hosts::is_own_host;
use crate::origins::{is_foreign_fetch, is_foreign_origin};
use base_types::{Items, Text};
use httparse::spans::HeaderSpan;

/// Whether the field is a Host that doesn't name a server with these names.
fn is_foreign_host(names: &Items<Text>, text: &[u8], field: HeaderSpan) -> bool
    requires { IsHeaderWithin (length text.now) field }
    ensures { result ≡ is_foreign_host names.now (header_bytes text.now field) }
{
    field_is_named(text, field, "host") && !is_own_host(names, field.value.of(text))
}

/// Whether a Host doesn't name a server with these names.
fn has_foreign_host(names: &Items<Text>, text: &[u8], fields: &[HeaderSpan]) -> bool
    requires { All (IsHeaderWithin (length text.now)) fields.now }
    ensures { result ≡ list_any (is_foreign_host names.now)
        (map (header_bytes text.now) fields.now) }
{
    for i in 0..fields.len() {
        if is_foreign_host(names, text, fields[i]) {
            return true;
        }
    }
    false
}

/// Whether the method may change a book.
fn writes(method: &[u8]) -> bool
    ensures { result ≡ writes method.now }
{
    method == b"POST".as_slice() || method == b"PUT".as_slice() || method == b"DELETE".as_slice()
}

/// Whether the field says that a page of another site sends the request to this host.
fn is_foreign_site(host: &[u8], text: &[u8], field: HeaderSpan) -> bool
    requires { IsHeaderWithin (length text.now) field }
    ensures { result ≡ is_foreign_site host.now (header_bytes text.now field) }
{
    is_foreign_fetch(text, field) || is_foreign_origin(host, text, field)
}

/// Whether a field says that a page of another site sends the request to this host.
fn has_foreign_site(host: &[u8], text: &[u8], fields: &[HeaderSpan]) -> bool
    requires { All (IsHeaderWithin (length text.now)) fields.now }
    ensures { result ≡ list_any (is_foreign_site host.now)
        (map (header_bytes text.now) fields.now) }
{
    for i in 0..fields.len() {
        if is_foreign_site(host, text, fields[i]) {
            return true;
        }
    }
    false
}

/// Whether the field is a precondition (RFC 9110, section 13.1).
fn is_precondition(text: &[u8], field: HeaderSpan) -> bool
    requires { IsHeaderWithin (length text.now) field }
    ensures { result ≡ is_precondition (header_bytes text.now field) }
{
    field_is_named(text, field, "if-match")
        || field_is_named(text, field, "if-none-match")
        || field_is_named(text, field, "if-modified-since")
        || field_is_named(text, field, "if-unmodified-since")
        || field_is_named(text, field, "if-range")
}

/// Whether a field is a precondition.
fn has_precondition(text: &[u8], fields: &[HeaderSpan]) -> bool
    requires { All (IsHeaderWithin (length text.now)) fields.now }
    ensures { result ≡ list_any is_precondition (map (header_bytes text.now) fields.now) }
{
    for i in 0..fields.len() {
        if is_precondition(text, fields[i]) {
            return true;
        }
    }
    false
}

/// Why a request to this host is refused.
fn guard_writes(host: &[u8], method: &[u8], text: &[u8], fields: &[HeaderSpan]) -> Option<HeadFault>
    requires { All (IsHeaderWithin (length text.now)) fields.now }
    ensures { result ≡ guard_writes host.now method.now (map (header_bytes text.now) fields.now) }
{
    if !writes(method) {
        None
    } else if has_foreign_site(host, text, fields) {
        Some(HeadFault::ForeignSite)
    } else if has_precondition(text, fields) {
        Some(HeadFault::Precondition)
    } else {
        None
    }
}

/// Why a server with these names, beside those of the loopback, refuses a request with this method
/// and these fields, which are parts of the text. The first that applies:
/// - `ForeignHost`: it has no Host, or one that isn't a name of the server, with or without a port.
/// - `ForeignSite`: it may change a book, and a field says that a page of another site sends it.
/// - `Precondition`: it may change a book, and has a field that this server would have to evaluate.
pub fn guard(
    names: &Items<Text>,
    method: &[u8],
    text: &[u8],
    fields: &[HeaderSpan],
) -> Option<HeadFault>
    requires within { All (IsHeaderWithin (length text.now)) fields.now }
    ensures { result ≡ guard names.now method.now (map (header_bytes text.now) fields.now) }
{
    let Some(field) = first_field_named(text, fields, "host") else {
        return Some(HeadFault::ForeignHost);
    };
    if has_foreign_host(names, text, fields) {
        return Some(HeadFault::ForeignHost);
    }
    guard_writes(field.value.of(text), method, text, fields)
}
