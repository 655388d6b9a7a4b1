//! The site whose page sends a request (RFC 6454, section 7; Fetch Metadata).
ghost use Rattle.std.specs.Prelude.{◌≡◌, length};
ghost use Rattle.httparse.specs.Spans.{IsHeaderWithin, header_bytes};
ghost use Rattle.http_requests.specs.Guards.{is_foreign_fetch, is_foreign_origin};
ghost use Rattle.http_requests.specs.Guards.{is_origin_of, is_own_origin};

use crate::fields::field_is_named;
use crate::hosts::starts_ignoring_case;
use httparse::spans::HeaderSpan;

/// Whether the value of Origin is this scheme and the host, in any case.
fn is_origin_of(host: &[u8], scheme: &[u8], value: &[u8]) -> bool
    ensures { result ≡ is_origin_of host.now scheme.now value.now }
{
    starts_ignoring_case(scheme, value) && value[scheme.len()..].eq_ignore_ascii_case(host)
}

/// Whether the value of Origin names this host and port.
fn is_own_origin(host: &[u8], value: &[u8]) -> bool
    ensures { result ≡ is_own_origin host.now value.now }
{
    is_origin_of(host, b"http://", value) || is_origin_of(host, b"https://", value)
}

/// Whether the field is a Sec-Fetch-Site with another value than `same-origin`.
pub(crate) fn is_foreign_fetch(text: &[u8], field: HeaderSpan) -> bool
    requires { IsHeaderWithin (length text.now) field }
    ensures { result ≡ is_foreign_fetch (header_bytes text.now field) }
{
    field_is_named(text, field, "sec-fetch-site")
        && field.value.of(text) != b"same-origin".as_slice()
}

/// Whether the field is an Origin that names another host or port.
pub(crate) fn is_foreign_origin(host: &[u8], text: &[u8], field: HeaderSpan) -> bool
    requires { IsHeaderWithin (length text.now) field }
    ensures { result ≡ is_foreign_origin host.now (header_bytes text.now field) }
{
    field_is_named(text, field, "origin") && !is_own_origin(host, field.value.of(text))
}
