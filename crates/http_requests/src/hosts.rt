//! The host that a request names (RFC 9110, section 7.2).
ghost use Rattle.std.specs.Prelude.{◌≡◌};
ghost use Rattle.std.specs.List.{list_any};
ghost use Rattle.http_requests.specs.Guards.{is_own_host, is_port, names_host};
ghost use Rattle.http_requests.specs.Guards.{starts_ignoring_case};

use crate::fields::all_digits;
use base_types::{Items, Text};

/// Whether the text begins with the other one, in any case.
pub(crate) fn starts_ignoring_case(start: &[u8], text: &[u8]) -> bool
    ensures { result ≡ starts_ignoring_case start.now text.now }
{
    start.len() <= text.len() && text[..start.len()].eq_ignore_ascii_case(start)
}

/// Whether this is nothing, or a colon and the digits of a port.
fn is_port(rest: &[u8]) -> bool
    ensures { result ≡ is_port rest.now }
{
    match rest.split_first() {
        None => true,
        Some((octet, digits)) => *octet == b':' && all_digits(digits),
    }
}

/// Whether the value of Host is this name, in any case, with or without a port.
fn names_host(value: &[u8], name: &[u8]) -> bool
    ensures { result ≡ names_host value.now name.now }
{
    !name.is_empty() && starts_ignoring_case(name, value) && is_port(&value[name.len()..])
}

/// Whether the value of Host is one of these names.
fn names_any_host(names: &Items<Text>, value: &[u8]) -> bool
    ensures { result ≡ list_any (names_host value.now) names.now }
{
    let names = names.as_slice();
    for i in 0..names.len() {
        if names_host(value, names[i].as_str().as_bytes()) {
            return true;
        }
    }
    false
}

/// Whether the value of Host names this server: by a name of the loopback, or by one of these.
pub(crate) fn is_own_host(names: &Items<Text>, value: &[u8]) -> bool
    ensures { result ≡ is_own_host names.now value.now }
{
    names_host(value, b"127.0.0.1")
        || names_host(value, b"localhost")
        || names_host(value, b"[::1]")
        || names_any_host(names, value)
}
