//! Tests whether octets are a legal book name, import key or UID.
ghost use Rattle.book_model.specs.BookNames.{is_legal_name};
ghost use Rattle.book_model.specs.Importing.{is_legal_key};
ghost use Rattle.store_rows.specs.Values.{IsLegalUid};
ghost use Rattle.base_types.specs.Octets.{tab};
ghost use Rattle.vcard_text.specs.Cards.{is_uid};
ghost use Rattle.std.specs.List.{list_any};
ghost use Rattle.std.specs.Prelude.{◌≡◌, ◌==◌, ◌↔◌, IsTrue};

use book_model::decisions::{is_book_name, is_import_key};
use vcard_text::UID_OCTETS_MAX;

/// Whether the octets are a legal book name.
pub(crate) fn is_name_text(octets: &[u8]) -> bool
    ensures { result ≡ is_legal_name octets.now }
{
    match str::from_utf8(octets) {
        Ok(name) => is_book_name(name),
        Err(_) => false,
    }
}

/// Whether the octets are a legal import key.
pub(crate) fn is_key_text(octets: &[u8]) -> bool
    ensures { result ≡ is_legal_key octets.now }
{
    match str::from_utf8(octets) {
        Ok(key) => is_import_key(key),
        Err(_) => false,
    }
}

fn has_tab(value: &str) -> bool
    ensures { result ≡ list_any (λ b. b == tab) value.now }
{
    value.as_bytes().iter().any(|octet| *octet == b'\t')
}

fn is_uid(value: &str) -> bool
    ensures { result ≡ is_uid value.now }
{
    1 <= value.len() && value.len() <= UID_OCTETS_MAX && !has_tab(value)
}

/// Whether the octets are a legal UID.
pub(crate) fn is_uid_text(octets: &[u8]) -> bool
    ensures { IsTrue result ↔ IsLegalUid octets.now }
{
    match str::from_utf8(octets) {
        Ok(uid) => is_uid(uid),
        Err(_) => false,
    }
}
