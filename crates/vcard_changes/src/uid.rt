//! The UID of a card that has none: a function of the card's octets.
ghost use Rattle.std.specs.Prelude.{◌≡◌, IfOk, string_bytes};
ghost use Rattle.vcard_changes.specs.DerivedUid.{derived_uid};

use std::alloc::Global;
use uuid::Uuid;
use vcard_text::NoMemory;

/// The UID that a card with these octets gets: `urn:uuid:` and the UUID of version 5 (RFC 9562) of
/// the octets in the namespace of object identifiers. The only `Err` is out of memory.
pub fn derived_uid(alloc: Global, octets: &[u8]) -> Result<String, NoMemory>
    ensures { IfOk result (λ uid. string_bytes uid ≡ derived_uid octets.now) }
{
    let namespace = Uuid::NAMESPACE_OID;
    let uuid = Uuid::new_v5(&namespace, octets);
    let mut buffer = [0u8; 45];
    Ok(String::from_str(alloc, uuid.urn().encode_lower(&mut buffer))?)
}
