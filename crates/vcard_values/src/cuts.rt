//! Cuts octets at the first one of a kind.
ghost use Rattle.std.specs.Prelude.{◌≡◌, length};
ghost use Rattle.vcard_values.specs.Cuts.{after, before, has_octet};

/// The number of octets before the first one that is the mark.
fn len_before(octets: &[u8], mark: u8) -> usize
    ensures { result ≡ length (before mark octets.now) }
{
    octets.iter().take_while(|octet| **octet != mark).count()
}

/// The octets before the first one that is the mark.
#[tactic(auto, using(crate::proofs::CutLemmas::take_before))]
pub fn before(octets: &[u8], mark: u8) -> &[u8]
    ensures { result.now ≡ before mark octets.now }
{
    let (front, _) = octets.split_at(len_before(octets, mark));
    front
}

/// The octets after the first one that is the mark; none if there is no such one.
pub fn after(octets: &[u8], mark: u8) -> &[u8]
    ensures { result.now ≡ after mark octets.now }
{
    let (_, rest) = octets.split_at(len_before(octets, mark));
    match rest.split_first() {
        Some((_, more)) => more,
        None => rest,
    }
}

/// Whether one of the octets is this one.
pub fn has_octet(value: &[u8], octet: u8) -> bool
    ensures { result ≡ has_octet octet value.now }
{
    value.iter().any(|other| *other == octet)
}
