//! `Version`: the version of vCard in which a line is written.

/// A version of vCard.
#[derive(Clone, Copy)]
pub enum Version {
    /// vCard 2.1.
    Old,
    /// vCard 3.0 (RFC 2426), and any card that doesn't say.
    Third,
    /// vCard 4.0 (RFC 6350).
    Fourth,
}
