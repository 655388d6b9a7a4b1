//! `RawLine`: a logical line as octets, before its encoding is known.

use base_types::Items;

/// A logical line and the place of its first physical line, counted from 0.
#[derive(Drop)]
pub struct RawLine {
    /// The number of physical lines before its first one.
    pub place: usize,
    /// Its octets, joined from its physical lines.
    pub octets: Items<u8>,
}
