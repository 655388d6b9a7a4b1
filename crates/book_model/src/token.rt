//! Sync tokens (RFC 6578, section 3.2).

/// How far a device has synced.
#[derive(Clone, Copy, Debug, PartialEq, Eq)]
pub struct Mark {
    /// Members whose last change has at most this number have been reported.
    pub at: u64,
    /// Members that were removed by a change with at most this number needn't be reported: the
    /// device doesn't have them.
    pub base: u64,
}

/// A mark in the book with this id.
#[derive(Clone, Copy, Debug, PartialEq, Eq)]
pub struct Token {
    /// The id of the book; every other book refuses the token.
    pub book: u64,
    /// Where the next report of the book continues.
    pub mark: Mark,
}
