//! Why the state after a stopped run isn't right.

/// A check failed; the text says which.
#[derive(Clone, Copy)]
pub struct Mismatch(pub &'static str);
