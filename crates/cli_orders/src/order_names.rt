//! What an order names, as far as a sentence about its stop needs it.

use base_types::Text;

/// Which order it is, as far as a sentence about its stop depends on it.
#[derive(Clone, Copy)]
pub enum OrderKind {
    /// `try`.
    Try,
    /// `serve`.
    Serve,
    /// `run`.
    Run,
    /// `import`.
    Import,
    /// `check`.
    Check,
    /// `books`.
    Books,
    /// `verify`.
    Verify,
    /// `copy`.
    Copy,
    /// `restore`.
    Restore,
    /// `resync`.
    Resync,
    /// Another order.
    Other,
}

/// What an order names in its arguments.
#[derive(Drop)]
pub struct OrderNames {
    /// Which order it is.
    pub kind: OrderKind,
    /// The store file; empty if the order has none.
    pub file: Text,
    /// Whether the order makes the store file if it isn't there.
    pub makes_file: bool,
    /// The other file: the file of rows, the file to check, the new file of a copy, the copy that
    /// is put back, or the Unix socket to listen at. Empty if the order has none.
    pub other: Text,
    /// The port; 0 if the order has none.
    pub port: u16,
}
