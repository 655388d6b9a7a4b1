//! Whether a connection is to be served.

/// What a server knows of a connection.
#[derive(Clone, Copy, Debug, PartialEq, Eq)]
pub enum Turn {
    /// It isn't ready, until the endpoint reports its place.
    Asleep,
    /// It may be ready. This number of steps of it was made since the last wait.
    Awake(u32),
}
