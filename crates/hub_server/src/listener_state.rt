//! Whether connections wait to be accepted.

/// What a server knows of its listener.
#[derive(Clone, Copy, Debug, PartialEq, Eq)]
pub enum ListenerState {
    /// No connection waits, until the endpoint reports the listener.
    Idle,
    /// Connections may wait.
    Ready,
    /// Connections may wait, and accepting failed for now at this time.
    Deferred(u64),
}
