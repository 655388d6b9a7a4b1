//! The limits of a server.

/// What a server is asked to do.
#[derive(Clone, Copy, Debug, PartialEq, Eq)]
pub struct ServeLimits {
    /// The number of connections that it accepts in all.
    pub connections: u64,
    /// The most connections that are open at once.
    pub together: usize,
    /// The milliseconds after which a silent connection is closed.
    pub patience: u64,
    /// The most octets that the large connections hold together, of incomplete requests and of
    /// replies that aren't wholly sent, if there are several. A connection is large while it holds
    /// more than 16,384.
    pub held: u64,
}
