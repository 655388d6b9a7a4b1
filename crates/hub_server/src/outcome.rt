//! The outcomes of calls at an endpoint.

/// The end of a wait. The places that are ready are written to the caller's list.
#[derive(Clone, Copy, Debug, PartialEq, Eq)]
pub struct Woken {
    /// Whether a connection may wait to be accepted.
    pub listener: bool,
    /// The time in milliseconds.
    pub now: u64,
}

/// A wait failed.
#[derive(Clone, Copy, Debug, PartialEq, Eq)]
pub struct WaitFailed;

/// The outcome of accepting.
#[derive(Clone, Copy, Debug, PartialEq, Eq)]
pub enum Accepted {
    /// A connection.
    Connection,
    /// No connection waits.
    NoneNow,
    /// No connection can be accepted for now, for lack of descriptors or memory.
    Later,
    /// The listener failed.
    Failed,
}

/// The outcome of reading.
#[derive(Clone, Copy, Debug, PartialEq, Eq)]
pub enum Received {
    /// This number of octets, at least one.
    Octets(usize),
    /// No octets are there for now.
    NoneNow,
    /// The input has ended.
    End,
    /// The connection failed.
    Failed,
}

/// The outcome of writing.
#[derive(Clone, Copy, Debug, PartialEq, Eq)]
pub enum Sent {
    /// This number of octets was accepted, at least one.
    Octets(usize),
    /// No octets are accepted for now.
    NoneNow,
    /// The connection failed.
    Failed,
}
