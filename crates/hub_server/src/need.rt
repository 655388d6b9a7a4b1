//! What a connection needs next.

/// The next step of a connection that has its turn.
#[derive(Clone, Copy, Debug, PartialEq, Eq)]
pub enum Need {
    /// Octets are to be read.
    Input,
    /// Pending octets are to be written.
    Output,
    /// Octets that were read are to be fed to the session.
    Feeding,
    /// The session is closed, and all replies were written.
    Closing,
}
