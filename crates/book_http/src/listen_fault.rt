//! The error of serving a listener.

use crate::ServeFault;

/// Why not all connections were served to their ends. Changes that were acknowledged remain.
#[derive(Clone, Copy, Debug, PartialEq, Eq)]
pub enum ListenFault {
    /// The fault of the first connection that was aborted. The others were served too, each to its
    /// end or until it was aborted.
    Serve(ServeFault),
    /// Waiting for a connection failed. No further connection was served.
    Device,
}
