//! Where a server listens.

use base_types::Text;

/// Where a server listens.
#[derive(Drop)]
pub enum Address {
    /// At a port of 127.0.0.1; 0 stands for any free one.
    Port(u16),
    /// At a Unix socket at the path.
    Socket(Text),
}
