//! Feeds octets to a session.

use base_types::NoMemory;
use http_requests::{Handler, Session};
use std::alloc::Global;

/// Feeds the octets to the session, and returns the replies. (What is proved of `feed` is long. Who
/// calls this function learns nothing of it, and so is proved in less time.)
pub fn feed<H: Handler>(
    alloc: Global,
    session: &mut Session,
    handler: &mut H,
    octets: &[u8],
) -> Result<Vec<u8>, NoMemory> {
    session.feed(alloc, handler, octets)
}
