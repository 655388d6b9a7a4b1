//! Reads the input of a closed connection, and drops it.
ghost use Rattle.std.specs.Prelude.{◌≡◌, ◌<◌, ◌≤◌, length};
ghost use Rattle.socket_endpoint.specs.Lingering.{DropsInput};
ghost use Rattle.socket_endpoint.specs.declared.dropping.Dropped.{Dropped as TheEnd};

use crate::sockets::Sockets;
use crate::transfers::{is_interrupted, would_wait};

/// How a look at the input of a closed connection ended.
#[derive(Clone, Copy, Debug, PartialEq, Eq)]
pub(crate) enum Dropped {
    /// The client has ended its side, or the connection failed.
    Ended,
    /// No octets are there for now.
    NoneNow,
    /// There may be more octets.
    More,
}

/// Reads octets once and drops them, at most `most`. Returns their number, and what to expect of
/// the next read. One read, so that however much a client sends, the others have their turn.
pub(crate) fn drop_input<L, C, S: Sockets<L, C>>(
    system: &mut S,
    stream: &C,
    room: &mut [u8],
    most: u64,
) -> (u64, Dropped)
    ensures within { result.0 ≤ most }
    ensures read { DropsInput stream.now (length room.old) most result.0 result.1
        (S.log system.old) (S.log system.new) }
    ensures more { 0 < result.0 → result.1 ≡ TheEnd.More }
{
    let len = match usize::try_from(most) {
        Ok(most) => most.min(room.len()),
        Err(_) => room.len(),
    };
    if len == 0 {
        return (0, Dropped::More);
    }
    match system.read(stream, &mut room[..len]) {
        Ok(0) => (0, Dropped::Ended),
        Ok(count) => (count as u64, Dropped::More),
        Err(error) if would_wait(&error) => (0, Dropped::NoneNow),
        Err(error) if is_interrupted(&error) => (0, Dropped::More),
        Err(_) => (0, Dropped::Ended),
    }
}
