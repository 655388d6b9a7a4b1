//! Reads and writes at a socket that doesn't block.
ghost use Rattle.std.specs.Prelude.{◌≡◌, ◌<◌, ◌↔◌, IsTrue, length};
ghost use Rattle.std.specs.IoError.{error_kind};
ghost use Rattle.std.specs.declared.io.ErrorKind.{ErrorKind as TheKind};
ghost use Rattle.hub_server.specs.Endpoints.{FitsBuffer, IsWithinOffer};
ghost use Rattle.socket_endpoint.specs.Transfers.{ReadsFrom, WritesTo};

use crate::sockets::Sockets;
use hub_server::{Received, Sent};
use std::io;
use std::io::ErrorKind;

/// How often an interrupted call is made.
const TRIES_MAX: u32 = 1_000;

/// Whether the call was interrupted, and so has to be made again.
pub(crate) fn is_interrupted(error: &io::Error) -> bool
    ensures { IsTrue result ↔ (error_kind error.now ≡ TheKind.Interrupted) }
{
    error.kind() == ErrorKind::Interrupted
}

/// Whether the call would have to wait.
pub(crate) fn would_wait(error: &io::Error) -> bool
    ensures { IsTrue result ↔ (error_kind error.now ≡ TheKind.WouldBlock) }
{
    error.kind() == ErrorKind::WouldBlock
}

/// Reads octets. After 1,000 interrupted calls in a row the connection has failed: it can't answer
/// that there are none, since the octets that are there would not be reported again.
pub(crate) fn read_from<L, C, S: Sockets<L, C>>(
    system: &mut S,
    stream: &C,
    buffer: &mut [u8],
) -> Received
    requires { 0 < length buffer.old }
    ensures fits { FitsBuffer buffer.new result }
    ensures read { ReadsFrom stream.now buffer.new result (S.log system.old) (S.log system.new) }
{
    for _try in 0..TRIES_MAX {
        match system.read(stream, buffer) {
            Ok(0) => return Received::End,
            Ok(count) => return Received::Octets(count),
            Err(error) => {
                if would_wait(&error) {
                    return Received::NoneNow;
                }
                if !is_interrupted(&error) {
                    return Received::Failed;
                }
            }
        }
    }
    Received::Failed
}

/// Writes octets. After 1,000 interrupted calls in a row the connection has failed, and also if
/// none of the octets was accepted and the system doesn't say that the call would have to wait:
/// nothing would report that it can be tried again.
pub(crate) fn write_to<L, C, S: Sockets<L, C>>(system: &mut S, stream: &C, octets: &[u8]) -> Sent
    requires { 0 < length octets.now }
    ensures within { IsWithinOffer octets.now result }
    ensures written { WritesTo stream.now octets.now result (S.log system.old) (S.log system.new) }
{
    for _try in 0..TRIES_MAX {
        match system.write(stream, octets) {
            Ok(0) => return Sent::Failed,
            Ok(count) => return Sent::Octets(count),
            Err(error) => {
                if would_wait(&error) {
                    return Sent::NoneNow;
                }
                if !is_interrupted(&error) {
                    return Sent::Failed;
                }
            }
        }
    }
    Sent::Failed
}
