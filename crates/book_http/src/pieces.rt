//! Reads pieces of the input, and writes the replies to them.
ghost use Rattle.std.specs.Prelude.{◌≡◌, ◌<◌, ◌≤◌, ◌↔◌, ℕ, length, take, IfErr, IfOk, IsTrue};
ghost use Rattle.std.specs.Prelude.{OnErr};
ghost use Rattle.std.specs.Io.KnownBytes.{Consumes, IsAtEnd, Keeps};
ghost use Rattle.std.specs.IoError.{error_kind};
ghost use Rattle.std.specs.declared.io.ErrorKind.{ErrorKind as TheKind};
ghost use Rattle.book_http.specs.ConnectionCalls.{ReadsInOrder, Replies, SendsInOrder, Waits};
ghost use Rattle.book_http.specs.Streams.{WritesText};
ghost use Rattle.book_http.specs.declared.serve_fault.ServeFault.{ServeFault as TheFault};

use crate::connection::Connection;
use crate::serve_fault::ServeFault;
use std::io;
use std::io::ErrorKind;

/// The most octets of one read.
pub(crate) const PIECE_OCTETS_MAX: usize = 16_384;

/// How often an interrupted call is made, as in the standard library.
const TRIES_MAX: u64 = u64::MAX;

/// Whether the call was interrupted, and so has to be made again.
fn is_interrupted(error: &io::Error) -> bool
    ensures { IsTrue result ↔ (error_kind error.now ≡ TheKind.Interrupted) }
{
    error.kind() == ErrorKind::Interrupted
}

/// Reads a piece, and returns the number of its octets, or 0 at the end of the input. An
/// interrupted read is made again.
///
/// `Read` if the reader fails, or if 2^64 - 1 reads in a row were interrupted.
pub(crate) fn read_piece<C: Connection>(
    connection: &mut C,
    room: &mut [u8],
) -> Result<usize, ServeFault>
    requires some { 0 < length room.old }
    ensures bound { IfOk result (λ count. count ≤ length room.new) }
    ensures read { IfOk result (λ count. Consumes
        (C.model.remaining connection.old) (C.model.remaining connection.new)
        (take count room.new)) }
    ensures end { IfOk result (λ count. count ≡ 0 →
        IsAtEnd (C.model.remaining connection.new)) }
    ensures nothing { OnErr result (Keeps (C.model.remaining connection.old)
        (C.model.remaining connection.new)) }
    ensures kept { C.model.contents connection.new ≡ C.model.contents connection.old }
    ensures fault { IfErr result (λ fault. fault ≡ TheFault.Read) }
    ensures order { (pieces : ℕ) → ReadsInOrder pieces
        (C.model.calls connection.old) (C.model.calls connection.new) result }
    ensures borrows { C.borrowed connection.new ≡ C.borrowed connection.old }
{
    for _try in 0..TRIES_MAX {
        match connection.receive(room) {
            Ok(count) => return Ok(count),
            Err(error) => {
                if !is_interrupted(&error) {
                    return Err(ServeFault::Read);
                }
            }
        }
    }
    Err(ServeFault::Read)
}

/// Writes the replies. An interrupted write is made again.
fn write_replies<C: Connection>(connection: &mut C, replies: &[u8]) -> Result<(), ServeFault>
    ensures written { WritesText replies.now (C.model.contents connection.old)
        (C.model.contents connection.new) result }
    ensures kept { C.model.remaining connection.new ≡ C.model.remaining connection.old }
    ensures order { (pieces : ℕ) → SendsInOrder pieces (Replies pieces)
        (C.model.calls connection.old) (C.model.calls connection.new) result }
    ensures borrows { C.borrowed connection.new ≡ C.borrowed connection.old }
{
    let mut count = 0;
    for _try in 0..TRIES_MAX {
        if count == replies.len() {
            return Ok(());
        }
        match connection.send(&replies[count..]) {
            Ok(0) => return Err(ServeFault::Write),
            Ok(more) => count += more,
            Err(error) => {
                if !is_interrupted(&error) {
                    return Err(ServeFault::Write);
                }
            }
        }
    }
    Err(ServeFault::Write)
}

/// Writes the replies to a piece and flushes them, before more is read.
///
/// `Write` if the writer fails, or takes no octets, or if it was called 2^64 - 1 times.
pub(crate) fn send_replies<C: Connection>(
    connection: &mut C,
    replies: &[u8],
) -> Result<(), ServeFault>
    ensures written { WritesText replies.now (C.model.contents connection.old)
        (C.model.contents connection.new) result }
    ensures kept { C.model.remaining connection.new ≡ C.model.remaining connection.old }
    ensures order { (pieces : ℕ) → SendsInOrder pieces (Waits pieces)
        (C.model.calls connection.old) (C.model.calls connection.new) result }
    ensures borrows { C.borrowed connection.new ≡ C.borrowed connection.old }
{
    write_replies(connection, replies)?;
    match connection.flush() {
        Ok(()) => Ok(()),
        Err(_) => Err(ServeFault::Write),
    }
}
