//! Serves the requests of a connection.
ghost use Rattle.std.specs.Prelude.{◌≡◌, ◌<◌, ◌≤◌, ◌↔◌, ℕ, None, length, IfOk, IfErr};
ghost use Rattle.std.specs.Prelude.{IsTrue, OnOk};
ghost use Rattle.book_http.specs.ConnectionCalls.{AnswersInOrder, EndsInOrder};
ghost use Rattle.book_http.specs.Listening.{ServesConnection};
ghost use Rattle.book_http.specs.Pieces.{piece_octets_max};
ghost use Rattle.book_http.specs.ServedConnections.{AbortsConnection, FailsPiece, ServesToEnd};
ghost use Rattle.book_http.specs.ServedConnections.{AnswersPiece, fault_of};

use crate::connection::Connection;
use crate::pieces::{PIECE_OCTETS_MAX, read_piece, send_replies};
use crate::serve_fault::ServeFault;
use crate::streams::Streams;
use http_requests::{Handler, Session};
use std::alloc::Global;
use std::io::{Read, Write};

/// The most reads of one connection that bring octets.
const PIECES_MAX: u32 = 1_000_000;

/// Feeds the session a piece and writes the replies. Returns whether the session is closed.
fn answer_piece<H: Handler, C: Connection>(
    alloc: Global,
    session: &mut Session,
    handler: &mut H,
    connection: &mut C,
    piece: &[u8],
) -> Result<bool, ServeFault>
    ensures answered { OnOk result (AnswersPiece H.does H.fault_reply
        session.old handler.old piece.now
        (C.model.contents connection.old) (C.model.contents connection.new)
        handler.new session.new) }
    ensures closed { IfOk result (λ closed. IsTrue closed ↔ (session.new ≡ None)) }
    ensures failed { IfErr result (λ fault. FailsPiece H.does H.fault_reply fault session.old
        handler.old piece.now (C.model.contents connection.old) (C.model.contents connection.new)
        handler.new session.new) }
    ensures kept { C.model.remaining connection.new ≡ C.model.remaining connection.old }
    ensures order { (pieces : ℕ) → AnswersInOrder pieces
        (C.model.calls connection.old) (C.model.calls connection.new) result }
    ensures borrows { C.borrowed connection.new ≡ C.borrowed connection.old }
{
    let replies = session.feed(alloc, handler, piece)?;
    send_replies(connection, replies.as_slice())?;
    Ok(session.closed())
}

/// Serves a new connection, with the buffer for the reads.
fn serve_in<H: Handler, C: Connection>(
    alloc: Global,
    handler: &mut H,
    connection: &mut C,
    room: &mut [u8],
) -> Result<(), ServeFault>
    requires some { 0 < length room.old }
    requires at_most { length room.old ≤ piece_octets_max }
    ensures served { ServesConnection H.does H.fault_reply C.model (fault_of result)
        connection.old connection.new handler.old handler.new }
    ensures in_order { EndsInOrder (fault_of result)
        (C.model.calls connection.old) (C.model.calls connection.new) }
    ensures borrows { C.borrowed connection.new ≡ C.borrowed connection.old }
{
    let mut session = Session::new(alloc);
    for _piece in 0..PIECES_MAX {
        let count = read_piece(connection, room)?;
        if count == 0 {
            return Ok(());
        }
        let piece = &room[..count];
        if answer_piece(alloc, &mut session, handler, connection, piece)? {
            return Ok(());
        }
    }
    Err(ServeFault::TooManyTurns)
}

/// Serves a connection with a new session, as `serve` does. It doesn't close the connection.
pub(crate) fn serve_connection<H: Handler, C: Connection>(
    alloc: Global,
    handler: &mut H,
    connection: &mut C,
) -> Result<(), ServeFault>
    ensures served { ServesConnection H.does H.fault_reply C.model (fault_of result)
        connection.old connection.new handler.old handler.new }

    // Each piece is read once all replies to those before it were written and flushed.
    ensures in_order { EndsInOrder (fault_of result)
        (C.model.calls connection.old) (C.model.calls connection.new) }
    ensures borrows { C.borrowed connection.new ≡ C.borrowed connection.old }
{
    let mut room = Vec::new(alloc);
    room.resize(PIECE_OCTETS_MAX, 0)?;
    serve_in(alloc, handler, connection, room.as_mut_slice())
}

/// `serve_connection` for a reader and a writer, which remain the same two.
fn serve_streams<'a, H: Handler, R: Read, W: Write>(
    alloc: Global,
    handler: &mut H,
    streams: &mut Streams<'a, R, W>,
) -> Result<(), ServeFault>
    ensures same_reader { streams.new.reader.ghost_name ≡ streams.old.reader.ghost_name }
    ensures same_writer { streams.new.writer.ghost_name ≡ streams.old.writer.ghost_name }
    ensures served { OnOk result (ServesToEnd H.does H.fault_reply
        (R.remaining streams.old.reader.now) (R.remaining streams.new.reader.now)
        (W.contents streams.old.writer.now) (W.contents streams.new.writer.now)
        handler.old handler.new) }
    ensures fault { IfErr result (λ fault. AbortsConnection H.does H.fault_reply fault
        (R.remaining streams.old.reader.now) (R.remaining streams.new.reader.now)
        (W.contents streams.old.writer.now) (W.contents streams.new.writer.now)
        handler.old handler.new) }
{
    serve_connection(alloc, handler, streams)
}

/// Serves one connection. It reads pieces of at most 16,384 octets, handles each request once it is
/// complete, and writes and flushes the replies to a piece before the next read. It returns at the
/// end of the input or after the request that closes, and reads nothing after that. An incomplete
/// request at the end isn't handled.
///
/// `Read` or `Write` if the reader or the writer fails; `TooManyTurns` after 1,000,000 pieces
/// that reached neither end; `Memory` if an allocation fails. After an error, some requests of
/// the octets read, from the first on, were handled completely: all of them but for the last piece.
/// Interrupted reads and writes are made again.
pub fn serve<H: Handler, R: Read, W: Write>(
    alloc: Global,
    handler: &mut H,
    reader: &mut R,
    writer: &mut W,
) -> Result<(), ServeFault>
    // All requests of the octets read were handled in turn, and their replies were written.
    ensures served { OnOk result (ServesToEnd H.does H.fault_reply
        (R.remaining reader.old) (R.remaining reader.new)
        (W.contents writer.old) (W.contents writer.new) handler.old handler.new) }

    // All requests of the octets read up to the fault were handled in turn, and their replies were
    // written. If the writer failed or memory ran out, this is so up to the last piece; the replies
    // to that piece were written in part or not at all.
    ensures fault { IfErr result (λ fault. AbortsConnection H.does H.fault_reply fault
        (R.remaining reader.old) (R.remaining reader.new)
        (W.contents writer.old) (W.contents writer.new) handler.old handler.new) }
{
    let mut streams = Streams { reader, writer };
    serve_streams(alloc, handler, &mut streams)
}
