//! Closes a socket so that its client can read all replies (RFC 9112, section 9.6).
//!
//! The system resets a connection that is closed with input unread, and the client may then lose
//! replies that it hasn't read.
ghost use Rattle.book_http.specs.Pieces.{dropped_octets_max};
ghost use Rattle.book_http.specs.Streams.{ReadsAtMost};

use crate::pieces::PIECE_OCTETS_MAX;
use std::io::{ErrorKind, Read};
use std::net::{Shutdown, TcpStream};
use std::time::Duration;

/// The most reads.
const READS_MAX: u32 = 1_000;

/// The most reads that bring nothing before it gives up at the next.
const EMPTY_READS_MAX: u32 = 100;

/// The longest wait of one read, in milliseconds.
const WAIT_MILLIS: u64 = 10;

/// Reads to the end of the input and drops what it reads, at most 16,384,000 octets. It gives up at
/// a failure, after 1,000 reads, and at the 101st read that was interrupted or waited in vain.
fn drop_input<R: Read>(reader: &mut R)
    ensures { ReadsAtMost dropped_octets_max
        (R.remaining reader.old) (R.remaining reader.new) }
{
    let mut room = [0; PIECE_OCTETS_MAX];
    let mut empty_reads = 0;
    for _read in 0..READS_MAX {
        match reader.read(&mut room) {
            Ok(0) => return,
            Ok(_) => {}
            Err(error) => {
                let kind = error.kind();
                if kind != ErrorKind::WouldBlock && kind != ErrorKind::Interrupted {
                    return;
                }
                if empty_reads == EMPTY_READS_MAX {
                    return;
                }
                empty_reads += 1;
            }
        }
    }
}

/// Ends the replies, and drops what still comes until the client ends its side. It waits for a
/// silent client for 1 second, and at most 10 seconds for one that sends.
pub(crate) fn close_stream(stream: &TcpStream) {
    let wait = Duration::from_millis(WAIT_MILLIS);
    if stream.shutdown(Shutdown::Write).is_ok() && stream.set_read_timeout(Some(wait)).is_ok() {
        let mut reader = stream;
        drop_input(&mut reader);
    }
}
