//! The requests of one connection, received in pieces.
ghost use Rattle.std.specs.Prelude.{◌≡◌, ◌↔◌, [], Some, None, IfOk, OnErr, IsTrue};
ghost use Rattle.http_requests.specs.HeldRequests.{IsHeldRequestLength, held_length};
ghost use Rattle.http_requests.specs.SessionFeeding.{AsksAtOnce, FeedsPiece, FeedsPieceInPart};

use crate::handler::Handler;
use crate::progress::Progress;
use base_types::NoMemory;
use std::alloc::Global;
use std::marker::Model;

/// The requests of one connection. It holds the octets of at most one incomplete request, and none
/// once it is closed. While it holds none, it has room for no more than a head. In contracts its
/// value is those octets while it is open, and `None` once it is closed.
#[derive(Debug, Drop)]
pub struct Session {
    progress: Progress,
}

impl Model for Session {
    ghost use Rattle.std.specs.Prelude.{◌≡◌, ◌≤◌, ℕ, List, [], Option};
    ghost use Rattle.std.specs.Vec.{vec_capacity};
    ghost use Rattle.http_requests.specs.Requests.{longest_head};
    ghost use Rattle.http_requests.specs.internal.Progress.{HoldsNoneIfClosed, MatchesStage};
    ghost use Rattle.http_requests.specs.internal.Progress.{open_octets};

    ghost Value = { Option (List ℕ) };

    ghost view = { λ session. open_octets session.progress.held.items session.progress.stage };

    ghost invariant = { λ session.
        MatchesStage session.progress.held.items session.progress.stage
        × HoldsNoneIfClosed session.progress.held.items session.progress.stage
        × (session.progress.held.items ≡ []
        → vec_capacity session.progress.held ≤ longest_head) };
}

impl Session {
    /// The session of a new connection. It allocates nothing.
    pub fn new(alloc: Global) -> Session
        ensures { result ≡ Some [] }
    {
        Session {
            progress: Progress::new(alloc),
        }
    }

    /// Whether the session is closed: after a request that ends its connection, a fault of a head,
    /// lack of memory, or `close`. It then ignores all octets, for good.
    pub fn closed(&self) -> bool
        ensures { IsTrue result ↔ (self.now ≡ None) }
    {
        self.progress.is_closed()
    }

    /// Closes the session, and drops what it holds of an incomplete request.
    pub fn close(&mut self, alloc: Global)
        ensures { self.new ≡ None }
    {
        self.progress.close(alloc);
    }

    /// The number of octets of the incomplete request that the session holds. It is 0 between
    /// requests, and once the session is closed.
    pub fn held_len(&self) -> usize
        ensures { result ≡ held_length self.now }
    {
        self.progress.held_len()
    }

    /// The length of the incomplete request that the session holds, in octets, with its head and
    /// its body, as the head gives it (RFC 9112, section 6.3). It is 0 while the head is incomplete,
    /// between requests, and once the session is closed.
    pub fn held_request_len(&self) -> usize
        ensures { IsHeldRequestLength self.now result }
    {
        self.progress.held_request_len()
    }

    /// Consumes the next piece of the stream, passes each request that it completes to the
    /// handler, and returns the replies. A closed session ignores the piece.
    ///
    /// `NoMemory` if an allocation fails: some requests, from the first on, were handled
    /// completely, their replies are lost, and the session is closed.
    pub fn feed<H: Handler>(
        &mut self,
        alloc: Global,
        handler: &mut H,
        piece: &[u8],
    ) -> Result<Vec<u8>, NoMemory>
        ensures fed { IfOk result (λ replies. FeedsPiece H.does H.fault_reply
            self.old handler.old piece.now replies.items handler.new self.new) }
        ensures asks_at_once { IfOk result (λ _. AsksAtOnce H.does
            self.old piece.now handler.new self.new) }
        ensures fed_in_part { OnErr result (FeedsPieceInPart H.does H.fault_reply
            self.old handler.old piece.now handler.new) }
        ensures no_memory_closes { OnErr result (self.new ≡ None) }
    {
        let fed = self.progress.feed(alloc, handler, piece);
        self.progress.release(alloc);
        fed
    }
}
