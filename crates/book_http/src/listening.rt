//! Accepts connections and serves them in turn.
ghost use Rattle.std.specs.Prelude.{◌≡◌, [], ◌∷◌, IfErr, IfOk, None, OnOk};
ghost use Rattle.book_http.specs.Listening.{AbortsSome, FailsToWait, IfAborted, IfWaitFailed};
ghost use Rattle.book_http.specs.Listening.{NextArrival, ServesEach, ServesNext};
ghost use Rattle.book_http.specs.declared.listen_fault.ListenFault.{ListenFault as TheFault};

use crate::ServeFault;
use crate::connection::Connection;
use crate::listen_fault::ListenFault;
use crate::listener::Listener;
use crate::serving::serve_connection;
use http_requests::Handler;
use std::alloc::Global;

/// Serves the next connection and closes it. Returns the fault for which it was aborted, if any.
fn serve_next<H: Handler, L: Listener>(
    alloc: Global,
    handler: &mut H,
    listener: &mut L,
) -> Result<Option<ServeFault>, ListenFault>
    ensures served { IfOk result (λ end. ServesNext H.does H.fault_reply L.Stream.model
        (L.coming listener.old) (L.coming listener.new) handler.old end handler.new) }
    ensures device { IfErr result (λ fault. (fault ≡ TheFault.Device)
        × (handler.new ≡ handler.old)) }
    ensures failed { IfErr result (λ fault.
        NextArrival (L.coming listener.old) (None ∷ []) (L.coming listener.new)) }
{
    let Ok(mut stream) = listener.accept() else {
        return Err(ListenFault::Device);
    };
    let served = serve_connection(alloc, handler, &mut stream);
    stream.close();
    match served {
        Ok(()) => Ok(None),
        Err(fault) => Ok(Some(fault)),
    }
}

/// Accepts `connections` connections and serves them in turn, each with a new session. An aborted
/// connection doesn't affect the others. With 0 connections nothing is accepted.
///
/// `Serve` with the fault of the first connection that was aborted, after all were served. `Device`
/// at once if waiting for a connection fails.
pub fn serve_listener<H: Handler, L: Listener + Drop>(
    alloc: Global,
    handler: &mut H,
    listener: L,
    connections: u64,
) -> Result<(), ListenFault>
    // The requested number were served, each to its end.
    ensures served { OnOk result (ServesEach H.does H.fault_reply
        L.Stream.model connections (L.coming listener) handler.old handler.new) }

    // The requested number were served, and the fault is that of the first that was aborted.
    ensures aborted { IfErr result (IfAborted (λ fault. AbortsSome H.does H.fault_reply
        L.Stream.model fault connections (L.coming listener) handler.old handler.new)) }

    // Fewer were served, and then a wait failed.
    ensures failed_to_wait { IfErr result (IfWaitFailed (FailsToWait H.does H.fault_reply
        L.Stream.model connections (L.coming listener) handler.old handler.new)) }
{
    let mut listener = listener;
    let mut first = None;
    for _connection in 0..connections {
        let end = serve_next(alloc, handler, &mut listener)?;
        first = first.or(end);
    }
    match first {
        None => Ok(()),
        Some(fault) => Err(ListenFault::Serve(fault)),
    }
}
