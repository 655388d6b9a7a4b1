//! A handler whose requests are printed.
ghost use Rattle.std.specs.Prelude.{◌≡◌};

use crate::log::RequestLog;
use crate::notes::{note_handled, note_refused};
use base_types::NoMemory;
use http_requests::{Handler, Head, HeadFault};
use httparse::spans::HeaderSpan;
use std::alloc::Global;
use std::marker::Model;

/// A handler that prints a line for each request when it is answered, if it has a log. In contracts
/// it is the handler that it is made of: it replies what that one replies.
#[derive(Drop)]
pub struct LoggedHandler<'a, H, L> {
    handler: H,
    log: Option<&'a L>,
    names_users: bool,
}

impl<'a, H, L> Model for LoggedHandler<'a, H, L> {
    ghost Value = { H };

    ghost coded = { H.code };

    ghost view = { λ logged. logged.handler };
}

impl<'a, H, L> LoggedHandler<'a, H, L> {
    /// The handler with this log, or without one. Its lines name the user of a request if they may:
    /// where whoever can connect may be believed.
    pub fn new(handler: H, log: Option<&'a L>, names_users: bool) -> LoggedHandler<'a, H, L>
        ensures { result ≡ handler }
    {
        LoggedHandler {
            handler,
            log,
            names_users,
        }
    }
}

/// The user that a front server names, if it is to be believed.
fn user_of(head: &Head, names_users: bool) -> &[u8] {
    if names_users {
        head.user.as_slice()
    } else {
        &[]
    }
}

impl<'a, H: Handler, L: RequestLog> Handler for LoggedHandler<'a, H, L> {
    ghost does = { H.does };

    ghost fault_reply = { H.fault_reply };

    fn handle(&mut self, alloc: Global, head: &Head, body: &[u8]) -> Result<Vec<u8>, NoMemory> {
        let Some(log) = self.log else {
            return self.handler.handle(alloc, head, body);
        };
        let start = log.now();
        let handled = self.handler.handle(alloc, head, body);
        let user = user_of(head, self.names_users);
        note_handled(alloc, log, start, head, user, &handled);
        handled
    }

    fn screen(&self, method: &[u8], text: &[u8], fields: &[HeaderSpan]) -> Option<HeadFault> {
        self.handler.screen(method, text, fields)
    }

    fn refuse(&self, alloc: Global, fault: HeadFault) -> Result<Vec<u8>, NoMemory> {
        let reply = self.handler.refuse(alloc, fault)?;
        if let Some(log) = self.log {
            note_refused(alloc, log, fault, reply.as_slice());
        }
        Ok(reply)
    }
}
