//! A handler with a front before it.
ghost use Rattle.std.specs.Prelude.{◌≡◌};

use crate::front::Front;
use base_types::NoMemory;
use http_requests::{Handler, Head, HeadFault};
use httparse::spans::HeaderSpan;
use std::alloc::Global;
use std::marker::Model;

/// A handler with a front before it. The front answers its own requests, which change nothing; every
/// other one is handled as without it. In contracts it is the handler.
#[derive(Drop)]
pub struct WithFront<F, H> {
    front: F,
    handler: H,
}

impl<F, H> Model for WithFront<F, H> {
    ghost Value = { H };

    ghost coded = { H.code };

    ghost view = { λ both. both.handler };
}

impl<F, H> WithFront<F, H> {
    /// The handler with this front before it.
    pub fn new(front: F, handler: H) -> WithFront<F, H>
        ensures { result ≡ handler }
    {
        WithFront { front, handler }
    }
}

impl<F: Front, H: Handler> Handler for WithFront<F, H> {
    ghost use Rattle.http_fronts.specs.Fronts.{with_front};

    ghost does = { with_front F.answers H.does };

    ghost fault_reply = { H.fault_reply };

    fn handle(&mut self, alloc: Global, head: &Head, body: &[u8]) -> Result<Vec<u8>, NoMemory> {
        let own = self.front.answer(alloc, head, body)?;
        match own {
            Some(reply) => Ok(reply),
            None => self.handler.handle(alloc, head, body),
        }
    }

    fn screen(&self, method: &[u8], text: &[u8], fields: &[HeaderSpan]) -> Option<HeadFault> {
        self.handler.screen(method, text, fields)
    }

    fn refuse(&self, alloc: Global, fault: HeadFault) -> Result<Vec<u8>, NoMemory> {
        self.handler.refuse(alloc, fault)
    }
}
