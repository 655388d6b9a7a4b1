//! A handler behind a guard.
ghost use Rattle.std.specs.Prelude.{◌≡◌};

use crate::guarding::guard;
use crate::handler::Handler;
use crate::head::Head;
use crate::head_fault::HeadFault;
use base_types::{Items, NoMemory, Text};
use httparse::spans::HeaderSpan;
use std::alloc::Global;
use std::marker::Model;

/// A handler of a server that browsers reach. Requests that `guard` refuses don't get to it; every
/// other one is handled as without the guard. In contracts it is the server's names, beside those
/// of the loopback, and the handler.
#[derive(Drop)]
pub struct Guarded<H> {
    names: Items<Text>,
    handler: H,
}

impl<H> Model for Guarded<H> {
    ghost use Rattle.std.specs.Prelude.{ℕ, List};
    ghost use Rattle.std.specs.Coded.{coded×, coded_list, coded_ℕ};

    ghost Value = { List (List ℕ) × H };

    ghost coded = { coded× (coded_list (coded_list coded_ℕ)) H.code };

    ghost view = { λ guarded. (guarded.names, guarded.handler) };
}

impl<H> Guarded<H> {
    /// The handler behind a guard of a server with these names.
    pub fn new(names: Items<Text>, handler: H) -> Guarded<H>
        ensures { result ≡ (names, handler) }
    {
        Guarded { names, handler }
    }
}

impl<H: Handler> Handler for Guarded<H> {
    ghost use Rattle.http_requests.specs.GuardedHandlers.{guarded};

    ghost does = { guarded H.does };

    ghost fault_reply = { H.fault_reply };

    fn handle(&mut self, alloc: Global, head: &Head, body: &[u8]) -> Result<Vec<u8>, NoMemory> {
        self.handler.handle(alloc, head, body)
    }

    fn screen(&self, method: &[u8], text: &[u8], fields: &[HeaderSpan]) -> Option<HeadFault> {
        match guard(&self.names, method, text, fields) {
            Some(fault) => Some(fault),
            None => self.handler.screen(method, text, fields),
        }
    }

    fn refuse(&self, alloc: Global, fault: HeadFault) -> Result<Vec<u8>, NoMemory> {
        self.handler.refuse(alloc, fault)
    }
}
