//! The handler of HTTP requests over a store of books.
ghost use Rattle.std.specs.Prelude.{◌≡◌, IfOk};

use crate::answering::answer_with;
use base_types::NoMemory;
use http_replies::head_fault_bytes;
use http_requests::{Handler, Head, HeadFault};
use http_routes::Routes;
use httparse::spans::HeaderSpan;
use std::alloc::Global;
use std::marker::Model;
use sync_core::BookStore;

/// Handles the requests of connections over a store of books. It builds the router of their routes
/// once. In contracts it is its store.
#[derive(Drop)]
pub struct Service<S> {
    routes: Routes,
    /// The store.
    pub store: S,
}

impl<S> Model for Service<S> {
    ghost Value = { S };

    ghost coded = { S.code };

    ghost view = { λ service. service.store };
}

impl<S: Drop> Service<S> {
    /// The service over the store. `NoMemory` if an allocation fails; the store is dropped then.
    pub fn new(alloc: Global, store: S) -> Result<Service<S>, NoMemory>
        ensures { IfOk result (λ service. service ≡ store) }
    {
        let routes = Routes::new(alloc)?;
        Ok(Service { routes, store })
    }
}

impl<S: BookStore> Handler for Service<S> {
    ghost use Rattle.book_http.specs.OctetPromise.{ServiceStep};
    ghost use Rattle.http_replies.specs.Replies.{head_fault_octets};

    ghost does = { ServiceStep S.model };

    ghost fault_reply = { head_fault_octets };

    fn handle(&mut self, alloc: Global, head: &Head, body: &[u8]) -> Result<Vec<u8>, NoMemory> {
        answer_with(alloc, &self.routes, &mut self.store, head, body)
    }

    fn screen(&self, _method: &[u8], _text: &[u8], _fields: &[HeaderSpan]) -> Option<HeadFault> {
        None
    }

    fn refuse(&self, alloc: Global, fault: HeadFault) -> Result<Vec<u8>, NoMemory> {
        head_fault_bytes(alloc, fault)
    }
}
