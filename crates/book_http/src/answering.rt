//! Performs a request and formats its reply.
ghost use Rattle.std.specs.Prelude.{◌≡◌, ◌⊎◌, ℕ, List, IfOk, OnErr};
ghost use Rattle.book_http.specs.RequestAnswers.{AnswersRequest};

use base_types::NoMemory;
use book_service::perform;
use http_replies::{reply_bytes, route_fault_bytes};
use http_requests::Head;
use http_routes::{NoCommand, Routes, read_request};
use std::alloc::Global;
use sync_core::BookStore;

/// Performs the command of a complete request and returns the octets of the reply. A request that
/// asks for no command changes nothing, and its reply is its first fault. The routes were built
/// before, as a server does once for all its requests.
///
/// `NoMemory` if an allocation fails: the request was performed completely or not at all.
pub fn answer_with<S: BookStore>(
    alloc: Global,
    routes: &Routes,
    store: &mut S,
    head: &Head,
    body: &[u8],
) -> Result<Vec<u8>, NoMemory>
    ensures done { IfOk result (λ reply.
        AnswersRequest S.model store.old head.now body.now reply.items store.new) }
    ensures no_memory { OnErr result ((store.old ≡ store.new)
        ⊎ ((reply : List ℕ) ×
        AnswersRequest S.model store.old head.now body.now reply store.new)) }
{
    match read_request(
        alloc,
        routes,
        head.method.as_str(),
        head.target.as_str(),
        body,
    ) {
        Ok(command) => {
            let reply = perform(alloc, store, &command);
            reply_bytes(alloc, reply, head.close)
        }
        Err(NoCommand::Fault(fault)) => route_fault_bytes(alloc, fault, head.close),
        Err(NoCommand::Memory) => Err(NoMemory),
    }
}

/// Performs the command of a complete request and returns the octets of the reply. A request that
/// asks for no command changes nothing, and its reply is its first fault. It builds the routes
/// first; `answer_with` is for more than one request.
///
/// `NoMemory` if an allocation fails: the request was performed completely or not at all.
pub fn answer<S: BookStore>(
    alloc: Global,
    store: &mut S,
    head: &Head,
    body: &[u8],
) -> Result<Vec<u8>, NoMemory>
    ensures done { IfOk result (λ reply.
        AnswersRequest S.model store.old head.now body.now reply.items store.new) }
    ensures no_memory { OnErr result ((store.old ≡ store.new)
        ⊎ ((reply : List ℕ) ×
        AnswersRequest S.model store.old head.now body.now reply store.new)) }
{
    let routes = Routes::new(alloc)?;
    answer_with(alloc, &routes, store, head, body)
}
