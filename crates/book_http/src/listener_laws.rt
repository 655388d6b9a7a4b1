//! Laws of all connections of a listener. Each law is a function that does nothing.
ghost use Rattle.book_http.specs.ListeningRuns.{ConnectionsAreOneRun};

use crate::connection::Connection;
use sync_core::BookStore;

/// Connections served in turn are one run, each from the state after the one before it: some
/// requests of the octets read, from the first on, ran; all of them, with their replies written,
/// where the connection was served to its end. No device is changed. The law assumes that the store
/// matches the state before, and that its premise holds afterwards (`specs/ListeningRuns.antt`).
pub fn connections_are_one_run<S: BookStore, C: Connection>()
    ensures { ConnectionsAreOneRun S.model C.model }
{}
