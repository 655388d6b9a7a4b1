//! A fact about a connection, for the proofs of its users.
ghost use Rattle.store_tables.specs.OnConnections.{HasNoPendingWrites};
ghost use Rattle.std.specs.Prelude.{◌≡◌, false};

use sqlite::{Alter, Connection};

/// Proves for its caller that a connection outside a transaction, if it is open, shows what is
/// committed. It has no other effect.
///
/// A connection keeps this fact true, but a proof learns it only from a call, and
/// `Connection::is_autocommit` is the call that ensures it.
pub fn assert_no_pending_writes<S: Alter>(conn: &Connection<S>)
    requires { conn.now.in_transaction ≡ false }
    ensures { HasNoPendingWrites S.Store conn.now }
{
    let _autocommit = conn.is_autocommit();
}
