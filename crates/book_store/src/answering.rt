//! The answer of a call, once its connection was tested. Over a connection that is closed a call
//! returns a fault, whatever it found, so that no answer comes from a store that lost its file.
ghost use Rattle.book_store.specs.OnConnections.{IsOpenUnlessFault, StandsOrFaults};
ghost use Rattle.store_tables.specs.OnConnections.{OnlyReads};
ghost use Rattle.std.specs.Prelude.{◌≡◌, IfErr, IfOk};

use book_model::Denied;
use sqlite::{Alter, Connection};
use store_writes::lookups::check_open;

/// The answer of a call that only read, if the connection is open. If it is closed, or if memory
/// runs out, a fault takes the place of the answer.
pub(crate) fn answer_if_open<S: Alter, T: Drop>(
    conn: &mut Connection<S>,
    answer: Result<T, Denied>,
) -> Result<T, Denied>
    ensures stands { StandsOrFaults S.Store conn.old conn.new answer result }
    ensures opened { IsOpenUnlessFault S.Store conn.new result }
    ensures reads_only { OnlyReads S.Store conn.old conn.new }
{
    match check_open(conn) {
        Ok(()) => answer,
        Err(fault) => Err(fault),
    }
}

/// The outcome of a call that changes books. A success was committed, and stays as it is. A refusal
/// over a connection that is closed becomes a fault, and so does one if memory runs out.
pub(crate) fn outcome_if_open<S: Alter, T>(
    conn: &mut Connection<S>,
    outcome: Result<T, Denied>,
) -> Result<T, Denied>
    ensures done { IfOk outcome (λ _. (result ≡ outcome) × (conn.new ≡ conn.old)) }
    ensures stands { StandsOrFaults S.Store conn.old conn.new outcome result }
    ensures opened { IfErr outcome (λ _. IsOpenUnlessFault S.Store conn.new result) }
    ensures reads_only { OnlyReads S.Store conn.old conn.new }
{
    match outcome {
        Ok(answer) => Ok(answer),
        Err(denied) => match check_open(conn) {
            Ok(()) => Err(denied),
            Err(fault) => Err(fault),
        },
    }
}
