//! The SQL statements over the tables of an address book, one function for each statement. A
//! contract gives the statement's meaning for the rows of its table; cards and refusals are not
//! known here.
//!
//! A function over a `Connection` only reads. A function over a `Transaction` writes rows of one
//! table, or creates tables; the write lasts only if the transaction is committed.
//!
//! A read has one contract, `Reads`, or `LooksUp` if it may also find no row. It names the table,
//! and says what the result is for the items that the table held before the call, over a disk that
//! returned what was written and the declared tables. Its fields are:
//! - `returns`: what the result is.
//! - `unchanged`: after a result, and after `QueryReturnedNoRows`, the connection is as it was.
//! - `fails_from_outside`: an error but for lack of memory has an outside cause: the connection was
//!   closed before, the disk failed during the call, or the connection limits the steps of a
//!   statement. A look-up may also miss: it fails with `QueryReturnedNoRows`.
//! - `reads_only`: on success and on error no transaction began, and a crash leaves what it could
//!   leave before, whatever tables are declared. If no write was pending and the connection is
//!   still open, it shows what it showed, and nothing was committed.
//!
//! A write of rows has one contract, the record `WritesRow`, or a word for it such as `PutsMember`.
//! It is over the transaction before and after the call, over a disk that returned what was written
//! and the declared tables; no two items that the table held share an id or a key. Its fields are:
//! - `same_reference`: the transaction still borrows the same connection.
//! - `changes`: what the call does to the rows of its table.
//! - `writes`: after a success only this table was written, the rows obey the declared tables, and
//!   the transaction is open.
//! - `no_commit`: on success and on error nothing was committed, and a crash leaves what it could
//!   leave before.
//! - `rolled_back`: an error changed nothing, or rolled the whole transaction back.
//! - `fails_from_outside`: if the rows obey the tables, and the table accepts the write, an error
//!   but for lack of memory has an outside cause. Each module says what its table accepts.
//!
//! A write by one statement or two has `WritesRowInSteps`: without `rolled_back`, and with
//! `keeps_commit` and `survives`, the two parts of `no_commit`. The creation of a table has
//! `CreatesTable`, whose `fails_from_outside` holds while exactly the tables before it are declared.
#![tactic(auto)]

pub mod books;
mod counts;
pub mod creation;
pub mod due_members;
pub mod imports;
pub mod keeps;
pub mod laws;
pub mod members;
pub mod meta;
pub mod named_members;
pub mod settled;
