//! Performing one command on a store.
ghost use Rattle.book_service.specs.declared.event.Event.TheVariants.{Do};
ghost use Rattle.book_service.specs.Crashes.{LeavesCommand};
ghost use Rattle.book_service.specs.Faults.{IfFaultReply, CommandFault};
ghost use Rattle.book_service.specs.Replies.{UnchangedIfReadOnly};
ghost use Rattle.book_service.specs.Runs.{FromEachState, StepsTo};
ghost use Rattle.sync_core.specs.StoreModels.{KeepsTerms};

use crate::calls::perform_call;
use crate::reply::denied_reply;
use book_commands::{Command, Reply};
use std::alloc::Global;
use sync_core::BookStore;

/// Performs the command and returns its reply. A refusal or a fault leaves the books unchanged, if
/// the store's premise holds afterwards.
///
/// A command is refused as its store call is, with these additions, each list in order. `Put`:
/// `NoSuchBook`; `BadCard` with the first fault of the text; `UidMismatch` if the card has another
/// UID; `VersionMismatch`; `BookFull`; `ChangesSpent`. `Report`: `NoSuchBook`; `BadToken` with
/// `Malformed` if a nonempty text isn't a token, then with `OtherBook`, `TooNew` or `TooOld`;
/// `BadLimit`. `Import`: `NoSuchBook`; `BadKey`; and if the book has no result under the key,
/// `BadImport` with the first bad row, counted from 1 after the header, and the number of its
/// cause; `BookFull`; `ChangesSpent`. The body isn't read if the book has a result under the key.
/// `Export`: `NoSuchBook`. `People`: `NoSuchBook`; `NoSuchCard` if no card of the UID is live;
/// `NotGroup` if its kind isn't group.
///
/// `Fault::Store` is returned if the store returns it. `Fault::Memory` is returned if the store
/// returns it, or if memory runs out while a put reads the card's text, a get copies the UID, an
/// import reads the body, or an export or a list of people is built.
pub fn perform<S: BookStore>(alloc: Global, store: &mut S, command: &Command) -> Reply
    ensures terms { KeepsTerms S.model store.old store.new }

    // A fault is one that the store may return, or out of memory while a text is read or copied.
    ensures fault { IfFaultReply result (CommandFault S.model.may_fault command.now) }

    // A refusal, a fault and a read leave the rows unchanged, whatever the rows are.
    ensures unchanged { S.model.premise store.new
        → UnchangedIfReadOnly result (S.model.books store.old) (S.model.books store.new) }

    // From every system state that matches the store's rows, the command is one step to a state
    // that matches its rows now.
    ensures step { FromEachState S.model store.old store.new (λ now.
        StepsTo now (Do command.now) result (S.model.books store.new) now.devices) }

    // A crash leaves what it could leave before, or the rows after the whole command. Once the
    // premise fails, each reply is a fault.
    ensures crash { LeavesCommand S.model store.old store.new command.now result }
{
    match perform_call(alloc, store, command) {
        Ok(reply) => reply,
        Err(error) => denied_reply(error),
    }
}
