//! The store calls of each command.
ghost use Rattle.std.specs.Prelude.{◌≡◌, ◌⊎◌, Err, IfOk};
ghost use Rattle.book_laws.specs.ChangeRefinement.{CreateRefines, PutRefines, RemoveRefines};
ghost use Rattle.book_laws.specs.ChangeRefinement.{MoveRefines, ForgetRefines};
ghost use Rattle.book_laws.specs.QueryRefinement.{BooksRefine, BookLinesRefine, GetRefines};
ghost use Rattle.book_laws.specs.QueryRefinement.{TalliesRefine, ReportsRefine};
ghost use Rattle.book_model.specs.CallOutcomes.{IfFault};
ghost use Rattle.book_commands.specs.declared.command.Command.{Command as TheCommand};
ghost use Rattle.book_commands.specs.declared.reply.Reply.{Reply as TheReply};
ghost use Rattle.book_service.specs.Faults.{IfFaultReply, CommandFault};
ghost use Rattle.book_service.specs.internal.RowSteps.{CommandLeaves, CommandOnStore};
ghost use Rattle.book_service.specs.internal.RowSteps.{IsFirstDenial};
ghost use Rattle.book_service.specs.Replies.{denied_reply, reply_to};
ghost use Rattle.sync_core.specs.StoreModels.{KeepsBooks, KeepsTerms};
ghost use Rattle.sync_core.specs.StoreCrashes.{LeavesNoMore};

use crate::importing::import_body;
use crate::texts::{parse_card, parse_token};
use crate::whole_books::{export, people};
use book_commands::{Command, Reply};
use book_laws::refinement::{
    book_lines_refine_histories, cards_refine_histories, create_refines_histories,
    forget_refines_histories, move_refines_histories, put_refines_histories,
    remove_refines_histories, reports_refine_histories, tallies_refine_histories,
};
use std::alloc::Global;
use sync_core::{BookStore, Denied, Page, PutAnswer, Stored};
use vcard_text::{Items, Text};

/// The steps on rows refine the calls on histories: the same answer or refusal, and the rows of the
/// histories afterwards. The first five are stated in `book_laws/specs/ChangeRefinement.antt`, the
/// others in `book_laws/specs/QueryRefinement.antt`; all but `books`, `lines` and `getting` need
/// sound histories, and `creating` limits in range.
fn calls_follow_histories()
    ensures creating { CreateRefines }
    ensures putting { PutRefines }
    ensures removing { RemoveRefines }
    ensures moving { MoveRefines }
    ensures forgetting { ForgetRefines }
    ensures books { BooksRefine }
    ensures lines { BookLinesRefine }
    ensures getting { GetRefines }
    ensures tallies { TalliesRefine }
    ensures reports { ReportsRefine }
{
    create_refines_histories();
    put_refines_histories();
    remove_refines_histories();
    move_refines_histories();
    forget_refines_histories();
    book_lines_refine_histories();
    cards_refine_histories();
    tallies_refine_histories();
    reports_refine_histories();
}

/// Performs the command by its store call and returns the reply.
pub(crate) fn perform_call<S: BookStore>(
    alloc: Global,
    store: &mut S,
    command: &Command,
) -> Result<Reply, Denied>
    ensures terms { KeepsTerms S.model store.old store.new }
    ensures fault { IfFault result (CommandFault S.model.may_fault command.now) }
    ensures no_fault { IfOk result (λ r. IfFaultReply r (λ fault. ⊥)) }
    ensures step { CommandOnStore S.model store.old command.now
        (reply_to (λ r. r) result) store.new }
    ensures crash { CommandLeaves S.model store.old store.new result command.now }
{
    // A law, no code.
    calls_follow_histories();

    match command {
        Command::CreateBook { book } => {
            let id = store.create_book(book.as_str())?;
            Ok(Reply::Created { id })
        }
        Command::Books => {
            let lines = store.books()?;
            Ok(Reply::Books(Items::from_vec(lines)))
        }
        Command::Get { book, uid } => {
            let Stored { version, card } = store.get(book.as_str(), uid.as_str())?;
            let uid = uid.try_copy()?;
            Ok(Reply::Card { uid, version, card })
        }
        Command::Put {
            book,
            uid,
            expect,
            text,
        } => {
            let answer = put(alloc, store, book, uid, *expect, text)?;
            Ok(Reply::Put(answer))
        }
        Command::Remove { book, uid, expect } => {
            let number = store.remove(book.as_str(), uid.as_str(), *expect)?;
            Ok(Reply::Gone { number })
        }
        Command::MoveCard {
            book,
            uid,
            to,
            expect,
        } => {
            let numbers = store.move_card(book.as_str(), to.as_str(), uid.as_str(), *expect)?;
            Ok(Reply::Moved(numbers))
        }
        Command::Report { book, token, limit } => {
            let page = report(store, book, token, *limit)?;
            Ok(Reply::Page(page))
        }
        Command::Import { book, key, body } => {
            let tally = import_body(alloc, store, book, key, body)?;
            Ok(Reply::Imported(tally))
        }
        Command::Forget { book, upto } => {
            let dropped = store.forget(book.as_str(), *upto)?;
            Ok(Reply::Forgot {
                dropped,
                horizon: *upto,
            })
        }
        Command::TallyOf { book } => {
            let tally = store.tally(book.as_str())?;
            Ok(Reply::Tally(tally))
        }
        Command::Export { book, form } => {
            let text = export(alloc, store, book, *form)?;
            Ok(Reply::Csv(text))
        }
        Command::People { book, uid } => {
            let expansion = people(alloc, store, book, uid)?;
            Ok(Reply::People(expansion))
        }
    }
}

/// Parses the card's text and stores the card.
fn put<S: BookStore>(
    alloc: Global,
    store: &mut S,
    book: &Text,
    uid: &Text,
    expect: Option<u64>,
    text: &Items<u8>,
) -> Result<PutAnswer, Denied>
    ensures terms { KeepsTerms S.model store.old store.new }
    ensures fault { IfFault result
        (CommandFault S.model.may_fault (TheCommand.Put book.now uid.now expect text.now)) }
    ensures step { CommandOnStore S.model store.old
        (TheCommand.Put book.now uid.now expect text.now)
        (reply_to TheReply.Put result) store.new }
    ensures crash { CommandLeaves S.model store.old store.new result
        (TheCommand.Put book.now uid.now expect text.now) }
{
    calls_follow_histories();
    match parse_card(alloc, uid.as_str(), text.as_slice()) {
        Ok(card) => store.put(book.as_str(), &card, expect),
        Err(error) => Err(first_denial(store, book.as_str(), error)),
    }
}

/// Parses the token and requests a page of the changes since it.
fn report<S: BookStore>(
    store: &mut S,
    book: &Text,
    token: &Text,
    limit: Option<u64>,
) -> Result<Page, Denied>
    ensures terms { KeepsTerms S.model store.old store.new }
    ensures fault { IfFault result S.model.may_fault }
    ensures step { CommandOnStore S.model store.old (TheCommand.Report book.now token.now limit)
        (reply_to TheReply.Page result) store.new }
    ensures crash { LeavesNoMore S.model store.old store.new result }
{
    calls_follow_histories();
    match parse_token(token.as_str()) {
        Ok(from) => store.report(book.as_str(), from, limit),
        Err(refusal) => Err(first_denial(store, book.as_str(), Denied::Refused(refusal))),
    }
}

/// The denial of a command whose text can't be read: `NoSuchBook` comes first, then `error`.
fn first_denial<S: BookStore>(store: &mut S, book: &str, error: Denied) -> Denied
    ensures terms { KeepsTerms S.model store.old store.new }
    ensures reads_only { KeepsBooks S.model store.old store.new }
    ensures fault { (result ≡ error) ⊎ IfFault {A = Unit {0}} (Err result) S.model.may_fault }
    ensures denies { S.model.premise store.new →
        IsFirstDenial (S.model.books store.old) book.now error (denied_reply result) }
    ensures crash { LeavesNoMore S.model {A = Unit {0}} store.old store.new (Err result) }
{
    match store.book(book) {
        Ok(_) => error,
        Err(first) => first,
    }
}
