//! The command of an action, with the values of its query. Each value is checked here, but not the
//! names: the query has the names of the action, each once.
ghost use Rattle.std.specs.Prelude.{[]};
ghost use Rattle.http_routes.specs.Commands as commands;
ghost use Rattle.http_routes.specs.internal.Results.{MatchesExpected};
ghost use Rattle.http_routes.specs.declared.action.Action.TheVariants as actions;

use crate::action::Action;
use crate::no_command::NoCommand;
use crate::query::{export_form_of, number_of, parse_number, value_or_empty};
use base_types::{Items, Text};
use book_commands::Command;
use std::alloc::Global;

// ---- changes of a card

/// The command that writes a card, whose text is the body.
fn put_command(
    alloc: Global,
    book: Text,
    uid: Text,
    body: &[u8],
    pairs: &[(Text, Text)],
) -> Result<Command, NoCommand>
    ensures { MatchesExpected
        (commands.command_of actions.Put book uid body.now pairs.now) result }
{
    let expect = number_of("version", pairs)?;
    let text = Items::from_vec(Vec::from_slice(alloc, body)?);
    Ok(Command::Put {
        book,
        uid,
        expect,
        text,
    })
}

/// The command that removes a card.
fn remove_command(book: Text, uid: Text, pairs: &[(Text, Text)]) -> Result<Command, NoCommand>
    ensures { MatchesExpected (commands.command_of actions.Remove book uid [] pairs.now) result }
{
    let expect = number_of("version", pairs)?;
    Ok(Command::Remove { book, uid, expect })
}

/// The command that moves a card to another book.
fn move_command(
    alloc: Global,
    book: Text,
    uid: Text,
    pairs: &[(Text, Text)],
) -> Result<Command, NoCommand>
    ensures { MatchesExpected (commands.command_of actions.MoveCard book uid [] pairs.now) result }
{
    let expect = number_of("version", pairs)?;
    let to = Text::copy_of(alloc, value_or_empty("to", pairs))?;
    Ok(Command::MoveCard {
        book,
        uid,
        to,
        expect,
    })
}

// ---- changes of a book

/// The command that imports rows, which are the body.
fn import_command(
    alloc: Global,
    book: Text,
    body: &[u8],
    pairs: &[(Text, Text)],
) -> Result<Command, NoCommand>
    ensures { MatchesExpected
        (commands.command_of actions.Import book [] body.now pairs.now) result }
{
    let key = Text::copy_of(alloc, value_or_empty("key", pairs))?;
    let body = Items::from_vec(Vec::from_slice(alloc, body)?);
    Ok(Command::Import { book, key, body })
}

/// The command that forgets the removals up to a number.
fn forget_command(book: Text, pairs: &[(Text, Text)]) -> Result<Command, NoCommand>
    ensures { MatchesExpected (commands.command_of actions.Forget book [] [] pairs.now) result }
{
    let upto = parse_number(value_or_empty("upto", pairs))?;
    Ok(Command::Forget { book, upto })
}

// ---- reads

/// The command that reports what changed since a token.
fn report_command(alloc: Global, book: Text, pairs: &[(Text, Text)]) -> Result<Command, NoCommand>
    ensures { MatchesExpected (commands.command_of actions.Report book [] [] pairs.now) result }
{
    let limit = number_of("limit", pairs)?;
    let token = Text::copy_of(alloc, value_or_empty("token", pairs))?;
    Ok(Command::Report { book, token, limit })
}

/// The command that exports a book.
fn export_command(book: Text, pairs: &[(Text, Text)]) -> Result<Command, NoCommand>
    ensures { MatchesExpected (commands.command_of actions.Export book [] [] pairs.now) result }
{
    let form = export_form_of(pairs)?;
    Ok(Command::Export { book, form })
}

/// The command of an action, given the texts of the path, the body, and a query whose names are
/// checked. `BadQuery` if a value is invalid.
pub(crate) fn command_of(
    alloc: Global,
    action: Action,
    book: Text,
    uid: Text,
    body: &[u8],
    pairs: &[(Text, Text)],
) -> Result<Command, NoCommand>
    ensures { MatchesExpected (commands.command_of action book uid body.now pairs.now) result }
{
    match action {
        Action::CreateBook => Ok(Command::CreateBook { book }),
        Action::Books => Ok(Command::Books),
        Action::Get => Ok(Command::Get { book, uid }),
        Action::Put => put_command(alloc, book, uid, body, pairs),
        Action::Remove => remove_command(book, uid, pairs),
        Action::MoveCard => move_command(alloc, book, uid, pairs),
        Action::Report => report_command(alloc, book, pairs),
        Action::Import => import_command(alloc, book, body, pairs),
        Action::Forget => forget_command(book, pairs),
        Action::TallyOf => Ok(Command::TallyOf { book }),
        Action::Export => export_command(book, pairs),
        Action::People => Ok(Command::People { book, uid }),
    }
}
