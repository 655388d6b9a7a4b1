//! Reads the command of a complete request.
ghost use Rattle.std.specs.Prelude.{◌≡◌, Err, IfOk, Ok, map};
ghost use Rattle.http_routes.specs.Commands as commands;
ghost use Rattle.http_routes.specs.internal.Results.{MatchesExpected};
ghost use Rattle.http_routes.specs.declared.fault.RouteFault.{RouteFault};
ghost use Rattle.http_routes.specs.declared.no_command.NoCommand.TheVariants.{Fault};

use crate::action::Action;
use crate::command::command_of;
use crate::fault::RouteFault;
use crate::method::action_of;
use crate::no_command::NoCommand;
use crate::path::{decode_part, part_at, parts_of, route_of};
use crate::query::{has_valid_names, pairs_of};
use crate::router::Routes;
use base_types::Text;
use book_commands::Command;
use std::alloc::Global;

/// The path and the query of a target: the text before and after the first question mark.
pub fn split_target(target: &str) -> (&str, &str)
    ensures path { result.0.now ≡ commands.path_in target.now }
    ensures query { result.1.now ≡ commands.query_in target.now }
{
    match target.split_once('?') {
        Some((path, query)) => (path, query),
        None => (target, ""),
    }
}

/// Checks the names of the query and builds the command. `BadQuery` if a name or a value is
/// invalid.
fn command_with(
    alloc: Global,
    action: Action,
    book: Text,
    uid: Text,
    body: &[u8],
    query: &str,
) -> Result<Command, NoCommand>
    ensures { MatchesExpected (commands.command_with action book uid body.now query.now) result }
{
    let pairs = pairs_of(alloc, query.as_bytes())?;
    if !has_valid_names(action, &pairs) {
        return Err(NoCommand::Fault(RouteFault::BadQuery));
    }
    command_of(alloc, action, book, uid, body, &pairs)
}

/// The command of a complete request, by its method, target and body, with routes that were built
/// before. A command with a body has a copy of the octets.
///
/// Returns the first fault in this order: `NoRoute` if no route matches the path, which ends at
/// the first question mark and isn't decoded; `BadMethod` if the route doesn't have the method;
/// `BadPath` if the part that names a book or a card isn't UTF-8 after percent-decoding (RFC 3986,
/// section 2.1); `BadQuery` if the query has an unknown name or a name twice, or lacks a required
/// name, or if a number isn't 1 to 15 digits or a form is neither `cards` nor `columns`. `Memory`
/// if an allocation fails, in place of any result.
pub fn read_request(
    alloc: Global,
    routes: &Routes,
    method: &str,
    target: &str,
    body: &[u8],
) -> Result<Command, NoCommand>
    // The result is the command that the request asks for.
    ensures command { IfOk result (λ command.
        commands.requested_command method.now target.now body.now ≡ Ok command) }

    // A fault is the first fault of the request.
    ensures fault { (fault : RouteFault) → result ≡ Err (Fault fault)
        → commands.requested_command method.now target.now body.now ≡ Err fault }
{
    let (path, query) = split_target(target);
    let parts = parts_of(alloc, path)?;
    let found = route_of(routes, path, &parts);
    let Some(route) = found else {
        return Err(NoCommand::Fault(RouteFault::NoRoute));
    };
    let wanted = action_of(route, method);
    let Some(action) = wanted else {
        return Err(NoCommand::Fault(RouteFault::BadMethod(route)));
    };
    let book = decode_part(alloc, part_at(&parts, 2))?;
    let uid = decode_part(alloc, part_at(&parts, 4))?;
    command_with(alloc, action, book, uid, body, query)
}
