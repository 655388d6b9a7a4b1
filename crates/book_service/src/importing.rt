//! Importing a CSV body under a key.
ghost use Rattle.std.specs.Prelude.{IfOk, IfErr};
ghost use Rattle.csv_cards.specs.Reading.{TextHasCards};
ghost use Rattle.book_model.specs.CallOutcomes.{IfFault};
ghost use Rattle.book_commands.specs.declared.command.Command.{Command as TheCommand};
ghost use Rattle.book_commands.specs.declared.reply.Reply.{Reply as TheReply};
ghost use Rattle.book_service.specs.Faults.{CommandFault};
ghost use Rattle.book_service.specs.internal.RowSteps.{CommandLeaves, CommandOnStore};
ghost use Rattle.book_service.specs.Replies.{reply_to};
ghost use Rattle.book_service.specs.internal.TextParsers.{DeniesBody};
ghost use Rattle.sync_core.specs.StoreModels.{KeepsTerms};

use book_laws::refinement::{import_refines_histories, kept_imports_refine_histories};
use csv_cards::{CsvCause, read_rows};
use std::alloc::Global;
use sync_core::{BookStore, Denied, Fault, ImportTally, Refusal};
use vcard_text::{Card, Items, Text};

/// Parses the cards of the body's rows.
///
/// Refused with `BadImport` and the first bad row if a row isn't a card.
fn parse_cards(alloc: Global, body: &[u8]) -> Result<Vec<Card>, Denied>
    ensures cards { IfOk result (λ cards. TextHasCards body.now cards.items) }
    ensures denied { IfErr result (DeniesBody body.now) }
{
    match read_rows(alloc, body) {
        Ok(cards) => Ok(cards),
        Err(fault) => match fault.cause {
            CsvCause::Memory => Err(Denied::Fault(Fault::Memory)),
            _ => Err(Denied::Refused(Refusal::BadImport {
                row: fault.row,
                cause: fault.cause.number(),
            })),
        },
    }
}

/// Imports the cards of the body under the key. If the book has a result under the key, returns
/// that result and doesn't read the body.
pub(crate) fn import_body<S: BookStore>(
    alloc: Global,
    store: &mut S,
    book: &Text,
    key: &Text,
    body: &Items<u8>,
) -> Result<ImportTally, Denied>
    ensures terms { KeepsTerms S.model store.old store.new }
    ensures fault { IfFault result
        (CommandFault S.model.may_fault (TheCommand.Import book.now key.now body.now)) }
    ensures step { CommandOnStore S.model store.old (TheCommand.Import book.now key.now body.now)
        (reply_to TheReply.Imported result) store.new }
    ensures crash { CommandLeaves S.model store.old store.new result
        (TheCommand.Import book.now key.now body.now) }
{
    // Laws, no code.
    import_refines_histories();
    kept_imports_refine_histories();

    if let Some(kept) = store.kept_import(book.as_str(), key.as_str())? {
        return Ok(kept);
    }
    let cards = parse_cards(alloc, body.as_slice())?;
    store.import(book.as_str(), key.as_str(), cards.as_slice())
}
