//! Commands over all live cards of a book: CSV export and the people of a group.
ghost use Rattle.base_types.specs.TextMaps.{octet_map};
ghost use Rattle.book_model.specs.CallOutcomes.{IfFault};
ghost use Rattle.book_commands.specs.declared.command.Command.{Command as TheCommand};
ghost use Rattle.book_commands.specs.declared.reply.Reply.{Reply as TheReply};
ghost use Rattle.book_service.specs.Faults.{CommandFault};
ghost use Rattle.book_service.specs.internal.RowSteps.{CommandOnStore};
ghost use Rattle.book_service.specs.Replies.{reply_to};
ghost use Rattle.book_service.specs.WholeBooks.{lines_by_uid};
ghost use Rattle.sync_core.specs.StoreModels.{KeepsTerms};
ghost use Rattle.sync_core.specs.StoreCrashes.{LeavesNoMore};

use base_types::value_at;
use book_laws::refinement::cards_refine_histories;
use card_core::{CardsByUid, Expansion, GroupFault, expand};
use csv_cards::{CardsInOrder, Form, write_rows};
use std::alloc::Global;
use std::collections::BTreeMap;
use sync_core::{BookStore, Denied, Fault, Refusal, Stored};
use vcard_text::{Card, Items, NoMemory, Text};

/// The live cards of a book by UID, as a store returns them; their cards are borrowed without the
/// versions.
#[derive(Drop)]
pub(crate) struct LiveCards {
    pub(crate) stored: BTreeMap<String, Stored>,
}

impl CardsInOrder for LiveCards {
    ghost cards = { λ live. lines_by_uid (octet_map live.stored) };

    fn in_order(&self, alloc: Global) -> Result<Vec<&Card>, NoMemory> {
        let mut list = Vec::new(alloc);
        for (_, stored) in self.stored.iter() {
            list.push(&stored.card)?;
        }
        Ok(list)
    }
}

impl CardsByUid for LiveCards {
    ghost cards = { λ live. lines_by_uid (octet_map live.stored) };

    fn card_of(&self, uid: &str) -> Option<&Card> {
        match value_at(&self.stored, uid) {
            Some(stored) => Some(&stored.card),
            None => None,
        }
    }
}

/// Exports the live cards of a book as CSV. The cards aren't copied a second time.
pub(crate) fn export<S: BookStore>(
    alloc: Global,
    store: &mut S,
    book: &Text,
    form: Form,
) -> Result<Items<u8>, Denied>
    ensures terms { KeepsTerms S.model store.old store.new }
    ensures fault { IfFault result
        (CommandFault S.model.may_fault (TheCommand.Export book.now form)) }
    ensures step { CommandOnStore S.model store.old (TheCommand.Export book.now form)
        (reply_to TheReply.Csv result) store.new }
    ensures crash { LeavesNoMore S.model store.old store.new result }
{
    // A law, no code.
    cards_refine_histories();

    let stored = store.cards(book.as_str())?;
    let live = LiveCards { stored };
    let text = write_rows(alloc, &live, form)?;
    Ok(Items::from_vec(text))
}

/// The people that a group reaches among the live cards of a book. The cards aren't copied a second
/// time.
pub(crate) fn people<S: BookStore>(
    alloc: Global,
    store: &mut S,
    book: &Text,
    uid: &Text,
) -> Result<Expansion, Denied>
    ensures terms { KeepsTerms S.model store.old store.new }
    ensures fault { IfFault result
        (CommandFault S.model.may_fault (TheCommand.People book.now uid.now)) }
    ensures step { CommandOnStore S.model store.old (TheCommand.People book.now uid.now)
        (reply_to TheReply.People result) store.new }
    ensures crash { LeavesNoMore S.model store.old store.new result }
{
    // A law, no code.
    cards_refine_histories();

    let stored = store.cards(book.as_str())?;
    let live = LiveCards { stored };
    match expand(alloc, &live, uid.as_str()) {
        Ok(expansion) => Ok(expansion),
        Err(GroupFault::NoSuchCard) => Err(Denied::Refused(Refusal::NoSuchCard)),
        Err(GroupFault::NotGroup) => Err(Denied::Refused(Refusal::NotGroup)),
        Err(GroupFault::Memory) => Err(Denied::Fault(Fault::Memory)),
    }
}
