//! Laws of the event logs of books.
ghost use Rattle.std.specs.Prelude.{◌≡◌, ◌↔◌, List, true};
ghost use Rattle.vcard_text.specs.Cards.{IsCard, canonical_text};
ghost use Rattle.vcard_lines.specs.declared.line.Line.{Line};
ghost use Rattle.book_model.specs.SameCards.{same_card};
ghost use Rattle.book_laws.specs.LiveLaws.{LiveCardsAreStoredLast};
ghost use Rattle.book_laws.specs.CountLaws.{EventsAreCounted, LiveCardsAreCounted};
ghost use Rattle.book_laws.specs.CountLaws.{ReasonsAreCounted};
ghost use Rattle.book_laws.specs.VersionLaws.{VersionsAreLastNumbers};
ghost use Rattle.book_laws.specs.ImportLaws.{ImportsCountLiveCards, ImportsAddEvents};
ghost use Rattle.book_laws.specs.ReportLaws.{DueMembersHaveEvents};

use vcard_text::laws::equal_texts;

/// A card is live with a version exactly where the last change of its UID stored it and has this
/// number (`specs/LiveLaws.antt`).
pub fn live_cards_are_stored_last()
    ensures { LiveCardsAreStoredLast }
{}

/// The counts of a log (`specs/CountLaws.antt`).
/// - `reasons`: each count is the number of the events with its reason.
/// - `events`: the counts add up to the number of events.
/// - `live`: in a valid log, live cards plus departures are the arrivals.
pub fn changes_are_counted()
    ensures reasons { ReasonsAreCounted }
    ensures events { EventsAreCounted }
    ensures live { LiveCardsAreCounted }
{}

/// A live card's version is the number of its UID's last event (`specs/VersionLaws.antt`).
pub fn versions_are_last()
    ensures { VersionsAreLastNumbers }
{}

/// An import into a history (`specs/ImportLaws.antt`).
/// - `counts`: cards with distinct UIDs count as added, edited or the same by what was live under
///   their UIDs before the import.
/// - `events`: each added or edited card is one event, and each added card is one more live card.
pub fn imports_count_live_cards()
    ensures counts { ImportsCountLiveCards }
    ensures events { ImportsAddEvents }
{}

/// A member is due at a mark exactly if it has an event above `at`, and is live or has an event
/// above `base` (`specs/ReportLaws.antt`).
pub fn due_members_have_events()
    ensures { DueMembersHaveEvents }
{}

/// The test for an unchanged card in a put is equality of cards, and so of their canonical texts.
pub fn same_cards_are_equal()
    ensures lines { (a b : List Line) → (same_card a b ≡ true) ↔ (a ≡ b) }
    ensures texts { (a b : List Line) → IsCard a → IsCard b →
        (same_card a b ≡ true) ↔ (canonical_text a ≡ canonical_text b) }
{
    equal_texts();
}
