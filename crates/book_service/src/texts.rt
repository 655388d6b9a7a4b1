//! Parsing the texts in commands: cards and sync tokens.
ghost use Rattle.std.specs.Prelude.{◌≡◌};
ghost use Rattle.book_service.specs.Texts.{ReadsCard, ReadsToken};
ghost use Rattle.book_service.specs.internal.TextParsers.{ParserReturns};

use std::alloc::Global;
use sync_core::{Denied, Refusal, Token, TokenCause, read_token};
use vcard_text::laws::first_fault_without_card;
use vcard_text::{Card, read_card};

/// Parses a card, which must have the given UID.
///
/// Refused with `BadCard` and the text's first fault if it isn't a card, then with `UidMismatch`.
pub(crate) fn parse_card(alloc: Global, uid: &str, text: &[u8]) -> Result<Card, Denied>
    ensures { ParserReturns (ReadsCard uid.now text.now) result }
{
    // A law, no code: a text is a card or has a first fault.
    first_fault_without_card();

    let card = read_card(alloc, text)?;
    if card.uid() != uid {
        return Err(Denied::Refused(Refusal::UidMismatch));
    }
    Ok(card)
}

/// Parses a sync token; the empty text is `None`.
///
/// Refused with `BadToken` and the cause `Malformed` if the text isn't a token. Allocates nothing.
pub(crate) fn parse_token(text: &str) -> Result<Option<Token>, Refusal>
    ensures { ReadsToken text.now result }
{
    if text.is_empty() {
        return Ok(None);
    }
    match read_token(text) {
        Some(token) => Ok(Some(token)),
        None => Err(Refusal::BadToken(TokenCause::Malformed)),
    }
}
