//! Laws of every list of calls.
ghost use Rattle.book_laws.specs.RunLaws.{CallsKeepHistoriesSound, RowsMatchHistoriesAfterCalls};
ghost use Rattle.book_laws.specs.RunLaws.{RowsDetermineAnswers, CallsExtendHistories};
ghost use Rattle.book_laws.specs.RunLaws.{ImportCallsAreIdempotent};
ghost use Rattle.book_laws.specs.TokenLaws.{FreshTokensAreAccepted, TokensStayValid};
ghost use Rattle.book_laws.specs.MoveLaws.{MoveCallsTransferOneCard};

/// Sound histories stay sound after every list of calls, where the limits are in range: logs are
/// valid, no horizon is above its log, and no book has more tombstones than its keep, which is at
/// least 1 (`specs/RunLaws.antt`).
pub fn histories_stay_sound()
    ensures { CallsKeepHistoriesSound }
{}

/// From sound histories and limits in range, the rows after a list of calls on the rows are those
/// of the histories after the same calls (`specs/RunLaws.antt`).
pub fn rows_match_histories_after_calls()
    ensures { RowsMatchHistoriesAfterCalls }
{}

/// Two stores with sound histories, and the same rows and the same limits in range, give the same
/// answers to every list of calls, and have the same rows afterwards (`specs/RunLaws.antt`).
pub fn rows_determine_answers()
    ensures { RowsDetermineAnswers }
{}

/// After every list of calls each book is there, with its id, its events below any later ones, its
/// keep, its kept imports and a horizon that is no lower (`specs/RunLaws.antt`).
pub fn calls_extend_histories()
    ensures { CallsExtendHistories }
{}

/// After an accepted import and any calls, an import of any cards with the same key into the same
/// book returns the same tally and changes nothing (`specs/RunLaws.antt`).
pub fn imports_are_idempotent()
    ensures { ImportCallsAreIdempotent }
{}

/// From sound histories: if after a page and any calls the same book refuses the page's token, the
/// cause is `TooOld`. Then one of the calls was an accepted forget of the book above the token's
/// base, or the book had more removals after that base than its keep (`specs/TokenLaws.antt`).
pub fn tokens_stay_valid()
    ensures { TokensStayValid }
{}

/// On the sound histories that returned a page, a report after the page's token isn't refused for
/// its token (`specs/TokenLaws.antt`).
pub fn fresh_tokens_are_accepted()
    ensures { FreshTokensAreAccepted }
{}

/// An accepted move is one event in each of the two books: it removes the card from one and stores
/// it in the other, where its UID was not live. All other books and the number of live cards of all
/// books are unchanged (`specs/MoveLaws.antt`).
pub fn moves_transfer_one_card()
    ensures { MoveCallsTransferOneCard }
{}
