//! What a resync is, and what it leaves. Each law is stated in `specs/ResyncLaws.antt`.
ghost use Rattle.book_resync.specs.ResyncLaws.{BookResyncsAreCommands, ResyncsAreCommands};
ghost use Rattle.book_resync.specs.ResyncLaws.{SpareCardsExist, LegalSpareCardsExist};
ghost use Rattle.book_resync.specs.ResyncLaws.{ResyncCallsAreLegal, ResyncsMatchHistories};
ghost use Rattle.book_resync.specs.ResyncLaws.{ResyncsKeepWellFormed, ResyncsChangeEachBook};
ghost use Rattle.book_resync.specs.ResyncLaws.{ResyncedRowsAreLive, ResyncsKeepCards};
ghost use Rattle.book_resync.specs.ResyncLaws.{ResyncsKeepVersions, ResyncsExpireTokens};
ghost use Rattle.book_resync.specs.ResyncLaws.{InitialPagesCompleteCopies, LostVersionsNeverReturn};
ghost use Rattle.book_resync.specs.ResyncLaws.{ExpiredTokensStayRefused};

/// A resync is the commands that it stands for.
/// - `book`: the commands of a book are accepted, and leave it in closed form.
/// - `books`: the commands of all books are accepted, and leave the books of the resync.
/// - `spare`: there is a card whose UID isn't live in any book.
/// - `legal_spare`: if the books are well formed, there is one that a text can spell.
/// - `legal`: with such a card, and if a text can spell each live card, each of the commands is a
///   put of a card that a text can spell, a removal or a forget.
pub fn resync_is_commands()
    ensures book { BookResyncsAreCommands }
    ensures books { ResyncsAreCommands }
    ensures spare { SpareCardsExist }
    ensures legal_spare { LegalSpareCardsExist }
    ensures legal { ResyncCallsAreLegal }
{}

/// The books after a resync are as after any list of calls.
/// - `histories`: they are the rows of the histories after its commands.
/// - `well_formed`: they are well formed.
pub fn resyncs_follow_histories()
    ensures histories { ResyncsMatchHistories }
    ensures well_formed { ResyncsKeepWellFormed }
{}

/// What a resync leaves of each book.
/// - `each`: each book is changed by itself, and none is added.
/// - `rows`: each row is that of a live member.
/// - `cards`: the same cards are live.
/// - `versions`: they have the same versions in a book with room.
pub fn resyncs_keep_cards()
    ensures each { ResyncsChangeEachBook }
    ensures rows { ResyncedRowsAreLive }
    ensures cards { ResyncsKeepCards }
    ensures versions { ResyncsKeepVersions }
{}

/// After a resync each device starts again.
/// - `tokens`: a token whose base is below the new number, and that names no number above it, is
///   refused as too old.
/// - `initial`: a device without a token has the live cards after a page that isn't truncated.
pub fn resyncs_restart_devices()
    ensures tokens { ResyncsExpireTokens }
    ensures initial { InitialPagesCompleteCopies }
{}

/// After a resync and any calls, no version or token below the new number comes again.
/// - `versions`: a live card has its version from before, or one that isn't below the new number.
/// - `tokens`: a token that the resync expired is still refused as too old.
pub fn lost_times_never_return()
    ensures versions { LostVersionsNeverReturn }
    ensures tokens { ExpiredTokensStayRefused }
{}
