//! Laws of removed members: how many are remembered, and the effect of forgetting some. Each law is
//! stated in `specs/ForgetLaws.antt`.
ghost use Rattle.store_rows.specs.ForgetLaws.{CountsAreRemembered, FirstIsFirstRemoval};
ghost use Rattle.store_rows.specs.ForgetLaws.{NoneIsNoRemoval, ForgettingIsHeld, ForgettingForgets};
ghost use Rattle.store_rows.specs.ForgetLaws.{DeletionsAreDropped, DropsForget};
ghost use Rattle.store_rows.specs.ForgetLaws.{RemovalsAreRemembered};

/// In sound rows, the count of a book's removed members above its horizon, if it is below 2^63 - 1,
/// is its number of tombstones.
pub fn count_removed_is_remembered()
    ensures { CountsAreRemembered }
{}

/// The query for the first removed member above a book's horizon, over sound rows.
/// - `found`: the number of its row is that of the book's oldest tombstone.
/// - `missing`: if it returns no row, the book has no tombstone.
pub fn first_removed_is_first_removal()
    ensures found { FirstIsFirstRemoval }
    ensures missing { NoneIsNoRemoval }
{}

/// Deleting a book's removed members up to a number.
/// - `tables`: over sound rows, after the deletion in `member` alone, the tables hold the rows
///   without these members. This is a write within the book.
/// - `book`: in sound rows, the book with this number as its horizon, over the remaining rows, is
///   the book after the forget.
/// - `drop`: a drop up to a number is a forget up to it.
/// - `dropped`: in sound rows, the number of these members is the number that a forget drops.
pub fn forget_members_is_forgetting()
    ensures tables { ForgettingIsHeld }
    ensures book { ForgettingForgets }
    ensures drop { DropsForget }
    ensures dropped { DeletionsAreDropped }
{}

/// After a live member of a book in sound rows is removed, where the horizon is at most the number,
/// there is one more tombstone. The oldest has the lesser of the oldest number before and the
/// book's next number, which is the horizon that is forced if there are more tombstones than the
/// keep.
pub fn removals_are_remembered()
    ensures { RemovalsAreRemembered }
{}
