//! Statements over the table `member`. A removed member that the book still remembers has a null
//! card.
//!
//! A member is accepted, in the sense of `WritesRow`, if the engine has an id for a new row, a book
//! has the id, none of its other members has the number, and neither the UID nor the card has more
//! than 2^20 octets.
ghost use Rattle.store_tables.specs.Tables.{member_tree};
ghost use Rattle.store_tables.specs.QueryResults.{AreRowsInOrder, FindsRow, FindsFirstRow, counted};
ghost use Rattle.store_tables.specs.Acceptance.{IsViolation};
ghost use Rattle.store_tables.specs.Members.{
  by_changed,
  has_uid,
  is_in_book,
  is_removed_above,
  member_shown,
  member_table,
  number_card_shown,
  number_shown,
};
ghost use Rattle.store_tables.specs.OnConnections.{
  GivenAcceptedMember,
  GivenTx,
  InsideTx,
  IsUnchanged,
  LooksUp,
  Reads,
};
ghost use Rattle.store_tables.specs.Writes.{
  ForgetsMembers,
  PutsIntoMembers,
  PutsMember,
  PutsMemberInSteps,
  UpdatesMember,
  WritesRow,
};
ghost use Rattle.std.specs.Prelude.{
  ◌≡◌,
  IfErr,
  IfOk,
  IsTrue,
  false,
  filter,
  length,
  option_copied,
};

use crate::counts::count_in;
use sqlite::{Alter, Connection, Error, ErrorCode, Row, Transaction, params};

/// Returns the member with this UID in the book with this id: the number of its last change and its
/// card, null if it is removed.
///
/// Fails with `QueryReturnedNoRows` if the book has no such member.
pub fn find_member<S: Alter>(conn: &mut Connection<S>, book: i64, uid: &str) -> Result<Row, Error>
    // The row is that of a member of the book with the UID. `QueryReturnedNoRows` is returned only
    // if there is none.
    ensures { LooksUp S.Store conn.old conn.new member_table result
        (λ ms. FindsRow (has_uid book uid.now) number_card_shown ms result) }
{
    conn.query_row(
        "SELECT changed, card FROM member WHERE book = ?1 AND uid = ?2",
        params![book, uid],
    )
}

/// Counts the members of the book with this id that were removed by a change above `horizon`.
///
/// The cost grows with all members that changed above `horizon`, live ones included.
pub fn count_removed<S: Alter>(
    conn: &mut Connection<S>,
    book: i64,
    horizon: i64,
) -> Result<u64, Error>
    // It is their number, or 2^63 - 1 if there are more.
    ensures { Reads S.Store conn.old conn.new member_table result
        (λ ms. IfOk result
        (λ count. count ≡ counted (length (filter (is_removed_above book horizon) ms)))) }
{
    let row = conn.query_row(
        "SELECT COUNT(*) FROM member WHERE book = ?1 AND card IS NULL AND changed > ?2",
        params![book, horizon],
    )?;
    count_in(&row)
}

/// Returns the least number above `horizon` of a removed member of the book with this id.
///
/// Fails with `QueryReturnedNoRows` if there is none. The index of the key `(book, changed)` gives
/// the order: rows are read from `horizon` up to the first removed one, so the cost is the number
/// of live members between the two.
pub fn first_removed<S: Alter>(
    conn: &mut Connection<S>,
    book: i64,
    horizon: i64,
) -> Result<Row, Error>
    // The row is the least of these numbers. `QueryReturnedNoRows` is returned only if there is
    // none.
    ensures { LooksUp S.Store conn.old conn.new member_table result
        (λ ms. FindsFirstRow by_changed number_shown (filter (is_removed_above book horizon) ms)
        result) }
{
    conn.query_row(
        "SELECT changed FROM member WHERE book = ?1 AND card IS NULL AND changed > ?2 \
         ORDER BY changed",
        params![book, horizon],
    )
}

/// Returns the UID, the number and the card of every member of the book with this id, in the order
/// of the numbers. The card is null for a removed member.
pub fn members_of<S: Alter>(conn: &mut Connection<S>, book: i64) -> Result<Vec<Row>, Error>
    ensures { Reads S.Store conn.old conn.new member_table result
        (λ ms. IfOk result
        (λ rows. AreRowsInOrder by_changed member_shown (filter (is_in_book book) ms) rows.items)) }
{
    conn.query_all(
        "SELECT uid, changed, card FROM member WHERE book = ?1 ORDER BY changed",
        params![book],
    )
}

/// Updates the member with this UID in the book with this id, live or removed: it gets the number
/// `changed` and the card. Returns how many rows were updated: 1, or 0 if there is no such member.
///
/// Fails with a constraint error if another member of the book has the number.
fn update_member<S: Alter>(
    tx: &mut Transaction<'_, S>,
    book: i64,
    uid: &str,
    changed: i64,
    card: Option<&str>,
) -> Result<usize, Error>
    ensures { WritesRow S.Store tx.old tx.new member_tree result
        (GivenTx S.Store tx.old.conn.now tx.new.conn.now member_table)
        (UpdatesMember S.Store tx.old tx.new book uid.now changed (option_copied card.entry) result)
        (GivenAcceptedMember S.Store tx.old.conn.now tx.new.conn.now book uid.now changed
        (option_copied card.entry)) }
{
    tx.execute(
        "UPDATE member SET changed = ?3, card = ?4 WHERE book = ?1 AND uid = ?2",
        params![book, uid, changed, card],
    )
}

/// Inserts or updates the member with this UID in the book with this id: it gets the number
/// `changed` and the card; without a card it is a removed member.
///
/// Fails with a constraint error if another member of the book has the number, or if no book has
/// the id.
pub fn put_member<S: Alter>(
    tx: &mut Transaction<'_, S>,
    book: i64,
    uid: &str,
    changed: i64,
    card: Option<&str>,
) -> Result<usize, Error>
    ensures { PutsMember S.Store tx.old tx.new book uid.now changed (option_copied card.entry)
        result }
{
    tx.execute(
        "INSERT INTO member (book, uid, changed, card) VALUES (?1, ?2, ?3, ?4) \
         ON CONFLICT (book, uid) DO UPDATE SET changed = excluded.changed, card = excluded.card",
        params![book, uid, changed, card],
    )
}

/// Inserts the member. If a constraint would be broken, as it is where the book has a member with
/// the UID, nothing changes.
fn insert_member<S: Alter>(
    tx: &mut Transaction<'_, S>,
    book: i64,
    uid: &str,
    changed: i64,
    card: Option<&str>,
) -> Result<usize, Error>
    ensures inserts { WritesRow S.Store tx.old tx.new member_tree result
        (GivenTx S.Store tx.old.conn.now tx.new.conn.now member_table)
        (PutsIntoMembers S.Store tx.old tx.new book uid.now changed (option_copied card.entry)
        result)
        (λ Then. GivenAcceptedMember S.Store tx.old.conn.now tx.new.conn.now
        book uid.now changed (option_copied card.entry)
        (IfErr result (λ e. IsViolation e → ⊥) → Then)) }
    ensures refused { InsideTx S.Store tx.old.conn.now tx.new.conn.now
        (IfErr result (λ e. IsViolation e → IsUnchanged S.Store tx.old.conn.now tx.new.conn.now)) }
{
    tx.execute(
        "INSERT INTO member (book, uid, changed, card) VALUES (?1, ?2, ?3, ?4)",
        params![book, uid, changed, card],
    )
}

/// Whether the error names a constraint that the write would break.
fn is_violation(error: Error) -> bool
    ensures yes { IsTrue result → IsViolation error }
    ensures no { result ≡ false → IsViolation error → ⊥ }
{
    matches!(
        error,
        Error::SqliteFailure(ErrorCode::ConstraintViolation(_))
    )
}

/// Does what [`put_member`] does. It first tries a plain INSERT, which needs no search for a row to
/// update.
fn put_new_member<S: Alter>(
    tx: &mut Transaction<'_, S>,
    book: i64,
    uid: &str,
    changed: i64,
    card: Option<&str>,
) -> Result<usize, Error>
    ensures { PutsMember S.Store tx.old tx.new book uid.now changed (option_copied card.entry)
        result }
{
    match insert_member(tx, book, uid, changed, card) {
        Ok(rows) => Ok(rows),
        Err(error) => {
            if is_violation(error) {
                return put_member(tx, book, uid, changed, card);
            }
            Err(error)
        }
    }
}

/// Inserts or updates the member with this UID in the book with this id: it gets the number
/// `changed` and the card; without a card it is a removed member. The clauses are those of
/// [`put_member`]. It is faster if `likely_new` says rightly whether the book has no member with
/// the UID, not even a removed one.
///
/// Fails with a constraint error if another member of the book has the number, or if no book has
/// the id.
pub fn put_with_hint<S: Alter>(
    tx: &mut Transaction<'_, S>,
    book: i64,
    uid: &str,
    changed: i64,
    card: Option<&str>,
    likely_new: bool,
) -> Result<usize, Error>
    ensures { PutsMember S.Store tx.old tx.new book uid.now changed (option_copied card.entry)
        result }
{
    if likely_new {
        put_new_member(tx, book, uid, changed, card)
    } else {
        put_member(tx, book, uid, changed, card)
    }
}

/// Updates the row of the member with this UID in the book with this id, and inserts one if there
/// is none: the member gets the number `changed` and the card; without a card it is a removed
/// member. Both statements are faster than the upsert of [`put_member`]. No clause states that an
/// error undoes the first one, so the caller rolls the transaction back.
///
/// Fails with a constraint error if another member of the book has the number, or if no book has
/// the id.
pub fn update_or_put<S: Alter>(
    tx: &mut Transaction<'_, S>,
    book: i64,
    uid: &str,
    changed: i64,
    card: Option<&str>,
) -> Result<(), Error>
    ensures { PutsMemberInSteps S.Store tx.old tx.new book uid.now changed
        (option_copied card.entry) result }
{
    let updated = update_member(tx, book, uid, changed, card)?;
    if updated == 0 {
        put_new_member(tx, book, uid, changed, card)?;
    }
    Ok(())
}

/// Deletes the removed members of the book with this id whose number is at most `upto`. Returns how
/// many rows were deleted.
pub fn forget_members<S: Alter>(
    tx: &mut Transaction<'_, S>,
    book: i64,
    upto: i64,
) -> Result<usize, Error>
    ensures { ForgetsMembers S.Store tx.old tx.new book upto result }
{
    tx.execute(
        "DELETE FROM member WHERE book = ?1 AND card IS NULL AND changed <= ?2",
        params![book, upto],
    )
}
