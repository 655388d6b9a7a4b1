//! The query for the due members of a sync report.
ghost use Rattle.store_tables.specs.QueryResults.{AreFirstRowsInOrder};
ghost use Rattle.store_tables.specs.Members.{by_changed, member_shown, is_member_due, member_table};
ghost use Rattle.store_tables.specs.OnConnections.{Reads};
ghost use Rattle.std.specs.Prelude.{IfOk, filter};

use sqlite::{Alter, Connection, Error, Row, params};

/// Returns at most `most` due members of the book with this id, in the order of their numbers. A
/// member is due if its number is above `at` and it is live or was removed above `base`. Each row
/// is the UID, the number and the card; the card is null for a removed member.
///
/// The index of the key `(book, changed)` gives the order, and the library reads no member after
/// the last returned one: it reads ahead no further than the LIMIT.
pub fn first_due<S: Alter>(
    conn: &mut Connection<S>,
    book: i64,
    at: i64,
    base: i64,
    most: u32,
) -> Result<Vec<Row>, Error>
    ensures { Reads S.Store conn.old conn.new member_table result
        (λ ms. IfOk result
        (λ rows. AreFirstRowsInOrder by_changed member_shown most
        (filter (is_member_due book at base) ms) rows.items)) }
{
    let most = i64::from(most);
    conn.query_all(
        "SELECT uid, changed, card FROM member \
         WHERE book = ?1 AND changed > ?2 AND (card IS NOT NULL OR changed > ?3) \
         ORDER BY changed LIMIT ?4",
        params![book, at, base, most],
    )
}
