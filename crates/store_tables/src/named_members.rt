//! The member with a UID of the book with a name: one statement over the tables `book` and
//! `member`.
ghost use Rattle.store_tables.specs.NamedMembers.{FindsNamedMember};
ghost use Rattle.store_tables.specs.OnConnections.{GivenBooksAndMembers, LooksUpRow};

use sqlite::{Alter, Connection, Error, Row, params};

/// Returns the member with this UID in the book with this name: the number of its last change and
/// its card, null if it is removed. It costs less than looking up the book and then the member.
///
/// Fails with `QueryReturnedNoRows` if there is no such book, or if the book has no such member.
pub fn find_named_member<S: Alter>(
    conn: &mut Connection<S>,
    name: &str,
    uid: &str,
) -> Result<Row, Error>
    // The row is that of a member with the UID of a book with the name. `QueryReturnedNoRows` is
    // returned only if no book with the name has such a member.
    ensures { LooksUpRow S.Store conn.old conn.new result
        (GivenBooksAndMembers S.Store conn.old conn.new
        (λ bs ms. FindsNamedMember name.now uid.now bs ms result)) }
{
    // The tables are read in this order. In the other one, each member would be read.
    conn.query_row(
        "SELECT changed, card FROM book JOIN member ON member.book = book.id \
         WHERE book.name = ?1 AND member.uid = ?2",
        params![name, uid],
    )
}
