//! Which removals a book may forget.
ghost use Rattle.std.specs.Prelude.{◌≡◌};
ghost use Rattle.book_model.specs.Forgetting.{is_row_kept, may_forget};

use crate::row::Row;

/// Whether a book with this horizon and number may forget removals up to `upto`: the horizon never
/// falls, and doesn't rise above the book's number.
pub fn may_forget(horizon: u64, number: u64, upto: u64) -> bool
    ensures { result ≡ may_forget horizon number upto }
{
    horizon <= upto && upto <= number
}

/// Whether a book with this horizon keeps the row: its member is live, or was removed after the
/// horizon.
pub fn is_row_kept(row: &Row, horizon: u64) -> bool
    ensures { result ≡ is_row_kept horizon row.now }
{
    row.card.is_some() || row.changed > horizon
}
