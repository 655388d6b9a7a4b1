//! How many numbers a restore skips, so that each book passes the numbers that it had.

use sync_core::BookLine;

/// At least this many pairs, and enough for the new file's book to pass the number of the old
/// one's, if they have the same name or the same id.
fn pairs_past_one(old: &BookLine, new: &BookLine, pairs: u64) -> u64 {
    let is_other = old.id != new.id && !old.name.is_same(&new.name);
    if is_other || old.number < new.number {
        return pairs;
    }
    pairs.max((old.number - new.number) / 2 + 1)
}

/// At least this many pairs, and enough for each book of the new file to pass the number that it
/// has in the old one. So no number comes again that an earlier restore or resync took.
pub(crate) fn pairs_past(old: &[BookLine], new: &[BookLine], pairs: u64) -> u64 {
    let mut most = pairs;
    for line in old {
        for other in new {
            most = pairs_past_one(line, other, most);
        }
    }
    most
}
