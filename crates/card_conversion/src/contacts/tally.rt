//! How many rows there were, of each fate.
ghost use Rattle.std.specs.Prelude.{◌≡◌};
ghost use Rattle.card_conversion.specs.ContactFates.{counted};

use crate::contacts::fate::RowFate;
use contact_csv::RowFault;
use convert_report::{Summary, is_changed};

/// Counts a row. One without a value, or with the cells of an earlier one, is no loss.
pub(crate) fn count_row(summary: &mut Summary, fate: &RowFate)
    ensures { summary.new ≡ counted summary.old fate.now }
{
    match fate {
        RowFate::Written(conversion) => {
            summary.written = summary.written.saturating_add(1);
            if is_changed(conversion) {
                summary.changed = summary.changed.saturating_add(1);
            }
        }
        RowFate::Refused(RowFault::Empty) => {}
        RowFate::Repeated(_) => {}
        _ => summary.refused = summary.refused.saturating_add(1),
    }
}
