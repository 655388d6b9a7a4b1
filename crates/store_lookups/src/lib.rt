//! Look-ups in the tables of a book store, for calls that read and for calls that write. Each row
//! is tested when it is read; a malformed one is a fault of the store. Nothing here writes.
#![tactic(auto)]

mod columns;
mod faults;
mod header;
mod kept_counts;
mod lookups;
mod member_states;
mod row_values;

pub use columns::number_in;
pub use faults::{column_of, fault_of};
pub use header::BookHeader;
pub use kept_counts::remembered;
pub use lookups::{
    count_removals, fetch_keep, find_header, find_import_tally, find_live, find_member_state,
};
pub use member_states::MemberState;
pub use row_values::{exact_count, line_in, member_in};
