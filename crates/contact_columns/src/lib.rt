//! Which property a column of an export of contacts (CSV, RFC 4180) has, where its rows end, and
//! the texts of its cells.
#![tactic(auto)]

mod above;
mod cell;
mod columns;
mod components;
mod date_scan;
mod dates;
mod doubts;
mod fields;
mod folded;
mod google;
mod header;
mod headerless;
mod joined_names;
mod known_names;
mod mapping;
mod meaning;
mod numbered_names;
mod outlook;
mod programs;
mod recognized;
mod row_ends;
mod row_scan;
mod row_text;
mod signs;
mod slots;
mod suggestion;
mod targets;
mod thunderbird;
mod wish_faults;
mod wishes;

pub use above::AboveLine;
pub use cell::{cell_text, is_void};
pub use columns::{Column, ContactColumns, read_columns};
pub use components::component_of;
pub use date_scan::read_date_order;
pub use dates::{DateOrder, basic_date};
pub use fields::row_field;
pub use header::{Header, find_header, unknown_columns};
pub use headerless::made_header;
pub use mapping::mapped_columns;
pub use meaning::{Part, component_count};
pub use row_ends::{end_rows, rows_end_with_returns};
pub use row_scan::{RowEnd, row_end};
pub use row_text::{BROKEN_ROW, LONG_ROW, RowText};
pub use slots::{Slot, SlotColumn};
pub use suggestion::suggested_columns;
pub use wish_faults::wish_fault;
pub use wishes::{are_numbers, has_row_form, left_out_columns};
