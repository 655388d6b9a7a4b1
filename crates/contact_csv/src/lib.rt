//! Converts the contacts that Google and Outlook export as CSV (RFC 4180) to cards of vCard 4.0
//! (RFC 6350), with a report of the cells that no property of the card holds as they are.
#![tactic(auto)]

mod carried;
mod conversion;
mod fault;
mod keeping;
mod owners;
mod row_fault;
mod rows;
mod uid;

pub use contact_columns::{
    AboveLine, Column, ContactColumns, DateOrder, Header, find_header, read_columns,
    read_date_order,
};
pub use conversion::convert_row;
pub use fault::ContactFault;
pub use row_fault::RowFault;
pub use rows::ContactReader;
