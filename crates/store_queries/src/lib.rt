//! The read calls of a book store, over a connection.
#![tactic(auto)]

pub mod book_queries;
pub mod list_queries;
mod live_rows;
pub mod report_queries;
pub mod row_lists;
