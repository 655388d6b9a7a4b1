//! The order `convert`: reads a file of cards or contacts, and writes rows or files.
#![tactic(auto)]

mod card_files;
mod charset_reader;
mod content;
mod create;
mod exit;
mod file_system;
mod media_files;
mod names;
mod opening;
mod options;
mod row_files;
mod run;
mod several;
mod sources;
mod system;

pub use card_conversion::RowsSink;
pub use contact_columns::DateOrder;
pub use file_system::FileSystem;
pub use options::ConvertOptions;
pub use run::run_convert;
