//! The kinds of operations that a stop interrupts.

use book_service::Command;

/// The operation that a stop interrupts.
#[derive(Clone, Copy)]
pub enum Kind {
    /// The files are opened, and the schema is created.
    CreateSchema,
    /// A command that changes one book.
    OneBook,
    /// A command that changes two books.
    TwoBooks,
    /// An import.
    Import,
    /// A device asks for a page.
    Page,
    /// Tables of the first schema are migrated to the second.
    Migrate,
    /// None: all is done.
    End,
}

/// The kind of the command.
pub fn kind_of(command: &Command) -> Kind {
    match command {
        Command::MoveCard { .. } => Kind::TwoBooks,
        Command::Import { .. } => Kind::Import,
        _ => Kind::OneBook,
    }
}
