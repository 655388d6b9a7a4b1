//! Rows that are not good, and why.

/// A row of the tables that is not good.
#[derive(Debug, Drop)]
pub struct FaultyRow {
    /// The row's id in its table.
    pub row: i64,
    /// The name of the book, or of the book that the row belongs to, as stored. Empty if the column
    /// has no text, or no book has the id.
    pub book: Vec<u8>,
    /// A member's UID or an import's key, as stored. Empty for a book and a keep, and if the column
    /// has no text.
    pub key: Vec<u8>,
    /// The table, and what is wrong with the row.
    pub fault: RowFault,
}

/// The table of a row that is not good, and what is wrong with it.
#[derive(Clone, Copy, Debug, PartialEq, Eq)]
pub enum RowFault {
    /// A row of `book`.
    Book(BookFault),
    /// A row of `member`: a card or a tombstone.
    Member(MemberFault),
    /// A row of `import_key`.
    Import(ImportFault),
    /// A row of `keeping`.
    Keep(KeepFault),
}

/// What is wrong with the row of a book.
#[derive(Clone, Copy, Debug, PartialEq, Eq)]
pub enum BookFault {
    /// The name is no text, or another column has no integer or a negative one.
    Columns,
    /// There are more books than the limit. The row is one of them.
    TooMany,
    /// The id is not from 1 to the number of books.
    Id,
    /// The name is not a legal name of a book.
    Name,
    /// The counts of changes don't add up to the book's number, the number is above the limit, or
    /// the horizon is above the number.
    Numbers,
    /// The book has no keep of at least 1, or it has more tombstones than its keep.
    Keep,
    /// The live members are not as many as were added minus those that left.
    Cards,
}

/// What is wrong with the row of a member.
#[derive(Clone, Copy, Debug, PartialEq, Eq)]
pub enum MemberFault {
    /// The UID is no text, the card is neither a text nor null, or another column has no integer,
    /// or the number of the change is negative.
    Columns,
    /// No book has the id.
    NoBook,
    /// The number of the change is not from 1 to the book's number.
    Number,
    /// The text of the card is not the canonical text of a card.
    Card,
    /// The UID is not legal, or the card has another one.
    Uid,
    /// A tombstone is not above the book's horizon.
    Tombstone,
}

/// What is wrong with the row of an import.
#[derive(Clone, Copy, Debug, PartialEq, Eq)]
pub enum ImportFault {
    /// The key is no text, or another column has no integer, or one of the four numbers of the
    /// result is negative.
    Columns,
    /// No book has the id.
    NoBook,
    /// The key is not legal.
    Key,
    /// The number is above the book's.
    Number,
}

/// What is wrong with the row of a keep.
#[derive(Clone, Copy, Debug, PartialEq, Eq)]
pub enum KeepFault {
    /// A column has no integer, or the keep is negative.
    Columns,
    /// No book has the id.
    NoBook,
}
