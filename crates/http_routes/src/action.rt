//! The actions that requests can ask for.

/// The action of a request: its route and method, without the values of the path and the query.
#[derive(Clone, Copy, Debug, PartialEq, Eq)]
pub enum Action {
    /// `PUT /books/{book}`
    CreateBook,
    /// `GET /books`
    Books,
    /// `GET /books/{book}/cards/{uid}`
    Get,
    /// `PUT /books/{book}/cards/{uid}`, with a card as its body.
    Put,
    /// `DELETE /books/{book}/cards/{uid}`
    Remove,
    /// `POST /books/{book}/cards/{uid}/move`
    MoveCard,
    /// `GET /books/{book}/sync`
    Report,
    /// `POST /books/{book}/import`, with rows of CSV as its body.
    Import,
    /// `POST /books/{book}/forget`
    Forget,
    /// `GET /books/{book}/tally`
    TallyOf,
    /// `GET /books/{book}/export`
    Export,
    /// `GET /books/{book}/cards/{uid}/people`
    People,
}
