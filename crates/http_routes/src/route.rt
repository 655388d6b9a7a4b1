//! The table of routes.
ghost use Rattle.std.specs.Prelude.{◌≡◌, map};
ghost use Rattle.http_routes.specs.Paths.{parts_of};
ghost use Rattle.http_routes.specs.Routes.{allow_of, path_of};

/// A route: a form of paths, with its methods.
#[derive(Clone, Copy, Debug, PartialEq, Eq)]
pub enum Route {
    /// All books.
    Books,
    /// One book, for its creation.
    Book,
    /// The counts of a book.
    Tally,
    /// What changed in a book since a token (RFC 6578, section 3.2).
    Sync,
    /// The import of CSV rows into a book.
    Import,
    /// A book's cards as rows of CSV.
    Export,
    /// Dropping the tombstones of a book, up to a number.
    Forget,
    /// The card of a UID in a book.
    Card,
    /// Moving a card to another book.
    Move,
    /// The people that a group reaches.
    People,
}

impl Route {
    /// The form of the paths: each name in braces matches one part that isn't empty.
    pub fn path(self) -> &'static str
        ensures { result.now ≡ path_of self }
    {
        match self {
            Route::Books => "/books",
            Route::Book => "/books/{book}",
            Route::Tally => "/books/{book}/tally",
            Route::Sync => "/books/{book}/sync",
            Route::Import => "/books/{book}/import",
            Route::Export => "/books/{book}/export",
            Route::Forget => "/books/{book}/forget",
            Route::Card => "/books/{book}/cards/{uid}",
            Route::Move => "/books/{book}/cards/{uid}/move",
            Route::People => "/books/{book}/cards/{uid}/people",
        }
    }

    /// The parts of `path` between its slashes, so that no request has to split it.
    pub(crate) fn parts(self) -> &'static [&'static str]
        ensures { map (λ part. part.now) result.now ≡ parts_of (path_of self) }
    {
        match self {
            Route::Books => &["", "books"],
            Route::Book => &["", "books", "{book}"],
            Route::Tally => &["", "books", "{book}", "tally"],
            Route::Sync => &["", "books", "{book}", "sync"],
            Route::Import => &["", "books", "{book}", "import"],
            Route::Export => &["", "books", "{book}", "export"],
            Route::Forget => &["", "books", "{book}", "forget"],
            Route::Card => &["", "books", "{book}", "cards", "{uid}"],
            Route::Move => &["", "books", "{book}", "cards", "{uid}", "move"],
            Route::People => &["", "books", "{book}", "cards", "{uid}", "people"],
        }
    }

    /// The methods of the route, as the value of an Allow field (RFC 9110, section 10.2.1).
    pub fn allow(self) -> &'static str
        ensures { result.now ≡ allow_of self }
    {
        match self {
            Route::Books => "GET",
            Route::Book => "PUT",
            Route::Tally => "GET",
            Route::Sync => "GET",
            Route::Import => "POST",
            Route::Export => "GET",
            Route::Forget => "POST",
            Route::Card => "GET, PUT, DELETE",
            Route::Move => "POST",
            Route::People => "GET",
        }
    }
}
