//! The limits of a store.
ghost use Rattle.std.specs.Prelude.{◌≡◌, ◌≤◌, ◌↔◌, IfSome, IsSome};
ghost use Rattle.book_model.specs.Bounds.{bounds_of, standard_limits, with_keep, IsInRange};

use std::marker::Model;

/// The most entries of a page, live cards of a book, changes of a book, books of a store, and
/// tombstones of a new book.
#[derive(Clone, Copy, Debug, PartialEq, Eq)]
pub struct Limits {
    page_max: u64,
    cards_max: u64,
    changes_max: u64,
    books_max: u64,
    keep: u64,
}

impl Model for Limits {
    ghost use Rattle.book_model.specs.Bounds.{Bounds, IsInRange};

    ghost Value = { Bounds };

    ghost view = { λ l. record {
      page_max = l.page_max;
      cards_max = l.cards_max;
      changes_max = l.changes_max;
      books_max = l.books_max;
      keep = l.keep;
    } };

    ghost inverse = { λ b. record {
      page_max = b.page_max;
      cards_max = b.cards_max;
      changes_max = b.changes_max;
      books_max = b.books_max;
      keep = b.keep;
    } };

    ghost invariant = { λ l. IsInRange (record {
      page_max = l.page_max;
      cards_max = l.cards_max;
      changes_max = l.changes_max;
      books_max = l.books_max;
      keep = l.keep;
    }) };
}

impl Limits {
    /// These limits, and at most 10,000 tombstones of a new book. `None` unless each limit is at
    /// least 1, a page has at most 1,000 entries, a book at most 10,000 live cards and
    /// 1,000,000,000,000 changes, and the store at most 100 books. It allocates nothing.
    pub fn new(page_max: u64, cards_max: u64, changes_max: u64, books_max: u64) -> Option<Limits>
        ensures some { IfSome result (λ limits. limits ≡ bounds_of page_max cards_max changes_max
            books_max) }
        ensures range { IsSome result ↔ IsInRange (bounds_of page_max cards_max changes_max
            books_max) }
    {
        let pages = matches!(page_max, 1..=1_000);
        let cards = matches!(cards_max, 1..=10_000);
        let changes = matches!(changes_max, 1..=1_000_000_000_000);
        let books = matches!(books_max, 1..=100);
        if !(pages && cards && changes && books) {
            return None;
        }
        Some(Limits {
            page_max,
            cards_max,
            changes_max,
            books_max,
            keep: 10_000,
        })
    }

    /// These limits, but with another `keep`: the most tombstones of a book that is created from
    /// now on. `None` unless it is from 1 to 10,000. It allocates nothing.
    pub fn with_keep(self, keep: u64) -> Option<Limits>
        ensures some { IfSome result (λ limits. limits ≡ with_keep self keep) }
        ensures range { IsSome result ↔ ((1 ≤ keep) × (keep ≤ 10000)) }
    {
        if !matches!(keep, 1..=10_000) {
            return None;
        }
        Some(Limits { keep, ..self })
    }

    /// 100 entries of a page, 10,000 live cards and 1,000,000,000,000 changes of a book, 100 books,
    /// and 10,000 tombstones of a book.
    pub fn standard() -> Limits
        ensures { result ≡ standard_limits }
    {
        Limits {
            page_max: 100,
            cards_max: 10_000,
            changes_max: 1_000_000_000_000,
            books_max: 100,
            keep: 10_000,
        }
    }

    /// The most entries of one page, from 1 to 1,000.
    pub fn page_max(&self) -> u64
        ensures value { result ≡ self.now.page_max }
        ensures least { 1 ≤ result }
        ensures most { result ≤ 1000 }
    {
        self.page_max
    }

    /// The most live cards of one book, from 1 to 10,000.
    pub fn cards_max(&self) -> u64
        ensures value { result ≡ self.now.cards_max }
        ensures least { 1 ≤ result }
        ensures most { result ≤ 10000 }
    {
        self.cards_max
    }

    /// The most changes of one book, from 1 to 1,000,000,000,000.
    pub fn changes_max(&self) -> u64
        ensures value { result ≡ self.now.changes_max }
        ensures least { 1 ≤ result }
        ensures most { result ≤ 1000000000000 }
    {
        self.changes_max
    }

    /// The most books of the store, from 1 to 100.
    pub fn books_max(&self) -> u64
        ensures value { result ≡ self.now.books_max }
        ensures least { 1 ≤ result }
        ensures most { result ≤ 100 }
    {
        self.books_max
    }

    /// The most tombstones of a new book, from 1 to 10,000.
    pub fn keep(&self) -> u64
        ensures value { result ≡ self.now.keep }
        ensures least { 1 ≤ result }
        ensures most { result ≤ 10000 }
    {
        self.keep
    }
}
