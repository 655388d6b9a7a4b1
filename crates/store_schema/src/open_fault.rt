//! The reasons why a store cannot be opened or created.
ghost use Rattle.store_schema.specs.OpenFaults.{IsErrorFault, open_fault_number};
ghost use Rattle.store_schema.specs.OpenFaults.{open_fault_of_error};
ghost use Rattle.std.specs.Prelude.{◌≡◌};

use sqlite::{Error, ErrorCode};

/// Why a store of books cannot be opened or created.
#[derive(Clone, Copy, Debug, PartialEq, Eq)]
pub enum OpenFault {
    /// The database returned an error.
    Store,
    /// The file is not a database, or the tables are not those of a book store.
    NotOurs,
    /// The tables have another schema number.
    OtherSchema {
        /// The schema number in the file.
        has: i64,
    },
    /// The rows are not those of well-formed books.
    Damaged,
    /// The database already has tables, and new ones were to be created.
    NotEmpty,
    /// Out of memory.
    Memory,
}

impl OpenFault {
    /// Returns the number of the fault, 1 to 6.
    pub fn number(&self) -> u8
        ensures { result ≡ open_fault_number self.now }
    {
        match self {
            OpenFault::Store => 1,
            OpenFault::NotOurs => 2,
            OpenFault::OtherSchema { .. } => 3,
            OpenFault::Damaged => 4,
            OpenFault::NotEmpty => 5,
            OpenFault::Memory => 6,
        }
    }
}

/// Converts an error of the database: `Memory` if it is out of memory, otherwise `Store`.
pub fn open_fault_of(error: Error) -> OpenFault
    ensures value { result ≡ open_fault_of_error error }
    ensures kind { IsErrorFault result }
{
    match error {
        Error::SqliteFailure(ErrorCode::OutOfMemory) => OpenFault::Memory,
        _ => OpenFault::Store,
    }
}
