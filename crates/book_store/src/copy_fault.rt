//! The error of a copy that leaves out some books.

use book_model::{Denied, Fault, Refusal};
use store_schema::OpenFault;

/// Why no copy was made.
#[derive(Clone, Copy)]
pub enum CopyFault {
    /// It was refused.
    Refused(Refusal),
    /// One of the files isn't a store, or can't be one, or the copy failed.
    Open(OpenFault),
}

impl From<OpenFault> for CopyFault {
    ghost use Rattle.std.specs.Prelude.{◌≡◌};
    ghost use Rattle.book_store.specs.declared.copy_fault.CopyFault.TheVariants.{Open};

    ghost from_gives = { λ fault copy_fault. copy_fault ≡ Open fault };

    fn from(fault: OpenFault) -> CopyFault {
        CopyFault::Open(fault)
    }
}

/// The fault of a copy over a call of its store that failed.
pub(crate) fn fault_of(denied: Denied) -> CopyFault {
    match denied {
        Denied::Refused(refusal) => CopyFault::Refused(refusal),
        Denied::Fault(Fault::Store) => CopyFault::Open(OpenFault::Store),
        Denied::Fault(Fault::Memory) => CopyFault::Open(OpenFault::Memory),
    }
}
