//! Laws: what the tests of single rows prove about the books.
ghost use Rattle.store_check.specs.BookChecks.{CheckedAreWellFormed};
ghost use Rattle.store_check.specs.FaultSearches.{FaultyAreNotStored};
ghost use Rattle.store_check.specs.ListedRows.{WellStoredAreHeld};

/// Sound rows represent well-formed books exactly if they pass the tests made row by row
/// (`specs/BookChecks.antt`).
pub fn checked_rows_are_well_formed()
    ensures { CheckedAreWellFormed }
{}

/// Tables of this schema hold well-formed books exactly if they obey it and the listed rows, in any
/// order, are well stored (`specs/ListedRows.antt`).
pub fn well_stored_rows_are_held()
    ensures { WellStoredAreHeld }
{}

/// Rows of which one has a fault are not well stored (`specs/RowFaults.antt`).
pub fn faulty_rows_are_not_well_stored()
    ensures { FaultyAreNotStored }
{}
