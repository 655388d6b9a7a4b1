//! Laws of whole tables, as they are read when a store is opened or created. Each law is stated in
//! `specs/OpenLaws.antt`.
ghost use Rattle.store_rows.specs.OpenLaws.{ListedRowsAreHeld, NewTablesAreEmpty};

/// Where the tables are declared, as those of an open connection, they hold exactly these rows if
/// the queries over whole tables return the schema number and the result rows of these rows, in any
/// order.
pub fn listed_rows_are_table_rows()
    ensures { ListedRowsAreHeld }
{}

/// Declared tables that have the schema number and are otherwise empty hold no rows.
pub fn new_tables_are_empty()
    ensures { NewTablesAreEmpty }
{}
