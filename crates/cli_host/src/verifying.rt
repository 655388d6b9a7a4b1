//! Verifies a file.
ghost use Rattle.std.specs.Prelude.{IfErr, OnOk};
ghost use Rattle.cli_host.specs.Hosts.{LogsCalls};
ghost use Rattle.cli_host.specs.OrdersOnHost.{StopsVerifying, VerifiesFile};
ghost use Rattle.cli_orders.specs.Outputs.{Flushes};

use crate::host::Host;
use crate::listing::{Listing, run_listing};
use crate::progress::open_watched;
use base_types::Text;
use book_resync::AdminStore;
use cli_orders::{Output, Stop, report_damage};
use std::alloc::Global;
use store_schema::OpenFault;

/// Opens the store in the file, which tests all its rows, and lists its books and their number. If
/// the file is damaged, it prints which row is at fault, and why.
pub(crate) fn run_verify<S: AdminStore, P, L, M: Host<S, P, L>, W: Output>(
    alloc: Global,
    host: &mut M,
    file: Text,
    writer: &mut W,
) -> Result<(), Stop>
    ensures done { OnOk result (LogsCalls M.calls host.old host.new
        (VerifiesFile S.model file (W.contents writer.old) (W.contents writer.new))) }
    ensures stopped { IfErr result (λ stop. LogsCalls M.calls host.old host.new
        (StopsVerifying S.model file stop (W.contents writer.old) (W.contents writer.new))) }
    ensures flushed { Flushes W.contents W.flushed writer.old writer.new result }
{
    match open_watched(alloc, host, file.as_str()) {
        Ok(store) => {
            let mut store = store;
            let listed = run_listing(alloc, &mut store, Listing::Verified, writer);
            host.close(store);
            listed
        }
        Err(fault) => match fault {
            OpenFault::Damaged => {
                let found = host.find_fault(file.as_str());
                Err(report_damage(alloc, found, writer))
            }
            _ => Err(Stop::Open(fault)),
        },
    }
}
