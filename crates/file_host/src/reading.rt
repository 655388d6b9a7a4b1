//! Reads files of rows, and the folder of a site.
ghost use Rattle.std.specs.Prelude.{◌≡◌, ◌⊎◌, IfErr, IfOk, IfSome, OnErr};
ghost use Rattle.cli_orders.specs.Stops.{out_of_memory};

use base_types::Items;
use cli_orders::{Stop, read_rows_of};
use site_files::{Site, SiteFault, read_site};
use std::alloc::Global;
use std::io;
use std::io::{Read, Write};
use std::rt::HostRuntime;

/// All octets of a file of rows that was opened, or that couldn't be.
pub(crate) fn rows_from<R: Read + Drop>(
    alloc: Global,
    opened: io::Result<R>,
) -> Result<Items<u8>, Stop>
    ensures whole { IfOk opened (λ reader. IfOk result (λ rows.
        IfSome (R.remaining reader) (λ octets. rows ≡ octets))) }
    ensures unopened { OnErr opened (result ≡ Err Stop.Device) }
    ensures stop { IfErr result (λ stop. (stop ≡ out_of_memory) ⊎ (stop ≡ Stop.Device)) }
{
    let Ok(mut reader) = opened else {
        return Err(Stop::Device);
    };
    let rows = read_rows_of(alloc, &mut reader)?;
    Ok(Items::from_vec(rows))
}

/// The stop for a folder whose files can't be served, after why was said on standard error.
fn stop_of_site(rt: &HostRuntime, fault: SiteFault) -> Stop
    ensures { (result ≡ out_of_memory) ⊎ (result ≡ Stop.Device) }
{
    match fault {
        SiteFault::Unusable(words) => {
            let _said = rt.stderr().write(words.as_str().as_bytes());
            let _ended = rt.stderr().write(b"\n");
            Stop::Device
        }
        SiteFault::Memory => Stop::out_of_memory(),
    }
}

/// Reads the files of a folder. If it can't be used, it says why in words on standard error.
pub(crate) fn site_from(rt: &HostRuntime, dir: &str) -> Result<Site, Stop>
    ensures { IfErr result (λ stop. (stop ≡ out_of_memory) ⊎ (stop ≡ Stop.Device)) }
{
    match read_site(rt, dir) {
        Ok(site) => Ok(site),
        Err(fault) => Err(stop_of_site(rt, fault)),
    }
}
