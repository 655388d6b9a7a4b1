//! Tests a stop at each call of a disk: a list of commands is performed over tables on disks in
//! memory, one of which fails at its n-th call and at each later one, for each n until none fails.
//! The disks are opened again, and must have the books before the stopped command or those after
//! it.

mod checking;
mod disks;
mod migrations;
mod run;
mod sweep;
mod sweeps;

pub(crate) use sweeps::run_sweeps;
