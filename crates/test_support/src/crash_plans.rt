//! The expected run of a list of commands, devices that follow it, and counts of stops: what a run
//! over a disk that fails is compared with.

pub mod books;
pub mod commands;
pub mod counts;
pub mod expected_run;
pub mod followers;
pub mod mismatch;
