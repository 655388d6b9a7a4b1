//! Calls on limits, on pages in JSON and on devices that apply pages.

mod devices;
mod limits;
mod pages;

pub(crate) use devices::run_device;
pub(crate) use limits::run_limits;
pub(crate) use pages::run_page;
