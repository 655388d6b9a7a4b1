//! A device that applies pages.

use crate::printout::Printout;
use crate::scripts::format_device;
use page_json::read_report;
use sync_core::Device;

/// The device applies the page of the text, or drops its token if the text is no page.
fn apply_text(text: &str, device: &mut Device, out: &mut Printout) {
    match read_report(out.alloc(), text.as_bytes()) {
        Ok(page) => out.supply.note(device.apply(&page)),
        Err(_) => device.restart(),
    }
}

/// Prints the device's state after each page.
fn apply_pages(pages: &str, device: &mut Device, out: &mut Printout) {
    for text in pages.split('|') {
        apply_text(text, device, out);
        format_device(device, out);
        out.add("\n");
    }
}

/// `device TEXT|TEXT|..`: the state of a new device after each page, one a line. A text that is no
/// page makes the device drop its token.
pub(crate) fn run_device(pages: &str, out: &mut Printout) {
    let device = Device::new(out.alloc(), "staff");
    if let Some(mut device) = out.supply.keep(device) {
        apply_pages(pages, &mut device, out);
    }
}
