//! The files of a site, as a page for the browser has them, and a handler that serves them beside
//! another handler.
#![tactic(auto)]

mod folder;
mod media_type;
mod paths;
mod replies;
mod site;
mod with_site;

pub use folder::{SiteFault, read_site};
pub use site::{AddFault, Site, SiteFile};
pub use with_site::WithSite;
