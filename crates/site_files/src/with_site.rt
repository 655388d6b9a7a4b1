//! A handler with the files of a site beside it.
ghost use Rattle.std.specs.Prelude.{◌≡◌};

use crate::site::Site;
use base_types::NoMemory;
use http_requests::{Handler, Head, HeadFault};
use httparse::spans::HeaderSpan;
use std::alloc::Global;
use std::marker::Model;

/// A handler of a server that has a site too. The site answers the requests for its files; every
/// other one is handled as without it. In contracts it is the site's files and the handler.
#[derive(Drop)]
pub struct WithSite<H> {
    site: Site,
    handler: H,
}

impl<H> Model for WithSite<H> {
    ghost use Rattle.std.specs.Prelude.{ℕ, List};
    ghost use Rattle.std.specs.Coded.{coded×, coded_list, coded_ℕ};

    ghost Value = { List (List ℕ × List ℕ) × H };

    ghost coded = { coded× (coded_list (coded× (coded_list coded_ℕ) (coded_list coded_ℕ))) H.code };

    ghost view = { λ both. (both.site, both.handler) };
}

impl<H> WithSite<H> {
    /// The handler with this site beside it.
    pub fn new(site: Site, handler: H) -> WithSite<H>
        ensures { result ≡ (site, handler) }
    {
        WithSite { site, handler }
    }
}

impl<H: Handler> Handler for WithSite<H> {
    ghost use Rattle.site_files.specs.SiteHandlers.{with_site};

    ghost does = { with_site H.does };

    ghost fault_reply = { H.fault_reply };

    fn handle(&mut self, alloc: Global, head: &Head, body: &[u8]) -> Result<Vec<u8>, NoMemory> {
        let own = self.site.reply_to(alloc, head)?;
        match own {
            Some(reply) => Ok(reply),
            None => self.handler.handle(alloc, head, body),
        }
    }

    fn screen(&self, method: &[u8], text: &[u8], fields: &[HeaderSpan]) -> Option<HeadFault> {
        self.handler.screen(method, text, fields)
    }

    fn refuse(&self, alloc: Global, fault: HeadFault) -> Result<Vec<u8>, NoMemory> {
        self.handler.refuse(alloc, fault)
    }
}
