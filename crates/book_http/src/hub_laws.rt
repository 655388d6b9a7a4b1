//! Laws of any number of connections to the service. Each law is a function that does nothing.
//!
//! A hub begins without connections. Its operations open a connection, feed a piece of octets to
//! one, send octets to one, or end one; they may come in any order. A request is handled when its
//! last octet is fed, but not if its head has a fault or the guard refuses it. If memory runs out
//! within a piece, some requests of the piece are handled, from the first on.
//!
//! Each connection is sent the replies to its own requests: what is sent to it, followed by what is
//! pending, is these replies in order, and after them that to a connection that holds too much, if
//! it was closed for that. Its last replies are lost only if memory ran out within a piece of its
//! own, or if it was closed for that.
//!
//! Each law of a hub assumes that the store matches the state before, and that its premise holds
//! afterwards.
//!
//! A run of the service is a list of commands from a state of the books, each with its reply and
//! the state after it: those of the command's call, or a fault, which changes nothing. A request is
//! one command of the run; or none, if no command is read from it, and then its reply says why. A
//! store matches a state if it has the state's limits, and the rows of its histories.
//!
//! A guard refuses a request without a Host or with one that doesn't name the server, and one that
//! may change a book if a page of another site sends it or if it has a precondition (`guard`). A
//! request is for a file of the site by its target; the site's reply is the file, or 405 if the
//! method isn't GET (`site_reply`).
ghost use Rattle.book_http.specs.OctetPromise.{ServiceStep};
ghost use Rattle.book_http.specs.ServedFronts.{FrontedSiteStep, FrontedSitesAreOneRun};
ghost use Rattle.book_http.specs.ServedFronts.{FrontedStep, ServedFrontsAreOneRun};
ghost use Rattle.book_http.specs.ServedHubs.{HubsAreOneRun, behind_guard};
ghost use Rattle.book_http.specs.ServedSites.{ServedSitesAreOneRun, ServerStep};
ghost use Rattle.http_requests.specs.GuardedHandlers.{guarded};
ghost use Rattle.http_requests.specs.HandlerRuns.{KeepsScreens};

use http_fronts::Front;
use sync_core::BookStore;

/// A hub of connections serves a service. All requests that are handled are one run of the service,
/// in the order of the pieces that complete them, with their replies. Each connection is sent the
/// replies to its own requests, in order (`specs/ServedHubs.antt`).
pub fn hubs_are_one_run<S: BookStore>()
    ensures { HubsAreOneRun S.model (ServiceStep S.model) }
{}

/// A hub of connections serves a service behind a guard. All requests that are handled, none of
/// which the guard refuses, are one run of the service, in the order of the pieces that complete
/// them, with their replies. So one that the guard refuses changes no book. Each connection is sent
/// the replies to its own requests, in order (`specs/ServedHubs.antt`).
pub fn guarded_hubs_are_one_run<S: BookStore>()
    ensures { HubsAreOneRun (behind_guard S.model) (guarded (ServiceStep S.model)) }
{}

/// A hub of connections serves a service behind a guard, with the files of a site beside it. Of the
/// requests that are handled, none of which the guard refuses, each for a file of the site gets the
/// site's reply. The others are one run of the service, in the order of the pieces that complete
/// them, with their replies. So neither a request for a file nor one that the guard refuses changes
/// a book. Each connection is sent the replies to its own requests, in order
/// (`specs/ServedSites.antt`).
pub fn served_sites_are_one_run<S: BookStore>()
    ensures { ServedSitesAreOneRun S.model }
{}

/// A hub of connections serves a service behind a guard, with any front before it. Of the requests
/// that are handled, none of which the guard refuses, each of the front's own gets a reply that the
/// front may give. The others are one run of the service, in the order of the pieces that complete
/// them, with their replies. So neither a request of the front's nor one that the guard refuses
/// changes a book. Each connection is sent the replies to its own requests, in order
/// (`specs/ServedFronts.antt`).
pub fn served_fronts_are_one_run<S: BookStore, F: Front>()
    ensures { ServedFrontsAreOneRun S.model F.answers }
{}

/// A hub of connections serves a service behind a guard, with any front before it and the files of
/// a site beside it. Of the requests that are handled, none of which the guard refuses, each of the
/// front's own gets a reply that the front may give; of the rest, each for a file of the site gets
/// the site's reply. The others are one run of the service, in the order of the pieces that
/// complete them, with their replies. So only these change books. Each connection is sent the
/// replies to its own requests, in order (`specs/ServedFronts.antt`).
pub fn fronted_sites_are_one_run<S: BookStore, F: Front>()
    ensures { FrontedSitesAreOneRun S.model F.answers }
{}

/// No step of the service behind a guard changes which heads are refused, with the files of a site
/// beside it or without. That is the premise of the laws on the runs of hubs and servers.
pub fn servers_keep_screens<S: BookStore>()
    ensures guarded { KeepsScreens (guarded (ServiceStep S.model)) }
    ensures beside_site { KeepsScreens (ServerStep S.model) }
{}

/// No step of the service behind a guard and any front changes which heads are refused, with the
/// files of a site beside it or without. That is the premise of the laws on the runs of hubs and
/// servers.
pub fn fronted_servers_keep_screens<S: BookStore, F: Front>()
    ensures guarded { KeepsScreens (FrontedStep S.model F.answers) }
    ensures beside_site { KeepsScreens (FrontedSiteStep S.model F.answers) }
{}
