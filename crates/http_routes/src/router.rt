//! The router of the library `matchit` with all routes.
ghost use Rattle.std.specs.Prelude.{◌≡◌, IfOk};
ghost use Rattle.http_routes.specs.RouterRows.{matched_route, router_rows};

use crate::route::Route;
use base_types::NoMemory;
use matchit::{InsertError, Router};
use std::alloc::Global;
use std::marker::Model;

/// All routes, in a router that finds the route of a path. Building it takes some 25 times as long
/// as finding a route, so a server builds it once. All values of this type are alike.
#[derive(Drop)]
pub struct Routes {
    router: Router<Route>,
}

impl Model for Routes {
    ghost use Rattle.std.specs.Prelude.{◌≡◌};
    ghost use Rattle.matchit.specs.Router.{RouteOf};
    ghost use Rattle.matchit.specs.Rows.{RowsOf};
    ghost use Rattle.http_routes.specs.RouterRows.{router_rows};
    ghost use Rattle.http_routes.specs.declared.route.Route.{Route};

    ghost Value = { RowsOf (RouteOf Route) };

    ghost view = { λ routes. routes.router };

    ghost invariant = { λ routes. routes.router ≡ router_rows };
}

/// The router with all routes. Its rows are the paths of the routes, as the library parses them.
#[tactic(auto, unfolding(crate::specs::RouterRows::router_rows))]
fn router(alloc: Global) -> Result<Router<Route>, InsertError>
    ensures { IfOk result (λ router. router ≡ router_rows) }
{
    let mut router = Router::new(alloc);
    router.insert("/books", Route::Books)?;
    router.insert("/books/{book}", Route::Book)?;
    router.insert("/books/{book}/tally", Route::Tally)?;
    router.insert("/books/{book}/sync", Route::Sync)?;
    router.insert("/books/{book}/import", Route::Import)?;
    router.insert("/books/{book}/export", Route::Export)?;
    router.insert("/books/{book}/forget", Route::Forget)?;
    router.insert("/books/{book}/cards/{uid}", Route::Card)?;
    router.insert("/books/{book}/cards/{uid}/move", Route::Move)?;
    router.insert("/books/{book}/cards/{uid}/people", Route::People)?;
    Ok(router)
}

impl Routes {
    /// Builds the router. `NoMemory` if an allocation fails.
    pub fn new(alloc: Global) -> Result<Routes, NoMemory>
        // The router has the row of each route, and no other.
        ensures { IfOk result (λ routes. routes ≡ router_rows) }
    {
        match router(alloc) {
            Ok(router) => Ok(Routes { router }),
            Err(_) => Err(NoMemory),
        }
    }

    /// The route that the router finds for the path.
    pub(crate) fn match_path(&self, path: &str) -> Option<Route>
        ensures { result ≡ matched_route path.now }
    {
        match self.router.at(path) {
            Ok(found) => Some(*found.value),
            Err(_) => None,
        }
    }
}
