//! Maps a route and a method to an action.
ghost use Rattle.std.specs.Prelude.{◌≡◌, [], ◌∷◌};
ghost use Rattle.http_routes.specs.Actions as actions;
ghost use Rattle.http_routes.specs.declared.route.Route.TheVariants.{Card};

use crate::action::Action;
use crate::route::Route;

/// The action of a route with a single method.
fn only(own: &str, action: Action, method: &str) -> Option<Action>
    ensures { result ≡ actions.action_named method.now ((own.now, action) ∷ []) }
{
    if own == method { Some(action) } else { None }
}

/// The action of a method on a card.
fn card_action(method: &str) -> Option<Action>
    ensures { result ≡ actions.action_named method.now (actions.actions_of Card) }
{
    if "GET" == method {
        Some(Action::Get)
    } else if "PUT" == method {
        Some(Action::Put)
    } else {
        only("DELETE", Action::Remove, method)
    }
}

/// The action of the method on the route, or `None` if the route doesn't have the method.
#[tactic(auto, unfolding(crate::specs::Actions::action_of))]
pub(crate) fn action_of(route: Route, method: &str) -> Option<Action>
    ensures { result ≡ actions.action_of route method.now }
{
    match route {
        Route::Books => only("GET", Action::Books, method),
        Route::Book => only("PUT", Action::CreateBook, method),
        Route::Tally => only("GET", Action::TallyOf, method),
        Route::Sync => only("GET", Action::Report, method),
        Route::Import => only("POST", Action::Import, method),
        Route::Export => only("GET", Action::Export, method),
        Route::Forget => only("POST", Action::Forget, method),
        Route::Card => card_action(method),
        Route::Move => only("POST", Action::MoveCard, method),
        Route::People => only("GET", Action::People, method),
    }
}
