//! The routes of some example paths. Each law is a function that does nothing.
ghost use Rattle.http_routes.specs.WorkedPaths.{WorkedPaths};

/// Seven example paths: the route of each, or that it has none. Among them are paths with an empty
/// part, and one with an escaped slash (`specs/WorkedPaths.antt`).
pub fn worked_paths_are_routes()
    ensures { WorkedPaths }
{}
