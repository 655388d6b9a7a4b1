//! Splits a path into parts and finds its route.
ghost use Rattle.std.specs.Prelude.{◌≡◌, [], IfOk, get_or, map};
ghost use Rattle.http_routes.specs.Commands.{decode_part};
ghost use Rattle.http_routes.specs.internal.Results.{MatchesExpected};
ghost use Rattle.http_routes.specs.Paths as paths;

use crate::fault::RouteFault;
use crate::no_command::NoCommand;
use crate::route::Route;
use crate::router::Routes;
use base_types::Text;
use percent_encoding::{DecodeError, percent_decode};
use std::alloc::{AllocError, Global};

/// The parts between the slashes, not decoded.
pub(crate) fn parts_of(alloc: Global, path: &str) -> Result<Vec<&str>, AllocError>
    ensures { IfOk result (λ parts.
        map (λ part. part.now) parts.items ≡ paths.parts_of path.now) }
{
    path.split('/').collect(alloc)
}

/// The part at the index, or the empty text if there are fewer parts.
pub(crate) fn part_at<'a>(parts: &[&'a str], place: usize) -> &'a str
    ensures { result.now ≡ get_or (map (λ part. part.now) parts.now) place [] }
{
    match parts.get(place) {
        Some(part) => part,
        None => "",
    }
}

/// Whether a part of a path matches a part of a route: a name in braces matches any part that isn't
/// empty.
fn fits_part(own: &str, part: &str) -> bool
    ensures { result ≡ paths.fits_part own.now part.now }
{
    match own.as_bytes().split_first() {
        Some((b'{', _)) => !part.is_empty(),
        _ => own == part,
    }
}

/// Whether the parts match those of a route, one for one.
fn fits_parts(own: &[&str], parts: &[&str]) -> bool
    ensures { result ≡ paths.fits_parts (map (λ part. part.now) own.now)
        (map (λ part. part.now) parts.now) }
{
    let Some((name, others)) = own.split_first() else {
        return parts.is_empty();
    };
    let Some((part, rest)) = parts.split_first() else {
        return false;
    };
    fits_part(name, part) && fits_parts(others, rest)
}

/// The route of the path. The parts are those of the path. The router finds each path of a route,
/// and the comparison refuses a path of any other form that it might find.
pub(crate) fn route_of(routes: &Routes, path: &str, parts: &[&str]) -> Option<Route>
    ensures { map (λ part. part.now) parts.now ≡ paths.parts_of path.now →
        result ≡ paths.route_of path.now }
{
    let found = routes.match_path(path);
    let Some(route) = found else {
        return None;
    };
    let fits = fits_parts(route.parts(), parts);
    if fits { Some(route) } else { None }
}

/// The percent-decoded text of a part (RFC 3986, section 2.1). `BadPath` if it isn't UTF-8.
pub(crate) fn decode_part(alloc: Global, part: &str) -> Result<Text, NoCommand>
    ensures { MatchesExpected (decode_part part.now) result }
{
    match percent_decode(part.as_bytes()).decode_utf8(alloc) {
        Ok(text) => Ok(Text::new(text.into_owned(alloc)?)),
        Err(DecodeError::OutOfMemory) => Err(NoCommand::Memory),
        Err(DecodeError::Utf8(_)) => Err(NoCommand::Fault(RouteFault::BadPath)),
    }
}
