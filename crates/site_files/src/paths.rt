//! The path of a request's target, and the name of the file at it.
ghost use Rattle.std.specs.Prelude.{◌≡◌, IfOk, string_bytes};
ghost use Rattle.site_files.specs.Sites.{is_for_books, name_at, path_of};

use base_types::NoMemory;
use std::alloc::Global;

/// The target up to the first question mark. Nothing is decoded.
pub(crate) fn path_of(target: &str) -> &str
    ensures { result.now ≡ path_of target.now }
{
    match target.split_once('?') {
        Some((path, _)) => path,
        None => target,
    }
}

/// Whether the path is that of the books, or is below it.
pub(crate) fn is_for_books(path: &str) -> bool
    ensures { result ≡ is_for_books path.now }
{
    path == "/books" || path.as_bytes().starts_with(b"/books/")
}

/// The name of the file at the path. At the path of a folder, with a slash, it is its `index.html`.
pub(crate) fn name_at(alloc: Global, path: &str) -> Result<String, NoMemory>
    ensures { IfOk result (λ name. string_bytes name ≡ name_at path.now) }
{
    let mut name = String::from_str(alloc, path)?;
    if path.as_bytes().ends_with(b"/") {
        name.push_str("index.html")?;
    }
    Ok(name)
}
