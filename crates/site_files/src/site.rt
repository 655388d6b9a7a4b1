//! The files of a site.
ghost use Rattle.std.specs.Prelude.{◌≡◌, ◌<◌, ◌+◌, [], ◌∷◌, ◌++◌, Err, IfOk, OnErr, OnOk, length};
ghost use Rattle.std.specs.Prelude.{option_copied, option_map};
ghost use Rattle.site_files.specs.SiteReplies.{site_reply};
ghost use Rattle.site_files.specs.Sites.{file_named, has_name, most_octets, octets_of};
ghost use Rattle.site_files.specs.declared.site.AddFault.TheVariants.{TooLarge};

use crate::paths::{is_for_books, name_at, path_of};
use crate::replies::file_reply;
use base_types::{Items, NoMemory, Text};
use http_requests::Head;
use std::alloc::Global;
use std::marker::Model;

/// The most octets of all files of a site together: 16 MiB.
pub(crate) const OCTETS_MAX: usize = 16_777_216;

/// A file of a site: its name, which is its path from the site's folder on and begins with a slash,
/// and its octets.
pub type SiteFile = (Text, Items<u8>);

/// Why a file can't be added to a site.
#[derive(Clone, Copy, Debug, PartialEq, Eq)]
pub enum AddFault {
    /// The files would have more than 16,777,216 octets together.
    TooLarge,
    /// Out of memory.
    Memory,
}

/// The files of a site, which have at most 16,777,216 octets together. In contracts it is the list
/// of their names and octets.
#[derive(Drop)]
pub struct Site {
    files: Vec<SiteFile>,
    /// The octets of all files.
    held: usize,
}

impl Model for Site {
    ghost use Rattle.std.specs.Prelude.{◌≡◌, ◌≤◌, ℕ, List};
    ghost use Rattle.site_files.specs.Sites.{most_octets, octets_of};

    ghost Value = { List (List ℕ × List ℕ) };

    ghost view = { λ site. site.files.items };

    ghost invariant = { λ site.
        (octets_of site.files.items ≡ site.held) × (site.held ≤ most_octets) };
}

/// Whether the file has exactly this name.
fn has_name(file: &SiteFile, name: &str) -> bool
    ensures { result ≡ has_name name.now file.now }
{
    file.0.as_str() == name
}

/// The first file with exactly this name.
fn file_named<'a>(files: &'a [SiteFile], name: &str) -> Option<&'a SiteFile>
    ensures { option_copied result ≡ file_named name.now files.now }
{
    files.iter().find(|file| has_name(file, name))
}

impl Site {
    /// A site without files. Allocates nothing.
    pub fn new(alloc: Global) -> Site
        ensures { result ≡ [] }
    {
        Site {
            files: Vec::new(alloc),
            held: 0,
        }
    }

    /// The number of octets that the files may still have, of 16,777,216 for all.
    pub fn room(&self) -> usize
        ensures { octets_of self.now + result ≡ most_octets }
    {
        OCTETS_MAX - self.held
    }

    /// Adds a file. `TooLarge` if the files would have more than 16,777,216 octets together, and
    /// `Memory` if an allocation fails. The site is unchanged then.
    pub fn add(&mut self, name: Text, octets: Items<u8>) -> Result<(), AddFault>
        ensures added { OnOk result (self.new ≡ self.old ++ (name, octets) ∷ []) }
        ensures kept { OnErr result (self.new ≡ self.old) }
        ensures too_large { result ≡ Err TooLarge
            → most_octets < octets_of self.old + length octets }
    {
        let more = octets.len();
        if more > OCTETS_MAX - self.held {
            return Err(AddFault::TooLarge);
        }
        match self.files.push((name, octets)) {
            Ok(()) => {
                self.held += more;
                Ok(())
            }
            Err(_) => Err(AddFault::Memory),
        }
    }

    /// The whole reply to a request for a file of the site, or `None` if the request isn't for one.
    /// No request whose path is `/books` or begins with `/books/` is. `NoMemory` if an allocation
    /// fails.
    pub fn reply_to(&self, alloc: Global, head: &Head) -> Result<Option<Vec<u8>>, NoMemory>
        ensures { IfOk result (λ reply.
            option_map (λ octets. octets.items) reply ≡ site_reply self.now head.now) }
    {
        let path = path_of(head.target.as_str());
        if is_for_books(path) {
            return Ok(None);
        }
        let name = name_at(alloc, path)?;
        match file_named(self.files.as_slice(), name.as_str()) {
            Some(file) => {
                let reply = file_reply(alloc, head.method.as_str(), file, head.close)?;
                Ok(Some(reply))
            }
            None => Ok(None),
        }
    }
}
