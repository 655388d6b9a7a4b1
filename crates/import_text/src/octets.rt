//! `Octets`: octets that are read from the front.
ghost use Rattle.std.specs.Prelude.{◌≡◌, ◌↔◌, [], IsTrue};
ghost use Rattle.import_text.specs.internal.Unread.{octets_left};

use std::io;
use std::io::Read;

/// Octets, and where the next read begins.
#[derive(Drop)]
pub(crate) struct Octets {
    items: Vec<u8>,
    start: usize,
}

impl Octets {
    pub(crate) fn new(items: Vec<u8>) -> Octets
        ensures { octets_left result ≡ items.items }
    {
        Octets { items, start: 0 }
    }

    /// The octets that weren't given yet.
    fn unread(&self) -> &[u8]
        ensures { result.now ≡ octets_left self.now }
    {
        self.items.get(self.start..).unwrap_or(&[])
    }

    /// Whether all octets were given.
    pub(crate) fn is_empty(&self) -> bool
        ensures { IsTrue result ↔ octets_left self.now ≡ [] }
    {
        self.unread().is_empty()
    }
}

impl Read for Octets {
    ghost use Rattle.std.specs.Prelude.{Some};
    ghost use Rattle.import_text.specs.internal.Unread.{octets_left};

    ghost remaining = { λ octets. Some (octets_left octets) };

    fn read(&mut self, buf: &mut [u8]) -> io::Result<usize> {
        let mut unread = self.unread();
        let count = unread.read(buf)?;
        self.start = self.start.saturating_add(count);
        Ok(count)
    }
}
