//! A sink that writes a file for each picture or sound that a card is carried without.

use crate::create::write_new;
use crate::file_system::FileSystem;
use crate::names::media_path;
use base_types::Text;
use card_conversion::{MediaDelivery, MediaOwner, MediaSink, SinkFault};
use std::alloc::Global;

/// Writes files into a folder, if one is given.
#[derive(Drop)]
pub(crate) struct MediaFiles<'a, F> {
    pub(crate) files: &'a F,
    pub(crate) folder: Option<&'a str>,
}

impl<'a, F: FileSystem> MediaSink for MediaFiles<'a, F> {
    ghost use Rattle.std.specs.Prelude.{◌≡◌};

    ghost takes = { λ _ _ before after. after ≡ before };

    fn is_open(&self) -> bool {
        self.folder.is_some()
    }

    fn put(
        &mut self,
        alloc: Global,
        owner: MediaOwner<'_>,
        octets: &[u8],
    ) -> Result<MediaDelivery, SinkFault> {
        let Some(folder) = self.folder else {
            return Ok(MediaDelivery::Refused(Text::copy_of(alloc, "no folder is given")?));
        };
        let path = media_path(alloc, folder, owner, octets)?;
        if write_new(alloc, self.files, path.as_str(), octets)? {
            return Ok(MediaDelivery::Written(path));
        }
        let name = path.as_str();
        let words = format!(in alloc; "the file {name} exists")?;
        Ok(MediaDelivery::Refused(Text::new(words)))
    }
}
