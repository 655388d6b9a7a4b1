//! Converts the front of a body.
ghost use Rattle.std.specs.Prelude.{IfOk, IfSome};
ghost use Rattle.convert_posts.specs.Parts.{IsPart};

use crate::asked::Asked;
use crate::card_part::cards_part;
use crate::contact_part::contacts_part;
use crate::content::{Content, HEAD_OCTETS, content_of};
use crate::export_part::export_part;
use crate::frame::open_part;
use crate::part::{Kind, Part};
use crate::unconverted::Unconverted;
use base_types::NoMemory;
use std::alloc::Global;

/// Whether the body is too short to know what its file has.
fn is_short(asked: &Asked, body: &[u8]) -> bool {
    asked.more && asked.line <= 1 && body.len() < HEAD_OCTETS
}

/// Converts the front of a body that has this. `None` if it can't be read, or isn't converted.
fn convert_content(
    alloc: Global,
    asked: &Asked,
    body: &[u8],
    content: Content<'_>,
) -> Result<Option<Part>, NoMemory>
    ensures { IfOk result (λ done. IfSome done (IsPart body.now)) }
{
    match content {
        Content::Cards => cards_part(alloc, asked, body),
        Content::Export => export_part(alloc, asked, body),
        Content::Contacts(header) => contacts_part(alloc, asked, body, header),
        Content::None(_) => Ok(None),
    }
}

/// What becomes of the front of a body, or why its file isn't converted. The outer `Err` is out of
/// memory.
pub(crate) fn convert_body(
    alloc: Global,
    asked: &Asked,
    body: &[u8],
) -> Result<Result<Part, Unconverted>, NoMemory>
    ensures { IfOk result (λ done. IfOk done (IsPart body.now)) }
{
    if is_short(asked, body) {
        let part = open_part(alloc, asked, Kind::Cards)?;
        return Ok(Ok(part));
    }
    let content = content_of(alloc, asked, body)?;
    if let Content::None(why) = content {
        let fault = why.fault(alloc, asked, body)?;
        return Ok(Err(fault));
    }
    match convert_content(alloc, asked, body, content)? {
        Some(part) => Ok(Ok(part)),
        None => {
            let fault = Unconverted::with_words(alloc, "it can't be read")?;
            Ok(Err(fault))
        }
    }
}
