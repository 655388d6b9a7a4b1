//! Converts what a file has.
ghost use Rattle.std.specs.Prelude.{ℕ, List, Option, IfOk, OnOk};
ghost use Rattle.card_conversion.specs.Courses.{Knows};
ghost use Rattle.cli_convert.specs.Sources.{ConvertsFile, GivesText};
ghost use Rattle.contact_csv.specs.Contacts.{IsReady};

use crate::content::Content;
use card_conversion::{
    CardSink, ConversionFault, Course, ExportText, MediaSink, Report, convert_contacts_under,
    convert_more_cards, convert_more_exports,
};
use contact_columns::RowText;
use contact_csv::{ContactFault, ContactReader, Header};
use csv_cards::ExportRows;
use std::alloc::Global;
use std::io::{Read, Write};

/// A reader of contacts, after its header. `reader` begins with the header.
fn read_contacts<R: Read + Drop>(
    alloc: Global,
    reader: R,
    header: Header<'_>,
) -> Result<ContactReader<RowText<R>>, ConversionFault>
    ensures { IfOk result IsReady }
{
    let rows = RowText::new(alloc, reader, header.delimiter, header.width);
    match ContactReader::new(alloc, rows, header) {
        Ok(contacts) => Ok(contacts),
        Err(ContactFault::Memory) => Err(ConversionFault::Memory),
        Err(_) => Err(ConversionFault::Input),
    }
}

/// Converts what one more file has to a sink. Pictures and sounds that a card is carried without go
/// to `media`.
pub(crate) fn convert_to<R: Read + Drop, O: CardSink, P: MediaSink, E: Write, T: Write>(
    alloc: Global,
    course: &mut Course,
    content: Content<'_>,
    reader: R,
    sink: &mut O,
    media: &mut P,
    report: &mut Report<E, T>,
) -> Result<(), ConversionFault>
    ensures { OnOk result ((whole : Option (List ℕ))
        → GivesText content.entry (R.remaining reader) whole
        → (uids : List (List ℕ)) → Knows course.old uids
        → ConvertsFile O.writes whole uids course.old course.new sink.old sink.new) }
{
    match content {
        Content::Export => {
            let rows = ExportRows::new(alloc, ExportText::new(alloc, reader));
            convert_more_exports(alloc, course, rows, sink, media, report)
        }
        Content::Contacts(header) => {
            let contacts = read_contacts(alloc, reader, header)?;
            convert_contacts_under(alloc, course, &header.above, contacts, sink, report)
        }
        Content::Cards | Content::OtherRows | Content::Foreign(_) => {
            convert_more_cards(alloc, course, reader, sink, media, report)
        }
    }
}
