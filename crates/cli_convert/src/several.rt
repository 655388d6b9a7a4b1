//! Converts one file, and others after it.
ghost use Rattle.std.specs.Prelude.{◌≡◌, ◌++◌, ◌∷◌, ℕ, Bool, List, Option, IfOk, IfSome, OnOk};
ghost use Rattle.std.specs.Prelude.{Some, [], map, drop};
ghost use Rattle.card_conversion.specs.Courses.{Knows};
ghost use Rattle.card_conversion.specs.LineEnds.{with_line_feeds};
ghost use Rattle.cli_convert.specs.Endings.{Converts};
ghost use Rattle.cli_convert.specs.FileTexts.{known_text, more_texts};
ghost use Rattle.cli_convert.specs.Sources.{ConvertsFile, GivesText};
ghost use Rattle.cli_convert.specs.Readers.{ends_left};
ghost use Rattle.cli_convert.specs.declared.content.Content.TheVariants.{Cards};

use crate::content::Content;
use crate::exit::{ConvertStop, foreign_file, no_second_reading, stop_of};
use crate::file_system::FileSystem;
use crate::media_files::MediaFiles;
use crate::opening::{open_file, read_content, text_after, wanted_encoding, with_dates};
use crate::options::ConvertOptions;
use crate::sources::convert_to;
use base_types::{NoMemory, Text};
use card_conversion::{
    CardSink, ConversionFault, Course, LineEnds, Report, Summary, ends_with_returns,
};
use contact_columns::made_header;
use std::alloc::Global;
use std::io::{Chain, Read, Write};

/// The number of octets before what is converted.
fn start_of(content: Content<'_>) -> usize
    ensures { content.entry ≡ Cards → result ≡ 0 }
{
    match content {
        Content::Contacts(header) => header.start,
        _ => 0,
    }
}

/// Whether the file has cards, or what is no card.
fn is_of_cards(content: Content<'_>) -> bool {
    matches!(content, Content::Cards | Content::Foreign(_))
}

/// What is read above the head of a file: a header, if it has contacts and no header.
pub(crate) fn text_above(
    alloc: Global,
    content: Content<'_>,
    head: &[u8],
) -> Result<Vec<u8>, NoMemory>
    ensures { content.entry ≡ Cards → IfOk result (λ above. above.items ≡ []) }
{
    match content {
        Content::Contacts(header) => {
            made_header(alloc, header, head.get(header.start..).unwrap_or(&[]))
        }
        _ => Ok(Vec::new(alloc)),
    }
}

/// What is converted of a file: what is read above its head, the head, and what `reader` has after
/// it.
pub(crate) fn content_text<'a, R: Read>(
    above: &'a [u8],
    head: &'a [u8],
    content: Content<'_>,
    reader: R,
) -> LineEnds<Chain<Chain<&'a [u8], &'a [u8]>, R>>
    // All that is read of cards, perhaps with line feeds for carriage returns.
    ensures { content.entry ≡ Cards → IfSome (R.remaining reader) (λ rest. (returns : Bool)
        × (ends_left R.remaining result
        ≡ Some (with_line_feeds returns ((above.now ++ head.now) ++ rest)))) }
{
    let are_returns = is_of_cards(content) && ends_with_returns(head);
    let rest = head.get(start_of(content)..).unwrap_or(&[]);
    let reader = above.chain(rest).chain(reader);
    LineEnds {
        reader,
        are_returns,
    }
}

/// Fails if a file can't be converted: it can't be read, or isn't known, or not which number of its
/// dates is the day; or it can't be read twice.
fn check_file<F: FileSystem>(
    alloc: Global,
    files: &F,
    wanted: ConvertOptions<'_>,
) -> Result<(), ConvertStop> {
    let encoding = wanted_encoding(alloc, wanted)?;
    let (front, file) = open_file(alloc, files, wanted.file)?;
    if !files.is_file(wanted.file) {
        return Err(no_second_reading(alloc, wanted.file));
    }
    let mut text = text_after(alloc, wanted.file, encoding, front.as_slice(), file)?;
    let (_head, content) = read_content(alloc, wanted, &mut text)?;
    let _dated = with_dates(alloc, files, wanted, content)?;
    Ok(())
}

/// Fails if one of the files that come after the first can't be converted.
pub(crate) fn check_more<F: FileSystem>(
    alloc: Global,
    files: &F,
    wanted: ConvertOptions<'_>,
) -> Result<(), ConvertStop> {
    for file in wanted.more {
        check_file(alloc, files, wanted.of_file(file.as_str()))?;
    }
    Ok(())
}

/// What is said of the file if no card came in it, if it begins with text that isn't converted.
fn foreign_words<'a>(content: Content<'a>) -> Option<&'a str> {
    match content {
        Content::Foreign(words) => Some(words),
        _ => None,
    }
}

/// Converts the text of one more file. Its name stands before each line of the report, if there are
/// several files.
fn convert_content<F: FileSystem, R: Read + Drop, O: CardSink, E: Write>(
    alloc: Global,
    files: &F,
    course: &mut Course,
    wanted: ConvertOptions<'_>,
    content: Content<'_>,
    text: R,
    sink: &mut O,
    report: &mut Report<E, F::NewFile>,
) -> Result<(), ConvertStop>
    ensures { OnOk result ((whole : Option (List ℕ))
        → GivesText content.entry (R.remaining text) whole
        → (uids : List (List ℕ)) → Knows course.old uids
        → ConvertsFile O.writes whole uids course.old course.new sink.old sink.new) }
{
    if !wanted.more.is_empty() {
        report.set_source(alloc, wanted.file)?;
    }
    let mut media = MediaFiles {
        files,
        folder: wanted.photos,
    };
    let next = course.next_card();
    match convert_to(alloc, course, content, text, sink, &mut media, report) {
        Ok(()) => {}
        Err(fault) => return Err(stop_of(alloc, fault, wanted.file)),
    }
    match foreign_words(content) {
        Some(words) if course.next_card() == next => Err(foreign_file(alloc, wanted.file, words)),
        _ => Ok(()),
    }
}

/// Opens one more file and converts it.
fn convert_next<F: FileSystem, O: CardSink, E: Write>(
    alloc: Global,
    files: &F,
    course: &mut Course,
    wanted: ConvertOptions<'_>,
    sink: &mut O,
    report: &mut Report<E, F::NewFile>,
) -> Result<(), ConvertStop>
    ensures { OnOk result ((uids : List (List ℕ)) → Knows course.old uids
        → ConvertsFile O.writes
        (known_text wanted.entry.charset (F.octets files.now wanted.entry.file.now)) uids
        course.old course.new sink.old sink.new) }
{
    let encoding = wanted_encoding(alloc, wanted)?;
    let (front, file) = open_file(alloc, files, wanted.file)?;
    let mut reader = text_after(alloc, wanted.file, encoding, front.as_slice(), file)?;
    let (head, content) = read_content(alloc, wanted, &mut reader)?;
    let content = with_dates(alloc, files, wanted, content)?;
    let above = text_above(alloc, content, head.as_slice())?;
    report.set_line_ends(ends_with_returns(head.as_slice()));
    let text = content_text(above.as_slice(), head.as_slice(), content, reader);
    convert_content::<F, _, O, E>(alloc, files, course, wanted, content, text, sink, report)
}

/// Converts the text of the first file, and then all files after it.
pub(crate) fn convert_all<F: FileSystem, R: Read + Drop, O: CardSink, E: Write>(
    alloc: Global,
    files: &F,
    wanted: ConvertOptions<'_>,
    content: Content<'_>,
    text: R,
    sink: &mut O,
    report: &mut Report<E, F::NewFile>,
) -> Result<Summary, ConvertStop>
    ensures { (whole : Option (List ℕ)) → GivesText content.entry (R.remaining text) whole
        → IfOk result (λ summary. Converts O.writes
        (whole ∷ more_texts (F.octets files.now) wanted.entry) sink.old sink.new summary) }
{
    let mut course = Course::new(alloc);
    convert_content::<F, R, O, E>(
        alloc,
        files,
        &mut course,
        wanted,
        content,
        text,
        sink,
        report,
    )?;
    for file in wanted.more {
        let next = wanted.of_file(file.as_str());
        convert_next(alloc, files, &mut course, next, sink, report)?;
    }
    Ok(course.summary())
}
