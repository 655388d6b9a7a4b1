//! Runs the order.
//!
//! The text of a file is cut into pieces: cards, other texts, and white space. A table has a row
//! for each contact. The fate of a piece or a row is what became of it (`Fate` and `RowFate` of
//! `card_conversion`): its card was written, which is called carried; or it is white space, or a
//! row without a value; or it has the UID of an earlier card, which it repeats; or it is refused.
//! The summary counts the written ones, those of them that were changed, and the refused ones.
ghost use Rattle.std.specs.Prelude.{◌≡◌, ◌⊎◌, ◌<◌, ◌∷◌, ℕ, List, Option, IfOk, IfSome, IsTrue};
ghost use Rattle.std.specs.Prelude.{is_some};
ghost use Rattle.cli_convert.specs.CardFolders.{FillsFolder};
ghost use Rattle.cli_convert.specs.Endings.{Does, Ends, Prints, is_for_cards, prints_rows};
ghost use Rattle.cli_convert.specs.FileTexts.{more_texts, texts_of};
ghost use Rattle.cli_convert.specs.Sources.{GivesText};

use crate::card_files::CardFiles;
use crate::content::Content;
use crate::create::{Created, create_new};
use crate::exit::{ConvertStop, end, existing_file, stop_of};
use crate::file_system::FileSystem;
use crate::names::rows_front;
use crate::opening::{open_file, read_content, text_after, wanted_encoding, with_dates};
use crate::options::ConvertOptions;
use crate::row_files::RowFiles;
use crate::several::{check_more, content_text, convert_all, text_above};
use base_types::Text;
use card_conversion::laws::{written_cards_differ, written_rows_are_read};
use card_conversion::{ConversionFault, Report, RowsSink, Summary, ends_with_returns};
use contact_columns::left_out_columns;
use std::alloc::Global;
use std::io::{Read, Write};

/// The most rows of an import.
const ROWS_MAX: u64 = 10_000;

/// The most octets of an import.
const OCTETS_MAX: u64 = 8_388_608;

/// Fails if a folder is given but there is none.
fn check_folder<F: FileSystem>(
    alloc: Global,
    files: &F,
    folder: Option<&str>,
) -> Result<(), ConvertStop> {
    match folder {
        Some(folder) if !files.is_folder(folder) => match format!(in alloc;
            "{folder} is no folder"
        ) {
            Ok(words) => Err(ConvertStop::Device(Text::new(words))),
            Err(_) => Err(ConvertStop::Memory),
        },
        _ => Ok(()),
    }
}

/// Creates the file for the report, if one is wanted.
fn wanted_report<F: FileSystem>(
    alloc: Global,
    files: &F,
    wanted: ConvertOptions<'_>,
) -> Result<Option<F::NewFile>, ConvertStop> {
    let Some(path) = wanted.report else {
        return Ok(None);
    };
    match create_new(alloc, files, path) {
        Ok(Created::File(file)) => Ok(Some(file)),
        Ok(Created::Exists) => Err(existing_file(alloc, path)),
        Err(fault) => Err(stop_of(alloc, ConversionFault::from(fault), wanted.file)),
    }
}

/// Tells once which columns are left out.
fn report_left_out<E: Write, T: Write>(
    alloc: Global,
    wanted: ConvertOptions<'_>,
    report: &mut Report<E, T>,
) -> Result<(), ConvertStop> {
    let names = left_out_columns(alloc, wanted.columns)?;
    let names = names.as_str();
    if names.is_empty() {
        return Ok(());
    }
    let line = format!(in alloc; "columns left out: {names}\n")?;
    match report.say(line.as_str()) {
        Ok(()) => Ok(()),
        Err(_) => Err(ConvertStop::Report),
    }
}

/// Says that there was nothing to carry, if there was nothing.
fn report_nothing<E: Write, T: Write>(
    summary: Summary,
    report: &mut Report<E, T>,
) -> Result<(), ConvertStop> {
    if summary.written > 0 || summary.refused > 0 {
        return Ok(());
    }
    match report.say("nothing was converted: there are no cards and no contacts\n") {
        Ok(()) => Ok(()),
        Err(_) => Err(ConvertStop::Report),
    }
}

/// Writes the end of the report. `files` is the number of files that were made, if the cards went
/// to files.
fn report_end<E: Write, T: Write>(
    alloc: Global,
    wanted: ConvertOptions<'_>,
    summary: Summary,
    files: Option<u64>,
    report: &mut Report<E, T>,
) -> Result<(), ConvertStop> {
    report_nothing(summary, report)?;
    match report.finish(alloc, summary, files) {
        Ok(()) => Ok(()),
        Err(fault) => Err(stop_of(alloc, fault, wanted.file)),
    }
}

/// Converts the first file, whose text this is, and those after it to files of rows.
fn convert_to_row_files<F: FileSystem, R: Read + Drop, E: Write>(
    alloc: Global,
    files: &F,
    wanted: ConvertOptions<'_>,
    content: Content<'_>,
    text: R,
    report: &mut Report<E, F::NewFile>,
) -> Result<Summary, ConvertStop> {
    let front = rows_front(alloc, wanted.file, wanted.folder)?;
    let rows_max = wanted.rows.unwrap_or(ROWS_MAX);
    let octets_max = wanted.octets.unwrap_or(OCTETS_MAX);
    let mut sink = RowFiles::new(files, front, rows_max, octets_max);
    let summary = convert_all(alloc, files, wanted, content, text, &mut sink, report)?;
    report_end(alloc, wanted, summary, Some(sink.count), report)?;
    Ok(summary)
}

/// Converts the first file, whose text this is, and those after it to a file for each card.
fn convert_to_card_files<F: FileSystem, R: Read + Drop, E: Write>(
    alloc: Global,
    files: &F,
    wanted: ConvertOptions<'_>,
    folder: &str,
    content: Content<'_>,
    text: R,
    report: &mut Report<E, F::NewFile>,
) -> Result<Summary, ConvertStop>
    ensures { (whole : Option (List ℕ)) → GivesText content.entry (R.remaining text) whole
        → IfOk result (λ summary. FillsFolder (F.place files.now) (F.written files.now) folder.now
        (whole ∷ more_texts (F.octets files.now) wanted.entry) summary) }
{
    let mut sink = CardFiles { files, folder };
    let summary = convert_all(alloc, files, wanted, content, text, &mut sink, report)?;
    report_end(alloc, wanted, summary, Some(summary.written), report)?;
    Ok(summary)
}

/// Converts the first file, whose text this is, and those after it to rows on a writer.
fn convert_to_writer<F: FileSystem, R: Read + Drop, W: Write, E: Write>(
    alloc: Global,
    files: &F,
    wanted: ConvertOptions<'_>,
    content: Content<'_>,
    text: R,
    rows: &mut RowsSink<W>,
    report: &mut Report<E, F::NewFile>,
) -> Result<Summary, ConvertStop>
    ensures { (whole : Option (List ℕ)) → GivesText content.entry (R.remaining text) whole
        → IfOk result (λ summary. Prints (whole ∷ more_texts (F.octets files.now) wanted.entry)
        (W.contents rows.old.writer) (W.contents rows.new.writer) summary) }
{
    // Laws: the cards of files have different UIDs, and rows of such cards are read back.
    written_rows_are_read();
    written_cards_differ();

    if let Err(fault) = rows.start(alloc) {
        return Err(stop_of(alloc, ConversionFault::from(fault), wanted.file));
    }
    let summary = convert_all(alloc, files, wanted, content, text, rows, report)?;
    report_end(alloc, wanted, summary, None, report)?;
    Ok(summary)
}

/// Converts the first file, whose text this is, and those after it to what is wanted.
fn convert_opened<F: FileSystem, R: Read + Drop, W: Write, E: Write>(
    alloc: Global,
    files: &F,
    wanted: ConvertOptions<'_>,
    content: Content<'_>,
    text: R,
    rows: &mut RowsSink<W>,
    report: &mut Report<E, F::NewFile>,
) -> Result<Summary, ConvertStop>
    ensures { (whole : Option (List ℕ)) → GivesText content.entry (R.remaining text) whole
        → IfOk result (Does (F.place files.now) (F.written files.now) wanted.entry
        (whole ∷ more_texts (F.octets files.now) wanted.entry) (W.contents rows.old.writer)
        (W.contents rows.new.writer)) }
{
    if wanted.has_bounds() {
        return convert_to_row_files(alloc, files, wanted, content, text, report);
    }
    match wanted.folder {
        Some(folder) => {
            convert_to_card_files(alloc, files, wanted, folder, content, text, report)
        }
        None => convert_to_writer(alloc, files, wanted, content, text, rows, report),
    }
}

/// Converts the text of the first file, and the files after it, once all of them are known.
fn convert_text<F: FileSystem, R: Read + Drop, W: Write, E: Write>(
    alloc: Global,
    files: &F,
    wanted: ConvertOptions<'_>,
    text: R,
    rows: &mut RowsSink<W>,
    report: &mut Report<E, F::NewFile>,
) -> Result<Summary, ConvertStop>
    ensures { IfOk result (Does (F.place files.now) (F.written files.now) wanted.entry
        (R.remaining text ∷ more_texts (F.octets files.now) wanted.entry)
        (W.contents rows.old.writer) (W.contents rows.new.writer)) }
{
    let mut reader = text;
    let (head, content) = read_content(alloc, wanted, &mut reader)?;
    let content = with_dates(alloc, files, wanted, content)?;
    check_more(alloc, files, wanted)?;
    report.set_file(wanted_report(alloc, files, wanted)?);
    report_left_out(alloc, wanted, report)?;
    let above = text_above(alloc, content, head.as_slice())?;
    report.set_line_ends(ends_with_returns(head.as_slice()));
    let text = content_text(above.as_slice(), head.as_slice(), content, reader);
    convert_opened(alloc, files, wanted, content, text, rows, report)
}

/// Opens the first file, and converts it and those after it.
fn convert<F: FileSystem, W: Write, E: Write>(
    alloc: Global,
    files: &F,
    wanted: ConvertOptions<'_>,
    rows: &mut RowsSink<W>,
    report: &mut Report<E, F::NewFile>,
) -> Result<Summary, ConvertStop>
    ensures { IfOk result (Does (F.place files.now) (F.written files.now) wanted.entry
        (texts_of (F.octets files.now) wanted.entry) (W.contents rows.old.writer)
        (W.contents rows.new.writer)) }
{
    let encoding = wanted_encoding(alloc, wanted)?;
    let (front, file) = open_file(alloc, files, wanted.file)?;
    check_folder(alloc, files, wanted.folder)?;
    check_folder(alloc, files, wanted.photos)?;
    let text = text_after(alloc, wanted.file, encoding, front.as_slice(), file)?;
    convert_text(alloc, files, wanted, text, rows, report)
}

/// Converts the cards or the contacts of files, in order. Writes their cards as rows to standard
/// output, as rows to files, or as one file for each card; and the report to `errors`, and to a new
/// file if one is wanted.
///
/// Returns the exit status of the program: 0 if all was carried, 1 if something wasn't, or a photo
/// that was to be written beside its card, or if there was nothing to carry, and 3 if the
/// conversion stopped: a file, a folder,
/// standard output or standard error can't be used, or there is no memory. It is only tested what
/// becomes of files, a folder and standard error, and of standard output if the conversion stopped,
/// and that nothing is written before each file was opened.
pub fn run_convert<F: FileSystem, W: Write, E: Write + Drop>(
    alloc: Global,
    files: &F,
    wanted: ConvertOptions<'_>,
    rows: &mut RowsSink<W>,
    errors: E,
) -> u8
    ensures status { (result ≡ 0) ⊎ ((result ≡ 1) ⊎ (result ≡ 3)) }

    // The cards that were carried are those of the files that are given, each file once, in order.
    // Where it is known what a file holds, no character set is given, and it begins as a card, they
    // are those of pieces that together are its whole text. Of rows no clause says that they are
    // the file's own. Each piece or row has its fate after all before it; that a row which counts
    // as a repeat is the same contact as the earlier one is only tested. The status is 0 if the
    // summary counts some as written and none as refused, and otherwise 1. With `photos` it may
    // also be 1 where that says 0: no clause says when a photo is lost.

    // A conversion to standard output that didn't stop wrote one header and a row for each card
    // that was carried, and nothing else. They are read back as these cards, of which no two have
    // one UID.
    ensures printed { result < 3 → IsTrue (prints_rows wanted.entry)
        → Ends (is_some wanted.entry.photos) (Prints (texts_of (F.octets files.now) wanted.entry)
        (W.contents rows.old.writer) (W.contents rows.new.writer)) result }

    // A conversion to a file for each card that didn't stop made a file in the folder for each card
    // that was carried, and wrote its canonical text to it, where something is known of new files:
    // once exactly this text was in it. That nothing was written after it is only tested. A file
    // that was there stays as it is: no call of a file system changes one.
    ensures filled { result < 3 → IfSome wanted.entry.folder (λ folder.
        IsTrue (is_for_cards wanted.entry) → Ends (is_some wanted.entry.photos)
        (FillsFolder (F.place files.now) (F.written files.now) folder.now
        (texts_of (F.octets files.now) wanted.entry)) result) }
{
    let mut report: Report<E, F::NewFile> = Report::new(alloc, errors);
    let done = convert(alloc, files, wanted, rows, &mut report);
    let lost = report.has_lost_media();
    end(alloc, done, wanted.photos.is_some(), lost, &mut report)
}
