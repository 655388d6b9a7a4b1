//! Opens the file that is converted, and finds what it has.
ghost use Rattle.std.specs.Prelude.{◌≡◌, ◌++◌, IfOk, IfSome, IsTrue, None, Some, ℕ, List};
ghost use Rattle.import_text.specs.Readers.{text_left};
ghost use Rattle.import_text.specs.Texts.{text_octets};
ghost use Rattle.cli_convert.specs.FileTexts.{is_card_head, shown_mark};
ghost use Rattle.cli_convert.specs.Readers.{ReadsHead, whole_left};
ghost use Rattle.cli_convert.specs.declared.charset_reader.Encoding.TheVariants.{Found};
ghost use Rattle.cli_convert.specs.declared.content.Content.TheVariants.{Cards};

use crate::charset_reader::{CharsetReader, Encoding, encoding_named};
use crate::content::{Content, HEAD_OCTETS, HeadFault, content_of, is_card_head, read_head};
use crate::exit::{
    ConvertStop, foreign_file, open_dates, unknown_charset, unknown_header, unopened, unreadable,
    wrong_columns,
};
use crate::file_system::FileSystem;
use crate::options::ConvertOptions;
use card_conversion::{foreign_format, foreign_text, is_utf32};
use contact_columns::{DateOrder, Header, RowText, made_header, read_date_order, wish_fault};
use import_text::TextReader;
use std::alloc::Global;
use std::io::{Chain, ErrorKind, Read};

/// The number of octets from which it is known how a file is decoded.
const FRONT_OCTETS: usize = 64;

/// What a file in UTF-32 is, and what to do with it.
const UTF32_WORDS: &str = "in UTF-32; make UTF-8 of it, as by iconv -f UTF-32 -t UTF-8";

/// The first octets of what is read from the path.
fn head_of<R: Read>(
    alloc: Global,
    path: &str,
    reader: &mut R,
    size: usize,
) -> Result<Vec<u8>, ConvertStop>
    ensures { IfOk result (λ head.
        ReadsHead size (R.remaining reader.old) (R.remaining reader.new) head.items) }
{
    match read_head(alloc, reader, size) {
        Ok(head) => Ok(head),
        Err(HeadFault::Memory) => Err(ConvertStop::Memory),
        Err(HeadFault::Unreadable) => Err(unreadable(alloc, path)),
    }
}

/// A reader of the text of a file.
fn read_as_text<R: Read + Drop>(
    alloc: Global,
    path: &str,
    file: R,
) -> Result<TextReader<R>, ConvertStop>
    ensures { IfOk result (λ text. IfSome (R.remaining file) (λ octets.
        text_left R.remaining text ≡ Some (text_octets octets))) }
{
    match TextReader::new(alloc, file) {
        Ok(reader) => Ok(reader),
        Err(error) if error.kind() == ErrorKind::OutOfMemory => Err(ConvertStop::Memory),
        Err(_) => Err(unreadable(alloc, path)),
    }
}

/// Opens the file, and reads its first octets.
pub(crate) fn open_file<F: FileSystem>(
    alloc: Global,
    files: &F,
    path: &str,
) -> Result<(Vec<u8>, F::Source), ConvertStop>
    ensures { IfOk result (λ opened. ReadsHead 64 (F.octets files.now path.now)
        (F.Source.remaining opened.1) opened.0.items) }
{
    if files.is_folder(path) {
        return Err(foreign_file(alloc, path, "a folder; convert the files in it"));
    }
    let Ok(mut file) = files.open(path) else {
        return Err(unopened(alloc, path));
    };
    let front = head_of(alloc, path, &mut file, FRONT_OCTETS)?;
    if is_utf32(front.as_slice()) {
        return Err(foreign_file(alloc, path, UTF32_WORDS));
    }
    Ok((front, file))
}

/// A file's text in UTF-8, after its first octets, with the mark that it may lack.
type FileText<'a, R> = TextReader<CharsetReader<Chain<Chain<&'a [u8], &'a [u8]>, R>>>;

/// A reader of the text of a file that begins with the octets of `front`.
pub(crate) fn text_after<'a, R: Read + Drop>(
    alloc: Global,
    path: &str,
    encoding: Encoding,
    front: &'a [u8],
    file: R,
) -> Result<FileText<'a, R>, ConvertStop>
    ensures { IfOk result (λ text. encoding ≡ Found → IfSome (R.remaining file) (λ rest.
        whole_left R.remaining text
        ≡ Some (text_octets ((shown_mark front.now ++ front.now) ++ rest)))) }
{
    let whole = encoding.missing_mark(front).chain(front).chain(file);
    let reader = CharsetReader {
        alloc,
        reader: whole,
        decoding: encoding.decoding(front),
        begun: Vec::new(alloc),
        text: String::new(alloc),
        start: 0,
    };
    read_as_text(alloc, path, reader)
}

/// The encoding that is wanted.
pub(crate) fn wanted_encoding(
    alloc: Global,
    wanted: ConvertOptions<'_>,
) -> Result<Encoding, ConvertStop>
    ensures { IfOk result (λ encoding. wanted.entry.charset ≡ None → encoding ≡ Found) }
{
    match encoding_named(alloc, wanted.charset)? {
        Some(encoding) => Ok(encoding),
        None => Err(unknown_charset(alloc, wanted.file, wanted.charset.unwrap_or(""))),
    }
}

/// What is wrong with columns of a file of cards.
const NO_COLUMNS: &str = "the file has cards, and no columns";

/// Fails if columns are given that the file doesn't have, or that can't be read.
fn check_columns(
    alloc: Global,
    wanted: ConvertOptions<'_>,
    head: &[u8],
) -> Result<(), ConvertStop> {
    if wanted.columns.is_empty() {
        return Ok(());
    }
    if is_card_head(head) {
        return Err(wrong_columns(alloc, wanted.file, NO_COLUMNS));
    }
    match wish_fault(alloc, head, wanted.columns)? {
        Some(words) => Err(wrong_columns(alloc, wanted.file, words.as_str())),
        None => Ok(()),
    }
}

/// What a file without contacts has that begins with text which isn't converted, as these words
/// say: if it goes on after the head, cards may come. Fails if it doesn't.
fn foreign_content<'a>(
    alloc: Global,
    path: &str,
    head: &[u8],
    words: &'a str,
) -> Result<Content<'a>, ConvertStop> {
    if head.len() < HEAD_OCTETS {
        Err(foreign_file(alloc, path, words))
    } else {
        Ok(Content::Foreign(words))
    }
}

/// What a file without contacts has. Fails if it isn't converted for what it begins with, or since
/// something is said of its columns.
fn checked_text<'a>(
    alloc: Global,
    wanted: ConvertOptions<'_>,
    content: Content<'a>,
    head: &[u8],
) -> Result<Content<'a>, ConvertStop>
    ensures { IsTrue (is_card_head head.now) → IfOk result (λ checked. checked ≡ content.entry) }
{
    if is_card_head(head) {
        return Ok(content);
    }
    let path = wanted.file;
    if matches!(content, Content::OtherRows) {
        return match foreign_text(head) {
            Some(words) if wanted.columns.is_empty() => Err(foreign_file(alloc, path, words)),
            _ => Err(unknown_header(alloc, path, head)),
        };
    }
    if !wanted.columns.is_empty() {
        return Err(wrong_columns(alloc, path, NO_COLUMNS));
    }
    match foreign_text(head) {
        Some(words) => foreign_content(alloc, path, head, words),
        None => Ok(content),
    }
}

/// Reads the head of the file, and what the file has.
pub(crate) fn read_content<'a, R: Read>(
    alloc: Global,
    wanted: ConvertOptions<'a>,
    reader: &mut R,
) -> Result<(Vec<u8>, Content<'a>), ConvertStop>
    ensures head { IfOk result (λ read. ReadsHead 1048576 (R.remaining reader.old)
        (R.remaining reader.new) read.0.items) }
    ensures cards { IfOk result (λ read. IsTrue (is_card_head read.0.items)
        → read.1 ≡ Cards) }
{
    let path = wanted.file;
    let head = head_of(alloc, path, reader, HEAD_OCTETS)?;
    if let Some(words) = foreign_format(head.as_slice()) {
        return Err(foreign_file(alloc, path, words));
    }
    check_columns(alloc, wanted, head.as_slice())?;
    match content_of(alloc, path, head.as_slice(), wanted.columns)? {
        Content::Contacts(header) => Ok((head, Content::Contacts(header))),
        content => {
            let content = checked_text(alloc, wanted, content, head.as_slice())?;
            Ok((head, content))
        }
    }
}

/// The order of day and month in the dates of a file, of which `reader` reads the text from its
/// beginning.
fn dates_in<R: Read + Drop>(
    alloc: Global,
    path: &str,
    reader: R,
    header: Header<'_>,
) -> Result<DateOrder, ConvertStop> {
    let mut text = reader;
    let head = head_of(alloc, path, &mut text, HEAD_OCTETS)?;
    let rest = head.get(header.start..).unwrap_or(&[]);
    let made = made_header(alloc, header, rest)?;
    let source = made.as_slice().chain(rest).chain(text);
    let rows = RowText::new(alloc, source, header.delimiter, header.width);
    match read_date_order(alloc, rows, header)? {
        Some(dates) => Ok(dates),
        None => Err(open_dates(alloc, path)),
    }
}

/// The order of day and month in the dates of the file, which is opened once more for it. A stop if
/// it can't be read, or if its dates don't show the order.
fn file_dates<F: FileSystem>(
    alloc: Global,
    files: &F,
    wanted: ConvertOptions<'_>,
    header: Header<'_>,
) -> Result<DateOrder, ConvertStop> {
    let path = wanted.file;
    let encoding = wanted_encoding(alloc, wanted)?;
    let (front, file) = open_file(alloc, files, path)?;
    let text = text_after(alloc, path, encoding, front.as_slice(), file)?;
    dates_in(alloc, path, text, header)
}

/// What the file has. If it has contacts, with the order of day and month in its dates: the one
/// that is wanted, or else the one that they show, if the file can be read twice.
pub(crate) fn with_dates<'a, F: FileSystem>(
    alloc: Global,
    files: &F,
    wanted: ConvertOptions<'a>,
    content: Content<'a>,
) -> Result<Content<'a>, ConvertStop>
    ensures { content.entry ≡ Cards → IfOk result (λ dated. dated ≡ Cards) }
{
    let Content::Contacts(header) = content else {
        return Ok(content);
    };
    if let Some(dates) = wanted.dates {
        return Ok(Content::Contacts(header.with_dates(dates)));
    }
    if !files.is_file(wanted.file) {
        return Ok(content);
    }
    let dates = file_dates(alloc, files, wanted, header)?;
    Ok(Content::Contacts(header.with_dates(dates)))
}
