//! What the order is given.
ghost use Rattle.std.specs.Prelude.{◌≡◌, ◌||◌, is_some};

use base_types::Text;
use contact_columns::DateOrder;

/// What to convert, and where the cards go.
#[derive(Clone, Copy)]
pub struct ConvertOptions<'a> {
    /// The path of the first file that is converted.
    pub file: &'a str,
    /// The paths of the files that are converted after it.
    pub more: &'a [Text],
    /// The folder for the files that are written.
    pub folder: Option<&'a str>,
    /// The most rows of a file of rows, 1 to 10,000.
    pub rows: Option<u64>,
    /// The most octets of a file of rows, 1 to 8,388,608.
    pub octets: Option<u64>,
    /// The order of day and month in dates with slashes, if it was given.
    pub dates: Option<DateOrder>,
    /// What the columns of a file of contacts become, as `Name=fn,#7=-`; empty if it wasn't given.
    pub columns: &'a str,
    /// The name of the file's character set, if it was given.
    pub charset: Option<&'a str>,
    /// The path of a new file for the report, if it was given.
    pub report: Option<&'a str>,
    /// The folder for pictures and sounds that cards are carried without, if it was given.
    pub photos: Option<&'a str>,
}

impl<'a> ConvertOptions<'a> {
    /// These options for another file: all but the path are as they were.
    pub(crate) fn of_file(self, file: &'a str) -> ConvertOptions<'a>
        ensures file { result.file.now ≡ file.now }
        ensures charset { result.charset ≡ self.entry.charset }
    {
        ConvertOptions {
            file,
            more: self.more,
            folder: self.folder,
            rows: self.rows,
            octets: self.octets,
            dates: self.dates,
            columns: self.columns,
            charset: self.charset,
            report: self.report,
            photos: self.photos,
        }
    }

    /// Whether files of rows are wanted.
    pub(crate) fn has_bounds(&self) -> bool
        ensures { result ≡ (is_some self.now.rows || is_some self.now.octets) }
    {
        self.rows.is_some() || self.octets.is_some()
    }
}
