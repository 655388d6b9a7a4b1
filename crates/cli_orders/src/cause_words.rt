//! The words for why a row isn't a card.

use csv_cards::CsvCause;
use std::fmt;

/// A cause that prints its words, such as `the name is empty`.
#[derive(Clone, Copy)]
pub(crate) struct CauseWords(pub(crate) CsvCause);

impl fmt::Display for CauseWords {
    ghost use Rattle.std.specs.Prelude.{Some};
    ghost use Rattle.cli_orders.specs.CauseWords.{cause_words};

    ghost output = { λ words. Some (cause_words words.0) };

    fn fmt<W: fmt::Write>(&self, f: &mut fmt::Formatter<W>) -> fmt::Result {
        match self.0 {
            CsvCause::BadHeader => f.write_str(
                "the header is neither uid,vcard nor uid,fn,family,given,email,tel,org,note",
            ),
            CsvCause::Columns => f.write_str("the number of fields isn't that of the header"),
            CsvCause::NotUtf8 => f.write_str("a field isn't UTF-8"),
            CsvCause::EmptyName => f.write_str("the name is empty"),
            CsvCause::BadCard(fault) => write!(f, "{fault}"),
            CsvCause::UidMismatch => f.write_str("the field uid isn't the UID of the card"),
            CsvCause::DuplicateUid => f.write_str("an earlier row has the same UID"),
            CsvCause::Memory => f.write_str("no memory"),
        }
    }
}
