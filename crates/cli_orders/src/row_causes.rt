//! The cause of a refused row, by its number.
ghost use Rattle.std.specs.Prelude.{◌≡◌};
ghost use Rattle.cli_orders.specs.RowCauses.{cause_numbered};

use csv_cards::CsvCause;
use vcard_text::CardFault;

/// The cause that has this number, if one has.
pub(crate) fn cause_numbered(number: u8) -> Option<CsvCause>
    ensures { result ≡ cause_numbered number }
{
    let causes = [
        CsvCause::BadHeader,
        CsvCause::Columns,
        CsvCause::NotUtf8,
        CsvCause::EmptyName,
        CsvCause::BadCard(CardFault::TooLong),
        CsvCause::BadCard(CardFault::NotUtf8),
        CsvCause::BadCard(CardFault::BadChar),
        CsvCause::BadCard(CardFault::BadLine),
        CsvCause::BadCard(CardFault::NoBegin),
        CsvCause::BadCard(CardFault::BadVersion),
        CsvCause::BadCard(CardFault::NoEnd),
        CsvCause::BadCard(CardFault::NoName),
        CsvCause::BadCard(CardFault::NoUid),
        CsvCause::BadCard(CardFault::BadUid),
        CsvCause::BadCard(CardFault::Twice),
        CsvCause::BadCard(CardFault::MemberOutsideGroup),
        CsvCause::UidMismatch,
        CsvCause::DuplicateUid,
    ];
    causes
        .iter()
        .copied()
        .find(|cause| cause.number() == number)
}
