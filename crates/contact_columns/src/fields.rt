//! The fields of a row.
ghost use Rattle.std.specs.Prelude.{◌≡◌, [], get_or};
ghost use Rattle.csv.specs.Records.{fields_of};

use csv::ByteRecord;

/// The field at the index, counted from 0; an empty one if there are fewer fields.
pub fn row_field(row: &ByteRecord, place: usize) -> &[u8]
    ensures { result.now ≡ get_or (fields_of row.now) place [] }
{
    match row.get(place) {
        Some(row_field) => row_field,
        None => b"",
    }
}
