//! Days that there are in the calendar.
ghost use Rattle.std.specs.Prelude.{◌≡◌, ◌≤◌, string_bytes};
ghost use Rattle.std.specs.Option.{option_map};
ghost use Rattle.vcard_values.specs.Days.{days_of_february, days_of_month, days_of_other};
ghost use Rattle.vcard_values.specs.Days.{digit_at, has_day, is_leap_year, is_real_day};
ghost use Rattle.vcard_values.specs.Days.{number_at, real_day, year_of};

/// The number that the digit at the place is.
fn digit_at(octets: &[u8], place: usize) -> u32
    ensures is { result ≡ digit_at place octets.now }
    ensures small { result ≤ 255 }
{
    u32::from(
        octets
            .get(place)
            .copied()
            .unwrap_or(b'0')
            .saturating_sub(b'0'),
    )
}

/// The number that the digit at the place and the next one are.
pub(crate) fn number_at(octets: &[u8], place: usize) -> u32
    ensures is { place ≤ 6 → result ≡ number_at place octets.now }
    ensures small { result ≤ 2805 }
{
    digit_at(octets, place) * 10 + digit_at(octets, place.saturating_add(1))
}

/// The number that the first four digits are.
fn year_of(octets: &[u8]) -> u32
    ensures { result ≡ year_of octets.now }
{
    number_at(octets, 0) * 100 + number_at(octets, 2)
}

/// Whether the year has a 29 February.
fn is_leap_year(year: u32) -> bool
    ensures { result ≡ is_leap_year year }
{
    year % 4 == 0 && (year % 100 != 0 || year % 400 == 0)
}

fn days_of_february(is_leap: bool) -> u32
    ensures { result ≡ days_of_february is_leap }
{
    if is_leap { 29 } else { 28 }
}

/// The days of a month that isn't February. 0 if there is none of this number.
fn days_of_other(month: u32) -> u32
    ensures { result ≡ days_of_other month }
{
    if month == 4 || month == 6 || month == 9 || month == 11 {
        30
    } else if 1 <= month && month <= 12 {
        31
    } else {
        0
    }
}

/// The days of a month of a leap year, or of another year.
fn days_of_month(is_leap: bool, month: u32) -> u32
    ensures { result ≡ days_of_month is_leap month }
{
    if month == 2 {
        days_of_february(is_leap)
    } else {
        days_of_other(month)
    }
}

/// Whether the month of a leap year, or of another year, has that day.
pub(crate) fn has_day(is_leap: bool, month: u32, day: u32) -> bool
    ensures { result ≡ has_day is_leap month day }
{
    1 <= day && day <= days_of_month(is_leap, month)
}

/// Whether the month and the day in the basic form are a real day. One of any year may be 29
/// February.
pub(crate) fn is_real_day(day: &[u8]) -> bool
    ensures { result ≡ is_real_day day.now }
{
    if day.starts_with(b"--") {
        has_day(true, number_at(day, 2), number_at(day, 4))
    } else {
        has_day(
            is_leap_year(year_of(day)),
            number_at(day, 4),
            number_at(day, 6),
        )
    }
}

/// The day in the basic form, if it is a real one.
pub(crate) fn real_day(day: Option<String>) -> Option<String>
    ensures { option_map string_bytes result ≡ real_day (option_map string_bytes day) }
{
    let day = day?;
    if is_real_day(day.as_bytes()) {
        Some(day)
    } else {
        None
    }
}
