//! Dates as programs write them, in the form of vCard 4.0 (RFC 6350, section 4.3.1).

use base_types::NoMemory;
use std::alloc::Global;

/// Whether the day or the month comes first in the dates of a file, where both are numbers.
#[derive(Clone, Copy, PartialEq, Eq)]
pub enum DateOrder {
    /// `15/04/1980`.
    DayFirst,
    /// `04/15/1980`.
    MonthFirst,
    /// No date says it, or some say the one and some the other.
    Unknown,
}

/// What the dates of a file say of their order.
#[derive(Clone, Copy)]
pub struct DateSigns {
    has_day_first: bool,
    has_month_first: bool,
    /// Whether a date may be two.
    has_open: bool,
}

/// A date, perhaps without its year.
#[derive(Clone, Copy)]
struct Date {
    year: Option<u16>,
    month: u8,
    day: u8,
}

/// What a text is.
#[derive(Clone, Copy)]
enum Parsed {
    /// A date.
    Date(Date),
    /// The day and the month of a date, in either order, and its year.
    Numbers(u8, u8, u16),
}

fn digit(octet: u8) -> Option<u8> {
    if octet.is_ascii_digit() {
        Some(octet.saturating_sub(b'0'))
    } else {
        None
    }
}

/// The number that one or two digits are.
fn small_number(digits: &str) -> Option<u8> {
    match digits.as_bytes() {
        [a] => digit(*a),
        [a, b] => Some(digit(*a)?.saturating_mul(10).saturating_add(digit(*b)?)),
        _ => None,
    }
}

/// The last two digits of the year in which this was written. The dates of contacts, as of births,
/// are no later ones.
const LAST_SHORT_YEAR: u16 = 26;

/// The year of four digits, or of two: from 1927 to 2026.
fn year_of(digits: &str) -> Option<u16> {
    if digits.len() == 2 {
        let year = u16::from(small_number(digits)?);
        let century = if year <= LAST_SHORT_YEAR { 2000 } else { 1900 };
        return Some(year.saturating_add(century));
    }
    if digits.len() != 4 {
        return None;
    }
    let front = u16::from(small_number(digits.get(..2)?)?);
    let back = u16::from(small_number(digits.get(2..)?)?);
    Some(front.saturating_mul(100).saturating_add(back))
}

/// The first three letters of the names of months, in English and in German.
const MONTHS: &[(&str, u8)] = &[
    ("jan", 1),
    ("feb", 2),
    ("mar", 3),
    ("mär", 3),
    ("apr", 4),
    ("may", 5),
    ("mai", 5),
    ("jun", 6),
    ("jul", 7),
    ("aug", 8),
    ("sep", 9),
    ("oct", 10),
    ("okt", 10),
    ("nov", 11),
    ("dec", 12),
    ("dez", 12),
];

/// The month of a name, of which the first three letters are looked at.
fn month_of(name: &str) -> Option<u8> {
    for (front, month) in MONTHS {
        let found = name.get(..front.len()).unwrap_or("");
        if found.eq_ignore_ascii_case(*front) {
            return Some(*month);
        }
    }
    None
}

/// Whether the year has a 29 February. One that isn't known may have.
fn has_leap_day(year: Option<u16>) -> bool {
    match year {
        Some(year) => year % 4 == 0 && (year % 100 != 0 || year % 400 == 0),
        None => true,
    }
}

/// The most days of a month of the year.
fn days_of(year: Option<u16>, month: u8) -> u8 {
    match month {
        2 if has_leap_day(year) => 29,
        2 => 28,
        4 | 6 | 9 | 11 => 30,
        1..=12 => 31,
        _ => 0,
    }
}

/// The date of these numbers, if there is one. A year of zeros is none.
fn valid_date(year: Option<u16>, month: u8, day: u8) -> Option<Date> {
    let year = if year == Some(0) { None } else { year };
    if day > 0 && day <= days_of(year, month) {
        Some(Date { year, month, day })
    } else {
        None
    }
}

/// The three parts of a text with the separator between them.
fn three_parts(text: &str, separator: char) -> Option<(&str, &str, &str)> {
    let (first, rest) = text.split_once(separator)?;
    let (second, third) = rest.split_once(separator)?;
    Some((first, second, third))
}

/// The date of year, month and day.
fn year_first(parts: (&str, &str, &str)) -> Option<Date> {
    let (year, month, day) = parts;
    if year.len() != 4 {
        return None;
    }
    valid_date(
        Some(year_of(year)?),
        small_number(month)?,
        small_number(day)?,
    )
}

/// The date of day, month and year, in which the month may be a name.
fn day_first(parts: (&str, &str, &str)) -> Option<Date> {
    let (day, month, year) = parts;
    let month = small_number(month).or(month_of(month))?;
    valid_date(Some(year_of(year)?), month, small_number(day)?)
}

/// The date of a day, the name of a month, and a year.
fn with_name(parts: (&str, &str, &str)) -> Option<Date> {
    let (day, month, year) = parts;
    valid_date(Some(year_of(year)?), month_of(month)?, small_number(day)?)
}

/// The numbers of a date whose order isn't known.
fn numbers(parts: (&str, &str, &str)) -> Option<Parsed> {
    let (first, second, year) = parts;
    Some(Parsed::Numbers(small_number(first)?, small_number(second)?, year_of(year)?))
}

fn parsed_date(found: Option<Date>) -> Option<Parsed> {
    Some(Parsed::Date(found?))
}

/// A date without a year: `--04-15` or `--0415`.
fn without_year(text: &str) -> Option<Date> {
    let rest = text.strip_prefix("--")?;
    let (month, day) = match rest.split_once('-') {
        Some(parts) => parts,
        None => (rest.get(..2)?, rest.get(2..)?),
    };
    valid_date(None, small_number(month)?, small_number(day)?)
}

/// A date of eight digits: `19800415`.
fn eight_digits(text: &str) -> Option<Date> {
    if text.len() != 8 {
        return None;
    }
    year_first((text.get(..4)?, text.get(4..6)?, text.get(6..)?))
}

/// What a text with the separator between three parts is.
fn separated(text: &str, separator: char) -> Option<Parsed> {
    let parts = three_parts(text, separator)?;
    let is_ordered = separator == '.';
    parsed_date(year_first(parts))
        .or(parsed_date(with_name(parts)))
        .or(if is_ordered {
            parsed_date(day_first(parts))
        } else {
            numbers(parts)
        })
}

/// A time of midnight, as it stands after a date.
const MIDNIGHTS: &[&str] = &["T00:00:00", " 00:00:00", " 0:00:00", " 00:00", " 0:00"];

/// The text without white space around it, and without a time of midnight after it.
fn without_midnight(text: &str) -> &str {
    let text = text.trim();
    for time in MIDNIGHTS {
        if let Some(front) = text.strip_suffix(*time) {
            return front;
        }
    }
    text
}

/// What the text is, if it is a date.
fn parse(text: &str) -> Option<Parsed> {
    let text = without_midnight(text);
    parsed_date(without_year(text))
        .or(parsed_date(eight_digits(text)))
        .or(separated(text, '-'))
        .or(separated(text, '/'))
        .or(separated(text, '.'))
        .or(separated(text, ' '))
}

/// The date of two numbers of which one is the month, if there is only one.
fn only_date(day_first: Option<Date>, month_first: Option<Date>) -> Option<Date> {
    match (day_first, month_first) {
        (Some(a), Some(b)) if a.day == b.day => Some(a),
        (Some(_), Some(_)) => None,
        (found, None) => found,
        (None, found) => found,
    }
}

/// The date that the text is in a file with this order.
fn read_date(text: &str, order: DateOrder) -> Option<Date> {
    match parse(text)? {
        Parsed::Date(found) => Some(found),
        Parsed::Numbers(first, second, year) => {
            let day_first = valid_date(Some(year), second, first);
            let month_first = valid_date(Some(year), first, second);
            match order {
                DateOrder::DayFirst => day_first.or(month_first),
                DateOrder::MonthFirst => month_first.or(day_first),
                DateOrder::Unknown => only_date(day_first, month_first),
            }
        }
    }
}

/// Appends a number of two digits.
fn push_two(date: &mut String, number: u8) -> Result<(), NoMemory> {
    date.push(char::from((number / 10 % 10).saturating_add(b'0')))?;
    date.push(char::from((number % 10).saturating_add(b'0')))?;
    Ok(())
}

/// Appends a year, or what stands for one.
fn push_year(date: &mut String, year: Option<u16>) -> Result<(), NoMemory> {
    match year {
        Some(year) => {
            push_two(date, u8::try_from(year / 100).unwrap_or(0))?;
            push_two(date, u8::try_from(year % 100).unwrap_or(0))
        }
        None => {
            date.push_str("--")?;
            Ok(())
        }
    }
}

/// The date in the basic form: `19900415`, or `--0415` without a year. `None` if the text is no
/// date, or if it may be two: in a file whose order isn't known, `05/04/1980`. The only `Err` is
/// out of memory.
pub fn basic_date(alloc: Global, text: &str, order: DateOrder) -> Result<Option<String>, NoMemory> {
    let Some(found) = read_date(text, order) else {
        return Ok(None);
    };
    let mut date = String::new(alloc);
    push_year(&mut date, found.year)?;
    push_two(&mut date, found.month)?;
    push_two(&mut date, found.day)?;
    Ok(Some(date))
}

impl DateSigns {
    /// Signs of no date.
    pub fn new() -> DateSigns {
        DateSigns {
            has_day_first: false,
            has_month_first: false,
            has_open: false,
        }
    }

    /// Takes the sign of a date: a number that is no month, or two different months.
    pub fn note(&mut self, text: &str) {
        if let Some(Parsed::Numbers(first, second, year)) = parse(text) {
            let day_first = valid_date(Some(year), second, first).is_some();
            let month_first = valid_date(Some(year), first, second).is_some();
            self.has_day_first = self.has_day_first || day_first && !month_first;
            self.has_month_first = self.has_month_first || month_first && !day_first;
            let is_open = day_first && month_first && first != second;
            self.has_open = self.has_open || is_open;
        }
    }

    /// The order of the dates. `None` if one may be two, and the others don't say which it is.
    pub fn order(&self) -> Option<DateOrder> {
        match (self.has_day_first, self.has_month_first) {
            (true, false) => Some(DateOrder::DayFirst),
            (false, true) => Some(DateOrder::MonthFirst),
            _ if self.has_open => None,
            _ => Some(DateOrder::Unknown),
        }
    }
}
