//! What the user says of the columns of a file: `Name=fn,E-Mail=email;type=work,#7=-`.

use crate::meaning::Meaning;
use crate::targets::{Target, target_of};
use base_types::{NoMemory, Text};
use std::alloc::Global;

/// What is said of one column.
#[derive(Drop)]
pub(crate) struct Wish<'a> {
    /// The column's name, or `#` and its number, counted from 1.
    pub(crate) column: &'a str,
    /// The word for what its cells become.
    pub(crate) word: &'a str,
    /// What its cells become.
    pub(crate) target: Target,
    /// The types of the property, with commas between them; empty if there are none.
    types: Text,
}

impl Wish<'_> {
    /// The index of the column, if it is named by its number.
    pub(crate) fn place(&self) -> Option<usize> {
        let number = number_in(self.column)?;
        let place = number.checked_sub(1)?;
        usize::try_from(place).ok()
    }

    /// Whether the column is left out.
    pub(crate) fn leaves_out(&self) -> bool {
        self.target.property.is_empty()
    }

    /// What the column means. The columns of an address without types belong to the one that common
    /// names give, as `Street`; those of an address with types to that of Outlook.
    pub(crate) fn meaning(&self) -> Meaning<'_> {
        let types = self.types.as_str();
        let is_plain = self.target.property == "ADR" && types.is_empty();
        Meaning {
            property: self.target.property,
            key: if is_plain { "1" } else { "" },
            part: self.target.part,
            types,
        }
    }
}

/// The parts of an entry: the column, the word for its property, and the parameters after it, each
/// with a semicolon before it.
pub(crate) fn entry_parts(entry: &str) -> Option<(&str, &str, &str)> {
    let (column, rest) = entry.split_once('=')?;
    let column = column.trim();
    if column.is_empty() {
        return None;
    }
    match rest.split_once(';') {
        Some((word, params)) => Some((column, word.trim(), params)),
        None => Some((column, rest.trim(), "")),
    }
}

fn is_type_char(c: char) -> bool {
    c.is_ascii_alphanumeric() || c == '-'
}

/// The type in a parameter `type=work`.
fn type_in(param: &str) -> Option<&str> {
    let (name, value) = param.split_once('=')?;
    let value = value.trim();
    let is_word = !value.is_empty() && value.chars().all(is_type_char);
    if is_word && name.trim().eq_ignore_ascii_case("type") {
        Some(value)
    } else {
        None
    }
}

/// Appends a type in lower case, with a comma before it unless it is the first.
fn push_type(types: &mut String, word: &str) -> Result<(), NoMemory> {
    if !types.is_empty() {
        types.push(',')?;
    }
    for c in word.chars() {
        types.push(c.to_ascii_lowercase())?;
    }
    Ok(())
}

/// Appends the types of the parameters. Returns false at the first one that isn't a type.
fn push_types(types: &mut String, params: &str) -> Result<bool, NoMemory> {
    for param in params.split(';') {
        match type_in(param) {
            Some(word) => push_type(types, word)?,
            None => return Ok(false),
        }
    }
    Ok(true)
}

/// The types of the parameters, with commas between them. `None` if one isn't a type.
pub(crate) fn types_in(alloc: Global, params: &str) -> Result<Option<Text>, NoMemory> {
    let mut types = String::new(alloc);
    if params.is_empty() || push_types(&mut types, params)? {
        Ok(Some(Text::new(types)))
    } else {
        Ok(None)
    }
}

/// What the entry says, unless something is wrong with it.
fn wish_of<'a>(alloc: Global, entry: &'a str) -> Result<Option<Wish<'a>>, NoMemory> {
    let Some((column, word, params)) = entry_parts(entry) else {
        return Ok(None);
    };
    let Some(target) = target_of(word) else {
        return Ok(None);
    };
    let Some(types) = types_in(alloc, params)? else {
        return Ok(None);
    };
    if !types.is_empty() && !target.has_types {
        return Ok(None);
    }
    Ok(Some(Wish {
        column,
        word,
        target,
        types,
    }))
}

/// What is said of the columns, entry by entry. An entry with which something is wrong says nothing
/// (see `wish_fault`).
pub(crate) fn read_wishes<'a>(alloc: Global, wished: &'a str) -> Result<Vec<Wish<'a>>, NoMemory> {
    let mut wishes = Vec::new(alloc);
    for entry in wished.split(',') {
        if let Some(wish) = wish_of(alloc, entry)? {
            wishes.push(wish)?;
        }
    }
    Ok(wishes)
}

/// Whether the names are the same, in any case.
fn is_same_name(alloc: Global, one: &str, other: &str) -> Result<bool, NoMemory> {
    if one.eq_ignore_ascii_case(other) {
        return Ok(true);
    }
    if one.is_ascii() || other.is_ascii() {
        return Ok(false);
    }
    let one = one.to_lowercase(alloc)?;
    let other = other.to_lowercase(alloc)?;
    Ok(one.as_str() == other.as_str())
}

/// The number after `#`, counted from 1.
fn number_in(column: &str) -> Option<u64> {
    let digits = column.strip_prefix("#")?;
    match digits.parse::<u64>() {
        Ok(number) => Some(number),
        Err(_) => None,
    }
}

/// Whether the column is named by the number 0. There is none.
pub(crate) fn is_zero(column: &str) -> bool {
    number_in(column) == Some(0)
}

/// Whether the wish is about the column of this name at the index.
fn is_about(alloc: Global, wish: &Wish<'_>, place: usize, name: &str) -> Result<bool, NoMemory> {
    if let Some(number) = number_in(wish.column) {
        let place = place as u64;
        return Ok(number == place.saturating_add(1));
    }
    is_same_name(alloc, wish.column, name)
}

/// The entry that says that the file has a header, also if all other entries are by number.
pub(crate) const HEADER_ENTRY: &str = "header";

/// Whether the entry says that the file has a header.
pub(crate) fn says_header(entry: &str) -> bool {
    entry.trim().eq_ignore_ascii_case(HEADER_ENTRY)
}

/// The entry that says that the file has no header, alone or with the form of its rows.
const ROWS_ENTRY: &str = "rows";

/// The form of the rows of a file without a header.
#[derive(Clone, Copy)]
pub(crate) struct RowForm {
    /// What is between cells.
    pub(crate) delimiter: u8,
    /// The number of cells.
    pub(crate) width: usize,
}

/// The most cells of rows of which nothing but numbers of columns is known.
pub(crate) const CELLS_MAX: usize = 1_000;

/// The delimiter with this word.
fn delimiter_named(word: &str) -> Option<u8> {
    match word {
        "tab" => Some(b'\t'),
        "bar" => Some(b'|'),
        "semicolon" => Some(b';'),
        "comma" => Some(b','),
        _ => None,
    }
}

/// The word for the delimiter.
fn delimiter_word(delimiter: u8) -> &'static str {
    match delimiter {
        b'\t' => "tab",
        b'|' => "bar",
        b';' => "semicolon",
        _ => "comma",
    }
}

/// The form of rows that the entry gives, as `rows=semicolon;cells=2`.
fn entry_form(entry: &str) -> Option<RowForm> {
    let (column, word, params) = entry_parts(entry)?;
    if !column.eq_ignore_ascii_case(ROWS_ENTRY) {
        return None;
    }
    let delimiter = delimiter_named(word)?;
    let width = match params.trim().strip_prefix("cells=")?.parse::<usize>() {
        Ok(width) => width,
        Err(_) => return None,
    };
    if width == 0 || width > CELLS_MAX {
        return None;
    }
    Some(RowForm { delimiter, width })
}

/// Whether the entry says that the file has no header.
pub(crate) fn says_rows(entry: &str) -> bool {
    entry.trim().eq_ignore_ascii_case(ROWS_ENTRY) || entry_form(entry).is_some()
}

/// Whether one of the entries says that the file has no header.
pub(crate) fn has_rows_entry(wished: &str) -> bool {
    wished.split(',').any(says_rows)
}

/// The form of rows that an entry gives, if one does.
pub(crate) fn wished_form(wished: &str) -> Option<RowForm> {
    wished.split(',').find_map(entry_form)
}

/// Whether an entry gives the form of the rows of a file without a header, as the reply to its
/// first part does.
pub fn has_row_form(wished: &str) -> bool {
    wished_form(wished).is_some()
}

/// Adds the entry that gives the form of the rows of a file without a header.
pub(crate) fn push_rows_entry(
    alloc: Global,
    text: &mut String,
    form: RowForm,
) -> Result<(), NoMemory> {
    let word = delimiter_word(form.delimiter);
    let width = form.width as u64;
    let entry = format!(in alloc; ",{ROWS_ENTRY}={word};cells={width}")?;
    text.push_str(entry.as_str())?;
    Ok(())
}

/// The number of the column in an entry, counted from 1, if the column is named so.
fn entry_number(entry: &str) -> Option<u64> {
    let (column, _) = entry.split_once('=')?;
    match number_in(column.trim()) {
        Some(0) => None,
        number => number,
    }
}

/// Whether something is said of columns, and of each by its number. Then the file may have no
/// header (see `find_header`).
pub fn are_numbers(wished: &str) -> bool {
    let mut has_number = false;
    for entry in wished.split(',') {
        if entry_number(entry).is_some() {
            has_number = true;
        } else if !says_rows(entry) {
            return false;
        }
    }
    has_number
}

/// The largest number of a column among the entries; 0 if none is named so.
pub(crate) fn most_number(wished: &str) -> usize {
    let mut most: u64 = 0;
    for entry in wished.split(',') {
        most = most.max(entry_number(entry).unwrap_or(0));
    }
    usize::try_from(most).unwrap_or(usize::MAX)
}

/// Adds the entry that says that there is a header, if each other one names a column by its number.
pub(crate) fn push_header_entry(text: &mut String) -> Result<(), NoMemory> {
    if are_numbers(text.as_str()) {
        text.push(',')?;
        text.push_str(HEADER_ENTRY)?;
    }
    Ok(())
}

/// For each column of these names the index of the first wish about it, or the number of wishes.
pub(crate) fn chosen_wishes(
    alloc: Global,
    names: &[Text],
    wishes: &[Wish<'_>],
) -> Result<Vec<usize>, NoMemory> {
    let mut chosen = Vec::new(alloc);
    for place in 0..names.len() {
        chosen.push(wish_index(alloc, wishes, place, names[place].as_str())?)?;
    }
    Ok(chosen)
}

/// The index of the first wish about the column of this name at the index, or the number of wishes.
fn wish_index(
    alloc: Global,
    wishes: &[Wish<'_>],
    place: usize,
    name: &str,
) -> Result<usize, NoMemory> {
    for index in 0..wishes.len() {
        if is_about(alloc, &wishes[index], place, name)? {
            return Ok(index);
        }
    }
    Ok(wishes.len())
}

/// Whether one of the columns of these names is the one of the wish.
pub(crate) fn has_column(alloc: Global, wish: &Wish<'_>, names: &[Text]) -> Result<bool, NoMemory> {
    for place in 0..names.len() {
        if is_about(alloc, wish, place, names[place].as_str())? {
            return Ok(true);
        }
    }
    Ok(false)
}

/// Whether each wish has a column among those of these names.
pub(crate) fn have_columns(
    alloc: Global,
    wishes: &[Wish<'_>],
    names: &[Text],
) -> Result<bool, NoMemory> {
    for wish in wishes {
        if !has_column(alloc, wish, names)? {
            return Ok(false);
        }
    }
    Ok(true)
}

/// Appends a text to a list, with a comma before it unless it is the first.
pub(crate) fn push_listed(list: &mut String, text: &str) -> Result<(), NoMemory> {
    if !list.is_empty() {
        list.push_str(", ")?;
    }
    list.push_str(text)?;
    Ok(())
}

/// Appends the columns that are left out, with commas between them.
fn push_left_out(columns: &mut String, wishes: &[Wish<'_>]) -> Result<(), NoMemory> {
    for wish in wishes {
        if wish.leaves_out() {
            push_listed(columns, wish.column)?;
        }
    }
    Ok(())
}

/// The columns that are left out, with commas between them. Empty if there are none. The only `Err`
/// is out of memory.
pub fn left_out_columns(alloc: Global, wished: &str) -> Result<Text, NoMemory> {
    let wishes = read_wishes(alloc, wished)?;
    let mut columns = String::new(alloc);
    push_left_out(&mut columns, wishes.as_slice())?;
    Ok(Text::new(columns))
}
