//! Changes of form: how often each kind of them came, and the lines that say so.

use base_types::{NoMemory, Text};
use std::alloc::Global;

/// A kind of change by which nothing is lost.
#[derive(Clone, Copy, PartialEq, Eq)]
pub enum FormKind {
    /// A line of a card is written as vCard 4.0 writes it.
    Rewritten,
    /// A line of a card has the name that vCard 4.0 has for it.
    Renamed,
    /// A label is a parameter of its address.
    Joined,
    /// An address has a label as its parameter.
    Labelled,
    /// A card without a UID got one.
    NewUid,
    /// A card is the same as an earlier one, and is passed.
    SameCard,
    /// A cell is written as vCard 4.0 writes it.
    Cell,
    /// A row has the cells of an earlier one, and is passed.
    SameRow,
}

/// How often a kind of change came to lines or cells of one name.
#[derive(Drop)]
struct FormCount {
    kind: FormKind,
    name: Text,
    count: u64,
}

/// The most names that are counted apart. Names are a stranger's, so that there may be any number.
const NAMES_MAX: usize = 64;

/// How often each kind of change came to each name, up to a number of names.
#[derive(Drop)]
pub(crate) struct FormChanges {
    counts: Vec<FormCount>,
}

/// The name for those beyond the most names.
fn other_name(kind: FormKind) -> &'static str {
    match kind {
        FormKind::Cell => "other columns",
        _ => "other properties",
    }
}

/// The decimal digits of a number, with a comma before each three.
fn grouped(alloc: Global, number: u64) -> Result<String, NoMemory> {
    let digits = format!(in alloc; "{number}")?;
    let len = digits.len();
    let mut text = String::new(alloc);
    for (place, c) in digits.chars().enumerate() {
        if place > 0 && len.saturating_sub(place) % 3 == 0 {
            text.push(',')?;
        }
        text.push(c)?;
    }
    Ok(text)
}

/// A number of things: `1 line`, or `1,000 lines`.
pub(crate) fn counted(alloc: Global, number: u64, thing: &str) -> Result<String, NoMemory> {
    let digits = grouped(alloc, number)?;
    if number == 1 {
        return Ok(format!(in alloc; "{digits} {thing}")?);
    }
    Ok(format!(in alloc; "{digits} {thing}s")?)
}

/// The line for cards or rows that came before.
fn same_line(alloc: Global, count: u64, thing: &str, how: &str) -> Result<String, NoMemory> {
    let things = counted(alloc, count, thing)?;
    let again = if count == 1 { "isn't" } else { "aren't" };
    Ok(format!(in alloc; "{things} {how} an earlier one {again} written again\n")?)
}

/// The line that says how often a change came.
fn count_line(alloc: Global, item: &FormCount) -> Result<String, NoMemory> {
    let name = item.name.as_str();
    let count = item.count;
    let (thing, done) = match item.kind {
        FormKind::Rewritten => ("line", "put into the form of vCard 4.0"),
        FormKind::Renamed => ("line", "renamed for vCard 4.0"),
        FormKind::Joined => ("line", "joined to an address"),
        FormKind::Labelled => ("line", "given the text of a LABEL"),
        FormKind::NewUid => ("card", "that had none got one"),
        FormKind::Cell => ("cell", "put into the form of vCard 4.0"),
        FormKind::SameCard => return same_line(alloc, count, "card", "the same as"),
        FormKind::SameRow => return same_line(alloc, count, "row", "with the cells of"),
    };
    let things = counted(alloc, count, thing)?;
    Ok(format!(in alloc; "{name}: {things} {done}\n")?)
}

impl FormChanges {
    pub(crate) fn new(alloc: Global) -> FormChanges {
        FormChanges {
            counts: Vec::new(alloc),
        }
    }

    /// Counts one more, if the kind and the name are there.
    fn add(&mut self, kind: FormKind, name: &str) -> bool {
        for item in self.counts.as_mut_slice().iter_mut() {
            if item.kind == kind && item.name.as_str() == name {
                item.count = item.count.saturating_add(1);
                return true;
            }
        }
        false
    }

    /// Counts a change of a line or a cell of this name.
    pub(crate) fn count(
        &mut self,
        alloc: Global,
        kind: FormKind,
        name: &str,
    ) -> Result<(), NoMemory> {
        if self.add(kind, name) {
            return Ok(());
        }
        let name = if self.counts.len() < NAMES_MAX {
            name
        } else {
            other_name(kind)
        };
        if self.add(kind, name) {
            return Ok(());
        }
        let name = Text::copy_of(alloc, name)?;
        self.counts.push(FormCount {
            kind,
            name,
            count: 1,
        })?;
        Ok(())
    }

    /// The lines that say how often each came.
    pub(crate) fn text(&self, alloc: Global) -> Result<String, NoMemory> {
        let mut text = String::new(alloc);
        for item in &self.counts {
            text.push_str(count_line(alloc, item)?.as_str())?;
        }
        Ok(text)
    }
}
