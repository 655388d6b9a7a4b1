//! `RowLines`: the lines that a row's cells become, and which line holds which cell.

use base_types::{Items, NoMemory, Text};
use contact_columns::DateOrder;
use std::alloc::Global;
use vcard_lines::{Line, has_legal_parts, is_permitted_text, write_line};

/// The lines of a row so far.
#[derive(Drop)]
pub struct RowLines {
    pub lines: Items<Line>,
    /// For each column the index of the line that holds its cell, or the first of the lines.
    pub homes: Vec<usize>,
    /// The number of groups so far.
    pub groups: u64,
    /// The order of day and month in dates.
    pub dates: DateOrder,
}

/// Whether the line, whose name is in upper case, is one of vCard 4.0 by itself: its parts match the
/// grammar, and it has no control character but the tab.
fn is_proper(alloc: Global, line: &Line) -> Result<bool, NoMemory> {
    let mut text = String::new(alloc);
    write_line(&mut text, line)?;
    Ok(is_permitted_text(text.as_str()) && has_legal_parts(line))
}

impl RowLines {
    /// No lines, for a row with this many cells, whose dates have this order.
    pub(crate) fn new(alloc: Global, cells: usize, dates: DateOrder) -> Result<RowLines, NoMemory> {
        let mut homes = Vec::new(alloc);
        for _place in 0..cells {
            homes.push(0)?;
        }
        Ok(RowLines {
            lines: Items::new(alloc),
            homes,
            groups: 0,
            dates,
        })
    }

    /// Notes that the next line is the one that holds the cell.
    pub(crate) fn set_home(&mut self, place: Option<usize>) {
        let next = self.lines.len();
        self.set_home_at(place, next);
    }

    /// Notes that the line at the index is the one that holds the cell.
    pub(crate) fn set_home_at(&mut self, place: Option<usize>, home: usize) {
        let Some(place) = place else {
            return;
        };
        if let Some(old) = self.homes.get_mut(place) {
            *old = home;
        }
    }

    /// Appends the line if it is a proper one. The cell of a line that isn't is kept aside.
    pub(crate) fn push(&mut self, alloc: Global, line: Line) -> Result<(), NoMemory> {
        if is_proper(alloc, &line)? {
            self.lines.push(line)?;
        }
        Ok(())
    }

    /// Appends a line without group and parameters.
    pub(crate) fn push_plain(
        &mut self,
        alloc: Global,
        name: &str,
        value: String,
    ) -> Result<(), NoMemory> {
        let line = Line {
            group: None,
            name: Text::copy_of(alloc, name)?,
            params: Items::new(alloc),
            value: Text::new(value),
        };
        self.push(alloc, line)
    }

    /// The name of a new group.
    pub(crate) fn new_group(&mut self, alloc: Global) -> Result<Text, NoMemory> {
        self.groups = self.groups.saturating_add(1);
        let number = self.groups;
        Ok(Text::new(format!(in alloc; "item{number}")?))
    }
}
