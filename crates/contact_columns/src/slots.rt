//! `Slot`: the columns that give one property.

use crate::meaning::{Meaning, Part};
use base_types::{Items, NoMemory, Text};
use std::alloc::Global;

/// A column of a slot.
#[derive(Clone, Copy)]
pub struct SlotColumn {
    /// The index of the column in the row, from 0.
    pub place: usize,
    /// What its cells are of the property.
    pub part: Part,
}

/// The columns that give one property, as `Phone 1 - Label` and `Phone 1 - Value`.
#[derive(Drop)]
pub struct Slot {
    /// The name of the property.
    pub property: Text,
    /// What tells the slot from others of the same property.
    key: Text,
    /// The types that the names of the columns give, with commas between them; empty if they give
    /// none.
    pub types: Text,
    /// The columns, each with another part.
    pub columns: Items<SlotColumn>,
}

impl Slot {
    /// A slot without columns.
    fn new(alloc: Global, meaning: Meaning<'_>) -> Result<Slot, NoMemory> {
        Ok(Slot {
            property: Text::copy_of(alloc, meaning.property)?,
            key: Text::copy_of(alloc, meaning.key)?,
            types: Text::copy_of(alloc, meaning.types)?,
            columns: Items::new(alloc),
        })
    }

    /// Whether a column with the meaning belongs to the slot.
    fn takes(&self, meaning: Meaning<'_>) -> bool {
        self.property.as_str() == meaning.property
            && self.key.as_str() == meaning.key
            && self.types.as_str() == meaning.types
    }

    /// Whether the slot has the column at the index.
    fn has_place(&self, place: usize) -> bool {
        for column in self.columns.as_slice() {
            if column.place == place {
                return true;
            }
        }
        false
    }

    /// The index in the row of the column with the part, if the slot has one.
    pub fn place_of(&self, part: Part) -> Option<usize> {
        let column = self
            .columns
            .as_slice()
            .iter()
            .find(|column| column.part == part)?;
        Some(column.place)
    }
}

/// The index of the slot to which a column with the meaning belongs, or the number of slots.
fn slot_index(slots: &[Slot], meaning: Meaning<'_>) -> usize {
    slots
        .iter()
        .position(|slot| slot.takes(meaning))
        .unwrap_or(slots.len())
}

/// The most slots of a file, so that a header with many columns is read in linear time.
const SLOTS_MAX: usize = 1000;

/// Adds a column to the slot to which it belongs. Returns false, and adds nothing, if a column
/// before it has its part, or if there are too many slots.
pub(crate) fn add_column(
    alloc: Global,
    slots: &mut Vec<Slot>,
    place: usize,
    meaning: Meaning<'_>,
) -> Result<bool, NoMemory> {
    let index = slot_index(slots.as_slice(), meaning);
    if index == slots.len() && index < SLOTS_MAX {
        slots.push(Slot::new(alloc, meaning)?)?;
    }
    let Some(slot) = slots.get_mut(index) else {
        return Ok(false);
    };
    let part = meaning.part;
    if slot.place_of(part).is_some() {
        return Ok(false);
    }
    slot.columns.push(SlotColumn { place, part })?;
    Ok(true)
}

/// Adds a slot of its own for a column, unless there are too many slots.
pub(crate) fn add_slot(
    alloc: Global,
    slots: &mut Vec<Slot>,
    place: usize,
    meaning: Meaning<'_>,
) -> Result<(), NoMemory> {
    if slots.len() >= SLOTS_MAX {
        return Ok(());
    }
    let mut slot = Slot::new(alloc, meaning)?;
    let part = meaning.part;
    slot.columns.push(SlotColumn { place, part })?;
    slots.push(slot)?;
    Ok(())
}

/// Whether a slot has the column at the index.
pub(crate) fn has_place(slots: &[Slot], place: usize) -> bool {
    for slot in slots {
        if slot.has_place(place) {
            return true;
        }
    }
    false
}
