//! `TextSet`: a set of texts that contracts see as a list of octet lists.
ghost use Rattle.std.specs.Prelude.{◌≡◌, ◌↔◌, IsTrue, OnOk, IfOk, Contains, []};
ghost use Rattle.std.specs.List.Sorted.{IsStrictlySortedBy};
ghost use Rattle.base_types.specs.TextMaps.{text_cmp};
ghost use Rattle.card_core.specs.internal.TextSets.{GainsText};

use std::alloc::Global;
use std::collections::BTreeSet;
use std::marker::Model;
use vcard_text::{Items, NoMemory, Text};

/// Distinct texts, in octet order.
#[derive(Drop)]
pub(crate) struct TextSet {
    inner: BTreeSet<String>,
}

impl Model for TextSet {
    ghost use Rattle.std.specs.Prelude.{ℕ, List, map, string_bytes};

    ghost Value = { List (List ℕ) };

    ghost view = { λ set. map string_bytes set.inner.keys };
}

impl TextSet {
    /// An empty set. Allocates nothing.
    pub(crate) fn new(alloc: Global) -> TextSet
        ensures { result ≡ [] }
    {
        TextSet {
            inner: BTreeSet::new(alloc),
        }
    }

    pub(crate) fn contains(&self, text: &str) -> bool
        ensures { IsTrue result ↔ Contains self.now text.now }
    {
        self.inner.contains(text)
    }

    /// Adds the text. Copies it only if it is new.
    pub(crate) fn insert(&mut self, alloc: Global, text: &str) -> Result<(), NoMemory>
        ensures { OnOk result (GainsText self.old self.new text.now) }
    {
        if !self.inner.contains(text) {
            self.inner.insert(String::from_str(alloc, text)?)?;
        }
        Ok(())
    }

    /// Moves the texts into a list. Copies none of them.
    pub(crate) fn into_items(self, alloc: Global) -> Result<Items<Text>, NoMemory>
        ensures texts { IfOk result (λ items. items ≡ self) }
        ensures order { IfOk result (λ items. IsStrictlySortedBy text_cmp items) }
    {
        let TextSet { inner } = self;
        let mut items = Vec::with_capacity(alloc, inner.len())?;
        for text in inner {
            items.push(Text::new(text))?;
        }
        Ok(Items::from_vec(items))
    }
}
