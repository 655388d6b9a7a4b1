//! `TextMap`: a `BTreeMap` with text keys that contracts see as a finite map from octets.
ghost use Rattle.std.specs.Prelude.{◌≡◌, ◌↔◌, IsTrue, IfNone, IfOk, IfSome, OnOk, OnErr};
ghost use Rattle.std.specs.Prelude.{string_bytes, option_copied, map, None};
ghost use Rattle.std.specs.Map.Iter.{deref_pair};
ghost use Rattle.std.specs.FinMap as finite;
ghost use Rattle.base_types.specs.TextMaps.{octet_map};

use crate::memory::NoMemory;
use std::alloc::Global;
use std::collections::BTreeMap;
use std::marker::Model;
use std::mem;

/// A `BTreeMap` with text keys, whose contracts mention only the value at each key.
#[derive(Debug, Drop)]
pub struct TextMap<V> {
    inner: BTreeMap<String, V>,
}

impl<V> Model for TextMap<V> {
    ghost use Rattle.std.specs.FinMap as finite;
    ghost use Rattle.base_types.specs.TextMaps.{text_cmp, coded_text, octet_map};

    ghost Value = { finite.FinMap text_cmp V };

    ghost coded = { finite.code coded_text V.code };

    ghost view = { λ text_map. octet_map text_map.inner };
}

/// The value at the key of a `BTreeMap` with text keys, compared octet for octet; `None` if the key
/// is absent.
pub fn value_at<'a, V>(map: &'a BTreeMap<String, V>, key: &str) -> Option<&'a V>
    ensures { option_copied result ≡ finite.get (octet_map map.now) key.now }
{
    map.get(key)
}

impl<V: Drop> TextMap<V> {
    /// An empty map. Allocates nothing.
    pub fn new(alloc: Global) -> TextMap<V>
        ensures { result ≡ finite.empty }
    {
        TextMap {
            inner: BTreeMap::new(alloc),
        }
    }

    /// Wraps a `BTreeMap`. Allocates nothing.
    pub fn from_map(map: BTreeMap<String, V>) -> TextMap<V>
        ensures { result ≡ octet_map map }
    {
        TextMap { inner: map }
    }

    /// The underlying `BTreeMap`, borrowed.
    pub fn as_map(&self) -> &BTreeMap<String, V>
        ensures { octet_map result.now ≡ self.now }
    {
        &self.inner
    }

    /// Unwraps the `BTreeMap`. Allocates nothing.
    pub fn into_map(self) -> BTreeMap<String, V>
        ensures { octet_map result ≡ self }
    {
        let TextMap { inner: whole } = self;
        whole
    }

    /// The number of entries.
    pub fn len(&self) -> usize
        ensures { result ≡ finite.len self.now }
    {
        self.inner.len()
    }

    /// Whether there are no entries.
    pub fn is_empty(&self) -> bool
        ensures { IsTrue result ↔ (finite.len self.now ≡ 0) }
    {
        self.len() == 0
    }

    /// Removes every entry.
    pub fn clear(&mut self)
        ensures { self.new ≡ finite.empty }
    {
        self.inner.clear();
    }

    /// The value at the key, compared octet for octet; `None` if the key is absent.
    pub fn get(&self, key: &str) -> Option<&V>
        ensures { option_copied result ≡ finite.get self.now key.now }
    {
        value_at(&self.inner, key)
    }

    /// Sets the value at the key. On `Err` the map is unchanged; `Err` occurs only if the key was
    /// absent.
    pub fn insert(&mut self, key: String, value: V) -> Result<(), NoMemory>
        ensures ok { OnOk result (self.new ≡ finite.insert self.old (string_bytes key) value) }
        ensures err { OnErr result (self.new ≡ self.old) }
        ensures absent { OnErr result (finite.get self.old (string_bytes key) ≡ None) }
    {
        self.inner.insert(key, value)?;
        Ok(())
    }

    /// Overwrites the value at an existing key and returns the old value. Allocates nothing. If the
    /// key is absent, the map is unchanged, the new value is dropped and the result is `None`.
    pub fn replace(&mut self, key: &str, value: V) -> Option<V>
        ensures value { result ≡ finite.get self.old key.now }
        ensures written { IfSome result (λ _. self.new ≡ finite.insert self.old key.now value) }
        ensures absent { IfNone result (self.new ≡ self.old) }
    {
        let there = self.inner.get_mut(key)?;
        Some(mem::replace(there, value))
    }

    /// Removes the entry at the key and returns its value; `None`, and no change, if the key is
    /// absent. It allocates nothing.
    pub fn remove(&mut self, key: &str) -> Option<V>
        ensures value { result ≡ finite.get self.old key.now }
        ensures removed { self.new ≡ finite.remove self.old key.now }
    {
        self.inner.remove(key)
    }

    /// The entries, in the order of the octets of their keys. `NoMemory` if the list can't be
    /// allocated.
    pub fn entries(&self, alloc: Global) -> Result<Vec<(&str, &V)>, NoMemory>
        ensures { IfOk result (λ entries. map deref_pair entries.items ≡ finite.entries self.now) }
    {
        let mut entries = Vec::new(alloc);
        for (key, value) in self.inner.iter() {
            entries.push((key.as_str(), value))?;
        }
        Ok(entries)
    }
}

impl<V: PartialEq> PartialEq for TextMap<V> {
    ghost use Rattle.std.specs.FinMap as finite;
    ghost use Rattle.std.specs.Cmp.{on_per, and_per, partial_equiv_from_equiv};
    ghost use Rattle.std.specs.Cmp.Lexicographic.{pointwise, lists_per, nat_list_eq_equiv};
    ghost use Rattle.base_types.specs.TextMaps.{same_entry};

    ghost eq = { λ a b. pointwise (same_entry V.eq) (finite.entries a) (finite.entries b) };

    ghost laws = { on_per finite.entries (lists_per (and_per
        (on_per (λ e. e.0) (partial_equiv_from_equiv nat_list_eq_equiv))
        (on_per (λ e. e.1) V.laws))) };

    fn eq(&self, other: &TextMap<V>) -> bool {
        self.inner.len() == other.inner.len() && self.inner == other.inner
    }
}

impl<V: Eq> Eq for TextMap<V> {
    ghost use Rattle.std.specs.FinMap as finite;
    ghost use Rattle.std.specs.Cmp.{on_equiv, and_equiv};
    ghost use Rattle.std.specs.Cmp.Lexicographic.{lists_equiv, nat_list_eq_equiv};

    ghost laws = { on_equiv finite.entries (lists_equiv (and_equiv
        (on_equiv (λ e. e.0) nat_list_eq_equiv)
        (on_equiv (λ e. e.1) V.Eq.laws))) };
}
