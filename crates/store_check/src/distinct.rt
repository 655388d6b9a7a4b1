//! Tests whether keys are distinct.
ghost use Rattle.std.specs.BTreeSet.{IsFromIterResult};
ghost use Rattle.std.specs.List.{IsDistinct};
ghost use Rattle.std.specs.Ordering.{eq_by_cmp};
ghost use Rattle.std.specs.Prelude.{◌↔◌, IfOk, IsTrue};

use std::alloc::Global;
use std::collections::BTreeSet;
use vcard_text::NoMemory;

fn set_of<K: Ord + Drop>(alloc: Global, keys: Vec<K>) -> Result<BTreeSet<K, Global>, NoMemory>
    ensures { IfOk result (IsFromIterResult K.cmp keys.items) }
{
    Ok(keys.into_iter().collect(alloc)?)
}

/// Whether no two of the keys are equal, by putting them into a set.
pub(crate) fn are_distinct<K: Ord + Drop>(alloc: Global, keys: Vec<K>) -> Result<bool, NoMemory>
    ensures { IfOk result (λ yes. IsTrue yes ↔ IsDistinct (eq_by_cmp K.cmp) keys.items) }
{
    let count = keys.len();
    let set = set_of(alloc, keys)?;
    Ok(set.len() == count)
}
