//! Whether the labels that are joined have their addresses.
ghost use Rattle.std.specs.Prelude.{◌≡◌, IsTrue, count_by};
ghost use Rattle.vcard_import.specs.Labels.{HaveAddresses, is_joined, is_labelling};

use vcard_changes::{Change, ChangeKind};

/// Whether the change says that a label is joined to its address.
fn is_joined(change: &Change) -> bool
    ensures { result ≡ is_joined change.now }
{
    matches!(change.kind, ChangeKind::Joined)
}

/// Whether the change says that an address got a label.
fn is_labelling(change: &Change) -> bool
    ensures { result ≡ is_labelling change.now }
{
    matches!(change.kind, ChangeKind::Labelled)
}

/// How many labels are joined.
fn count_joined(changes: &[Change]) -> usize
    ensures { result ≡ count_by is_joined changes.now }
{
    changes.iter().filter(|change| is_joined(*change)).count()
}

/// How many addresses got a label.
fn count_labelled(changes: &[Change]) -> usize
    ensures { result ≡ count_by is_labelling changes.now }
{
    changes
        .iter()
        .filter(|change| is_labelling(*change))
        .count()
}

/// Whether no more labels are joined than addresses got one.
pub(crate) fn have_addresses(changes: &[Change]) -> bool
    ensures { IsTrue result → HaveAddresses changes.now }
{
    count_joined(changes) <= count_labelled(changes)
}
