//! Which component of a structured value a column has (RFC 6350, section 3.3).
ghost use Rattle.std.specs.Prelude.{◌≡◌, ◌||◌, bytes_eq};
ghost use Rattle.contact_columns.specs.Components.{name_component, address_component};
ghost use Rattle.contact_columns.specs.Components.{component_of, ends, organization_component};

/// Whether the name is one of the two.
fn is_either(name: &str, one: &str, other: &str) -> bool
    ensures { result ≡ (bytes_eq name.now one.now || bytes_eq name.now other.now) }
{
    name == one || name == other
}

/// The component of N that a column of this name has in both programs' exports: 0 for family names,
/// 1 for given names, 2 for additional names, 3 for prefixes, and 4 for suffixes.
pub(crate) fn name_component(name: &str) -> Option<usize>
    ensures { result ≡ name_component name.now }
{
    if is_either(name, "Last Name", "Family Name") {
        Some(0)
    } else if is_either(name, "First Name", "Given Name") {
        Some(1)
    } else if is_either(name, "Middle Name", "Additional Name") {
        Some(2)
    } else if is_either(name, "Name Prefix", "Title") {
        Some(3)
    } else if is_either(name, "Name Suffix", "Suffix") {
        Some(4)
    } else {
        None
    }
}

/// Whether the name ends with the words.
fn ends(name: &str, words: &str) -> bool
    ensures { result ≡ ends name.now words.now }
{
    name.ends_with(words)
}

/// The component of ADR that a column of addresses has: 0 for a post office box, 1 for an extended
/// address, 2 for a street, 3 for a locality, 4 for a region, 5 for a postal code, and 6 for a
/// country. `None` for an address as a whole.
fn address_component(name: &str) -> Option<usize>
    ensures { result ≡ address_component name.now }
{
    if ends(name, "PO Box") {
        Some(0)
    } else if ends(name, "Extended Address") || ends(name, "Street 2") {
        Some(1)
    } else if ends(name, "Street") {
        Some(2)
    } else if ends(name, "City") {
        Some(3)
    } else if ends(name, "Country/Region") || ends(name, "Country") {
        Some(6)
    } else if ends(name, "Region") || ends(name, "State") {
        Some(4)
    } else if ends(name, "Postal Code") {
        Some(5)
    } else {
        None
    }
}

/// The component of ORG that a column of organizations has: 1 for a department, and otherwise 0.
fn organization_component(name: &str) -> Option<usize>
    ensures { result ≡ organization_component name.now }
{
    if ends(name, "Department") {
        Some(1)
    } else {
        Some(0)
    }
}

/// The component of the property that the cells of a column of this name are, counted from 0.
/// `None` if the property's value has no components, or if the cells are no component of it.
pub fn component_of(property: &str, name: &str) -> Option<usize>
    ensures { result ≡ component_of property.now name.now }
{
    if property == "N" {
        name_component(name)
    } else if property == "ADR" {
        address_component(name)
    } else if property == "ORG" {
        organization_component(name)
    } else {
        None
    }
}
