//! Labels of values, and the types that vCard 4.0 has for them.
ghost use Rattle.std.specs.Prelude.{◌≡◌, map};
ghost use Rattle.contact_values.specs.Labels.{label_types};

/// The types of RFC 6350 that a label is (sections 5.6, 6.4.1 and 6.6.6); none if it has none.
pub fn label_types(label: &str) -> &'static [&'static str]
    ensures { map (λ kind. kind.now) result.now ≡ label_types label.now }
{
    if label.eq_ignore_ascii_case("home") {
        &["home"]
    } else if label.eq_ignore_ascii_case("work") {
        &["work"]
    } else if label.eq_ignore_ascii_case("mobile") {
        &["cell"]
    } else if label.eq_ignore_ascii_case("pager") {
        &["pager"]
    } else if label.eq_ignore_ascii_case("home fax") {
        &["home", "fax"]
    } else if label.eq_ignore_ascii_case("work fax") {
        &["work", "fax"]
    } else if label.eq_ignore_ascii_case("fax") {
        &["fax"]
    } else if label.eq_ignore_ascii_case("other fax") {
        &["fax"]
    } else if label.eq_ignore_ascii_case("cell") {
        &["cell"]
    } else if label.eq_ignore_ascii_case("mobil") {
        &["cell"]
    } else if label.eq_ignore_ascii_case("privat") {
        &["home"]
    } else if label.eq_ignore_ascii_case("arbeit") {
        &["work"]
    } else if label.eq_ignore_ascii_case("spouse") {
        &["spouse"]
    } else if label.eq_ignore_ascii_case("child") {
        &["child"]
    } else if label.eq_ignore_ascii_case("parent") {
        &["parent"]
    } else if label.eq_ignore_ascii_case("friend") {
        &["friend"]
    } else {
        &[]
    }
}
