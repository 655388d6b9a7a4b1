//! The name that vCard 4.0 has for a property (RFC 6350, section 6 and appendix A).
ghost use Rattle.std.specs.Prelude.{◌≡◌, IfOk, bytes_eq, true};
ghost use Rattle.vcard_property.specs.Names.{HasNameOf, has_clear_name, is_exchange, is_obsolete};
ghost use Rattle.vcard_property.specs.Names.{new_name};

use crate::written_names::{group_of, has_clear_name, upper_name_of};
use import_text::begins_with_word;
use std::alloc::Global;
use vcard_changes::extension_name;
use vcard_text::{Line, NoMemory, Text};
use vcard_values::says_uri;

fn is_name(name: &str, other: &str) -> bool
    ensures { result ≡ bytes_eq name.now other.now }
{
    name == other
}

/// Whether vCard 4.0 has no such property, and none that says the same.
fn is_obsolete(name: &str) -> bool
    ensures { result ≡ is_obsolete name.now }
{
    is_name(name, "CLASS")
        || is_name(name, "MAILER")
        || is_name(name, "NAME")
        || is_name(name, "PROFILE")
        || is_name(name, "SORT-STRING")
}

/// Whether the value is an address within an Exchange server, which nobody else can write to. It
/// gives way to the one of SMTP.
fn is_exchange(name: &str, value: &str) -> bool
    ensures { result ≡ is_exchange name.now value.now }
{
    is_name(name, "EMAIL") && begins_with_word(value.as_bytes(), b"/O=")
}

/// The name that a property of a name in upper case gets, with this new value.
pub(crate) fn new_name(
    alloc: Global,
    is_uri: bool,
    value: &str,
    name: &str,
) -> Result<Text, NoMemory>
    ensures { IfOk result (λ new. new ≡ new_name is_uri value.now name.now) }
{
    if is_name(name, "X-ADDRESSBOOKSERVER-KIND") {
        Text::copy_of(alloc, "KIND")
    } else if is_name(name, "X-ADDRESSBOOKSERVER-MEMBER") {
        Text::copy_of(alloc, "MEMBER")
    } else if is_name(name, "LABEL") {
        Text::copy_of(alloc, "ADR")
    } else if is_name(name, "AGENT") && is_uri {
        Text::copy_of(alloc, "RELATED")
    } else if is_name(name, "AGENT") || is_obsolete(name) || is_exchange(name, value) {
        extension_name(alloc, name)
    } else {
        Text::copy_of(alloc, name)
    }
}

/// The line of these octets under the name that vCard 4.0 has for it, and with its group. They are
/// those of the octets, if these are clear, and otherwise those that the line has; so is whether
/// the value is a URI.
pub(crate) fn renamed_line(
    alloc: Global,
    line: Line,
    octets: &[u8],
    is_uri: bool,
) -> Result<Line, NoMemory>
    ensures named { has_clear_name octets.now ≡ true → IfOk result (HasNameOf octets.now) }
    ensures value { IfOk result (λ new. new.value ≡ line.value) }
    ensures params { IfOk result (λ new. new.params ≡ line.params) }
{
    let Line {
        group,
        name,
        params,
        value,
    } = line;
    if !has_clear_name(octets) {
        let name = new_name(alloc, is_uri, value.as_str(), name.as_str())?;
        return Ok(Line {
            group,
            name,
            params,
            value,
        });
    }
    let name = upper_name_of(alloc, octets)?;
    Ok(Line {
        group: group_of(alloc, octets)?,
        name: new_name(alloc, says_uri(octets), value.as_str(), name.as_str())?,
        params,
        value,
    })
}
