//! Names of properties.
ghost use Rattle.std.specs.Prelude.{◌≡◌, ◌++◌, OnOk, string_bytes};
ghost use Rattle.vcard_text.specs.Cards.{line_is_named};
ghost use Rattle.vcard_export.specs.Names.{is_date_name, is_older_name, is_picture_name};
ghost use Rattle.vcard_export.specs.Names.{is_address_name, is_group_name, is_uri_name, is_whole_name};
ghost use Rattle.vcard_export.specs.Names.{name_prefix, older_name};

use vcard_text::{Line, NoMemory};

pub(crate) fn is_named(line: &Line, name: &str) -> bool
    ensures { result ≡ line_is_named name.now line.now }
{
    line.name.as_str() == name
}

/// Whether the property is a day.
pub(crate) fn is_date_name(line: &Line) -> bool
    ensures { result ≡ is_date_name line.now }
{
    is_named(line, "BDAY") || is_named(line, "ANNIVERSARY")
}

/// Whether the property is a picture.
pub(crate) fn is_picture_name(line: &Line) -> bool
    ensures { result ≡ is_picture_name line.now }
{
    is_named(line, "PHOTO") || is_named(line, "LOGO")
}

/// Whether the value is an address of something elsewhere.
fn is_address_name(line: &Line) -> bool
    ensures { result ≡ is_address_name line.now }
{
    is_named(line, "URL")
        || is_named(line, "SOURCE")
        || is_named(line, "IMPP")
        || is_named(line, "FBURL")
        || is_named(line, "CALURI")
        || is_named(line, "CALADRURI")
}

/// Whether the value isn't a text, unless VALUE says so, and nothing is escaped in it.
pub(crate) fn is_uri_name(line: &Line) -> bool
    ensures { result ≡ is_uri_name line.now }
{
    is_address_name(line)
        || is_named(line, "UID")
        || is_named(line, "MEMBER")
        || is_named(line, "RELATED")
        || is_named(line, "GEO")
        || is_named(line, "REV")
        || is_date_name(line)
}

/// Whether the value is one text, in which a comma is a part of it. ORG has components, and no
/// lists.
pub(crate) fn is_whole_name(line: &Line) -> bool
    ensures { result ≡ is_whole_name line.now }
{
    is_named(line, "FN")
        || is_named(line, "NOTE")
        || is_named(line, "TITLE")
        || is_named(line, "ROLE")
        || is_named(line, "ORG")
}

/// Whether vCard 3.0 has a property of the name that vCard 4.0 doesn't have.
fn is_older_name(line: &Line) -> bool
    ensures { result ≡ is_older_name line.now }
{
    is_named(line, "AGENT")
        || is_named(line, "CLASS")
        || is_named(line, "LABEL")
        || is_named(line, "MAILER")
        || is_named(line, "NAME")
        || is_named(line, "PROFILE")
        || is_named(line, "SORT-STRING")
}

/// Whether Apple's programs have the property under a name of their own.
fn is_group_name(line: &Line) -> bool
    ensures { result ≡ is_group_name line.now }
{
    is_named(line, "KIND") || is_named(line, "MEMBER")
}

/// What comes before the name in vCard 3.0.
fn name_prefix(line: &Line) -> &'static str
    ensures { result.now ≡ name_prefix line.now }
{
    if is_group_name(line) {
        "X-ADDRESSBOOKSERVER-"
    } else if is_older_name(line) {
        "X-"
    } else {
        ""
    }
}

/// Appends the name that vCard 3.0 has for the property.
pub(crate) fn push_name(out: &mut String, line: &Line) -> Result<(), NoMemory>
    ensures { OnOk result (string_bytes out.new
        ≡ string_bytes out.old ++ older_name line.now) }
{
    out.push_str(name_prefix(line))?;
    out.push_str(line.name.as_str())?;
    Ok(())
}
