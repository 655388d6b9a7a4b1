//! Joins physical lines into logical lines (RFC 6350, section 3.2).
ghost use Rattle.std.specs.Prelude.{◌≡◌, ◌++◌, IsTrue, OnOk, drop, string_bytes};
ghost use Rattle.vcard_lines.specs.LogicalLines.{continues};
ghost use Rattle.vcard_lines.specs.Unfolding.{line_so_far};

use base_types::NoMemory;

/// Whether a physical line continues the one before it: it begins with a space or a tab (RFC 6350,
/// section 3.2).
pub fn continues(piece: &str) -> bool
    ensures { result ≡ continues piece.now }
{
    matches!(piece.as_bytes().first(), Some(b' ' | b'\t'))
}

/// A continuation line without its leading space or tab.
fn without_leading_space(piece: &str) -> &str
    requires { IsTrue (continues piece.now) }
    ensures { result.now ≡ drop 1 piece.now }
{
    &piece[1..]
}

/// The logical line so far: its only physical line, or the text joined from several.
pub fn line_so_far<'a>(first: &'a str, joined: &'a String) -> &'a str
    ensures { result.now ≡ line_so_far first.now (string_bytes joined.now) }
{
    if joined.is_empty() {
        first
    } else {
        joined.as_str()
    }
}

/// Appends a continuation line, without its first space or tab, to the logical line so far (RFC
/// 6350, section 3.2). `NoMemory` if an allocation fails; `joined` may then hold a part.
pub fn join(first: &str, joined: &mut String, piece: &str) -> Result<(), NoMemory>
    requires { IsTrue (continues piece.now) }
    ensures { OnOk result (line_so_far first.now (string_bytes joined.new)
        ≡ line_so_far first.now (string_bytes joined.old) ++ drop 1 piece.now) }
{
    if joined.is_empty() {
        joined.push_str(first)?;
    }
    joined.push_str(without_leading_space(piece))?;
    Ok(())
}
