//! Writes the members of JSON objects (RFC 8259, section 4).
ghost use Rattle.std.specs.Prelude.{◌≡◌, ◌∷◌, [], decimal};
ghost use Rattle.json.specs.Token.{key, number, string};
ghost use Rattle.page_json.specs.internal.WrittenTokens.{AppendsTokens};

use json::Writer;
use vcard_text::NoMemory;

/// Writes a name with a text.
pub(crate) fn write_text(out: &mut Writer, name: &str, text: &str) -> Result<(), NoMemory>
    ensures { AppendsTokens result out.old out.new (key name.now ∷ string text.now ∷ []) }
{
    out.key(name)?;
    Ok(out.string(text)?)
}

/// Writes a name with a number.
pub(crate) fn write_number(out: &mut Writer, name: &str, n: u64) -> Result<(), NoMemory>
    ensures { AppendsTokens result out.old out.new (key name.now ∷ number (decimal n) ∷ []) }
{
    out.key(name)?;
    Ok(out.u64(n)?)
}
