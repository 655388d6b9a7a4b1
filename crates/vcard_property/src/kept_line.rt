//! Lines that keep a text as it is, for what no property of vCard 4.0 can hold.
ghost use Rattle.std.specs.Prelude.{◌≡◌, false, IfOk};
ghost use Rattle.std.specs.Str.{str_to_ascii_uppercase};
ghost use Rattle.vcard_lines.specs.Grammar.{IsName};
ghost use Rattle.vcard_lines.specs.TextValues.{unescaped_text};
ghost use Rattle.vcard_text.specs.Cards.{IsProperLine};
ghost use Rattle.vcard_values.specs.KeptTexts.{has_control, kept_text};

use std::alloc::Global;
use vcard_changes::plain_line;
use vcard_text::{Line, NoMemory};
use vcard_values::text_value;

/// A line that keeps a text, without group and parameters. The only `Err` is out of memory.
pub fn text_line(alloc: Global, name: &str, text: &str) -> Result<Line, NoMemory>
    ensures name { IfOk result (λ line. line.name ≡ name.now) }
    ensures kept { IfOk result (λ line. unescaped_text line.value ≡ kept_text text.now) }
    ensures text { has_control text.now ≡ false
        → IfOk result (λ line. unescaped_text line.value ≡ text.now) }
    ensures proper { IsName name.now → name.now ≡ str_to_ascii_uppercase name.now
        → IfOk result IsProperLine }
{
    let value = text_value(alloc, text)?;
    plain_line(alloc, name, value)
}
