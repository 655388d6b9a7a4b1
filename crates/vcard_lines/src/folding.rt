//! Writes logical lines folded (RFC 6350, section 3.2).
ghost use Rattle.std.specs.Prelude.{◌≡◌, ◌≤◌, [], ◌∷◌, ◌++◌, OnOk, string_bytes};
ghost use Rattle.base_types.specs.Octets.{carriage_return, line_feed, space};
ghost use Rattle.vcard_lines.specs.Folding.{folded_text};
ghost use Rattle.vcard_lines.specs.internal.FoldingLoop.{fold_char, fold_state, append_folded};

use base_types::NoMemory;

/// Ends a physical line and begins a continuation line.
fn begin_continuation(out: &mut String) -> Result<(), NoMemory>
    ensures { OnOk result (string_bytes out.new
        ≡ string_bytes out.old ++ carriage_return ∷ line_feed ∷ space ∷ []) }
{
    out.push_str("\r\n ")?;
    Ok(())
}

/// Appends one character to the physical line, or to a new continuation line if it doesn't fit.
fn push_folded_char(out: &mut String, room: &mut usize, c: char) -> Result<(), NoMemory>
    requires { room.old ≤ 75 }
    ensures written { OnOk result (fold_state (string_bytes out.new) room.new
        ≡ fold_char (fold_state (string_bytes out.old) room.old) c) }
    ensures room { OnOk result (room.new ≤ 75) }
{
    let len = c.len_utf8();
    if *room < len {
        begin_continuation(out)?;
        *room = 74;
    }
    out.push(c)?;
    *room -= len;
    Ok(())
}

/// Writes the rest of a logical line character by character and ends it. `room` is the number of
/// octets that still fit into the physical line.
fn write_line_tail(out: &mut String, mut room: usize, rest: &str) -> Result<(), NoMemory>
    requires { room ≤ 75 }
    ensures { OnOk result (string_bytes out.new
        ≡ append_folded (string_bytes out.old) room rest.now) }
{
    for c in rest.chars() {
        push_folded_char(out, &mut room, c)?;
    }
    out.push_str("\r\n")?;
    Ok(())
}

/// Appends a logical line, folded and ended by CRLF. Writes a whole physical line at a time until
/// one would end inside a character.
pub fn write_folded(out: &mut String, line: &str) -> Result<(), NoMemory>
    ensures { OnOk result (string_bytes out.new ≡ string_bytes out.old ++ folded_text line.now) }
{
    let mut rest = line;
    let mut room = 75;
    while room < rest.len() {
        let Some((piece, tail)) = rest.split_at_checked(room) else {
            return write_line_tail(out, room, rest);
        };
        out.push_str(piece)?;
        begin_continuation(out)?;
        rest = tail;
        room = 74;
    }
    out.push_str(rest)?;
    out.push_str("\r\n")?;
    Ok(())
}
