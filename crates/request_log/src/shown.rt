//! Writes octets that may not be visible.
ghost use Rattle.std.specs.Prelude.{◌≡◌, ◌++◌, ◌<◌, OnOk};
ghost use Rattle.request_log.specs.LogLines as lines;

use base_types::NoMemory;

/// Whether the octet is a visible ASCII character other than the backslash.
fn is_plain(octet: u8) -> bool
    ensures { result ≡ lines.is_plain octet }
{
    b' ' < octet && octet < 127 && octet != b'\\'
}

/// The hexadecimal digit of a number.
fn hex_digit(value: u8) -> u8
    requires { value < 16 }
    ensures { result ≡ lines.hex_digit value }
{
    if value < 10 {
        b'0' + value
    } else {
        b'a' - 10 + value
    }
}

/// Appends the octet, escaped if it isn't plain.
fn write_octet(out: &mut Vec<u8>, octet: u8) -> Result<(), NoMemory>
    ensures { OnOk result (out.new.items ≡ out.old.items ++ lines.escaped_octet octet) }
{
    if is_plain(octet) {
        out.push(octet)?;
    } else {
        let digits = [
            b'\\',
            b'x',
            hex_digit(octet / 16 % 16),
            hex_digit(octet % 16),
        ];
        out.extend_from_slice(&digits)?;
    }
    Ok(())
}

/// Appends the octets, each escaped if it isn't plain.
pub(crate) fn write_escaped(out: &mut Vec<u8>, octets: &[u8]) -> Result<(), NoMemory>
    ensures { OnOk result (out.new.items ≡ out.old.items ++ lines.escaped octets.now) }
{
    for octet in octets {
        write_octet(out, *octet)?;
    }
    Ok(())
}

/// Appends the first `most` octets of a text, and two dots if there are more. A backslash, a space
/// and what isn't visible ASCII is written as `\\x` and two hexadecimal digits.
pub fn write_shown(out: &mut Vec<u8>, octets: &[u8], most: usize) -> Result<(), NoMemory>
    ensures { OnOk result (out.new.items ≡ out.old.items ++ lines.shown most octets.now) }
{
    if most < octets.len() {
        write_escaped(out, &octets[..most])?;
        out.extend_from_slice(b"..")?;
    } else {
        write_escaped(out, octets)?;
    }
    Ok(())
}
