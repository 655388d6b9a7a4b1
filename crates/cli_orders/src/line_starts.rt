//! The places of a text at which its lines start.
ghost use Rattle.base_types.specs.Octets.{line_feed};
ghost use Rattle.std.specs.Prelude.{◌≡◌, ◌==◌, ◌⊎◌, ◌+◌, ◌<◌, ◌≤◌, length, true};
ghost use Rattle.cli_orders.specs.FaultLines.{NoneStartsBetween, line_feed_count};
ghost use Rattle.cli_orders.specs.FaultLines.{starts_line};
ghost use Rattle.vcard_lines.specs.LogicalLines.{continues};

/// Whether the octets begin with a line that continues the one before it.
fn continues(octets: &[u8]) -> bool
    ensures { result ≡ continues octets.now }
{
    match octets.first() {
        Some(octet) => *octet == b' ' || *octet == b'\t',
        None => false,
    }
}

/// Whether a line that doesn't continue the one before it starts at the place.
pub(crate) fn starts_line(text: &[u8], place: usize) -> bool
    requires { place ≤ length text.now }
    ensures { result ≡ starts_line text.now place }
{
    0 < place && text[place - 1] == b'\n' && !continues(&text[place..])
}

/// The first place after this one at which a line starts, or the end of the text.
pub(crate) fn next_start(text: &[u8], after: usize) -> usize
    ensures later { after < length text.now → after < result }
    ensures within { result ≤ length text.now }
    ensures start { (result ≡ length text.now) ⊎ (starts_line text.now result ≡ true) }
    ensures none_between { NoneStartsBetween text.now after result }
{
    for place in after.saturating_add(1)..text.len() {
        if starts_line(text, place) {
            return place;
        }
    }
    text.len()
}

/// The last place up to this one at which a line starts, if one does after the first line.
pub(crate) fn last_start(text: &[u8], upto: usize) -> usize
    requires { upto ≤ length text.now }
    ensures bound { result ≤ upto }
    ensures start { (result ≡ 0) ⊎ (starts_line text.now result ≡ true) }
{
    for step in 0..upto {
        if starts_line(text, upto - step) {
            return upto - step;
        }
    }
    0
}

fn is_line_feed(octet: u8) -> bool
    ensures { result ≡ (octet == line_feed) }
{
    octet == b'\n'
}

/// The number of line feeds.
pub fn line_feed_count(octets: &[u8]) -> usize
    ensures count { result ≡ line_feed_count octets.now }
    ensures bound { result ≤ length octets.now }
{
    let mut count = 0usize;
    for i in 0..octets.len() {
        if is_line_feed(octets[i]) {
            count += 1;
        }
    }
    count
}
