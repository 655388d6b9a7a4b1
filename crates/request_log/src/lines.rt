//! The lines of requests.
ghost use Rattle.std.specs.Prelude.{◌≡◌, ◌++◌, ◌<◌, ◌∷◌, [], IfOk, IfSome, OnOk, eqb, length};
ghost use Rattle.std.specs.List.{position};
ghost use Rattle.base_types.specs.Octets.{line_feed};
ghost use Rattle.http_requests.specs.Guards.{writes};
ghost use Rattle.request_log.specs.LogLines as lines;
ghost use Rattle.request_log.specs.LogLines.{IsLogLine};

use crate::shown::{write_escaped, write_shown};
use base_types::NoMemory;
use http_requests::{Head, HeadFault};
use std::alloc::Global;

/// The most octets of a method that are printed.
const METHOD_OCTETS_MAX: usize = 20;

/// The most octets of a target that are printed.
const TARGET_OCTETS_MAX: usize = 200;

/// The most octets of a user that are printed.
const USER_OCTETS_MAX: usize = 100;

/// The most octets of a reply's JSON that are printed.
const JSON_OCTETS_MAX: usize = 200;

/// Appends the method and the target of a request.
fn write_request(out: &mut Vec<u8>, head: &Head) -> Result<(), NoMemory>
    ensures { OnOk result (out.new.items ≡ out.old.items
        ++ lines.request_words head.now.method head.now.target) }
{
    out.extend_from_slice(b"request ")?;
    write_shown(out, head.method.as_str().as_bytes(), METHOD_OCTETS_MAX)?;
    out.extend_from_slice(b" ")?;
    write_shown(out, head.target.as_str().as_bytes(), TARGET_OCTETS_MAX)
}

/// The octets of a reply that have its status code.
fn status_code(reply: &[u8]) -> &[u8]
    ensures { result.now ≡ lines.status_code reply.now }
{
    if reply.len() < 12 {
        &reply[reply.len().min(9)..]
    } else {
        &reply[9..12]
    }
}

/// Appends the status of a reply and its length.
fn write_reply(out: &mut Vec<u8>, reply: &[u8]) -> Result<(), NoMemory>
    ensures { OnOk result (out.new.items ≡ out.old.items ++ lines.reply_words reply.now) }
{
    let alloc = *out.allocator();
    let len = reply.len();
    out.extend_from_slice(b" status ")?;
    write_escaped(out, status_code(reply))?;
    let words = format!(in alloc; " octets {len}")?;
    out.extend_from_slice(words.as_bytes())?;
    Ok(())
}

/// Appends the time that a request took.
fn write_time(out: &mut Vec<u8>, micros: u64) -> Result<(), NoMemory>
    ensures { OnOk result (out.new.items ≡ out.old.items ++ lines.time_words micros) }
{
    let alloc = *out.allocator();
    let words = format!(in alloc; " microseconds {micros}")?;
    out.extend_from_slice(words.as_bytes())?;
    Ok(())
}

/// Appends the user that a front server names, if it names one.
fn write_user(out: &mut Vec<u8>, user: &[u8]) -> Result<(), NoMemory>
    ensures { OnOk result (out.new.items ≡ out.old.items ++ lines.user_words user.now) }
{
    if user.is_empty() {
        return Ok(());
    }
    out.extend_from_slice(b" user ")?;
    write_shown(out, user, USER_OCTETS_MAX)
}

/// The position of the first brace.
fn find_brace(reply: &[u8]) -> Option<usize>
    ensures first { result ≡ position (λ octet. eqb octet lines.brace) reply.now }
    ensures bound { IfSome result (λ i. i < length reply.now) }
{
    reply.iter().position(|octet| *octet == b'{')
}

/// The JSON of a reply, which begins with its first brace: no head of a reply has one.
fn json_of(reply: &[u8]) -> &[u8]
    ensures { result.now ≡ lines.json_of reply.now }
{
    match find_brace(reply) {
        Some(place) => &reply[place..],
        None => &[],
    }
}

/// Whether a request of the method may change a book.
fn writes(method: &[u8]) -> bool
    ensures { result ≡ writes method.now }
{
    method == b"POST".as_slice() || method == b"PUT".as_slice() || method == b"DELETE".as_slice()
}

/// Appends what a change came to.
fn write_change(out: &mut Vec<u8>, head: &Head, reply: &[u8]) -> Result<(), NoMemory>
    ensures { OnOk result (out.new.items ≡ out.old.items
        ++ lines.change_words head.now.method reply.now) }
{
    if !writes(head.method.as_str().as_bytes()) {
        return Ok(());
    }
    out.extend_from_slice(b" reply ")?;
    write_shown(out, json_of(reply), JSON_OCTETS_MAX)
}

/// Appends what follows the target in the line of a request that was answered.
fn write_outcome(
    out: &mut Vec<u8>,
    head: &Head,
    user: &[u8],
    reply: &[u8],
    micros: u64,
) -> Result<(), NoMemory>
    ensures { OnOk result (out.new.items ≡ out.old.items ++ (lines.reply_words reply.now
        ++ (lines.time_words micros ++ (lines.user_words user.now
        ++ (lines.change_words head.now.method reply.now ++ line_feed ∷ []))))) }
{
    write_reply(out, reply)?;
    write_time(out, micros)?;
    write_user(out, user)?;
    write_change(out, head, reply)?;
    out.push(b'\n')?;
    Ok(())
}

/// Appends the line of a request that was answered.
fn write_answered(
    out: &mut Vec<u8>,
    head: &Head,
    user: &[u8],
    reply: &[u8],
    micros: u64,
) -> Result<(), NoMemory>
    ensures { OnOk result (out.new.items ≡ out.old.items
        ++ lines.answered_line head.now.method head.now.target user.now reply.now micros) }
{
    write_request(out, head)?;
    write_outcome(out, head, user, reply, micros)?;
    Ok(())
}

/// Appends the line of a request for whose reply memory ran out.
fn write_lost(out: &mut Vec<u8>, head: &Head) -> Result<(), NoMemory>
    ensures { OnOk result (out.new.items ≡ out.old.items
        ++ lines.lost_line head.now.method head.now.target) }
{
    write_request(out, head)?;
    out.extend_from_slice(b" fault no-memory\n")?;
    Ok(())
}

/// Appends the line of a request that is refused for the fault of its head.
fn write_refused(out: &mut Vec<u8>, fault: HeadFault, reply: &[u8]) -> Result<(), NoMemory>
    ensures { OnOk result (out.new.items ≡ out.old.items ++ lines.refused_line fault reply.now) }
{
    let alloc = *out.allocator();
    let text = fault.text();
    let number = fault.number();
    let words = format!(in alloc; "refused {text} {number}")?;
    out.extend_from_slice(words.as_bytes())?;
    write_reply(out, reply)?;
    out.push(b'\n')?;
    Ok(())
}

/// The line of a request that was answered, for example
/// `request GET /books status 200 octets 151 microseconds 87`. If a user is given, ` user ` and the
/// name follow, and for a request that may change a book ` reply ` and the JSON of its reply.
///
/// The method is cut after 20 octets, the user after 100, and the target and the JSON after 200.
/// Octets that aren't visible ASCII characters are escaped, and so is the backslash: whatever a
/// client sends, it is one line.
pub fn answered_text(
    alloc: Global,
    head: &Head,
    user: &[u8],
    reply: &[u8],
    micros: u64,
) -> Result<Vec<u8>, NoMemory>
    ensures one_line { IfOk result (λ text. IsLogLine text.items) }
    ensures line { IfOk result (λ text. text.items
        ≡ lines.answered_line head.now.method head.now.target user.now reply.now micros) }
{
    let mut out = Vec::new(alloc);
    write_answered(&mut out, head, user, reply, micros)?;
    Ok(out)
}

/// The line of a request for whose reply memory ran out, for example
/// `request GET /books fault no-memory`.
pub fn lost_text(alloc: Global, head: &Head) -> Result<Vec<u8>, NoMemory>
    ensures one_line { IfOk result (λ text. IsLogLine text.items) }
    ensures line { IfOk result (λ text. text.items
        ≡ lines.lost_line head.now.method head.now.target) }
{
    let mut out = Vec::new(alloc);
    write_lost(&mut out, head)?;
    Ok(out)
}

/// The line of a request that is refused for the fault of its head, for example
/// `refused bad-host 23 status 400 octets 133`.
pub fn refused_text(alloc: Global, fault: HeadFault, reply: &[u8]) -> Result<Vec<u8>, NoMemory>
    ensures one_line { IfOk result (λ text. IsLogLine text.items) }
    ensures line { IfOk result (λ text. text.items ≡ lines.refused_line fault reply.now) }
{
    let mut out = Vec::new(alloc);
    write_refused(&mut out, fault, reply)?;
    Ok(out)
}
