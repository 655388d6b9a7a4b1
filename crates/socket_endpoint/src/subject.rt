//! What an event is about: the tokens of sockets.
ghost use Rattle.std.specs.Prelude.{◌≡◌, ◌^◌, ◌*◌, ◌-◌, ◌≤◌, ◌↔◌, IfSome, IsNone};
ghost use Rattle.socket_endpoint.specs.Subjects.{number_of, subject_of};

use mio::Token;

/// What is registered under a token. A socket that is open and one that lingers never have the same
/// token, so the events of a closed connection are not taken for those of the next at its place.
#[derive(Clone, Copy, Debug, PartialEq, Eq)]
pub(crate) enum Subject {
    /// The listener.
    Listener,
    /// The open connection at the place.
    Place(usize),
    /// The closed connection that lingers in the slot.
    Lingerer(usize),
}

/// Twice the number. `None` if the number is 2^63 - 1 or more.
fn doubled(number: usize) -> Option<usize>
    ensures twice { IfSome result (λ twice. twice ≡ number * 2) }
    ensures none { IsNone result ↔ (2 ^ 63 - 1 ≤ number) }
{
    if number < (1 << 63) - 1 {
        Some(number * 2)
    } else {
        None
    }
}

/// The token of a subject. `None` if its number is 2^63 - 1 or more.
pub(crate) fn token_of(subject: Subject) -> Option<Token>
    ensures one { IfSome result (λ token. subject_of token.0 ≡ subject) }
    ensures none { IsNone result ↔ (2 ^ 63 - 1 ≤ number_of subject) }
{
    match subject {
        Subject::Listener => Some(Token(0)),
        Subject::Place(place) => Some(Token(doubled(place)? + 1)),
        Subject::Lingerer(slot) => Some(Token(doubled(slot)? + 2)),
    }
}

/// The subject of a token.
pub(crate) fn subject_of(token: Token) -> Subject
    ensures { result ≡ subject_of token.0 }
{
    let number = token.0;
    if number == 0 {
        Subject::Listener
    } else if number % 2 == 1 {
        Subject::Place(number / 2)
    } else {
        Subject::Lingerer(number / 2 - 1)
    }
}
