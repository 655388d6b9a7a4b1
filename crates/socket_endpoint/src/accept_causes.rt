//! What it means that accepting a connection failed.
ghost use Rattle.std.specs.Prelude.{◌≡◌};
ghost use Rattle.socket_endpoint.specs.AcceptCauses.{accept_cause, accept_causes, cause_in};

/// Why no connection was accepted.
#[derive(Clone, Copy, Debug, PartialEq, Eq)]
pub(crate) enum AcceptCause {
    /// No connection waits.
    NoneWaits,
    /// The call was interrupted, or this one connection failed before it was accepted.
    TriesAgain,
    /// There are too few descriptors, or there is too little memory.
    Shortage,
    /// The listener failed.
    Broken,
}

/// The cause for an error number of Linux.
fn cause_of_number(number: u32) -> AcceptCause
    ensures { result ≡ cause_in accept_causes number }
{
    match number {
        // EAGAIN
        11 => AcceptCause::NoneWaits,
        // ENOMEM, ENFILE, EMFILE, ENOBUFS
        12 | 23 | 24 | 105 => AcceptCause::Shortage,
        // EINTR, ECONNABORTED
        4 | 103 => AcceptCause::TriesAgain,
        // EPERM, ENONET, EPROTO, ENOPROTOOPT, EOPNOTSUPP
        1 | 64 | 71 | 92 | 95 => AcceptCause::TriesAgain,
        // ENETDOWN, ENETUNREACH, EHOSTDOWN, EHOSTUNREACH
        100 | 101 | 112 | 113 => AcceptCause::TriesAgain,
        _ => AcceptCause::Broken,
    }
}

/// The cause for the error number of the system. An error without a number isn't the system's: the
/// connection was accepted, and its address couldn't be read.
pub(crate) fn accept_cause(code: Option<i32>) -> AcceptCause
    ensures { result ≡ accept_cause code }
{
    match code {
        None => AcceptCause::TriesAgain,
        Some(code) => {
            if code < 0 {
                AcceptCause::Broken
            } else {
                cause_of_number(code.unsigned_abs())
            }
        }
    }
}
