//! Finds the end of a head, one octet at a time.
ghost use Rattle.std.specs.Prelude.{◌≡◌, ◌↔◌, IsTrue};
ghost use Rattle.http_requests.specs.HeadEnds.{next};
ghost use Rattle.http_requests.specs.declared.head_state.HeadState.TheVariants.{Ended};

/// The state of the search for the end of a head. Each octet is examined once, however the stream
/// is cut.
#[derive(Clone, Copy, Debug, PartialEq, Eq)]
pub enum HeadState {
    /// Only line ends so far.
    Blank,
    /// Within a line.
    InLine,
    /// At the start of a line.
    LineStart,
    /// After a carriage return at the start of a line.
    Return,
    /// After an empty line: the head has ended.
    Ended,
}

impl HeadState {
    /// Whether the head has ended, with the empty line after its fields (RFC 9112, section 2.1).
    pub fn has_ended(self) -> bool
        ensures { IsTrue result ↔ (self ≡ Ended) }
    {
        matches!(self, HeadState::Ended)
    }

    /// The state after one more octet. A line ends with a line feed, perhaps after a carriage
    /// return (RFC 9112, section 2.2).
    pub fn next(self, octet: u8) -> HeadState
        ensures { result ≡ next self octet }
    {
        match self {
            HeadState::Blank => {
                if octet == b'\n' {
                    HeadState::Blank
                } else if octet == b'\r' {
                    HeadState::Blank
                } else {
                    HeadState::InLine
                }
            }
            HeadState::InLine => {
                if octet == b'\n' {
                    HeadState::LineStart
                } else {
                    HeadState::InLine
                }
            }
            HeadState::LineStart => {
                if octet == b'\n' {
                    HeadState::Ended
                } else if octet == b'\r' {
                    HeadState::Return
                } else {
                    HeadState::InLine
                }
            }
            HeadState::Return => {
                if octet == b'\n' {
                    HeadState::Ended
                } else {
                    HeadState::InLine
                }
            }
            HeadState::Ended => HeadState::Ended,
        }
    }
}
