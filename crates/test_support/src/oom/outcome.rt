//! Outcomes of cases.

/// The outcome of a case.
#[derive(Clone, Copy)]
pub enum Outcome {
    /// The call had the result and the effect that it has when nothing is refused.
    Same,
    /// It ran out of memory and changed nothing, and had the expected result and effect when it was
    /// repeated.
    OutOfMemory,
    /// It ran out of memory and changed nothing, and had another result or effect when it was
    /// repeated.
    AnotherThen,
    /// It ran out of memory, and something was changed.
    Changed,
    /// It didn't run out of memory, and had another result or effect.
    AnotherAnswer,
}

impl Outcome {
    /// The outcome of a call that ran out of memory. `left` says whether nothing was changed,
    /// `again` whether its result and its effect were the expected ones when it was repeated.
    pub(crate) fn without_memory(left: bool, again: bool) -> Outcome {
        match (left, again) {
            (true, true) => Outcome::OutOfMemory,
            (true, false) => Outcome::AnotherThen,
            (false, _) => Outcome::Changed,
        }
    }

    /// The text of the outcome, which is printed after the case's name.
    pub fn line(self) -> &'static str {
        match self {
            Outcome::Same => "as it is without refusals\n",
            Outcome::OutOfMemory => "out of memory, nothing changed, asked again gives the same\n",
            Outcome::AnotherThen => {
                "out of memory, nothing changed, asked again gives something else\n"
            }
            Outcome::Changed => "out of memory, and something changed\n",
            Outcome::AnotherAnswer => "another answer\n",
        }
    }

    /// Whether the outcome is a failure of the test.
    pub fn is_finding(self) -> bool {
        !matches!(self, Outcome::Same | Outcome::OutOfMemory)
    }

    /// Combines two outcomes: the first finding, or else out of memory if one of them is, or
    /// `Same`.
    pub fn and(self, next: Outcome) -> Outcome {
        if self.is_finding() || next == Outcome::Same {
            self
        } else {
            next
        }
    }
}
