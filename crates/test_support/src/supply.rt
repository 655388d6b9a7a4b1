//! Memory for the values of a test.
use base_types::{NoMemory, Text};
use std::alloc::Global;

/// An allocator that remembers whether memory ran out. So a function that makes a value, or adds to
/// one, needs no early return: each of these costs its proof as much as ten calls without one.
#[derive(Drop)]
pub struct Supply {
    /// The allocator.
    pub alloc: Global,
    /// Whether memory ran out, or something else went wrong, at some call.
    pub ran_out: bool,
}

impl Supply {
    /// The allocator, of which nothing was asked yet.
    pub fn new(alloc: Global) -> Supply {
        Supply {
            alloc,
            ran_out: false,
        }
    }

    /// The value that was made. Remembers if there is none.
    pub fn keep<T, E: Drop>(&mut self, made: Result<T, E>) -> Option<T> {
        match made {
            Ok(value) => Some(value),
            Err(_) => {
                self.ran_out = true;
                None
            }
        }
    }

    /// Remembers if something failed.
    pub fn note<E: Drop>(&mut self, done: Result<(), E>) {
        if done.is_err() {
            self.ran_out = true;
        }
    }

    /// A copy of the text; empty if memory ran out.
    pub fn string(&mut self, text: &str) -> String {
        match String::from_str(self.alloc, text) {
            Ok(copy) => copy,
            Err(_) => {
                self.ran_out = true;
                String::new(self.alloc)
            }
        }
    }

    /// A copy of the text; empty if memory ran out.
    pub fn text(&mut self, text: &str) -> Text {
        Text::new(self.string(text))
    }

    /// An error if memory ran out at some call.
    pub fn result(&self) -> Result<(), NoMemory> {
        if self.ran_out { Err(NoMemory) } else { Ok(()) }
    }
}
