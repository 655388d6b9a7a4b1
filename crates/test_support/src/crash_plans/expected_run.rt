//! The expected run of a list: the list performed over books in memory, where nothing fails.

use crate::crash_plans::books::query_books;
use crate::crash_plans::commands::{Kind, kind_of};
use crate::printout::Printout;
use crate::scripts::{parse_command, reply_to};
use crate::supply::Supply;
use book_service::{Command, Reply};
use std::alloc::Global;
use sync_core::{Limits, PlainStore};

/// A command, the reply to it, and the books after it.
#[derive(Drop)]
pub struct Step {
    /// The command.
    pub command: Command,
    /// The reply of a store in memory.
    pub reply: Reply,
    books: Printout,
}

/// The run of a list over a store with these limits.
#[derive(Drop)]
pub struct ExpectedRun {
    /// The allocator of texts and replies.
    pub alloc: Global,
    /// The limits of the store.
    pub limits: Limits,
    /// The commands, in their order.
    pub steps: Vec<Step>,
}

/// Performs the command of the line over a store in memory.
fn step_of(store: &mut PlainStore, line: &str, supply: &mut Supply) -> Step {
    let command = parse_command(line, supply);
    let reply = reply_to(supply.alloc, store, &command);
    let books = query_books(supply.alloc, store);
    supply.note(books.result());
    Step {
        command,
        reply,
        books,
    }
}

impl ExpectedRun {
    /// Performs the list over a store in memory.
    pub fn of_list(limits: Limits, list: &str, supply: &mut Supply) -> ExpectedRun {
        let alloc = supply.alloc;
        let mut store = PlainStore::new(alloc, limits);
        let mut steps = Vec::new(alloc);
        for line in list.lines() {
            let step = step_of(&mut store, line, supply);
            supply.note(steps.push(step));
        }
        ExpectedRun {
            alloc,
            limits,
            steps,
        }
    }

    /// The books after the first `count` commands.
    pub fn books_after(&self, count: usize) -> &[u8] {
        let Some(place) = count.checked_sub(1) else {
            return &[];
        };
        match self.steps.as_slice().get(place) {
            Some(step) => step.books.as_slice(),
            None => &[],
        }
    }

    /// The kind of the command at the index; `End` after the last one.
    pub fn kind_at(&self, place: usize) -> Kind {
        match self.steps.as_slice().get(place) {
            Some(step) => kind_of(&step.command),
            None => Kind::End,
        }
    }

    /// The number of commands that are refused.
    pub fn refusals(&self) -> u64 {
        let mut count = 0u64;
        for step in self.steps.as_slice() {
            if matches!(&step.reply, Reply::Refused(_) | Reply::Fault(_)) {
                count = count.saturating_add(1);
            }
        }
        count
    }
}
