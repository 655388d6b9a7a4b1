//! The harness, which selects cases and prints their outcomes.
//!
//! A case makes one call in a window, and nothing else there. Allocations in the window are refused
//! in one of two ways. From outside: the line of a case is written in three parts, and
//! `sweeps/refuse.c` sees the first two (the window opens after the name, which ends without a line
//! feed, and closes at `: `). Or by a ballast, which leaves little memory while the window is open.

use crate::oom::ballast::Ballast;
use crate::oom::outcome::Outcome;
use crate::supply::Supply;
use base_types::NoMemory;
use std::alloc::Global;
use std::fmt::Debug;
use std::io::Write;
use std::mem;

/// The selected cases, and their outcomes.
#[derive(Drop)]
pub struct Harness<'a> {
    /// The memory in which cases are prepared and checked. It also remembers whether a window
    /// couldn't be opened, or a check or an output failed.
    pub supply: Supply,
    rt: &'a HostRuntime,
    selected: String,
    /// The names of the cases that were run, in their order.
    names: Vec<String>,
    /// The outcome of the last case.
    outcome: Outcome,
    ballast: Option<Ballast>,
    /// The number of octets that the ballast leaves free in a window.
    left: usize,
}

impl<'a> Harness<'a> {
    /// A harness without a selected case.
    pub fn new(rt: &'a HostRuntime) -> Harness<'a> {
        let alloc = rt.alloc();
        Harness {
            supply: Supply::new(alloc),
            rt,
            selected: String::new(alloc),
            names: Vec::new(alloc),
            outcome: Outcome::Same,
            ballast: None,
            left: 0,
        }
    }

    /// The allocator.
    pub fn alloc(&self) -> Global {
        self.supply.alloc
    }

    /// Selects the case of this name, or `all` of them.
    pub fn select(&mut self, name: &str) {
        self.selected = self.supply.string(name);
    }

    /// Whether the case is selected.
    pub fn is_selected(&self, name: &str) -> bool {
        self.is_selected_over(name, "")
    }

    /// Whether the case is selected over stores of a kind. The kind is a suffix of its name.
    pub fn is_selected_over(&self, name: &str, over: &str) -> bool {
        let selected = self.selected.as_str();
        selected == "all" || selected.strip_prefix(name) == Some(over)
    }

    /// The names of the cases that were run so far. They are removed from the harness.
    pub fn take_case_names(&mut self) -> Vec<String> {
        let none = Vec::new(self.alloc());
        mem::replace(&mut self.names, none)
    }

    /// From now on this number of octets is left free in each window, and only findings are
    /// printed.
    pub fn limit_memory(&mut self, octets: usize) {
        if self.ballast.is_none() {
            self.ballast = Some(Ballast::new(&mut self.supply));
        }
        self.left = octets;
    }

    /// The outcome of the last case.
    pub fn outcome(&self) -> Outcome {
        self.outcome
    }

    /// An error if a window couldn't be opened, or a check or an output failed.
    pub fn result(&self) -> Result<(), NoMemory> {
        self.supply.result()
    }

    /// Opens the window of the case. From now on allocations may be refused.
    pub fn open_window(&mut self, name: &str) {
        self.open_window_over(name, "");
    }

    /// Opens the window of the case over stores of a kind, which is a suffix of its name.
    pub fn open_window_over(&mut self, name: &str, over: &str) {
        match &mut self.ballast {
            Some(ballast) => ballast.limit_memory(self.left, &mut self.supply),
            None => self.print_case_name(name, over),
        }
    }

    /// Remembers the case's name, and prints it, which opens a window from outside.
    fn print_case_name(&mut self, name: &str, over: &str) {
        let mut whole = self.supply.string(name);
        self.supply.note(whole.push_str(over));
        self.supply.note(self.names.push(whole));
        if let Some(name) = self.names.last() {
            let written = self.rt.stdout().write_all(name.as_bytes());
            self.supply.note(written);
        }
    }

    /// Closes the window. From now on nothing is refused.
    pub fn close_window(&mut self) {
        match &mut self.ballast {
            Some(ballast) => ballast.release(),
            None => self.write(": "),
        }
    }

    /// Writes the text to standard output.
    pub fn write(&mut self, text: &str) {
        let written = self.rt.stdout().write_all(text.as_bytes());
        self.supply.note(written);
    }

    fn set_outcome(&mut self, outcome: Outcome) {
        self.outcome = outcome;
        if self.ballast.is_none() {
            self.write(outcome.line());
        }
    }

    /// Reports a call that didn't run out of memory. `same` says whether its result and its effect
    /// are those that it has when nothing is refused.
    pub fn report_answer<T: Debug>(&mut self, same: bool, answer: &T) {
        if same {
            self.set_outcome(Outcome::Same);
        } else {
            self.set_outcome(Outcome::AnotherAnswer);
            self.print_finding(answer);
        }
    }

    /// Reports a call that ran out of memory. `left` says whether nothing was changed, `again`
    /// whether its result and its effect were the expected ones when it was repeated.
    pub fn report_no_memory<T: Debug>(&mut self, left: bool, again: bool, state: &T) {
        self.set_outcome(Outcome::without_memory(left, again));
        if self.outcome.is_finding() {
            self.print_finding(state);
        }
    }

    /// Reports a call that must change nothing: whether nothing was changed, its expected value,
    /// its value, and its value when repeated. They are passed by value, so that they are dropped
    /// as values of a generic type, and the prover need not split on their variants.
    pub fn report_read<T: PartialEq + Debug + Drop>(
        &mut self,
        left: bool,
        expected: T,
        ran_out: bool,
        answer: T,
        again: T,
    ) {
        let gives_again = again == expected;
        if ran_out {
            self.report_no_memory(left, gives_again, &again);
        } else {
            self.report_answer(left && answer == expected && gives_again, &answer);
        }
    }

    /// Reports a call that has no state to change.
    pub fn report_stateless<T: PartialEq + Debug + Drop>(
        &mut self,
        expected: T,
        ran_out: bool,
        answer: T,
        again: T,
    ) {
        self.report_read(true, expected, ran_out, answer, again);
    }

    fn print_finding<T: Debug>(&mut self, checked: &T) {
        match format!(in self.alloc(); "** {checked:?}\n") {
            Ok(line) => self.write(line.as_str()),
            Err(_) => self.supply.ran_out = true,
        }
    }
}
