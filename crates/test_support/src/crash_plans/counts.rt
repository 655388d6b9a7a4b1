//! Counts of stops.

use crate::crash_plans::commands::Kind;
use crate::printout::Printout;

/// The number of stops of each kind.
#[derive(Clone, Copy)]
pub struct StopCounts {
    create_schema: u64,
    one_book: u64,
    two_books: u64,
    import: u64,
    page: u64,
    migrate: u64,
    end: u64,
}

/// No stops.
pub const NO_STOPS: StopCounts = StopCounts {
    create_schema: 0,
    one_book: 0,
    two_books: 0,
    import: 0,
    page: 0,
    migrate: 0,
    end: 0,
};

impl StopCounts {
    /// Counts one more.
    pub fn add(&mut self, kind: Kind) {
        let count = match kind {
            Kind::CreateSchema => &mut self.create_schema,
            Kind::OneBook => &mut self.one_book,
            Kind::TwoBooks => &mut self.two_books,
            Kind::Import => &mut self.import,
            Kind::Page => &mut self.page,
            Kind::Migrate => &mut self.migrate,
            Kind::End => &mut self.end,
        };
        *count = count.saturating_add(1);
    }

    /// Each count with its name.
    fn parts(self) -> [(&'static str, u64); 7] {
        [
            ("in opening and creating", self.create_schema),
            ("in a command of one book", self.one_book),
            ("in one of two books", self.two_books),
            ("in an import", self.import),
            ("in a page", self.page),
            ("in migrating", self.migrate),
            ("after all", self.end),
        ]
    }

    /// The sum of the counts.
    pub fn sum(self) -> u64 {
        let mut sum = 0u64;
        for (_, count) in self.parts() {
            sum = sum.saturating_add(count);
        }
        sum
    }

    /// Prints the counts that aren't 0, one a line.
    pub fn print(self, out: &mut Printout) {
        for (name, count) in self.parts() {
            if count != 0 {
                out.add_all(&["  ", name]);
                out.add_numbers("", &[count]);
                out.add("\n");
            }
        }
    }
}

/// The books that the stopped call left.
#[derive(Clone, Copy)]
pub enum StateLeft {
    /// The books before it.
    Before,
    /// The books after it.
    After,
}

/// The states that were found after the stops, for one kind of crash.
#[derive(Clone, Copy)]
pub struct StateCounts {
    before: u64,
    after: u64,
    wrong: u64,
    anew: u64,
}

/// No states.
pub const NO_STATES: StateCounts = StateCounts {
    before: 0,
    after: 0,
    wrong: 0,
    anew: 0,
};

impl StateCounts {
    /// Counts one more. With `None` the stop left other books, or failed a check.
    pub fn add(&mut self, left: Option<StateLeft>) {
        match left {
            Some(StateLeft::Before) => self.before = self.before.saturating_add(1),
            Some(StateLeft::After) => self.after = self.after.saturating_add(1),
            None => self.wrong = self.wrong.saturating_add(1),
        }
    }

    /// Counts devices that restarted.
    pub fn add_anew(&mut self, anew: u64) {
        self.anew = self.anew.saturating_add(anew);
    }

    /// Prints the counts in a line that begins with the name of the kind of crash.
    pub fn print(self, way: &str, out: &mut Printout) {
        out.add_all(&["  ", way]);
        out.add_labelled(": before ", self.before);
        out.add_labelled(", after ", self.after);
        out.add_labelled(", wrong ", self.wrong);
        out.add_labelled("; devices began anew ", self.anew);
        out.add("\n");
    }
}
