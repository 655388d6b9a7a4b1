//! How many pieces there were, of each kind, and where the next one is.
ghost use Rattle.std.specs.Prelude.{◌≡◌};
ghost use Rattle.convert_report.specs.Counts.{counted, is_changed, nothing_counted};

use crate::fate::Fate;
use crate::parts::have_lost;
use crate::report::Place;
use import_text::count_lines;
use vcard_changes::Conversion;

/// What became of the cards of a file.
#[derive(Clone, Copy)]
pub struct Summary {
    /// The number of cards that were written.
    pub written: u64,
    /// The number of those whose lines weren't all kept as they were, or have characters that
    /// couldn't be read.
    pub changed: u64,
    /// The number of cards that weren't written, and of texts that are no card.
    pub refused: u64,
}

/// The numbers so far, and the place of the next piece.
#[derive(Clone, Copy)]
pub struct Ledger {
    /// Where the next piece is.
    pub place: Place,
    /// The numbers so far.
    pub summary: Summary,
}

/// Whether a card that was written says something else than what it was made of, or in another
/// form: a change of it is reported, or characters of it couldn't be read.
pub fn is_changed(conversion: &Conversion) -> bool
    ensures { result ≡ is_changed conversion.now }
{
    !conversion.changes.is_empty() || have_lost(conversion.card.lines())
}

impl Ledger {
    /// Nothing was counted yet; the next piece is the first card, at the first line.
    pub fn new() -> Ledger
        ensures { result.summary ≡ nothing_counted }
    {
        Ledger {
            place: Place { card: 1, line: 1 },
            summary: Summary {
                written: 0,
                changed: 0,
                refused: 0,
            },
        }
    }

    /// The next piece is at the first line of another file. Cards are counted on.
    pub fn begin_file(&mut self)
        ensures { self.new.summary ≡ self.old.summary }
    {
        self.place.line = 1;
    }

    /// The next piece is at this line. Cards are counted on.
    pub fn go_to_line(&mut self, line: u64)
        ensures { self.new.summary ≡ self.old.summary }
    {
        self.place.line = line;
    }

    /// The number of the next card, which is counted.
    pub fn next_number(&mut self) -> u64
        ensures { self.new.summary ≡ self.old.summary }
    {
        let number = self.place.card;
        self.place.card = number.saturating_add(1);
        number
    }

    /// Counts a piece.
    pub fn count(&mut self, piece: &[u8], fate: &Fate)
        ensures { self.new.summary ≡ counted self.old.summary fate.now }
    {
        let summary = &mut self.summary;
        match fate {
            Fate::Blank | Fate::Repeated(_) => {}
            Fate::Moved(_) => {
                summary.written = summary.written.saturating_add(1);
                summary.changed = summary.changed.saturating_add(1);
            }
            Fate::Written(conversion) => {
                summary.written = summary.written.saturating_add(1);
                if is_changed(conversion) {
                    summary.changed = summary.changed.saturating_add(1);
                }
            }
            _ => summary.refused = summary.refused.saturating_add(1),
        }
        if !matches!(fate, Fate::Blank | Fate::Other) {
            self.place.card = self.place.card.saturating_add(1);
        }
        let lines = count_lines(piece) as u64;
        self.place.line = self.place.line.saturating_add(lines);
    }
}
