//! A store that returns a fault from each call.
ghost use Rattle.std.specs.FinMap as finite;
ghost use Rattle.book_model.specs.Bounds.{IsInRange};

use std::collections::BTreeMap;
use sync_core::{
    BookLine, BookStore, Denied, Fault, ImportTally, Limits, Moved, Page, PutAnswer, Stored, Tally,
    Token,
};
use vcard_text::Card;

/// A store without books, with the standard limits, whose calls return this fault.
#[derive(Drop)]
pub struct FailingStore {
    limits: Limits,
    fault: Fault,
    ghost in_range: { IsInRange limits },
}

impl FailingStore {
    /// A store whose calls return the fault.
    pub fn new(fault: Fault) -> FailingStore {
        FailingStore {
            limits: Limits::standard(),
            fault,
        }
    }
}

impl BookStore for FailingStore {
    ghost model = { record {
      books = λ _. finite.empty;
      limits = λ s. s.limits;
      premise = λ _. Unit {0};
      may_fault = λ _. Unit {0};
      may_leave = λ _ _. ⊥;
    } };

    fn create_book(&mut self, _name: &str) -> Result<u64, Denied> {
        Err(Denied::Fault(self.fault))
    }

    fn put(
        &mut self,
        _book: &str,
        _card: &Card,
        _expect: Option<u64>,
    ) -> Result<PutAnswer, Denied> {
        Err(Denied::Fault(self.fault))
    }

    fn remove(&mut self, _book: &str, _uid: &str, _expect: Option<u64>) -> Result<u64, Denied> {
        Err(Denied::Fault(self.fault))
    }

    fn move_card(
        &mut self,
        _from: &str,
        _to: &str,
        _uid: &str,
        _expect: Option<u64>,
    ) -> Result<Moved, Denied> {
        Err(Denied::Fault(self.fault))
    }

    fn forget(&mut self, _book: &str, _upto: u64) -> Result<u64, Denied> {
        Err(Denied::Fault(self.fault))
    }

    fn kept_import(&mut self, _book: &str, _key: &str) -> Result<Option<ImportTally>, Denied> {
        Err(Denied::Fault(self.fault))
    }

    fn import(&mut self, _book: &str, _key: &str, _cards: &[Card]) -> Result<ImportTally, Denied> {
        Err(Denied::Fault(self.fault))
    }

    fn get(&mut self, _book: &str, _uid: &str) -> Result<Stored, Denied> {
        Err(Denied::Fault(self.fault))
    }

    fn books(&mut self) -> Result<Vec<BookLine>, Denied> {
        Err(Denied::Fault(self.fault))
    }

    fn book(&mut self, _name: &str) -> Result<BookLine, Denied> {
        Err(Denied::Fault(self.fault))
    }

    fn cards(&mut self, _book: &str) -> Result<BTreeMap<String, Stored>, Denied> {
        Err(Denied::Fault(self.fault))
    }

    fn tally(&mut self, _book: &str) -> Result<Tally, Denied> {
        Err(Denied::Fault(self.fault))
    }

    fn report(
        &mut self,
        _book: &str,
        _token: Option<Token>,
        _limit: Option<u64>,
    ) -> Result<Page, Denied> {
        Err(Denied::Fault(self.fault))
    }
}
