//! The trait of sinks: where converted cards go.
ghost use Rattle.std.specs.Prelude.{◌≡◌, IfOk, List};
ghost use Rattle.vcard_lines.specs.declared.line.Line.{Line};
ghost use Rattle.card_conversion.specs.Deliveries.{Delivers};

use base_types::Text;
use convert_report::SinkFault;
use std::alloc::Global;
use vcard_text::Card;

/// What became of a card at a sink.
#[derive(Drop)]
pub enum Delivery {
    /// It was written.
    Written,
    /// The sink can't take it and wrote nothing, for a reason in words.
    Refused(Text),
}

/// Where converted cards go: rows to a writer, or files.
pub trait CardSink {
    /// What writing a card does to the sink: the card, and the sink before and after it.
    ghost writes: { List Line → Self → Self → Type 0 };

    /// Writes a card. `number` counts the cards of the file that is converted, from 1.
    fn put(&mut self, alloc: Global, number: u64, card: &Card) -> Result<Delivery, SinkFault>
        ensures { IfOk result (λ delivery.
            Delivers (writes card.now) delivery self.old self.new) };
}
