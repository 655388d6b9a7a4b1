//! `CardsInOrder`: iteration of cards in UID order.
ghost use Rattle.std.specs.Prelude.{◌≡◌, IfOk, List, map};
ghost use Rattle.std.specs.FinMap as finite;
ghost use Rattle.base_types.specs.TextMaps.{text_cmp, octet_map};
ghost use Rattle.vcard_lines.specs.declared.line.Line.{Line};

use std::alloc::Global;
use std::collections::BTreeMap;
use vcard_text::{Card, NoMemory};

/// A collection that lends its cards in the octet order of their UIDs, such as a map.
pub trait CardsInOrder {
    /// The lines of each card, by UID.
    ghost cards: { Self → finite.FinMap text_cmp (List Line) };

    /// The cards, borrowed, in the octet order of their UIDs. `NoMemory` if an allocation fails.
    fn in_order(&self, alloc: Global) -> Result<Vec<&Card>, NoMemory>
        ensures { IfOk result (λ list. map (λ card. card.now) list.items
            ≡ finite.values (cards self.now)) };
}

impl CardsInOrder for BTreeMap<String, Card> {
    ghost cards = { λ map. octet_map map };

    fn in_order(&self, alloc: Global) -> Result<Vec<&Card>, NoMemory> {
        let mut list = Vec::new(alloc);
        for (_, card) in self.iter() {
            list.push(card)?;
        }
        Ok(list)
    }
}
