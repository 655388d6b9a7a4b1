//! A law on the pieces of a text.
ghost use Rattle.import_text.specs.PieceLaws.{PiecesStay};

/// The first piece of a text stays the same, whatever octets come after it, once a line after the
/// piece has ended.
pub fn pieces_stay()
    ensures { PiecesStay }
{}
