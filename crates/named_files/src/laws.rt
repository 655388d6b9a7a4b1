//! A law of what an opening finds. It is a function without run-time effect.
ghost use Rattle.sqlite.specs.Files.{AreFoundIn, IsEmpty, IsNothing};
ghost use Rattle.sqlite.specs.Recovery.{Image};
ghost use Rattle.sqlite.specs.Tree.{Trees};

/// Files that are empty, or that an opening left half made, are opened as a database without
/// tables. Nothing else is found in them (`Finds` and `FindsIn`).
pub fn new_files_are_empty()
    ensures { (image : Image) (db : Trees) → IsNothing image → AreFoundIn image db → IsEmpty db }
{}
