//! `Part`: values that can be copied and compared exactly.
ghost use Rattle.std.specs.Prelude.{◌≡◌, ◌↔◌, IfOk, IsTrue};

use crate::memory::NoMemory;

/// A value that can be copied, and compared in every octet.
pub trait Part: Sized + Drop {
    /// An equal copy. `NoMemory` if an allocation fails.
    fn try_copy(&self) -> Result<Self, NoMemory>
        ensures { IfOk result (λ copy. copy ≡ self.now) };

    /// Whether both are equal in every octet.
    fn is_same(&self, other: &Self) -> bool
        ensures { IsTrue result ↔ (self.now ≡ other.now) };
}
