//! Where look-ups are noted.

use crate::binds::Library;
use std::alloc::AllocError;

/// Notes of the libraries in which names are looked up.
pub(crate) trait Notes<'a> {
    ghost use Rattle.std.specs.Prelude.{IfOk};
    ghost use Rattle.macho_alike.specs.LookUps.{LookUps, IsLookedUp, WereNoted};

    // They are what these look-ups leave.
    ghost are_of: { LookUps → Self → Type 0 };

    /// Notes that a name is looked up in a library.
    fn note(&mut self, name: &'a [u8], library: Library) -> Result<(), AllocError>
        ensures { IfOk result (λ _. WereNoted are_of (IsLookedUp name.now library) self.old self.new) };
}
