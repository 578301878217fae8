//! What is at a place.

ghost use Rattle.std.specs.Prelude.{◌≡◌, Option};
ghost use Rattle.macho_explain.specs.Parts.{spot_of};

use crate::conflict::Conflict;
use crate::explanation::Explanation;
use crate::part::Part;

/// The structure, or the byte, at a place, and the indices of what it is or lies in.
#[derive(Clone, Copy)]
pub struct Spot {
    pub part: Part,
    /// The index of the slice, and of the command, the section and the symbol whose structure has the place.
    pub slice: Option<u32>,
    pub command: Option<u32>,
    pub section: Option<u32>,
    pub symbol: Option<u32>,
}

impl Spot {
    // A part that is outside all commands, and no symbol.
    pub(crate) fn of(slice: Option<u32>, part: Part) -> Spot
        ensures { result ≡ spot_of slice part }
    {
        Spot {
            part,
            slice,
            command: None,
            section: None,
            symbol: None,
        }
    }

    // A part in the command with this index.
    pub(crate) fn in_command(self, command: Option<u32>) -> Spot
        ensures { result ≡ record self { command = command } }
    {
        Spot { command, ..self }
    }

    // What is explained by the parts that conflict.
    pub(crate) fn shows(self, conflict: Conflict) -> Explanation
        ensures { result ≡ record { at = self; conflict = conflict } }
    {
        Explanation { at: self, conflict }
    }
}
