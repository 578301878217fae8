//! Why the slices of a file are not returned.

ghost use Rattle.std.specs.Prelude.{◌≡◌};
ghost use Rattle.macho_fat.specs.declared.fault.FatFault.TheVariants.{Broken, Memory};

use macho_fields::Break;
use std::alloc::AllocError;
use thiserror::Error;

/// Why the slices of a file are not returned.
#[derive(Clone, Copy, Debug, Error)]
pub enum FatFault {
    /// The first broken rule of the file, with its place.
    #[error("refused: {0}")]
    Broken(Break),
    /// There was no memory for the slices of a universal file, or to sort its unordered entries, as
    /// `fat-overlap` and `fat-duplicate` do.
    #[error("out of memory")]
    Memory,
}

impl From<Break> for FatFault {
    ghost from_gives = { λ broken fault. fault ≡ Broken broken };

    fn from(broken: Break) -> FatFault {
        FatFault::Broken(broken)
    }
}

impl From<AllocError> for FatFault {
    ghost from_gives = { λ _ fault. fault ≡ Memory };

    fn from(_: AllocError) -> FatFault {
        FatFault::Memory
    }
}
