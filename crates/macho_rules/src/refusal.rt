//! Why a file is not accepted.

ghost use Rattle.std.specs.Prelude.{◌≡◌, ◌+◌, ◌<◌, ◌^◌};
ghost use Rattle.macho_rules.specs.Verdict.{refusal_of};
ghost use Rattle.macho_rules.specs.declared.refusal.Refusal.TheVariants.{Broken, Memory};

use macho_fat::FatFault;
use macho_fields::Break;
use std::alloc::AllocError;
use thiserror::Error;

/// Why a file is not accepted.
#[derive(Clone, Copy, Debug, Error)]
pub enum Refusal {
    /// The first broken rule, with its place.
    #[error("refused: {0}")]
    Broken(Break),
    /// There was no memory to decide the rules.
    #[error("out of memory")]
    Memory,
}

// A break of bytes that begin at `start` in a file, with its place in the file.
pub(crate) fn in_file(broken: Break, start: u64) -> Break
    requires { start + broken.place < 2 ^ 64 }
    ensures rule { result.rule ≡ broken.rule }
    ensures place { result.place ≡ start + broken.place }
{
    Break::at(broken.rule, start + broken.place)
}

impl From<Break> for Refusal {
    ghost from_gives = { λ broken refusal. refusal ≡ Broken broken };

    fn from(broken: Break) -> Refusal {
        Refusal::Broken(broken)
    }
}

impl From<AllocError> for Refusal {
    ghost from_gives = { λ _ refusal. refusal ≡ Memory };

    fn from(_: AllocError) -> Refusal {
        Refusal::Memory
    }
}

impl From<FatFault> for Refusal {
    ghost from_gives = { λ fault refusal. refusal ≡ refusal_of fault };

    fn from(fault: FatFault) -> Refusal {
        match fault {
            FatFault::Broken(broken) => Refusal::Broken(broken),
            FatFault::Memory => Refusal::Memory,
        }
    }
}
