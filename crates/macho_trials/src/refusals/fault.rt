//! How a call ends, if not with its answer on a file that breaks no rule.

ghost use Rattle.std.specs.Prelude.{◌≡◌};
ghost use Rattle.macho_trials.specs.Status.{status_of};

use macho_fat::FatFault;
use macho_fields::Break;
use macho_report::RunFault;
use macho_rules::Refusal;
use macho_text::WriteFault;
use std::alloc::{AllocError, AllocFailed};
use std::io;

/// Why a call returned nothing.
#[derive(Clone, Copy)]
pub(crate) enum Fault {
    /// The file breaks this rule first.
    Broken(Break),
    /// There was no memory.
    Memory,
    /// After running out of memory, something else is held than before.
    Changed,
    /// A run read or wrote no further.
    Run(RunFault),
    /// No call has the name, its input cannot be had, or its answer cannot be printed.
    NoCall,
}

impl From<AllocError> for Fault {
    fn from(_: AllocError) -> Fault {
        Fault::Memory
    }
}

impl<T: Drop> From<AllocFailed<T>> for Fault {
    fn from(_: AllocFailed<T>) -> Fault {
        Fault::Memory
    }
}

impl From<FatFault> for Fault {
    fn from(fault: FatFault) -> Fault {
        match fault {
            FatFault::Broken(broken) => Fault::Broken(broken),
            FatFault::Memory => Fault::Memory,
        }
    }
}

impl From<Refusal> for Fault {
    fn from(refusal: Refusal) -> Fault {
        match refusal {
            Refusal::Broken(broken) => Fault::Broken(broken),
            Refusal::Memory => Fault::Memory,
        }
    }
}

impl From<RunFault> for Fault {
    fn from(fault: RunFault) -> Fault {
        match fault {
            RunFault::Memory => Fault::Memory,
            fault => Fault::Run(fault),
        }
    }
}

impl From<WriteFault> for Fault {
    fn from(_: WriteFault) -> Fault {
        Fault::NoCall
    }
}

impl From<io::Error> for Fault {
    fn from(_: io::Error) -> Fault {
        Fault::NoCall
    }
}

/// The status of the program. The line of a broken rule is an answer.
pub(crate) fn status(ended: Result<(), Fault>) -> u8
    ensures { result ≡ status_of ended }
{
    match ended {
        Ok(()) | Err(Fault::Broken(_)) => 0,
        Err(Fault::Changed) => 1,
        Err(Fault::NoCall) => 2,
        Err(Fault::Run(_)) => 3,
        Err(Fault::Memory) => 4,
    }
}
