//! Why an address has no line.

use macho_rules::Refusal;
use std::alloc::{AllocError, AllocFailed};
use std::io;
use thiserror::Error;

/// Why an address has no line.
#[derive(Clone, Copy, Debug, Error)]
pub(crate) enum Fault {
    /// The words of the call are not a slice and addresses.
    #[error("usage: symbolize SLICE 0xADDRESS.. < FILE")]
    Words,
    /// The file breaks a rule, or there was no memory to judge it.
    #[error("{0}")]
    Refused(Refusal),
    /// The slice is not read, or the file has none with the index.
    #[error("no such image")]
    NoImage,
    /// Memory ran out.
    #[error("out of memory")]
    Memory,
    /// Reading or writing failed.
    #[error("reading or writing failed")]
    Stream,
}

impl From<Refusal> for Fault {
    fn from(refusal: Refusal) -> Fault {
        Fault::Refused(refusal)
    }
}

impl From<AllocError> for Fault {
    fn from(_: AllocError) -> Fault {
        Fault::Memory
    }
}

impl<T: Drop> From<AllocFailed<T>> for Fault {
    fn from(_: AllocFailed<T>) -> Fault {
        Fault::Memory
    }
}

impl From<io::Error> for Fault {
    fn from(_: io::Error) -> Fault {
        Fault::Stream
    }
}
