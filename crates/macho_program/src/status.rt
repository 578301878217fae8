//! The status with which the program ends.

ghost use Rattle.std.specs.Prelude.{◌≡◌};
ghost use Rattle.std.specs.Process.{exit_status};
ghost use Rattle.macho_program.specs.Status.{check_status_of, exit_of, fault_status_of, where_status_of};

use crate::program::{Found, ProgramFault};
use macho_report::{Outcome, RunFault, WhereOutcome};
use macho_words::WordFault;
use std::process::ExitCode;

/// The file is accepted, or the line of what is at the address was written.
pub const DONE: u8 = 0;
/// A rule is broken.
pub const REFUSED: u8 = 1;
/// The words are not the program's, or ask for an image that the file does not have.
pub const USAGE: u8 = 2;
/// Reading or writing failed, or the input is too long.
pub const STREAM_FAULT: u8 = 3;
/// There was no memory.
pub const OUT_OF_MEMORY: u8 = 4;

/// The status for how a check ended.
pub fn check_status(ended: &Result<Outcome, RunFault>) -> u8
    ensures { result ≡ check_status_of ended.now }
{
    match *ended {
        Ok(Outcome::Accepted) => DONE,
        Ok(Outcome::Refused) => REFUSED,
        Err(fault) => fault_status(fault),
    }
}

/// The status for how the look-up of an address ended.
pub fn where_status(ended: &Result<WhereOutcome, RunFault>) -> u8
    ensures { result ≡ where_status_of ended.now }
{
    match *ended {
        Ok(WhereOutcome::Told) => DONE,
        Ok(WhereOutcome::Refused) => REFUSED,
        Ok(WhereOutcome::NoImage) => USAGE,
        Err(fault) => fault_status(fault),
    }
}

// The status for a fault of a run.
fn fault_status(fault: RunFault) -> u8
    ensures { result ≡ fault_status_of fault }
{
    match fault {
        RunFault::Read | RunFault::TooLong | RunFault::Write => STREAM_FAULT,
        RunFault::Memory => OUT_OF_MEMORY,
    }
}

/// The status of the whole program, as `main` returns it.
pub fn exit_code(ended: &Result<Found, ProgramFault>) -> ExitCode
    ensures { exit_status result ≡ exit_of ended.now }
{
    ExitCode::from(match *ended {
        Ok(Found::Check(outcome)) => check_status(&Ok(outcome)),
        Ok(Found::Where(outcome)) => where_status(&Ok(outcome)),
        Ok(Found::Shown) => DONE,
        Err(ProgramFault::Words(WordFault::Usage | WordFault::BadNumber)) => USAGE,
        Err(ProgramFault::Words(WordFault::Memory)) => OUT_OF_MEMORY,
        Err(ProgramFault::Run(fault)) => fault_status(fault),
    })
}
