//! Judges files. `tests/vectors` and `tests/trial_runs` compare what it prints.
//!
//! Standard input has the number of files, and then each file after its length. These numbers have
//! 8 bytes, in little-endian order. For each file there is a line for each verdict.

ghost use Rattle.std.specs.Prelude.{IfOk};
ghost use Rattle.macho_trials.specs.Verdict.{IsFirstOrNone};

use macho_fields::{Break, Bytes, Order, Profile};
use macho_profiles::verify_by;
use macho_rules::{Refusal, verify};
use macho_second::slow_first;
use macho_text::FromRead;
use macho_text::transfer::read_all;
use std::alloc::{AllocError, Global};

/// Judges each file of standard input twice, by `verify` and by `slow_first`. None where not all are
/// judged.
pub(crate) fn judge_twice(rt: &HostRuntime) -> Option<()> {
    let input = read_input(rt)?;
    let (count, mut rest) = take_number(&input)?;
    for _ in 0..count {
        let (file, after) = take_file(rest)?;
        rest = after;
        print_verdict(rt, first_broken(rt.alloc(), file).ok()?)?;
        print_verdict(rt, slow_first(file))?;
    }
    Some(())
}

/// Judges each file of standard input by a profile, whose number comes before the length of the file.
/// None where not all are judged.
pub(crate) fn judge_by_profiles(rt: &HostRuntime) -> Option<()> {
    let input = read_input(rt)?;
    let (count, mut rest) = take_number(&input)?;
    for _ in 0..count {
        let (number, after) = take_number(rest)?;
        let (file, after) = take_file(after)?;
        rest = after;
        let profile = Profile::with_number(u32::try_from(number).ok()?)?;
        print_verdict(rt, first_broken_by(rt.alloc(), profile, file).ok()?)?;
    }
    Some(())
}

/// All of standard input.
fn read_input(rt: &HostRuntime) -> Option<Vec<u8>> {
    read_all(rt.alloc(), u64::MAX, &mut FromRead::new(&mut rt.stdin())).ok()
}

/// The number at the front of the input, and what comes after it.
fn take_number(input: &[u8]) -> Option<(u64, &[u8])> {
    let (number, rest) = input.split_at_checked(8)?;
    Some((Bytes::new(number).u64_at(Order::Little, 0)?, rest))
}

/// The file at the front of the input, after its length, and what comes after it.
fn take_file(input: &[u8]) -> Option<(&[u8], &[u8])> {
    let (length, rest) = take_number(input)?;
    rest.split_at_checked(usize::try_from(length).ok()?)
}

/// The first broken rule of the file as `verify_by` reports it.
fn first_broken_by(
    alloc: Global,
    profile: Profile,
    file: &[u8],
) -> Result<Option<Break>, AllocError> {
    match verify_by(alloc, profile, file) {
        Ok(_) => Ok(None),
        Err(Refusal::Broken(broken)) => Ok(Some(broken)),
        Err(Refusal::Memory) => Err(AllocError),
    }
}

/// The first broken rule of the file as `verify` reports it.
fn first_broken(alloc: Global, file: &[u8]) -> Result<Option<Break>, AllocError>
    ensures { IfOk result (IsFirstOrNone file.now) }
{
    match verify(alloc, file) {
        Ok(_) => Ok(None),
        Err(Refusal::Broken(broken)) => Ok(Some(broken)),
        Err(Refusal::Memory) => Err(AllocError),
    }
}

/// Prints a verdict.
fn print_verdict(rt: &HostRuntime, first: Option<Break>) -> Option<()> {
    let printed = match first {
        None => println!(rt; "accepted"),
        Some(broken) => println!(rt; "refused: {broken}"),
    };
    printed.ok()
}
