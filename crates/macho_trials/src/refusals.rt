//! Makes one call that may run out of memory, and prints its answer. `tests/refusals` runs it, and
//! refuses its growths of memory, its reads and its writes, one after the other.
//!
//! The first word names the call, and the second is how many bytes are read at most. Standard input
//! has the file that is asked about, or a line `START LEN` for each span. Right before the call
//! goes a line to standard error, so a growth that is refused before that line does not belong to
//! the call.

mod fault;
mod image;
mod spans;

use fault::{Fault, status};
use image::Mapper;
use macho_report::{FromRead, FromWrite, RunFault, run, run_where, write_break};
use macho_text::transfer::read_all;
use std::alloc::Global;
use std::env::Args;

/// What `run_where` is asked about: the first address of the code of an executable.
const ADDRESS: u64 = 0x1_0000_0000;

/// Makes the call that the words name. The status is 0 where the call answered with a value or a
/// broken rule, 1 if running out of memory changed something, 2 if there was no call, 3 if a run
/// read or wrote no further, and 4 if the call ran out of memory.
pub(crate) fn call(rt: &HostRuntime, words: Args<Global>) -> u8 {
    let ended = make_call(rt, words);
    let printed = match ended {
        Err(Fault::Broken(broken)) => {
            write_break(&broken, &mut FromWrite::new(&mut rt.stdout())).is_ok()
        }
        Err(Fault::Run(fault)) => eprintln!(rt; "{fault}").is_ok(),
        _ => true,
    };
    status(if printed { ended } else { Err(Fault::NoCall) })
}

/// Makes the call that the first word names, with the limit that the second one is.
fn make_call(rt: &HostRuntime, mut words: Args<Global>) -> Result<(), Fault> {
    let (Some(name), Some(limit)) = (words.next(), words.next()) else {
        return Err(Fault::NoCall);
    };
    call_named(rt, name.as_str(), limit_of(limit.as_str())?)
}

/// The limit that a word is.
fn limit_of(word: &str) -> Result<u64, Fault> {
    let Ok(limit) = word.parse() else {
        return Err(Fault::NoCall);
    };
    Ok(limit)
}

/// Makes the call of this name, with the limit.
fn call_named(rt: &HostRuntime, name: &str, limit: u64) -> Result<(), Fault> {
    match name {
        "run" | "run_where" => call_run(rt, name, limit),
        "read_all" => call_read_all(rt, limit),
        name => call_on(rt, name, &read_input(rt, limit)?),
    }
}

/// Calls `run_where`, where it has this name, and otherwise `run`.
fn call_run(rt: &HostRuntime, name: &str, limit: u64) -> Result<(), Fault> {
    let (mut stdin, mut stdout) = (rt.stdin(), rt.stdout());
    let reader = &mut FromRead::new(&mut stdin);
    let writer = &mut FromWrite::new(&mut stdout);
    announce(rt)?;
    if name == "run_where" {
        run_where(rt.alloc(), limit, 0, ADDRESS, reader, writer)?;
    } else {
        run(rt.alloc(), limit, reader, writer)?;
    }
    Ok(())
}

/// Calls `read_all`.
fn read_input(rt: &HostRuntime, limit: u64) -> Result<Vec<u8>, Fault> {
    let input = read_all(rt.alloc(), limit, &mut FromRead::new(&mut rt.stdin()));
    Ok(input.map_err(RunFault::from)?)
}

/// Calls `read_all`, and prints how many bytes it has read.
fn call_read_all(rt: &HostRuntime, limit: u64) -> Result<(), Fault> {
    announce(rt)?;
    let input = read_input(rt, limit)?;
    println!(rt; "{} bytes", input.len())?;
    Ok(())
}

/// Makes the call of this name on the input.
fn call_on(rt: &HostRuntime, name: &str, input: &[u8]) -> Result<(), Fault> {
    match name {
        "slices" => image::call_slices(rt, input),
        "verify" => image::call_verify(rt, input),
        "check_image" => image::call_check_image(rt, input),
        "Mapping::of" => image::call_mapper(rt, input, Mapper::Of),
        "Mapping::of_image" => image::call_mapper(rt, input, Mapper::OfImage),
        "VerifiedImage::mapping" => image::call_mapper(rt, input, Mapper::OfVerified),
        "try_insert" => spans::call_try_insert(rt, input, false),
        "Spans::with_capacity" => spans::call_try_insert(rt, input, true),
        "push" => spans::call_push(rt, input, false),
        "SpanList::with_capacity" => spans::call_push(rt, input, true),
        _ => Err(Fault::NoCall),
    }
}

/// Says that the call comes now.
pub(crate) fn announce(rt: &HostRuntime) -> Result<(), Fault> {
    eprintln!(rt; "calls")?;
    Ok(())
}
