#![tactic(auto)]
//! `macho-verify`: reads a file, and prints its layout, or the first rule of a profile that it breaks.

mod cdhashes;
mod judge;
mod words;

use macho_program::run_process;
use std::process::ExitCode;
use words::MachoVerify;

// Runs the tool on the words, the files and the streams of the process.
fn main(rt: HostRuntime) -> ExitCode {
    run_process(
        &rt,
        &MachoVerify,
        &mut rt.stdin(),
        rt.stdout(),
        &mut rt.stderr(),
    )
}
