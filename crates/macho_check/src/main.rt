#![tactic(auto)]
//! `macho-check`: reads a file, and prints its layout, the rule of the layout that it breaks first, or
//! what is at an address.

use macho_program::{MachoCheck, run_process};
use std::process::ExitCode;

// Runs the tool on the words, the files and the streams of the process.
fn main(rt: HostRuntime) -> ExitCode {
    run_process(
        &rt,
        &MachoCheck,
        &mut rt.stdin(),
        rt.stdout(),
        &mut rt.stderr(),
    )
}
