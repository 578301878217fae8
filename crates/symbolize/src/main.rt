#![tactic(auto)]
//! Prints what is at addresses of an accepted file, which is read from standard input. The words are the
//! index of a slice, and addresses: `symbolize 0 0x100000440 < FILE`.

mod fault;
mod find;
mod line;

use fault::Fault;
use line::write_line;
use macho_rules::verify;
use macho_verified::VerifiedImage;
use std::env;
use std::io::Read;
use std::process::ExitCode;

/// Reads the file, judges it, and prints a line for each address.
fn print_lines(rt: &HostRuntime) -> Result<(), Fault> {
    let mut words = env::args(rt)?.skip(1);
    let slice = words.next().ok_or(Fault::Words)?;
    let slice = slice.parse::<u64>().ok().ok_or(Fault::Words)?;
    let mut file = Vec::new(rt.alloc());
    rt.stdin().read_to_end(&mut file)?;
    let verified = verify(rt.alloc(), &file)?;
    let image = VerifiedImage::of(&verified, slice).ok_or(Fault::NoImage)?;
    for word in words {
        write_line(rt, &image, word.as_str())?;
    }
    Ok(())
}

/// The status is 0 where each address has its line, and otherwise 1.
fn main(rt: HostRuntime) -> ExitCode {
    match print_lines(&rt) {
        Ok(()) => ExitCode::SUCCESS,
        Err(fault) => {
            let _ = eprintln!(rt; "symbolize: {fault}");
            ExitCode::from(1)
        }
    }
}
