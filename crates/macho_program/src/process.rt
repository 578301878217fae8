//! A program on the words, the files and the streams of its process.

ghost use Rattle.std.specs.Prelude.{◌≤◌};
ghost use Rattle.std.specs.Process.{exit_status};

use crate::files::SystemFiles;
use crate::program::{Found, ProgramFault, run_program, without_memory};
use crate::status::exit_code;
use crate::tools::Tool;
use macho_report::Judge;
use macho_text::{Flush, FromRead, FromWrite, Output};
use std::io::{BufWriter, ErrorKind, Read, Write};
use std::process::ExitCode;
use std::rt::{Env, Files};
use std::{env, io};

/// How many bytes of the report are gathered before they are written.
const OUTPUT_BUFFER: usize = 65_536;

/// Passes the words, the files and the streams of a process to [`run_program`], and returns the status
/// with which the process ends. It decides only whether there is memory for the buffer and for the
/// words.
pub fn run_process<
    J: Judge + Drop,
    T: Tool<J>,
    S: Env + Files + AllocGlobal,
    R: Read,
    W: Write + Drop,
    E: Write,
>(system: &S, tool: &T, stdin: &mut R, stdout: W, stderr: &mut E) -> ExitCode
    ensures { exit_status result ≤ 4 }
{
    let mut errors = FromWrite::new(stderr);
    let Ok(mut stdout) = BufWriter::with_capacity(system.alloc(), OUTPUT_BUFFER, stdout) else {
        return exit_code(&without_memory(tool, &mut errors));
    };
    let ended = run_on_words(
        system,
        tool,
        stdin,
        &mut FromWrite::new(&mut stdout),
        &mut errors,
    );
    // What a failed write has left in the buffer is dropped here. The buffer's own drop would write it.
    let _ = stdout.into_parts();
    exit_code(&ended)
}

// Runs the program over streams of the report, with a buffer for which there was memory.
fn run_on_words<
    J: Judge + Drop,
    T: Tool<J>,
    S: Env + Files + AllocGlobal,
    R: Read,
    W: Flush,
    E: Output,
>(
    system: &S,
    tool: &T,
    stdin: &mut R,
    writer: &mut W,
    errors: &mut E,
) -> Result<Found, ProgramFault> {
    let words = match words_of(system) {
        Err(error) if error.kind() == ErrorKind::OutOfMemory => {
            return without_memory(tool, errors);
        }
        words => words.ok(),
    };
    run_program(
        system.alloc(),
        tool,
        words.as_ref().map(|words| words.as_slice()),
        &SystemFiles { system },
        &mut FromRead::new(stdin),
        writer,
        errors,
    )
}

// The words of the command line, the program's name first.
fn words_of(system: &(impl Env + AllocGlobal)) -> io::Result<Vec<String>> {
    let mut words = Vec::new(system.alloc());
    for word in env::args(system)? {
        words.push(word)?;
    }
    Ok(words)
}
