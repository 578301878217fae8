//! From an input to its report: what was found, and the text of it.

ghost use Rattle.std.specs.Prelude.{◌≡◌, ◌++◌, List, ℕ, IfOk, IfNone, IfSome, Some, codes};
ghost use Rattle.macho_fields.specs.declared.rule.Break.{Break};
ghost use Rattle.macho_text.specs.Stream.{Wrote, WrotePrefix};
ghost use Rattle.macho_lines.specs.Text.{break_text};
ghost use Rattle.macho_report.specs.Text.{run_fault_reason};
ghost use Rattle.macho_report.specs.Run.{FailsRight, IsReport, RunsRight, run_fault_of};
ghost use Rattle.macho_report.specs.declared.outcome.Outcome.{Outcome};
ghost use Rattle.macho_report.specs.declared.outcome.RunFault.TheVariants as fault;

use crate::judge::Judge;
use crate::layout::write_layout_with;
use macho_fields::LayoutRules;
use macho_lines::write_break;
use macho_rules::{Refusal, Verified};
use macho_text::transfer::{ReadFault, read_all};
use macho_text::{Input, OUT_OF_MEMORY, Output, WriteFault};
use std::alloc::{AllocError, Global};
use std::fmt;
use thiserror::Error;

/// What a run found of its input.
#[derive(Clone, Copy, Debug, PartialEq, Eq)]
pub enum Outcome {
    /// The file breaks no rule, and its layout was written.
    Accepted,
    /// The file breaks a rule, and the line of the first was written.
    Refused,
}

const READ_FAILED: &str = "read failed";

const TOO_LONG: &str = "more than 4294967296 bytes";

const WRITE_FAILED: &str = "write failed";

/// Why a run wrote no report, or not all of it. The texts are the lines of `macho-check`, without the
/// line feed.
#[derive(Clone, Copy, Debug, PartialEq, Eq, Error)]
pub enum RunFault {
    /// A read failed.
    Read,
    /// The input has more bytes than the limit.
    TooLong,
    /// A write failed.
    Write,
    /// There was no memory.
    Memory,
}

impl fmt::Display for RunFault {
    ghost output = { λ fault. Some (codes "macho-check: " ++ run_fault_reason fault) };

    fn fmt<W: fmt::Write>(&self, f: &mut fmt::Formatter<W>) -> fmt::Result {
        write!(f, "macho-check: {}", self.reason())
    }
}

impl RunFault {
    /// What is wrong, as the program's line says it after its name.
    pub fn reason(self) -> &'static str
        ensures { result.now ≡ run_fault_reason self }
    {
        match self {
            RunFault::Read => READ_FAILED,
            RunFault::TooLong => TOO_LONG,
            RunFault::Write => WRITE_FAILED,
            RunFault::Memory => OUT_OF_MEMORY,
        }
    }
}

impl From<ReadFault> for RunFault {
    ghost from_gives = { λ fault run. run ≡ run_fault_of fault };

    fn from(fault: ReadFault) -> RunFault {
        match fault {
            ReadFault::Read => RunFault::Read,
            ReadFault::TooLong => RunFault::TooLong,
            ReadFault::Memory => RunFault::Memory,
        }
    }
}

impl From<AllocError> for RunFault {
    ghost from_gives = { λ _ run. run ≡ fault.Memory };

    fn from(_: AllocError) -> RunFault {
        RunFault::Memory
    }
}

impl From<WriteFault> for RunFault {
    ghost from_gives = { λ _ run. run ≡ fault.Write };

    fn from(_: WriteFault) -> RunFault {
        RunFault::Write
    }
}

/// Reads all of the input, decides the rules of the layout, and writes the text of the verdict:
/// [`run_with`] by [`LayoutRules`].
pub fn run<R: Input, W: Output>(
    alloc: Global,
    limit: u64,
    reader: &mut R,
    writer: &mut W,
) -> Result<Outcome, RunFault>
    ensures { RunsRight ⟦<LayoutRules as Judge>⟧ R.Input W.Output (record {}) limit reader.old reader.new
        writer.old writer.new result }
{
    run_with(alloc, &LayoutRules, limit, reader, writer)
}

/// Reads all of the input, hands it to the judge, and writes the text of the verdict. It does not
/// flush. Of the input it reads at most `limit + 1` bytes, in at most `limit + 1` reads.
pub fn run_with<J: Judge, R: Input, W: Output>(
    alloc: Global,
    judge: &J,
    limit: u64,
    reader: &mut R,
    writer: &mut W,
) -> Result<Outcome, RunFault>
    ensures { RunsRight J.Judge R.Input W.Output judge.now limit reader.old reader.new
        writer.old writer.new result }
{
    let file = read_all(alloc, limit, reader)?;
    write_verdict(alloc, judge, &file, writer)
}

// Hands a file to the judge, and writes the text of the verdict.
fn write_verdict<J: Judge, W: Output>(
    alloc: Global,
    judge: &J,
    file: &[u8],
    writer: &mut W,
) -> Result<Outcome, RunFault>
    ensures verdict { IfOk result (λ outcome. (text : List ℕ)
        × IsReport J.Judge judge.now file.now outcome text
        × Wrote (W.contents writer.old) (W.contents writer.new) text) }
    ensures fails { FailsRight result (W.has_failed writer.new)
        ((outcome : Outcome) × (text : List ℕ) × IsReport J.Judge judge.now file.now outcome text
        × WrotePrefix (W.contents writer.old) (W.contents writer.new) text)
        (writer.new ≡ writer.old) }
{
    let Some(verified) = accept(alloc, judge, file, writer)? else {
        return Ok(Outcome::Refused);
    };
    write_layout_with(judge, &verified, writer)?;
    Ok(Outcome::Accepted)
}

// Hands a file to the judge. Where it is refused, it writes the line of the break, and returns
// `None`.
pub(crate) fn accept<'a, J: Judge, W: Output>(
    alloc: Global,
    judge: &J,
    file: &'a [u8],
    writer: &mut W,
) -> Result<Option<Verified<'a>>, RunFault>
    ensures accepted { IfOk result (λ answer. IfSome answer (λ verified.
        (verified ≡ file.now) × J.accepts judge.now file.now × (writer.new ≡ writer.old))) }
    ensures refused { IfOk result (λ answer. IfNone answer ((b : Break) × J.refuses judge.now file.now b
        × Wrote (W.contents writer.old) (W.contents writer.new) (break_text b))) }
    ensures fails { FailsRight result (W.has_failed writer.new)
        ((b : Break) × J.refuses judge.now file.now b
        × WrotePrefix (W.contents writer.old) (W.contents writer.new) (break_text b))
        (writer.new ≡ writer.old) }
{
    match judge.judge(alloc, file) {
        Ok(verified) => Ok(Some(verified)),
        Err(Refusal::Broken(broken)) => {
            write_break(&broken, writer)?;
            Ok(None)
        }
        Err(Refusal::Memory) => Err(RunFault::Memory),
    }
}
