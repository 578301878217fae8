//! The whole of a program, over any streams and files: from the words and an input to what is found of
//! it, and the line on standard error.

ghost use Rattle.std.specs.Prelude.{◌≡◌, ⊤, ℕ, List, Ok, Err};
ghost use Rattle.macho_text.specs.Stream.{WritesUnlessFailed};
ghost use Rattle.macho_report.specs.declared.outcome.RunFault.TheVariants as fault;
ghost use Rattle.macho_lines.specs.Text.{words_line};
ghost use Rattle.macho_words.specs.Asked.{asks};
ghost use Rattle.macho_program.specs.Program.{AnswersWords, EndsRight, ShowsRight, IsOfStandardInput, input_of, request_of};
ghost use Rattle.macho_program.specs.Text.{SaysLine, end_line};
ghost use Rattle.macho_program.specs.declared.program.ProgramFault.TheVariants as ends;

use crate::files::Open;
use crate::tools::Tool;
use macho_lines::write_words;
use macho_report::{Judge, Outcome, RunFault, WhereOutcome, run_where, run_with};
use macho_text::{Flush, FromRead, Input, Output, write_all};
use macho_words::{BAD_NUMBER, Question, STANDARD_INPUT, Task, WordFault};
use std::alloc::Global;
use std::convert::AsStr;
use thiserror::Error;

// How many bytes an input has at most. The line of `RunFault::TooLong` names it.
const LIMIT: u64 = 1 << 32;

const NO_IMAGE: &str = "no such image";

/// What the program found.
#[derive(Clone, Copy, Debug, PartialEq, Eq)]
pub enum Found {
    /// The verdict on a file.
    Check(Outcome),
    /// What is at an address.
    Where(WhereOutcome),
    /// Nothing: a text of the program's own was asked for.
    Shown,
}

/// Why the program wrote no report, or not all of it. The texts are its lines, without the line
/// feed.
#[derive(Clone, Copy, Debug, Error)]
pub enum ProgramFault {
    /// The words ask for nothing.
    #[error(transparent)]
    Words(WordFault),
    /// The run failed, or the words could not be had, which is a failed read.
    #[error(transparent)]
    Run(RunFault),
}

impl From<WordFault> for ProgramFault {
    ghost from_gives = { λ fault end. end ≡ ends.Words fault };

    fn from(fault: WordFault) -> ProgramFault {
        ProgramFault::Words(fault)
    }
}

impl From<RunFault> for ProgramFault {
    ghost from_gives = { λ fault end. end ≡ ends.Run fault };

    fn from(fault: RunFault) -> ProgramFault {
        ProgramFault::Run(fault)
    }
}

// Shows a text of the program's own. A failed flush is a failed write.
fn show<W: Flush>(text: &str, writer: &mut W) -> Result<Found, ProgramFault>
    ensures { ShowsRight W.Output W.Flush.own text.now writer.old writer.new result }
{
    let Ok(()) = write_all(text.as_bytes(), writer) else {
        return Err(ProgramFault::Run(RunFault::Write));
    };
    match writer.flush() {
        Ok(()) => Ok(Found::Shown),
        Err(_) => Err(ProgramFault::Run(RunFault::Write)),
    }
}

// Answers the question about the input, writes the text of what is found, and flushes it. Without
// such an image no text is written. A failed flush is a failed write.
fn find_in<J: Judge, R: Input, W: Flush>(
    alloc: Global,
    question: &Question<J>,
    reader: &mut R,
    writer: &mut W,
) -> Result<Found, ProgramFault>
    ensures { (name : List ℕ) → EndsRight J.Judge R.Input W.Output W.Flush.own
        (Ok (asks name question.now)) (λ _. R.remaining reader.old) (λ _. ⊤)
        reader.old reader.new writer.old writer.new result }
{
    let found = match question {
        Question::Verdict(judge) => Found::Check(run_with(alloc, judge, LIMIT, reader, writer)?),
        Question::Address { slice, address } => {
            Found::Where(run_where(alloc, LIMIT, *slice, *address, reader, writer)?)
        }
    };
    if found == Found::Where(WhereOutcome::NoImage) {
        return Ok(found);
    }
    match writer.flush() {
        Ok(()) => Ok(found),
        Err(_) => Err(ProgramFault::Run(RunFault::Write)),
    }
}

// What the words ask of a program. The first of them is how it was called.
fn task_in<'a, J: Judge, T: Tool<J>, S: AsStr>(
    alloc: Global,
    tool: &T,
    words: Option<&'a [S]>,
) -> Result<Task<J>, ProgramFault>
    ensures { AnswersWords result (request_of (T.asked tool.now) S.text words.entry) }
{
    match words {
        Some(words) => Ok(tool.task(alloc, words.get(1..).unwrap_or(&[]))?),
        None => Err(ProgramFault::Run(RunFault::Read)),
    }
}

// Does what the words ask for. Where the name of a file is `-`, that is standard input.
fn find_asked<J: Judge + Drop, T: Tool<J>, S: AsStr, O: Open, R: Input, W: Flush>(
    alloc: Global,
    tool: &T,
    words: Option<&[S]>,
    files: &O,
    standard: &mut R,
    writer: &mut W,
) -> Result<Found, ProgramFault>
    ensures { EndsRight J.Judge R.Input W.Output W.Flush.own
        (request_of (T.asked tool.now) S.text words.entry)
        (input_of (R.remaining standard.old) (O.bytes files.now)) IsOfStandardInput
        standard.old standard.new writer.old writer.new result }
{
    let task = task_in(alloc, tool, words)?;
    let (file, question) = match &task {
        Task::Show(text) => return show(text, writer),
        Task::Ask { file, question } => (file.as_str(), question),
    };
    if file == STANDARD_INPUT {
        return find_in(alloc, question, standard, writer);
    }
    match files.open(file) {
        Ok(mut file) => find_in(alloc, question, &mut FromRead::new(&mut file), writer),
        Err(_) => Err(ProgramFault::Run(RunFault::Read)),
    }
}

/// Does what the words ask of a program, and writes the text of what it finds, or a line to `errors`,
/// whose own faults are ignored. The files that it accepts are those that the tool's judge does.
///
/// `words` are the words of the command line, the program's name first, or `None` where the system does
/// not hand them over. `standard` is standard input, and is read only where the words ask for it.
pub fn run_program<J: Judge + Drop, T: Tool<J>, S: AsStr, O: Open, R: Input, W: Flush, E: Output>(
    alloc: Global,
    tool: &T,
    words: Option<&[S]>,
    files: &O,
    standard: &mut R,
    writer: &mut W,
    errors: &mut E,
) -> Result<Found, ProgramFault>
    // What is found and written, and when each fault comes.
    ensures ended { EndsRight J.Judge R.Input W.Output W.Flush.own
        (request_of (T.asked tool.now) S.text words.entry)
        (input_of (R.remaining standard.old) (O.bytes files.now)) IsOfStandardInput
        standard.old standard.new writer.old writer.new result }

    // Standard error: a line where there is one, and otherwise nothing.
    ensures line { SaysLine E.Output errors.old errors.new
        (end_line (T.called tool.now) (T.usage_words tool.now) result) }
{
    let ended = find_asked(alloc, tool, words, files, standard, writer);
    write_end(tool.name(), tool.usage(), &ended, errors);
    ended
}

/// The end of a program that has no memory for its output: the line of that fault goes to `errors`,
/// whose own faults are ignored.
pub fn without_memory<J: Judge, T: Tool<J>, E: Output>(
    tool: &T,
    errors: &mut E,
) -> Result<Found, ProgramFault>
    ensures memory { result ≡ Err (ends.Run fault.Memory) }
    ensures line { SaysLine E.Output errors.old errors.new
        (end_line (T.called tool.now) (T.usage_words tool.now) result) }
{
    let ended = Err(ProgramFault::Run(RunFault::Memory));
    write_end(tool.name(), tool.usage(), &ended, errors);
    ended
}

// Writes the line for how a program with this name and these words ended, where there is one. Faults of
// `errors` are ignored.
fn write_end<E: Output>(
    name: &str,
    usage: &str,
    ended: &Result<Found, ProgramFault>,
    errors: &mut E,
)
    ensures { SaysLine E.Output errors.old errors.new (end_line name.now usage.now ended.now) }
{
    match *ended {
        Ok(Found::Where(WhereOutcome::NoImage)) => write_line(name, ": ", NO_IMAGE, errors),
        Ok(_) => {}
        Err(ProgramFault::Words(WordFault::Usage)) => write_line("usage: ", name, usage, errors),
        Err(ProgramFault::Words(WordFault::BadNumber)) => {
            write_line(name, ": ", BAD_NUMBER, errors);
        }
        Err(ProgramFault::Words(WordFault::Memory)) => {
            write_line(name, ": ", RunFault::Memory.reason(), errors);
        }
        Err(ProgramFault::Run(fault)) => write_line(name, ": ", fault.reason(), errors),
    }
}

// Writes a line of three words. Faults of `errors` are ignored.
fn write_line<E: Output>(first: &str, second: &str, third: &str, errors: &mut E)
    ensures { WritesUnlessFailed (E.has_failed errors.new) (E.contents errors.old)
        (E.contents errors.new) (words_line first.now second.now third.now) }
{
    let _ = write_words(first, second, third, errors);
}
