//! What the words after the program's name ask for.

ghost use Rattle.std.specs.Prelude.{◌≡◌, map, option_map, IfOk, false};
ghost use Rattle.clap.specs.Words.{app_of, first_of, found_of, kind_of, rows_of, rule_of};
ghost use Rattle.clap.specs.declared.builder.command.Command.TheViews.{out-Command as fields_of};
ghost use Rattle.macho_words.specs.Asked.{asked_by};
ghost use Rattle.macho_words.specs.Words.{AnswersRequest, asked_in, asked_of, bare_command, check_asked, check_command, check_or_where, requested_by, required, where_asked, where_command, word_fault_of};
ghost use Rattle.macho_words.specs.declared.words.WordFault.TheVariants.{Memory};

use crate::number::read_number;
use crate::task::{Question, Task};
use clap::error::ErrorKind;
use clap::{Arg, ArgMatches, Command};
use macho_fields::LayoutRules;
use macho_text::OUT_OF_MEMORY;
use std::alloc::{AllocError, Global};
use std::convert::AsStr;
use thiserror::Error;

/// The file name that means standard input.
pub const STANDARD_INPUT: &str = "-";

/// What the program is asked to do.
#[derive(Drop)]
pub enum Request {
    /// Judge this file, and show its layout.
    Check {
        file: String,
    },
    /// Say what is at this address of the image in this slice.
    Where {
        file: String,
        slice: u64,
        address: u64,
    },
}

/// What the words of `macho-check` may be, after its name.
pub const CHECK_OR_WHERE: &str = " check FILE | where FILE SLICE ADDRESS";

/// What is wrong where SLICE or ADDRESS is not a number.
pub const BAD_NUMBER: &str = "bad number";

/// Why the words ask for nothing. The texts are the lines of `macho-check`, without the line feed.
#[derive(Clone, Copy, Debug, PartialEq, Eq, Error)]
pub enum WordFault {
    /// The words are not the program's.
    #[error("usage: macho-check{words}", words = CHECK_OR_WHERE)]
    Usage,
    /// SLICE or ADDRESS is not a number.
    #[error("macho-check: {reason}", reason = BAD_NUMBER)]
    BadNumber,
    /// There was no memory.
    #[error("macho-check: {reason}", reason = OUT_OF_MEMORY)]
    Memory,
}

impl From<AllocError> for WordFault {
    ghost from_gives = { λ _ fault. fault ≡ Memory };

    fn from(_: AllocError) -> WordFault {
        WordFault::Memory
    }
}

impl From<clap::Error> for WordFault {
    ghost from_gives = { λ error fault. fault ≡ word_fault_of (kind_of error) };

    fn from(error: clap::Error) -> WordFault {
        match error.kind() {
            ErrorKind::OutOfMemory => WordFault::Memory,
            _ => WordFault::Usage,
        }
    }
}

impl From<Request> for Task<LayoutRules> {
    ghost from_gives = { λ request task. asked_by task ≡ requested_by request };

    fn from(request: Request) -> Task<LayoutRules> {
        match request {
            Request::Check { file } => Task::Ask {
                file,
                question: Question::Verdict(LayoutRules),
            },
            Request::Where {
                file,
                slice,
                address,
            } => Task::Ask {
                file,
                question: Question::Address { slice, address },
            },
        }
    }
}

/// Reads the words after the name of `macho-check`. No words ask for a check of standard input.
/// `BadNumber` is answered only where the words are otherwise the program's.
pub fn parse_words<'a, S: AsStr>(alloc: Global, words: &'a [S]) -> Result<Request, WordFault>
    ensures { AnswersRequest result (asked_of (map S.text words.now)) }
{
    if words.is_empty() {
        let file = String::from_str(alloc, STANDARD_INPUT)?;
        return Ok(Request::Check { file });
    }
    let matches = check_or_where(alloc)?.try_get_matches_from(words)?;
    let Some((name, arguments)) = matches.subcommand() else {
        return Err(WordFault::Usage);
    };
    request_in(alloc, name, arguments)
}

// The command of `macho-check`: one of its subcommands must be there.
fn check_or_where<'a>(alloc: Global) -> Result<Command<'a>, AllocError>
    ensures { IfOk result (λ command. app_of command ≡ check_or_where) }
{
    let check = check_command(alloc)?;
    let place = where_command(alloc)?;
    bare_command(alloc, "macho-check")
        .subcommand_required(true)
        .subcommand(check)?
        .subcommand(place)
}

/// A command without a program's name first. Of clap's own it takes no help.
pub fn bare_command<'a>(alloc: Global, name: &'a str) -> Command<'a>
    ensures { app_of result ≡ bare_command name.entry.now }
{
    Command::new(alloc, name)
        .no_binary_name(true)
        .disable_help_flag(true)
        .disable_help_subcommand(true)
}

// `check FILE`
fn check_command<'a>(alloc: Global) -> Result<Command<'a>, AllocError>
    ensures shape { IfOk result (λ command. app_of command ≡ check_command) }
    ensures local { IfOk result (λ command. (fields_of command).has_globals ≡ false) }
{
    Command::new(alloc, "check").arg(argument(alloc, "FILE"))
}

// `where FILE SLICE ADDRESS`
fn where_command<'a>(alloc: Global) -> Result<Command<'a>, AllocError>
    ensures shape { IfOk result (λ command. app_of command ≡ where_command) }
    ensures local { IfOk result (λ command. (fields_of command).has_globals ≡ false) }
{
    Command::new(alloc, "where")
        .arg(argument(alloc, "FILE"))?
        .arg(argument(alloc, "SLICE"))?
        .arg(argument(alloc, "ADDRESS"))
}

/// A positional argument that has to be there, taken as text.
pub fn argument<'a>(alloc: Global, name: &'a str) -> Arg<'a>
    ensures rule { rule_of result ≡ required name.entry.now }
    ensures local { result.global ≡ false }
{
    Arg::new(alloc, name).required(true)
}

// The request of a subcommand of this name, with these arguments.
fn request_in(alloc: Global, name: &str, arguments: &ArgMatches<'_>) -> Result<Request, WordFault>
    ensures { AnswersRequest result (asked_in name.now (rows_of (found_of arguments.now))) }
{
    match name {
        "check" => check_in(alloc, arguments),
        "where" => where_in(alloc, arguments),
        _ => Err(WordFault::Usage),
    }
}

/// The text of an argument of this name.
pub fn text_of<'a>(arguments: &ArgMatches<'a>, name: &str) -> Option<&'a str>
    ensures { option_map (λ text. text.now) result
        ≡ first_of name.now (rows_of (found_of arguments.now)) }
{
    arguments.get_str(name)
}

// The request of `check`.
fn check_in(alloc: Global, arguments: &ArgMatches<'_>) -> Result<Request, WordFault>
    ensures { AnswersRequest result (check_asked (rows_of (found_of arguments.now))) }
{
    let Some(file) = text_of(arguments, "FILE") else {
        return Err(WordFault::Usage);
    };
    let file = String::from_str(alloc, file)?;
    Ok(Request::Check { file })
}

// The request of `where`.
fn where_in(alloc: Global, arguments: &ArgMatches<'_>) -> Result<Request, WordFault>
    ensures { AnswersRequest result (where_asked (rows_of (found_of arguments.now))) }
{
    let (Some(file), Some(slice), Some(address)) = (
        text_of(arguments, "FILE"),
        text_of(arguments, "SLICE"),
        text_of(arguments, "ADDRESS"),
    ) else {
        return Err(WordFault::Usage);
    };
    let (Some(slice), Some(address)) = (read_number(slice), read_number(address)) else {
        return Err(WordFault::BadNumber);
    };
    let file = String::from_str(alloc, file)?;
    Ok(Request::Where {
        file,
        slice,
        address,
    })
}
