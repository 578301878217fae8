//! What the words of `macho-verify` ask for.

ghost use Rattle.std.specs.Prelude.{◌≡◌, codes, map, option_map, IfOk};
ghost use Rattle.clap.specs.Words.{app_of, first_of, found_of, rows_of};
ghost use Rattle.macho_words.specs.Asked.{Answers};
ghost use Rattle.macho_verify.specs.Words.{asked_in, asked_of, own_text, profile_and_file, usage, verdict_asked};

use crate::judge::ProfileRules;
use clap::{ArgMatches, Command};
use macho_fields::Profile;
use macho_program::Tool;
use macho_words::{Question, Task, WordFault, argument, bare_command, text_of};
use std::alloc::{AllocError, Global};
use std::convert::AsStr;

/// What the words may be, after the name.
const USAGE: &str = " layout|strict|linked|unambiguous|sealed FILE";

/// What `--help` prints.
pub const HELP: &str = "\
usage: macho-verify layout|strict|linked|unambiguous|sealed FILE

Judges a Mach-O file by a profile. Prints the layout of a file that it accepts, and
otherwise the first rule that the file breaks. FILE - is standard input.

  layout       a loader that follows the headers stays inside the file
  strict       layout, and every byte that is not zero has one owner
  linked       strict, and a loader that follows opcodes, chains and exports stays inside
  unambiguous  linked, and readers that look in the ways that we know see one program
  sealed       unambiguous, and the hashes of the code signature are those of the bytes

Exit status: 0 accepted, 1 refused, 2 usage, 3 a read or a write failed, 4 out of memory.
";

/// What `--version` prints.
pub const VERSION: &str = "macho-verify 2.0.0-dev\n";

/// `macho-verify`, which judges by the profile that its first word names.
#[derive(Clone, Copy)]
pub struct MachoVerify;

impl Tool<ProfileRules> for MachoVerify {
    ghost called = { λ _. codes "macho-verify" };

    ghost usage_words = { λ _. usage };

    ghost asked = { λ _. asked_of };

    fn name(&self) -> &str {
        "macho-verify"
    }

    fn usage(&self) -> &str {
        USAGE
    }

    fn task<'a, S: AsStr>(
        &self,
        alloc: Global,
        words: &'a [S],
    ) -> Result<Task<ProfileRules>, WordFault> {
        let Some(first) = words.first() else {
            return parse_verdict(alloc, words);
        };
        match own_text(first.as_str()) {
            Some(text) => Ok(Task::Show(text)),
            None => parse_verdict(alloc, words),
        }
    }
}

// The text of its own that the program shows where this is the first word.
fn own_text(word: &str) -> Option<&'static str>
    ensures { option_map (λ text. text.now) result ≡ own_text word.now }
{
    match word {
        "--help" => Some(HELP),
        "--version" => Some(VERSION),
        _ => None,
    }
}

// Reads `PROFILE FILE`.
fn parse_verdict<'a, S: AsStr>(
    alloc: Global,
    words: &'a [S],
) -> Result<Task<ProfileRules>, WordFault>
    ensures { Answers result (verdict_asked (map S.text words.now)) }
{
    let matches = profile_and_file(alloc)?.try_get_matches_from(words)?;
    verdict_in(alloc, &matches)
}

// The command: `PROFILE FILE`.
fn profile_and_file<'a>(alloc: Global) -> Result<Command<'a>, AllocError>
    ensures { IfOk result (λ command. app_of command ≡ profile_and_file) }
{
    bare_command(alloc, "macho-verify")
        .arg(argument(alloc, "PROFILE"))?
        .arg(argument(alloc, "FILE"))
}

// The verdict that these arguments ask for.
fn verdict_in(alloc: Global, arguments: &ArgMatches<'_>) -> Result<Task<ProfileRules>, WordFault>
    ensures { Answers result (asked_in (rows_of (found_of arguments.now))) }
{
    let (Some(profile), Some(file)) = (text_of(arguments, "PROFILE"), text_of(arguments, "FILE"))
    else {
        return Err(WordFault::Usage);
    };
    let Some(profile) = Profile::with_name(profile) else {
        return Err(WordFault::Usage);
    };
    let file = String::from_str(alloc, file)?;
    Ok(Task::Ask {
        file,
        question: Question::Verdict(ProfileRules { profile }),
    })
}
