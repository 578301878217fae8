//! What differs between the programs: their names, their words, and who judges for them.

ghost use Rattle.std.specs.Prelude.{◌≡◌, ℕ, List, Result, codes, map};
ghost use Rattle.macho_words.specs.Asked.{Asked, Answers};
ghost use Rattle.macho_program.specs.Text.{check_or_where_usage};
ghost use Rattle.macho_words.specs.Words.{asked_of};
ghost use Rattle.macho_words.specs.declared.words.WordFault.{WordFault};

use macho_fields::LayoutRules;
use macho_report::Judge;
use macho_words::{CHECK_OR_WHERE, Task, WordFault, parse_words};
use std::alloc::Global;
use std::convert::AsStr;

/// A program: its name, what its words ask for, and the judge `J` of the files that they name.
pub trait Tool<J: Judge> {
    /// Its name, with which its lines on standard error begin.
    ghost called: { Self → List ℕ };
    /// What its words may be, as its line on them says it.
    ghost usage_words: { Self → List ℕ };
    /// What the words after its name ask for, or why they ask for nothing.
    ghost asked: { Self → List (List ℕ) → Result (Asked J) WordFault };

    /// Its name.
    fn name(&self) -> &str
        ensures { result.now ≡ called self.now };

    /// What its words may be, after a blank.
    fn usage(&self) -> &str
        ensures { result.now ≡ usage_words self.now };

    /// Reads the words after its name.
    fn task<'a, S: AsStr>(&self, alloc: Global, words: &'a [S]) -> Result<Task<J>, WordFault>
        ensures { Answers result (asked self.now (map S.text words.now)) };
}

/// `macho-check`, which judges by the rules of the layout.
#[derive(Clone, Copy)]
pub struct MachoCheck;

impl Tool<LayoutRules> for MachoCheck {
    ghost called = { λ _. codes "macho-check" };

    ghost usage_words = { λ _. check_or_where_usage };

    ghost asked = { λ _. asked_of };

    fn name(&self) -> &str {
        "macho-check"
    }

    fn usage(&self) -> &str {
        CHECK_OR_WHERE
    }

    fn task<'a, S: AsStr>(
        &self,
        alloc: Global,
        words: &'a [S],
    ) -> Result<Task<LayoutRules>, WordFault> {
        Ok(Task::from(parse_words(alloc, words)?))
    }
}
