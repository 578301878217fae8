#![tactic(auto)]
//! What the words of a command line ask for, as `clap` reads them, and the numbers among them.

mod number;
mod task;
mod words;

pub use number::read_number;
pub use task::{Question, Task};
pub use words::{
    BAD_NUMBER, CHECK_OR_WHERE, Request, STANDARD_INPUT, WordFault, argument, bare_command,
    parse_words, text_of,
};
