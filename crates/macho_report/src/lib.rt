#![tactic(auto)]
//! The report of a file as text: the layout of an accepted file, or the line of the rule that it
//! breaks.

pub mod address;
pub mod judge;
pub mod layout;
pub mod outcome;

pub use address::{WhereOutcome, run_where};
pub use judge::Judge;
pub use layout::write_layout;
pub use macho_lines::write_break;
pub use macho_text::{Failed, FromRead, FromWrite, Input, Output, WriteFault};
pub use outcome::{Outcome, RunFault, run, run_with};
