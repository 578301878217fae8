#![tactic(auto)]
//! A second verdict on a file, to compare with the first: it takes no memory, and decides most rules
//! in a way of its own.

mod entries;
mod file;
mod sections;
mod segments;
mod symbols;
pub mod verdict;

pub use verdict::slow_first;
