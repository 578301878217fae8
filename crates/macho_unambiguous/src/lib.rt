#![tactic(auto)]
//! The unambiguous profile, of a file that breaks no rule of the linked one: the models of readers in `macho_readers`,
//! `macho_alike` and `macho_identity` give the same answers. A reader that looks in another way may give another one.

mod check;
pub mod law;
mod profile;
pub mod verdict;

pub use verdict::verify_unambiguous;
