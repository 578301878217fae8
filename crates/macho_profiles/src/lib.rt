#![tactic(auto)]
//! The verdict on a file by any profile.

pub mod verdict;

pub use verdict::verify_by;
