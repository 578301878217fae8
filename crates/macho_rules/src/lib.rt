#![tactic(auto)]
//! The verdict on a file: the rules of its images, one function per rule, and all rules in their
//! order; and what is at the addresses of an accepted file.

mod check;
pub mod entry;
pub mod law;
pub mod mapping;
pub mod profile;
pub mod refusal;
pub mod sections;
pub mod segments;
mod survey;
pub mod symbols;
pub mod tables;
pub mod verdict;

pub use check::check_image;
pub use entry::is_executable;
pub use mapping::{Mapping, Source};
pub use profile::{ImageProfile, ProfileRules, check_images};
pub use refusal::Refusal;
pub use symbols::{name_limit, symbol_count};
pub use verdict::{Verified, verify};
