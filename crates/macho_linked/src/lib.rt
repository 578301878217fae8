#![tactic(auto)]
//! The linked profile: where the linked data of an image lies, what the opcodes and the chained fixups that a
//! dynamic loader follows ask it to write, and where its exports, its functions and its data in code are. What all
//! tables share is in `macho_tables`, opcodes in `macho_opcodes`, chained fixups in `macho_chains` and exports in
//! `macho_exports`.

mod check;
pub mod law;
mod profile;
pub mod verdict;

pub use verdict::verify_linked;
