#![tactic(auto)]
//! The strict profile, of a file that breaks no rule of the layout: every nonzero byte is accounted
//! for, and no byte belongs to two elements.

mod by_start;
mod check;
mod claims;
mod commands;
pub mod disjoint;
pub mod elements;
mod encrypted;
mod gaps;
pub mod law;
mod nops;
mod overlap;
mod profile;
mod segments;
pub mod slack;
mod stray;
pub mod unclaimed;
pub mod verdict;

pub use disjoint::Disjoint;
pub use elements::{Element, Elements};
pub use stray::entry_size;
pub use unclaimed::{code_of, is_code};
pub use verdict::verify_strictly;
