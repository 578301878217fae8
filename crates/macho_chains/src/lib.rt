#![tactic(auto)]
//! The chained fixups of an image: what a dynamic loader reads of them, what it writes, and where they first break
//! each of their rules. (`mach-o/fixup-chains.h`)

pub mod chain_header;
pub mod chain_imports;
pub mod chain_pages;
pub mod chain_pointers;
pub mod chain_starts;
pub mod chains;
