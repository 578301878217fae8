#![tactic(auto)]
//! The exports of an image: its export trie, the look-up of a name, and where they first break each of their rules.
//! (`mach-o/loader.h`)

pub mod export_trie;
pub mod export_walk;
pub mod exports;
