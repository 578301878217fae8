#![tactic(auto)]
//! `libkesvuot`: the verdict on a file and the views of its images, for C and all languages that
//! can call C.
//!
//! No export has a `requires`: each is safe and returns on any bytes and on any numbers in the
//! structures that it is passed. Structures hold plain numbers: bytes are named by their place in the file.

mod address;
mod blobs;
mod cdhash;
mod code_directory;
mod data_in_code;
mod explain;
mod export_nodes;
mod export_trie;
mod exports;
mod fixups;
mod function_starts;
mod image;
mod layout;
mod linkedit;
mod names;
mod relocations;
mod rule;
mod source_version;
mod status;
mod symbol_index;
mod symbol_names;
mod symbols;
mod tables;
mod thread;
mod verdict;
mod version;
