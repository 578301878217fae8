#![tactic(auto)]
//! What the linked profile says of the tables of linked data, whatever is in them: which kind they are of, where
//! they lie, and to which segments and libraries they refer. And where the functions of an image, its data in code and
//! its initializers are.

mod code_parts;
pub mod data_in_code;
pub mod data_table;
pub mod fields;
pub mod file_bytes;
pub mod function_starts;
pub mod homes;
pub mod init_offsets;
pub mod kinds;
pub mod limits;
pub mod mapped_addresses;
pub mod numbers;
pub mod place;
mod run_bytes;
pub mod segment;
mod segment_memory;
