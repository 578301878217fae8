#![tactic(auto)]
//! The rows of the tables that load commands name, read from any bytes: each command is tested before it is read, and
//! nothing need be judged before. Rows hold plain numbers, as C has them, and name bytes by their place in the file.

pub mod address;
pub mod bounded_tables;
pub mod builds;
pub mod commands;
pub mod cursor;
pub mod image;
pub mod indirects;
pub mod libraries;
pub mod linkedit;
pub mod load;
pub mod parts;
pub mod sections;
pub mod segments;
pub mod span;
pub mod symbol_index;
pub mod symbol_names;
pub mod symbols;
pub mod table;
