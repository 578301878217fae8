#![tactic(auto)]
//! Rules of symbols, exports and binds, one by one, and the readers that they keep alike. Some readers trust the groups
//! of the symbol table, and others the types of its symbols. Some look a name up in the export trie, and others list all
//! names. Some take the first symbol that defines a name, or the first bind of a slot, and others the last.

mod bind_names;
pub mod binds;
pub mod bounds;
mod claims;
pub mod definitions;
pub mod export_symbol;
pub mod exports;
pub mod imports;
pub mod indirects;
pub mod law;
mod names;
mod notes;
pub mod symbol_total;
pub mod symbols;
mod trie;

pub use binds::bind_once;
pub use definitions::definition;
pub use exports::export_edge;
pub use imports::import_library;
pub use indirects::indirect_name;
pub use symbols::symbol_kind;
