#![tactic(auto)]
//! What the symbols of an image, its stubs and its relocations name: libraries, addresses, indirect entries, other
//! symbols and sections. And the tables of symbols that only older loaders follow.

mod addresses;
pub mod few_spans;
pub mod header;
pub mod indirects;
pub mod nlist;
pub mod obsolete;
pub mod reloc;
pub mod relocations;
pub mod sections;
pub mod symbols;

pub use indirects::indirect_range;
pub use obsolete::obsolete_table;
pub use relocations::relocation;
pub use symbols::SymbolSurvey;
