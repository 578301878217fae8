#![tactic(auto)]
//! The fields of Mach-O images and universal files: numbers read from bytes, the
//! rules of the layout by name, and the constants of the public headers.

pub mod bytes;
pub mod file_type;
pub mod first_place;
pub mod header;
pub mod law;
pub mod load_command;
pub mod rule;

pub use bytes::{Bytes, Order};
pub use file_type::{FileType, Kind, file_type_of};
pub use first_place::FirstPlace;
pub use load_command::{
    Records, Structure, TableFields, UNIQUE_COUNT, Width, names_library, structure_of,
    unique_index, unlisted_tables,
};
pub use macho_spans::{Insert, Sharing, Span, SpanList, SpanOrder, Spans, SpansByStart, table_end};
pub use rule::{Break, LayoutRules, Profile, Rule};
