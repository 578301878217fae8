#![tactic(auto)]
//! A 64-bit Mach-O image: opened once, then read through borrowed views that cannot fail.
//!
//! A `place` is an offset in bytes from the start of the image. Numbers are little-endian.

pub mod build;
pub mod command;
pub mod dylinker;
pub mod dysymtab;
pub mod entry;
pub mod image;
pub mod indirect;
mod items;
mod landmarks;
pub mod library;
pub mod main_command;
pub mod mapped;
pub mod rpath;
mod rules;
pub mod section;
pub mod segment;
mod survey;
pub mod symbol;
pub mod symtab;
pub mod table;
mod unique;
pub mod uuid;
mod walk;

pub use build::{Build, Builds};
pub use command::{Command, Commands};
pub use dysymtab::Dysymtab;
pub use image::{FileType, Image, Kind};
pub use indirect::{Indirect, Indirects};
pub use landmarks::Landmarks;
pub use library::{Dylib, Dylibs};
pub use main_command::MainCommand;
pub use mapped::MappedSegments;
pub use rpath::Rpaths;
pub use section::{AllSections, Section, Sections};
pub use segment::{Segment, Segments};
pub use symbol::{Symbol, Symbols};
pub use symtab::Symtab;
pub use table::{TableEntries, TableEntry};
