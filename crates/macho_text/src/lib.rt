#![tactic(auto)]
//! Streams of bytes, and text for them: numbers, names and lines. Nothing here reads a Mach-O file.

pub mod from_read;
pub mod from_write;
pub mod line;
mod name;
mod number;
pub mod stream;
pub mod transfer;

pub use from_read::FromRead;
pub use from_write::FromWrite;
pub use line::Line;
pub use stream::{Failed, Flush, Input, Output};
pub use transfer::{OUT_OF_MEMORY, WriteFault, write_all};
