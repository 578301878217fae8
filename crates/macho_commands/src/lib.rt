#![tactic(auto)]
//! The load commands whose content no rule of the layout judges: threads, and what the other commands of
//! `mach-o/loader.h` hold.
//!
//! A `place` is an offset in bytes from the start of the image. An offset in a command is counted from the start
//! of the command.

pub mod content;
mod described;
mod held;
pub mod law;
pub mod registers;
mod states;
mod strings;
pub mod survey;
pub mod thread;

pub use content::{Content, Holding, content_of, is_foreign};
pub use registers::{Registers, StateHeader, registers_of};
pub use survey::CommandSurvey;
pub use thread::{is_thread, thread_entry};
