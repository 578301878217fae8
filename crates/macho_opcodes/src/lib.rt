#![tactic(auto)]
//! The opcodes of an image: what each of them says to a dynamic loader, where they ask it to write, and where they
//! first break each of their rules. (`mach-o/loader.h`)

pub mod cursor;
pub mod step;
pub mod stream;
pub mod streams;
