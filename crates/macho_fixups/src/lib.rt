#![tactic(auto)]
//! The fixups of an image, and what they import: the pointers that a dynamic loader writes, each once and in its order,
//! of opcodes and of chains alike. They are read from any bytes, without memory, and nothing need be judged before.
//! (`mach-o/loader.h`: `dyld_info_command`; `mach-o/fixup-chains.h`)
//!
//! An image that has an `LC_DYLD_CHAINED_FIXUPS` has the fixups of its chains, as a loader takes them, and any other
//! image the fixups of its opcodes.

pub mod batch;
pub mod chained_fixups;
pub mod chained_imports;
pub mod chained_pointer;
pub mod cursor;
pub mod fixups;
pub mod law;
pub mod location;
pub mod opcodes;
pub mod row;
pub mod streams;
pub mod walk;
