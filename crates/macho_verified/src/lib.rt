#![tactic(auto)]
//! The images of an accepted file, and reads of them that cannot fail: what an accepted image names
//! is there, so no caller tests it again. Only `mapping` takes memory, and may report that there is
//! none.

mod data;
pub mod dysymtab;
pub mod image;
pub mod indirect;
pub mod linkedit;
pub mod mapping;
pub mod section;
pub mod segment;
pub mod symbol;

pub use image::VerifiedImage;
pub use indirect::{VerifiedIndirect, VerifiedIndirects};
pub use section::{VerifiedSection, VerifiedSections};
pub use segment::{VerifiedSegment, VerifiedSegments};
pub use symbol::{VerifiedSymbol, VerifiedSymbols};
