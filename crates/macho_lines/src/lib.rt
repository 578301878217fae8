#![tactic(auto)]
//! The lines of a report, and the text of an image.

mod arch;
mod fields;
mod image;
mod lines;

pub use image::write_image;
pub use lines::{write_break, write_cdhash, write_count, write_slice, write_words};
