#![tactic(auto)]
//! The code signature of an image: its superblob, the blobs in it, and the code directories among these.

pub mod code_directory;
pub mod law;
pub mod superblob;
pub mod survey;

pub use code_directory::CodeDirectory;
pub use superblob::{Blob, Superblob};
pub use survey::SignatureSurvey;
