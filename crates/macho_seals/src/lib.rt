#![tactic(auto)]
//! What a code signature seals: the hashes of pages and of blobs, the bytes between the blobs, and the hash by which a
//! code directory is known.

pub mod cdhash;
pub mod digest;
mod directories;
pub mod executable;
pub mod hashes;
pub mod pages;
pub mod repeated;
mod side_by_side;
pub mod signature;
pub mod slack;
mod slots;
pub mod specials;

pub use cdhash::{Cdhashes, cdhash_of};
pub use digest::Digest;
