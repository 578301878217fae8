#![tactic(auto)]
//! The sealed profile, of a file that breaks no rule of the unambiguous one: each image has a code signature, whose code
//! directories have the hashes of all bytes before it and of the blobs in special slots, as requirements and
//! entitlements. Each other byte of the image is zero, or in a part of the signature, which may not be executed.
//!
//! It does not say who signed: a signature by a certificate is bytes here. It says nothing of files beside the image,
//! as `Info.plist` and resources, and nothing of what entitlements mean.

mod check;
pub mod law;
mod profile;
pub mod verdict;

pub use verdict::verify_sealed;
