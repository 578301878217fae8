#![tactic(auto)]
//! The hashes of several messages of one length, side by side: each word of the hash value is a vector, with a lane for
//! each message.

mod block256;
mod pages;

pub use pages::{LANES, pages_sha256};
