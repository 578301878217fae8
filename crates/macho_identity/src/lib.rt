#![tactic(auto)]
//! What a code signature says of a program, and the rules under which all its readers see the same: which blob is in
//! a slot, and what the code directories say.

pub mod directory_agree;
mod identity;
pub mod law;
pub mod signature_slot;
mod slots;
