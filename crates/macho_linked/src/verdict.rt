//! The linked verdict on a file.

ghost use Rattle.std.specs.Prelude.{◌≡◌, OnOk, IfOk, IfErr};
ghost use Rattle.macho_linked.specs.Linked.{KeepsLinked};
ghost use Rattle.macho_linked.specs.Verdict.{IsLinkedRefusal};

use crate::profile::Linked;
use macho_rules::{Refusal, Verified, check_images};
use macho_strict::verify_strictly;
use std::alloc::Global;

/// Decides the rules of a file as `macho_strict::verify_strictly` does, and then the linked rules, in their
/// order: accepts it, or returns the first broken one, with its place in the file.
///
/// The linked rules are about its 64-bit slices, in the order of the table. They take memory only for an export
/// trie, 48 bytes for each mapped segment, and up to 16 for each node that waits; for function starts and for
/// symbols of an image with more than 16 mapped segments, 48 bytes for each segment; for data in code of an image with
/// several segments that may be executed, 24 bytes for each segment; and for offsets of initializers, both.
pub fn verify_linked<'a>(alloc: Global, file: &'a [u8]) -> Result<Verified<'a>, Refusal>
    // It accepts only a file that breaks no rule of the three profiles, which then is sound, accounted for and safe
    // to follow; and refuses only one that breaks one of them, unless memory runs out.
    ensures accepted { OnOk result (KeepsLinked file.now) }
    ensures refused { IfErr result (IsLinkedRefusal file.now) }
    ensures file { IfOk result (λ verified. verified ≡ file.now) }
{
    let verified = verify_strictly(alloc, file)?;
    check_images::<Linked>(alloc, &verified)?;
    Ok(verified)
}
