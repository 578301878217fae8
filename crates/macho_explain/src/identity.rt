//! The rules of what a code signature says of a program. (`cs_blobs.h`: `CS_BlobIndex`, `CS_CodeDirectory`)

ghost use Rattle.std.specs.Prelude.{◌≡◌, ◌≤◌, ◌<◌, ℕ, length, IfNone, IfSome, None, Some};
ghost use Rattle.macho_fields.specs.Bytes.{bytes_of};
ghost use Rattle.macho_fields.specs.declared.rule.Rule.{Rule};
ghost use Rattle.macho_identity.specs.DirectoryAgree.{HasDirectory, IsFirstDirectory};
ghost use Rattle.macho_signature.specs.Superblobs.{blob_at, blob_count, blob_end, AreGoodBlobs};
ghost use Rattle.macho_explain.specs.Explained.{ExplainsIn};
ghost use Rattle.macho_explain.specs.Identities.{IsEarlierShown, ReadsDirectory};

use crate::conflict::Conflict;
use crate::explanation::Explanation;
use crate::part::Part;
use crate::seal::first_in_slot;
use crate::signature::{Signature, Within, place_in, signature_of, word};
use crate::sliced::Sliced;
use macho_signature::{Blob, CodeDirectory};

// The slot of the entry at the place, and the magic number of its blob; and the first earlier entry of the slot.
#[inline(never)]
pub(crate) fn signature_slot(sliced: &Sliced) -> Option<Explanation>
    ensures { ExplainsIn Rule.SignatureSlot sliced.now result }
{
    let signature = signature_of(sliced)?;
    let Within::Entry(at, index) = place_in(sliced, &signature)? else {
        return None;
    };
    let blob = signature.placed_blob(index)?;
    let magic = word(signature.bytes, u64::from(blob.offset))?;
    let part = signature.blob_part(sliced, index, blob.span());
    Some(at.shows(Conflict {
        second: earlier_in_slot(sliced, &signature, index, blob.slot),
        ..Conflict::alone(part, u64::from(blob.slot), u64::from(magic))
    }))
}

// The blob of the first entry before one that is in a slot.
fn earlier_in_slot(sliced: &Sliced, signature: &Signature, index: u32, slot: u32) -> Option<Part>
    ensures { slot ≡ (blob_at (bytes_of signature.now.bytes) index).slot
        → index < blob_count (bytes_of signature.now.bytes)
        → IsEarlierShown (bytes_of signature.now.bytes) index result }
{
    let (first, earlier) = first_in_slot(signature, slot)?;
    if first >= index {
        return None;
    }
    Some(signature.blob_part(sliced, first, earlier.span()))
}

// The type of hashes of the code directory at the place, and of the first code directory.
#[inline(never)]
pub(crate) fn directory_agree(sliced: &Sliced) -> Option<Explanation>
    ensures { ExplainsIn Rule.DirectoryAgree sliced.now result }
{
    let signature = signature_of(sliced)?;
    let Within::Entry(at, index) = place_in(sliced, &signature)? else {
        return None;
    };
    let own = placed_directory(&signature, index)?;
    let first = first_directory(&signature, index)?;
    let (one, other) = (own.part(sliced, &signature), first.part(sliced, &signature));
    let (value, limit) = (own.fields.hash_type, first.fields.hash_type);
    Some(at.shows(Conflict::of(one, other, u64::from(value), u64::from(limit))))
}

// A code directory, whether it is sound or not.
#[derive(Clone, Copy)]
struct Placed {
    // The index of its entry.
    index: u32,
    blob: Blob,
    fields: CodeDirectory,
}

impl Placed {
    ghost use Rattle.std.specs.Prelude.{◌≡◌, Some};

    // Its blob, and the entry that describes it.
    fn part(&self, sliced: &Sliced, signature: &Signature) -> Part
        ensures { result.index ≡ Some self.now.index }
    {
        signature.blob_part(sliced, self.index, self.blob.span())
    }
}

// The code directory of an entry, if its blob is placed and is one.
fn placed_directory(signature: &Signature, index: u32) -> Option<Placed>
    ensures some { IfSome result (λ placed. (placed.index ≡ index)
        × ReadsDirectory (bytes_of signature.now.bytes) index placed.fields) }
    ensures none { IfNone result (¬ (AreGoodBlobs (bytes_of signature.now.bytes)
        × (index < blob_count (bytes_of signature.now.bytes))
        × HasDirectory (bytes_of signature.now.bytes) index)) }
{
    let blob = signature.placed_blob(index)?;
    let fields = directory_of(signature, blob)?;
    Some(Placed {
        index,
        blob,
        fields,
    })
}

// The first code directory, up to the one of an entry.
fn first_directory(signature: &Signature, index: u32) -> Option<Placed>
    ensures some { IfSome result (λ placed. IsFirstDirectory (bytes_of signature.now.bytes) placed.index
        × ReadsDirectory (bytes_of signature.now.bytes) placed.index placed.fields) }
    ensures none { IfNone result (¬ (AreGoodBlobs (bytes_of signature.now.bytes)
        × (index < blob_count (bytes_of signature.now.bytes))
        × HasDirectory (bytes_of signature.now.bytes) index)) }
{
    for earlier in 0..index {
        let blob = signature.placed_blob(earlier)?;
        if let Some(fields) = directory_of(signature, blob) {
            return Some(Placed {
                index: earlier,
                blob,
                fields,
            });
        }
    }
    placed_directory(signature, index)
}

// The code directory that a blob is, if its slot is one of code directories.
fn directory_of(signature: &Signature, blob: Blob) -> Option<CodeDirectory>
    requires { blob_end blob ≤ length (bytes_of signature.now.bytes) }
    ensures some { IfSome result (λ fields. (k : ℕ) → blob ≡ blob_at (bytes_of signature.now.bytes) k
        → ReadsDirectory (bytes_of signature.now.bytes) k fields) }
    ensures none { IfNone result ((k : ℕ) → blob ≡ blob_at (bytes_of signature.now.bytes) k
        → ¬ HasDirectory (bytes_of signature.now.bytes) k) }
{
    if !blob.is_directory() {
        return None;
    }
    CodeDirectory::read(signature.bytes.slice(blob.span()))
}
