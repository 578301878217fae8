//! The rule of the slots of blobs. An offset is one in the signature. (`cs_blobs.h`: `CS_BlobIndex`)

ghost use Rattle.std.specs.Prelude.{None, ℕ};
ghost use Rattle.macho_fields.specs.Bytes.{bytes_of};
ghost use Rattle.macho_fields.specs.FirstPlace.{IsLeastPlace};
ghost use Rattle.macho_fields.specs.Layers.{NothingBreaks};
ghost use Rattle.macho_fields.specs.Rules.{BreaksImage as Breaks};
ghost use Rattle.macho_identity.specs.SignatureSlot.{BadSlot, BreaksSignatureSlot};
ghost use Rattle.macho_signature.specs.Signature.{BreaksSignatureBlob};
ghost use Rattle.macho_signature.specs.Superblobs.{AreGoodBlobs};

use crate::slots::{NAMED_SLOTS, is_misfit, slot_number};
use macho_fields::Bytes;
use macho_fields::header::loader::LC_CODE_SIGNATURE;
use macho_image::Image;
use macho_seals::signature::{blob_at, superblob_of};
use macho_signature::superblob::{entry_offset, word_at};
use macho_tables::data_table::data_table;
use macho_tables::place::place_from;

/// The place of the first entry of the index, in the code signature of an image, that has the slot of an earlier entry,
/// or whose blob has another magic number than blobs in its slot. A slot that readers do not know has none of theirs,
/// and a slot without a name is greater than all such slots before it. It takes time in the order of the entries, and
/// no memory.
pub fn signature_slot(image: &Image) -> Option<u64>
    requires layout { NothingBreaks (Breaks image.now None) }
    requires blob { (place : ℕ) → ¬ BreaksSignatureBlob image.now place }
    ensures { IsLeastPlace (BreaksSignatureSlot image.now) result }
{
    let Some(table) = data_table(image, LC_CODE_SIGNATURE) else {
        return None;
    };
    place_from(table.start, first_bad_slot(image.bytes().slice(table)))
}

// The offset of the first such entry of a signature.
fn first_bad_slot(signature: Bytes) -> Option<u64>
    requires { AreGoodBlobs (bytes_of signature) }
    ensures { IsLeastPlace (BadSlot (bytes_of signature.entry)) result }
{
    let superblob = superblob_of(signature);
    // Which of the slots with a name an earlier entry has.
    let mut is_taken = [false; NAMED_SLOTS];
    // One more than the greatest slot without a name that an earlier entry has, or 0.
    let mut least = 0;
    for index in 0..superblob.count {
        let blob = blob_at(signature, superblob, index);
        if is_misfit(blob.slot, word_at(signature, u64::from(blob.offset))) {
            return Some(entry_offset(index));
        }
        match slot_number(blob.slot) {
            Some(number) => {
                if is_taken[number] {
                    return Some(entry_offset(index));
                }
                is_taken[number] = true;
            }
            None => {
                if u64::from(blob.slot) < least {
                    return Some(entry_offset(index));
                }
                least = u64::from(blob.slot) + 1;
            }
        }
    }
    None
}
