//! Two code directories of a signature in one slot.

ghost use Rattle.macho_fields.specs.Bytes.{bytes_of};
ghost use Rattle.macho_fields.specs.FirstPlace.{IsLeastPlace};
ghost use Rattle.macho_seals.specs.Signature.{RepeatedDirectory};
ghost use Rattle.macho_signature.specs.Superblobs.{AreGoodBlobs};

use crate::signature::{blob_at, superblob_of};
use crate::slots::{DIRECTORY_SLOTS, slot_number};
use macho_fields::Bytes;
use macho_signature::superblob::entry_offset;

/// The first entry of a signature with the slot of code directories that an earlier one has.
pub fn first_repeated(signature: Bytes) -> Option<u64>
    requires { AreGoodBlobs (bytes_of signature) }
    ensures { IsLeastPlace (RepeatedDirectory (bytes_of signature.entry)) result }
{
    let superblob = superblob_of(signature);
    let mut is_taken = [false; DIRECTORY_SLOTS];
    for index in 0..superblob.count {
        let blob = blob_at(signature, superblob, index);
        if blob.is_directory() {
            let number = slot_number(blob.slot);
            if is_taken[number] {
                return Some(entry_offset(index));
            }
            is_taken[number] = true;
        }
    }
    None
}
