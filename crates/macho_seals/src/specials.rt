//! The blobs of a signature in special slots, against the hashes of its code directories. An offset is one in the
//! signature. (`cs_blobs.h`: `CS_CodeDirectory.nSpecialSlots`)

ghost use Rattle.std.specs.Prelude.{◌≡◌, ◌↔◌, ◌*◌, ◌≤◌, length, IsTrue, true};
ghost use Rattle.macho_fields.specs.Bytes.{bytes_of};
ghost use Rattle.macho_fields.specs.FirstPlace.{IsLeastPlace};
ghost use Rattle.macho_seals.specs.Directories.{EachDirectory, HasHashesInside, HaveOtherSpecial};
ghost use Rattle.macho_seals.specs.Specials.{is_special_slot as is_special_slot_of, special_slot as special_slot_of, HasSpecialHash};
ghost use Rattle.macho_signature.specs.CodeDirectories.{HasHashes};
ghost use Rattle.macho_signature.specs.Superblobs.{AreGoodBlobs};

use crate::digest::has_hash;
use crate::directories::{Directories, have_special};
use crate::signature::{blob_at, blob_bytes, superblob_of};
use macho_fields::header::cs_blobs::{CSSLOT_ALTERNATE_CODEDIRECTORIES, CSSLOT_CODEDIRECTORY};
use macho_fields::{Bytes, Span};
use macho_signature::CodeDirectory;

// The first blob of a signature in a special slot that a code directory lacks, or with another hash there.
pub(crate) fn first_other_special(signature: Bytes, directories: &Directories) -> Option<u64>
    requires blobs { AreGoodBlobs (bytes_of signature) }
    requires hashes { EachDirectory directories.now HasHashesInside }
    ensures { IsLeastPlace (HaveOtherSpecial (bytes_of signature.entry) directories.now) result }
{
    let superblob = superblob_of(signature);
    for index in 0..superblob.count {
        let special = blob_at(signature, superblob, index);
        if is_special_slot(special.slot)
            && !have_special(directories, special.slot, blob_bytes(signature, special))
        {
            return Some(u64::from(special.offset));
        }
    }
    None
}

/// Whether a code directory has the hash of a blob in the slot: one between `CSSLOT_CODEDIRECTORY` and
/// `CSSLOT_ALTERNATE_CODEDIRECTORIES`.
pub fn is_special_slot(slot: u32) -> bool
    ensures { result ≡ is_special_slot_of slot }
{
    CSSLOT_CODEDIRECTORY < slot && slot < CSSLOT_ALTERNATE_CODEDIRECTORIES
}

/// Whether the code directory with the bytes `blob` has the special slot, and in it the hash of the message.
pub fn has_special_hash(blob: Bytes, directory: CodeDirectory, slot: u32, message: &[u8]) -> bool
    requires hashes { HasHashes (length (bytes_of blob)) directory }
    requires slot { is_special_slot_of slot ≡ true }
    ensures { IsTrue result ↔ HasSpecialHash (bytes_of blob.entry) directory slot message.now }
{
    slot <= directory.special_slots
        && has_hash(
            directory.hash_type,
            message,
            blob.read_part(special_slot(directory, slot)),
        )
}

/// Where the hash of a special slot is in the blob of the directory. Slot 1 is the last one before `hash_offset`.
pub fn special_slot(directory: CodeDirectory, slot: u32) -> Span
    requires slot { slot ≤ directory.special_slots }
    requires inside { directory.special_slots * directory.hash_size ≤ directory.hash_offset }
    ensures { result ≡ special_slot_of directory slot }
{
    let hash_size = u64::from(directory.hash_size);
    Span {
        start: u64::from(directory.hash_offset) - u64::from(slot) * hash_size,
        len: hash_size,
    }
}
