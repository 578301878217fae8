//! The slots of code directories. (`cs_blobs.h`: `CSSLOT_CODEDIRECTORY`, `CSSLOT_ALTERNATE_CODEDIRECTORIES`)

ghost use Rattle.std.specs.Prelude.{◌≡◌, ◌<◌, true};
ghost use Rattle.macho_seals.specs.Slots.{slot_number as slot_number_of};
ghost use Rattle.macho_signature.specs.Superblobs.{is_directory_slot};

use macho_fields::header::cs_blobs::{
    CSSLOT_ALTERNATE_CODEDIRECTORIES, CSSLOT_ALTERNATE_CODEDIRECTORY_MAX, CSSLOT_CODEDIRECTORY,
};

// How many there are: one for the code directory that each signature has, and one for each of the others.
pub(crate) const DIRECTORY_SLOTS: usize = CSSLOT_ALTERNATE_CODEDIRECTORY_MAX as usize + 1;

// They are counted from 0.
pub(crate) fn slot_number(slot: u32) -> usize
    requires { is_directory_slot slot ≡ true }
    ensures number { result ≡ slot_number_of slot }
    ensures fits { result < DIRECTORY_SLOTS }
{
    if slot == CSSLOT_CODEDIRECTORY {
        0
    } else {
        (slot - CSSLOT_ALTERNATE_CODEDIRECTORIES) as usize + 1
    }
}
