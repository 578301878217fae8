//! The slots of the blobs that readers look for, and the magic numbers of the blobs. (`cs_blobs.h`: `CSSLOT_CODEDIRECTORY`,
//! `CSMAGIC_CODEDIRECTORY` and the constants beside them)

ghost use Rattle.std.specs.Prelude.{◌≡◌, ◌↔◌, ◌<◌, IfSome, IsTrue};
ghost use Rattle.macho_identity.specs.Slots.{magic_of_slot as magic_of_slot_of, slot_number as slot_number_of, is_alternate_slot as is_alternate_slot_of, is_late_slot as is_late_slot_of, is_known_magic as is_known_magic_of, IsMisfit};

use macho_fields::header::cs_blobs::{
    CSMAGIC_BLOBWRAPPER, CSMAGIC_CODEDIRECTORY, CSMAGIC_EMBEDDED_DER_ENTITLEMENTS,
    CSMAGIC_EMBEDDED_ENTITLEMENTS, CSMAGIC_EMBEDDED_LAUNCH_CONSTRAINT, CSMAGIC_REQUIREMENTS,
    CSSLOT_ALTERNATE_CODEDIRECTORIES, CSSLOT_ALTERNATE_CODEDIRECTORY_MAX, CSSLOT_CODEDIRECTORY,
    CSSLOT_DER_ENTITLEMENTS, CSSLOT_ENTITLEMENTS, CSSLOT_LAUNCH_CONSTRAINT_SELF,
    CSSLOT_LIBRARY_CONSTRAINT, CSSLOT_REQUIREMENTS, CSSLOT_SIGNATURESLOT, CSSLOT_TICKETSLOT,
};

// How many slots have a hash in code directories.
const HASHED_SLOTS: u32 = CSSLOT_LIBRARY_CONSTRAINT + 1;

// How many slots have a name.
pub(crate) const NAMED_SLOTS: usize = 20;

/// The magic number of a blob in the slot, or `None` if readers do not know the slot.
pub fn magic_of_slot(slot: u32) -> Option<u32>
    ensures { result ≡ magic_of_slot_of slot }
{
    if slot == CSSLOT_CODEDIRECTORY || is_alternate_slot(slot) {
        Some(CSMAGIC_CODEDIRECTORY)
    } else if slot == CSSLOT_REQUIREMENTS {
        Some(CSMAGIC_REQUIREMENTS)
    } else if slot == CSSLOT_ENTITLEMENTS {
        Some(CSMAGIC_EMBEDDED_ENTITLEMENTS)
    } else if slot == CSSLOT_DER_ENTITLEMENTS {
        Some(CSMAGIC_EMBEDDED_DER_ENTITLEMENTS)
    } else if CSSLOT_LAUNCH_CONSTRAINT_SELF <= slot && slot <= CSSLOT_LIBRARY_CONSTRAINT {
        Some(CSMAGIC_EMBEDDED_LAUNCH_CONSTRAINT)
    } else if slot == CSSLOT_SIGNATURESLOT {
        Some(CSMAGIC_BLOBWRAPPER)
    } else {
        None
    }
}

/// Whether a slot that readers know has the magic number.
pub fn is_known_magic(magic: u32) -> bool
    ensures { result ≡ is_known_magic_of magic }
{
    matches!(
        magic,
        CSMAGIC_CODEDIRECTORY
            | CSMAGIC_REQUIREMENTS
            | CSMAGIC_EMBEDDED_ENTITLEMENTS
            | CSMAGIC_EMBEDDED_DER_ENTITLEMENTS
            | CSMAGIC_EMBEDDED_LAUNCH_CONSTRAINT
            | CSMAGIC_BLOBWRAPPER
    )
}

/// Whether a blob in the slot has another magic number than this, or, if readers do not know the slot, whether a slot that
/// they know has the magic number.
#[tactic(auto, using(crate::proofs::KnownSlots::known_test))]
pub fn is_misfit(slot: u32, magic: u32) -> bool
    ensures { IsTrue result ↔ IsMisfit slot magic }
{
    match magic_of_slot(slot) {
        Some(known) => magic != known,
        None => is_known_magic(magic),
    }
}

// The number of a slot that has a name.
pub(crate) fn slot_number(slot: u32) -> Option<usize>
    ensures number { result ≡ slot_number_of slot }
    ensures fits { IfSome result (λ number. number < NAMED_SLOTS) }
{
    if slot <= CSSLOT_LIBRARY_CONSTRAINT {
        Some(slot as usize)
    } else if is_alternate_slot(slot) {
        Some((HASHED_SLOTS + (slot - CSSLOT_ALTERNATE_CODEDIRECTORIES)) as usize)
    } else if is_late_slot(slot) {
        let before = HASHED_SLOTS + CSSLOT_ALTERNATE_CODEDIRECTORY_MAX;
        Some((before + (slot - CSSLOT_SIGNATURESLOT)) as usize)
    } else {
        None
    }
}

// Whether the slot is one of code directories besides slot 0.
fn is_alternate_slot(slot: u32) -> bool
    ensures { result ≡ is_alternate_slot_of slot }
{
    let limit = CSSLOT_ALTERNATE_CODEDIRECTORIES + CSSLOT_ALTERNATE_CODEDIRECTORY_MAX;
    CSSLOT_ALTERNATE_CODEDIRECTORIES <= slot && slot < limit
}

// Whether the slot is one past all that have a hash in code directories, and has a name.
fn is_late_slot(slot: u32) -> bool
    ensures { result ≡ is_late_slot_of slot }
{
    CSSLOT_SIGNATURESLOT <= slot && slot <= CSSLOT_TICKETSLOT
}
