//! What follows from the definitions alone: under each rule the readers that it is about give one answer. Each law is the
//! contract of a function that does nothing when it is called: the premises are its `requires`, the conclusion its
//! `ensures`.

ghost use Rattle.std.specs.Prelude.{ℕ};
ghost use Rattle.macho_identity.specs.DirectoryAgree.{BreaksDirectoryAgree};
ghost use Rattle.macho_identity.specs.Models.{AreDirectoriesClear, HasOneBlobOfSlot, HasOneIdentity, StayInBlobs};
ghost use Rattle.macho_identity.specs.SignatureSlot.{BreaksSignatureSlot};
ghost use Rattle.macho_signature.specs.Signature.{BreaksSignatureBlob, BreaksSignatureDirectory, BreaksSignatureWhole};

/// All readers find one blob in a slot of the code signature, or none.
pub fn slot_has_one_blob(image: &[u8])
    requires { (place : ℕ) → ¬ BreaksSignatureSlot image.now place }
    ensures { HasOneBlobOfSlot image.now }
{}

/// All readers see one identifier, one team and one way to run, whichever code directory they take.
pub fn image_has_one_identity(image: &[u8])
    requires { (place : ℕ) → ¬ BreaksDirectoryAgree image.now place }
    ensures { HasOneIdentity image.now }
{}

/// All readers see one limit, one size of pages and the same texts in a code directory.
pub fn directory_says_one_thing(image: &[u8])
    requires { (place : ℕ) → ¬ BreaksDirectoryAgree image.now place }
    ensures { AreDirectoriesClear image.now }
{}

/// All readers find the linkage of a code directory, and its hashes of the code before it was encrypted, in its blob.
pub fn directory_stays_in_its_blob(image: &[u8])
    requires blob { (place : ℕ) → ¬ BreaksSignatureBlob image.now place }
    requires directory { (place : ℕ) → ¬ BreaksSignatureDirectory image.now place }
    requires whole { (place : ℕ) → ¬ BreaksSignatureWhole image.now place }
    ensures { StayInBlobs image.now }
{}
