//! What follows from the definitions alone. Each law is the contract of a function that does
//! nothing when it is called: the premises are its `requires`, the conclusion its `ensures`.

ghost use Rattle.std.specs.Prelude.{ℕ};
ghost use Rattle.macho_signature.specs.Signature.{BreaksSignatureBlob, BreaksSignatureDirectory, BreaksSignatureWhole};
ghost use Rattle.macho_signature.specs.Signed.{IsSigned};

/// The code signature of an image that breaks none of the three rules has its blobs in place, and code directories
/// whose hashes are of all bytes before it.
pub fn unbroken_is_signed(image: &[u8])
    requires blob { (place : ℕ) → ¬ BreaksSignatureBlob image.now place }
    requires directory { (place : ℕ) → ¬ BreaksSignatureDirectory image.now place }
    requires whole { (place : ℕ) → ¬ BreaksSignatureWhole image.now place }
    ensures { IsSigned image.now }
{}
