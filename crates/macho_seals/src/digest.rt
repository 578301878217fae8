//! The digest of a message, by the types of hashes of code directories. (`cs_blobs.h`: `CS_HASHTYPE_SHA1` and the
//! types beside it; FIPS 180-4)

ghost use Rattle.std.specs.Prelude.{◌≡◌, ◌↔◌, ◌≤◌, length, take, IsTrue};
ghost use Rattle.macho_seals.specs.Digests.{HasHash};
ghost use Rattle.macho_seals.specs.SideBySide.{IsDigestOf, IsSha256};
ghost use Rattle.sha2.specs.Sha256.{sha256};

use macho_fields::header::cs_blobs::{
    CS_CDHASH_LEN, CS_HASHTYPE_SHA1, CS_HASHTYPE_SHA256, CS_HASHTYPE_SHA256_TRUNCATED,
    CS_HASHTYPE_SHA384,
};
use sha1::Sha1;
use sha2::{Digest as Hasher, Sha256, Sha384};

// The size in bytes of a digest that is cut.
const SHORT_LEN: usize = CS_CDHASH_LEN as usize;

/// A digest, by its type.
#[derive(Clone, Copy)]
pub enum Digest {
    /// By SHA-1. (`CS_HASHTYPE_SHA1`)
    Sha1([u8; 20]),
    /// By SHA-256. (`CS_HASHTYPE_SHA256`)
    Sha256([u8; 32]),
    /// The first 20 bytes of one by SHA-256. (`CS_HASHTYPE_SHA256_TRUNCATED`)
    Sha256Truncated([u8; 20]),
    /// By SHA-384. (`CS_HASHTYPE_SHA384`)
    Sha384([u8; 48]),
}

impl Digest {
    ghost use Rattle.std.specs.Prelude.{◌≡◌, ◌≤◌, length, take};
    ghost use Rattle.macho_seals.specs.Digests.{digest, bytes_of_digest, type_of_digest};
    ghost use Rattle.macho_seals.specs.SideBySide.{IsDigestOf};

    /// The digest of a message by a type, or `None` if the type is not known.
    pub fn of(hash_type: u8, message: &[u8]) -> Option<Digest>
        ensures { result ≡ digest hash_type message.now }
    {
        Digest::with(hash_type, message, None)
    }

    // The same, where the digest of the message by SHA-256 may be known.
    fn with(hash_type: u8, message: &[u8], known: Option<[u8; 32]>) -> Option<Digest>
        requires { IsDigestOf message.now known }
        ensures { result ≡ digest hash_type message.now }
    {
        match hash_type {
            CS_HASHTYPE_SHA1 => Some(Digest::Sha1(Sha1::digest(message))),
            CS_HASHTYPE_SHA256 => Some(Digest::Sha256(sha256(message, known))),
            CS_HASHTYPE_SHA256_TRUNCATED => {
                let whole = sha256(message, known);
                Some(Digest::Sha256Truncated(first_bytes(&whole)))
            }
            CS_HASHTYPE_SHA384 => Some(Digest::Sha384(Sha384::digest(message))),
            _ => None,
        }
    }

    /// All its bytes: 20, 32 or 48, by its type.
    pub fn as_bytes(&self) -> &[u8]
        ensures bytes { result.now ≡ bytes_of_digest self.now }
        ensures size { SHORT_LEN ≤ length result.now }
        ensures most { length result.now ≤ 48 }
    {
        match self {
            Digest::Sha1(bytes) => bytes,
            Digest::Sha256(bytes) => bytes,
            Digest::Sha256Truncated(bytes) => bytes,
            Digest::Sha384(bytes) => bytes,
        }
    }

    /// Its type, as `CS_HASHTYPE_SHA1` and the constants beside it say.
    pub fn hash_type(&self) -> u8
        ensures { result ≡ type_of_digest self.now }
    {
        match self {
            Digest::Sha1(_) => CS_HASHTYPE_SHA1,
            Digest::Sha256(_) => CS_HASHTYPE_SHA256,
            Digest::Sha256Truncated(_) => CS_HASHTYPE_SHA256_TRUNCATED,
            Digest::Sha384(_) => CS_HASHTYPE_SHA384,
        }
    }

    /// Its first 20 bytes, which `codesign` prints of the digest of a code directory.
    pub fn cdhash(&self) -> [u8; 20]
        ensures { result ≡ take CS_CDHASH_LEN (bytes_of_digest self.now) }
    {
        first_bytes(self.as_bytes())
    }
}

/// Whether a message has this hash, by a type.
pub fn has_hash(hash_type: u8, message: &[u8], hash: &[u8]) -> bool
    ensures { IsTrue result ↔ HasHash hash_type message.now hash.now }
{
    has_hash_with(hash_type, message, None, hash)
}

// The same, where the digest of the message by SHA-256 may be known.
pub(crate) fn has_hash_with(
    hash_type: u8,
    message: &[u8],
    known: Option<[u8; 32]>,
    hash: &[u8],
) -> bool
    requires { IsDigestOf message.now known }
    ensures { IsTrue result ↔ HasHash hash_type message.now hash.now }
{
    match Digest::with(hash_type, message, known) {
        Some(digest) => digest.as_bytes() == hash,
        None => false,
    }
}

// Whether hashes of a type begin with bytes of the digest by SHA-256.
pub(crate) fn is_sha256(hash_type: u8) -> bool
    ensures { IsTrue result ↔ IsSha256 hash_type }
{
    matches!(hash_type, CS_HASHTYPE_SHA256 | CS_HASHTYPE_SHA256_TRUNCATED)
}

// The digest of a message by SHA-256, which may be known.
fn sha256(message: &[u8], known: Option<[u8; 32]>) -> [u8; 32]
    requires { IsDigestOf message.now known }
    ensures { result ≡ sha256 message.now }
{
    match known {
        Some(digest) => digest,
        None => Sha256::digest(message),
    }
}

// The first 20 of at least so many bytes.
fn first_bytes(bytes: &[u8]) -> [u8; SHORT_LEN]
    requires { SHORT_LEN ≤ length bytes.now }
    ensures { result ≡ take SHORT_LEN bytes.now }
{
    let mut first = [0; SHORT_LEN];
    first.copy_from_slice(&bytes[..SHORT_LEN]);
    first
}
