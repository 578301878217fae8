//! The superblob of a code signature, and the blobs in it. An offset is one in the signature. (`cs_blobs.h`:
//! `CS_SuperBlob`, `CS_BlobIndex`, `CS_GenericBlob`)

ghost use Rattle.std.specs.Prelude.{◌≡◌, ◌+◌, ◌≤◌, length};
ghost use Rattle.macho_fields.specs.Bytes.{bytes_of};
ghost use Rattle.macho_signature.specs.Superblobs.{big_word, entry_offset as entry_offset_of};

use macho_fields::header::cs_blobs::{
    CS_BLOB_INDEX_SIZE, CS_GENERIC_BLOB_SIZE, CS_SUPER_BLOB_SIZE, CSMAGIC_EMBEDDED_SIGNATURE,
    CSSLOT_ALTERNATE_CODEDIRECTORIES, CSSLOT_ALTERNATE_CODEDIRECTORY_MAX, CSSLOT_CODEDIRECTORY,
};
use macho_fields::{Bytes, Order, Span};

/// The offset of `CS_SuperBlob.magic`, and of the magic number of any blob.
pub const MAGIC: u64 = 0;
/// That of `CS_SuperBlob.length`.
pub const SUPER_BLOB_LENGTH: u64 = 4;
/// That of `CS_SuperBlob.count`.
pub const COUNT: u64 = 8;
/// The offset of `CS_BlobIndex.type` in an entry of the index.
pub const TYPE: u64 = 0;
/// That of `CS_BlobIndex.offset`.
pub const OFFSET: u64 = 4;
/// The offset of `CS_GenericBlob.length` in a blob.
pub const LENGTH: u64 = 4;

/// The superblob of a signature. (`CS_SuperBlob`)
#[derive(Clone, Copy)]
pub struct Superblob {
    /// Its size in bytes, with its index and its blobs.
    pub length: u32,
    /// How many entries its index has.
    pub count: u32,
}

/// A blob of a signature, and its slot. (`CS_BlobIndex`, `CS_GenericBlob`)
#[derive(Clone, Copy)]
pub struct Blob {
    /// What it is in the signature, as `CSSLOT_CODEDIRECTORY` and the constants beside it say.
    pub slot: u32,
    /// Where it begins.
    pub offset: u32,
    /// Its size in bytes, with its magic number and this number.
    pub length: u32,
}

impl Superblob {
    ghost use Rattle.std.specs.Prelude.{◌≡◌, ◌≤◌, ◌<◌, length, MatchOption};
    ghost use Rattle.macho_fields.specs.Bytes.{bytes_of};
    ghost use Rattle.macho_signature.specs.Superblobs.{superblob_at, blob_at, entry_offset as entry_offset_of, HasNoSuperblob, IsMisplacedBlob};

    /// The superblob with which the signature begins. It is `None` if the signature is shorter than that, or begins
    /// with another magic number, or if the superblob ends past the signature, or its index past the superblob.
    pub fn read(signature: Bytes) -> Option<Superblob>
        ensures { MatchOption result (HasNoSuperblob (bytes_of signature.entry))
            (λ superblob. (¬ HasNoSuperblob (bytes_of signature.entry))
            × (superblob ≡ superblob_at (bytes_of signature.entry))) }
    {
        if signature.len() < CS_SUPER_BLOB_SIZE
            || word_at(signature, MAGIC) != CSMAGIC_EMBEDDED_SIGNATURE
        {
            return None;
        }
        let superblob = Superblob {
            length: word_at(signature, SUPER_BLOB_LENGTH),
            count: word_at(signature, COUNT),
        };
        if signature.len() < u64::from(superblob.length)
            || u64::from(superblob.length) < superblob.index_end()
        {
            return None;
        }
        Some(superblob)
    }

    /// Where the index ends.
    pub fn index_end(self) -> u64
        ensures { result ≡ entry_offset_of self.count }
    {
        entry_offset(self.count)
    }

    /// The blob of the entry with this index, which must begin at `least` or past it. It is `None` if it begins
    /// before that, has no room for its magic number and its length, or ends past the superblob.
    pub fn blob(self, signature: Bytes, index: u32, least: u64) -> Option<Blob>
        requires superblob { self ≡ superblob_at (bytes_of signature) }
        requires whole { ¬ HasNoSuperblob (bytes_of signature) }
        requires index { index < self.count }
        ensures { MatchOption result
            (IsMisplacedBlob self least (blob_at (bytes_of signature.entry) index))
            (λ blob. (¬ IsMisplacedBlob self least blob) × (blob ≡ blob_at (bytes_of signature.entry) index)) }
    {
        let entry = entry_offset(index);
        let offset = word_at(signature, entry + OFFSET);
        let start = u64::from(offset);
        if start < least || start + CS_GENERIC_BLOB_SIZE > u64::from(self.length) {
            return None;
        }
        let blob = Blob {
            slot: word_at(signature, entry + TYPE),
            offset,
            length: word_at(signature, start + LENGTH),
        };
        if u64::from(blob.length) < CS_GENERIC_BLOB_SIZE || blob.end() > u64::from(self.length) {
            return None;
        }
        Some(blob)
    }
}

impl Blob {
    ghost use Rattle.std.specs.Prelude.{◌≡◌};
    ghost use Rattle.macho_signature.specs.Superblobs.{blob_end, blob_span, is_directory_slot};

    /// The first offset past it.
    pub fn end(self) -> u64
        ensures { result ≡ blob_end self }
    {
        u64::from(self.offset) + u64::from(self.length)
    }

    /// Where its bytes are.
    pub fn span(self) -> Span
        ensures { result ≡ blob_span self }
    {
        Span {
            start: u64::from(self.offset),
            len: u64::from(self.length),
        }
    }

    /// Whether its slot is one of code directories.
    pub fn is_directory(self) -> bool
        ensures { result ≡ is_directory_slot self.slot }
    {
        let limit = CSSLOT_ALTERNATE_CODEDIRECTORIES + CSSLOT_ALTERNATE_CODEDIRECTORY_MAX;
        self.slot == CSSLOT_CODEDIRECTORY
            || (CSSLOT_ALTERNATE_CODEDIRECTORIES <= self.slot && self.slot < limit)
    }
}

/// Where the entry with this index is.
pub fn entry_offset(index: u32) -> u64
    ensures { result ≡ entry_offset_of index }
{
    CS_SUPER_BLOB_SIZE + u64::from(index) * CS_BLOB_INDEX_SIZE
}

/// The big-endian field of 32 bits at an offset, which lies inside.
pub fn word_at(bytes: Bytes, offset: u64) -> u32
    requires { offset + 4 ≤ length (bytes_of bytes) }
    ensures { result ≡ big_word (bytes_of bytes.entry) offset }
{
    bytes.read_u32(Order::Big, offset)
}
