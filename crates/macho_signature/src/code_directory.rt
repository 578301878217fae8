//! A code directory, and when it is sound. An offset is one in its blob. (`cs_blobs.h`: `CS_CodeDirectory`)

ghost use Rattle.std.specs.Prelude.{◌≡◌, ◌+◌, ◌↔◌, ◌≤◌, length, IsTrue};
ghost use Rattle.macho_fields.specs.Bytes.{bytes_of};
ghost use Rattle.macho_fields.specs.Field.{HasZero};
ghost use Rattle.macho_signature.specs.CodeDirectories.{fields_size as fields_size_of, size_of_hash as size_of_hash_of, slots_of as slots_of_limit, version_of, is_directory as is_directory_of, word_since as word_since_of, code_limit as code_limit_of, HasName};

use crate::superblob::{MAGIC, word_at};
use macho_fields::header::cs_blobs::*;
use macho_fields::{Bytes, Order, Span};

/// The offset of `CS_CodeDirectory.version`.
pub const VERSION: u64 = 8;
/// That of `flags`.
pub const FLAGS: u64 = 12;
/// That of `hashOffset`.
pub const HASH_OFFSET: u64 = 16;
/// That of `identOffset`.
pub const IDENT_OFFSET: u64 = 20;
/// That of `nSpecialSlots`.
pub const N_SPECIAL_SLOTS: u64 = 24;
/// That of `nCodeSlots`.
pub const N_CODE_SLOTS: u64 = 28;
/// That of `codeLimit`.
pub const CODE_LIMIT: u64 = 32;
/// That of `hashSize`.
pub const HASH_SIZE: u64 = 36;
/// That of `hashType`.
pub const HASH_TYPE: u64 = 37;
/// That of `pageSize`.
pub const PAGE_SIZE: u64 = 39;
/// That of `scatterOffset`.
pub const SCATTER_OFFSET: u64 = 44;
/// That of `teamOffset`.
pub const TEAM_OFFSET: u64 = 48;
/// That of `codeLimit64`.
pub const CODE_LIMIT_64: u64 = 56;

/// That of `preEncryptOffset`.
pub const PRE_ENCRYPT_OFFSET: u64 = 92;
/// That of `linkageOffset`.
pub const LINKAGE_OFFSET: u64 = 100;
/// That of `linkageSize`.
pub const LINKAGE_SIZE: u64 = 104;

/// A code directory. (`CS_CodeDirectory`)
#[derive(Clone, Copy)]
pub struct CodeDirectory {
    /// Its version, which says what fields it has.
    pub version: u32,
    /// The flags of the signature.
    pub flags: u32,
    /// Where the hashes of the code begin. The special ones are before it, the first of them last.
    pub hash_offset: u32,
    /// Where the identifier begins, or 0 without one.
    pub ident_offset: u32,
    /// How many special hashes there are.
    pub special_slots: u32,
    /// How many hashes of the code there are.
    pub code_slots: u32,
    /// How many bytes of the image they are of, from its start on.
    pub limit: u64,
    /// The size in bytes of a hash.
    pub hash_size: u8,
    /// How the hashes are made, as `CS_HASHTYPE_SHA1` and the constants beside it say.
    pub hash_type: u8,
    /// The log2 of the size in bytes of a page, or 0 if one page has all bytes.
    pub page_size: u8,
    /// Where the team begins, or 0 without one.
    pub team_offset: u32,
    /// Where the hashes of the code before it was encrypted begin, or 0 if there are none.
    pub pre_encrypt_offset: u32,
    /// Where the linkage begins, or 0 if there is none.
    pub linkage_offset: u32,
    /// How many bytes the linkage has.
    pub linkage_size: u32,
}

impl CodeDirectory {
    ghost use Rattle.std.specs.Prelude.{◌≡◌, ◌+◌, ◌*◌, ◌↔◌, IsTrue};
    ghost use Rattle.macho_fields.specs.Bytes.{bytes_of};
    ghost use Rattle.macho_signature.specs.CodeDirectories.{code_directory, IsSound, HasHashes, HasSlots, HasEarlierHashes};

    /// The code directory that a blob is. It is `None` if the blob has another magic number, a version that is not
    /// known, fewer bytes than the fields of that, or a scatter vector.
    #[tactic(auto, unfolding(crate::specs::CodeDirectories::code_directory))]
    pub fn read(blob: Bytes) -> Option<CodeDirectory>
        ensures { result ≡ code_directory (bytes_of blob.entry) }
    {
        if !is_directory(blob) {
            return None;
        }
        Some(CodeDirectory {
            version: word_at(blob, VERSION),
            flags: word_at(blob, FLAGS),
            hash_offset: word_at(blob, HASH_OFFSET),
            ident_offset: word_at(blob, IDENT_OFFSET),
            special_slots: word_at(blob, N_SPECIAL_SLOTS),
            code_slots: word_at(blob, N_CODE_SLOTS),
            limit: code_limit(blob),
            hash_size: blob.read_u8(HASH_SIZE),
            hash_type: blob.read_u8(HASH_TYPE),
            page_size: blob.read_u8(PAGE_SIZE),
            team_offset: word_since(blob, CS_SUPPORTSTEAMID, TEAM_OFFSET),
            pre_encrypt_offset: word_since(blob, CS_SUPPORTSRUNTIME, PRE_ENCRYPT_OFFSET),
            linkage_offset: word_since(blob, CS_SUPPORTSLINKAGE, LINKAGE_OFFSET),
            linkage_size: word_since(blob, CS_SUPPORTSLINKAGE, LINKAGE_SIZE),
        })
    }

    /// Whether the hashes, the identifier, the team and the linkage lie in its blob, the hashes have the size of their
    /// type, and there is one for each page of the bytes up to the limit, which does not pass the start of the
    /// signature.
    pub fn is_sound(self, blob: Bytes, start: u64) -> bool
        ensures { IsTrue result ↔ IsSound start (bytes_of blob.entry) self }
    {
        self.has_hashes(blob.len())
            && self.has_slots()
            && self.limit <= start
            && has_name(blob, self.ident_offset)
            && has_name(blob, self.team_offset)
            && self.has_earlier_hashes(blob.len())
            && self.linkage_end() <= blob.len()
    }

    // Whether the hashes have the size of their type, and lie in so many bytes.
    fn has_hashes(self, size: u64) -> bool
        ensures { IsTrue result ↔ HasHashes size self }
    {
        let hash_size = u64::from(self.hash_size);
        let start = u64::from(self.hash_offset);
        size_of_hash(self.hash_type) == Some(self.hash_size)
            && u64::from(self.special_slots) * hash_size <= start
            && start + u64::from(self.code_slots) * hash_size <= size
    }

    /// Whether the hashes of the code before it was encrypted lie in so many bytes, or there are none.
    pub fn has_earlier_hashes(self, size: u64) -> bool
        ensures { IsTrue result ↔ HasEarlierHashes size self }
    {
        self.pre_encrypt_offset == 0 || self.earlier_hashes_end() <= size
    }

    /// The offset past the hashes of the code before it was encrypted.
    pub fn earlier_hashes_end(self) -> u64
        ensures { result ≡ self.pre_encrypt_offset + self.code_slots * self.hash_size }
    {
        u64::from(self.pre_encrypt_offset) + u64::from(self.code_slots) * u64::from(self.hash_size)
    }

    /// The offset past the linkage.
    pub fn linkage_end(self) -> u64
        ensures { result ≡ self.linkage_offset + self.linkage_size }
    {
        u64::from(self.linkage_offset) + u64::from(self.linkage_size)
    }

    // Whether there is a hash of the code for each page.
    fn has_slots(self) -> bool
        ensures { IsTrue result ↔ HasSlots self }
    {
        self.page_size <= MOST_PAGE_SIZE
            && u64::from(self.code_slots) == slots_of(self.page_size, self.limit)
    }
}

/// The size in bytes of the fields of a version.
pub fn fields_size(version: u32) -> u64
    ensures { result ≡ fields_size_of version }
{
    if version >= CS_SUPPORTSLINKAGE {
        SIZE_WITH_LINKAGE
    } else if version >= CS_SUPPORTSRUNTIME {
        SIZE_WITH_RUNTIME
    } else if version >= CS_SUPPORTSEXECSEG {
        SIZE_WITH_EXECSEG
    } else if version >= CS_SUPPORTSCODELIMIT64 {
        SIZE_WITH_CODELIMIT64
    } else if version >= CS_SUPPORTSTEAMID {
        SIZE_WITH_TEAMID
    } else if version >= CS_SUPPORTSSCATTER {
        SIZE_WITH_SCATTER
    } else {
        CS_CODE_DIRECTORY_SIZE
    }
}

/// The size in bytes of a hash of a type, or `None` if the type is not known.
pub fn size_of_hash(hash_type: u8) -> Option<u8>
    ensures { result ≡ size_of_hash_of hash_type }
{
    match hash_type {
        CS_HASHTYPE_SHA1 => Some(CS_SHA1_LEN),
        CS_HASHTYPE_SHA256 => Some(CS_SHA256_LEN),
        CS_HASHTYPE_SHA256_TRUNCATED => Some(CS_SHA256_TRUNCATED_LEN),
        CS_HASHTYPE_SHA384 => Some(CS_SHA384_LEN),
        _ => None,
    }
}

/// How many pages have the bytes before `limit`, where `page_size` is the log2 of the size of a page, or 0 if one
/// page has them all.
pub fn slots_of(page_size: u8, limit: u64) -> u64
    requires { page_size ≤ MOST_PAGE_SIZE }
    ensures { result ≡ slots_of_limit page_size limit }
{
    if page_size == 0 {
        u64::from(limit != 0)
    } else {
        limit.div_ceil(1 << page_size)
    }
}

// Whether the blob has the magic number, a known version, the fields of that, and no scatter vector.
fn is_directory(blob: Bytes) -> bool
    ensures is { result ≡ is_directory_of (bytes_of blob.entry) }
    ensures fields { IsTrue result
        → fields_size_of (version_of (bytes_of blob.entry)) ≤ length (bytes_of blob.entry) }
{
    if blob.len() < CS_CODE_DIRECTORY_SIZE || word_at(blob, MAGIC) != CSMAGIC_CODEDIRECTORY {
        return false;
    }
    let version = word_at(blob, VERSION);
    version >= CS_EARLIEST_VERSION
        && fields_size(version) <= blob.len()
        && word_since(blob, CS_SUPPORTSSCATTER, SCATTER_OFFSET) == 0
}

// The word at an offset, which a directory has since a version. It is 0 in one of an earlier version.
fn word_since(blob: Bytes, version: u32, offset: u64) -> u32
    requires fields { fields_size_of (version_of (bytes_of blob)) ≤ length (bytes_of blob) }
    requires since { offset + 4 ≤ fields_size_of version }
    ensures { result ≡ word_since_of version offset (bytes_of blob.entry) }
{
    if word_at(blob, VERSION) >= version {
        word_at(blob, offset)
    } else {
        0
    }
}

// How many bytes of the image the hashes are of.
fn code_limit(blob: Bytes) -> u64
    requires { IsTrue (is_directory_of (bytes_of blob)) }
    ensures { result ≡ code_limit_of (bytes_of blob.entry) }
{
    if word_at(blob, VERSION) >= CS_SUPPORTSCODELIMIT64 {
        let limit = blob.read_u64(Order::Big, CODE_LIMIT_64);
        if limit != 0 {
            return limit;
        }
    }
    u64::from(word_at(blob, CODE_LIMIT))
}

/// Whether a name at this offset of a blob ends in it. At 0 no name begins.
pub fn has_name(blob: Bytes, offset: u32) -> bool
    ensures { IsTrue result ↔ HasName (bytes_of blob.entry) offset }
{
    offset == 0 || ends_inside(blob, u64::from(offset))
}

// Whether a zero byte lies from an offset on.
fn ends_inside(blob: Bytes, offset: u64) -> bool
    ensures { IsTrue result ↔ HasZero (bytes_of blob.entry) offset (length (bytes_of blob.entry)) }
{
    let from = Span {
        start: offset,
        len: blob.len(),
    };
    blob.first_zero(from).is_some()
}
