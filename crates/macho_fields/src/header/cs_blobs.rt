//! Of `kern/cs_blobs.h`: code signatures, whose fields are big-endian.

// registry: constants
/// The magic number of the superblob of a signature in an image.
pub const CSMAGIC_EMBEDDED_SIGNATURE: u32 = 0xfade_0cc0;

/// The magic number of a code directory.
pub const CSMAGIC_CODEDIRECTORY: u32 = 0xfade_0c02;

/// The magic number of requirements.
pub const CSMAGIC_REQUIREMENTS: u32 = 0xfade_0c01;

/// The magic number of entitlements in XML.
pub const CSMAGIC_EMBEDDED_ENTITLEMENTS: u32 = 0xfade_7171;

/// The magic number of entitlements in DER.
pub const CSMAGIC_EMBEDDED_DER_ENTITLEMENTS: u32 = 0xfade_7172;

/// The magic number of a launch constraint.
pub const CSMAGIC_EMBEDDED_LAUNCH_CONSTRAINT: u32 = 0xfade_8181;

/// The magic number of a wrapper of other bytes, as of a signature by a certificate.
pub const CSMAGIC_BLOBWRAPPER: u32 = 0xfade_0b01;

/// The slot of the code directory that each signature has.
pub const CSSLOT_CODEDIRECTORY: u32 = 0;

/// The first slot of the other code directories.
pub const CSSLOT_ALTERNATE_CODEDIRECTORIES: u32 = 0x1000;

/// The slot of the requirements.
pub const CSSLOT_REQUIREMENTS: u32 = 2;

/// The slot of the entitlements, as a property list in XML.
pub const CSSLOT_ENTITLEMENTS: u32 = 5;

/// The slot of the entitlements in DER.
pub const CSSLOT_DER_ENTITLEMENTS: u32 = 7;

/// The first slot of launch constraints.
pub const CSSLOT_LAUNCH_CONSTRAINT_SELF: u32 = 8;

/// The last slot of launch constraints, and the last one that has a hash in code directories.
pub const CSSLOT_LIBRARY_CONSTRAINT: u32 = 11;

/// The slot of the signature by a certificate, the first past the slots of code directories.
pub const CSSLOT_SIGNATURESLOT: u32 = 0x1_0000;

/// The slot of the ticket, the last one with a name.
pub const CSSLOT_TICKETSLOT: u32 = 0x1_0002;

/// The number of slots for other code directories.
pub const CSSLOT_ALTERNATE_CODEDIRECTORY_MAX: u32 = 5;

/// The size in bytes of `CS_SuperBlob`, after which its index begins.
pub const CS_SUPER_BLOB_SIZE: u64 = 12;

/// The size in bytes of `CS_BlobIndex`, an entry of the index.
pub const CS_BLOB_INDEX_SIZE: u64 = 8;

/// The size in bytes of `CS_GenericBlob`, with which each blob begins.
pub const CS_GENERIC_BLOB_SIZE: u64 = 8;

/// The first version of `CS_CodeDirectory`.
pub const CS_EARLIEST_VERSION: u32 = 0x2_0000;

/// The first version with `scatterOffset`.
pub const CS_SUPPORTSSCATTER: u32 = 0x2_0100;

/// The first version with `teamOffset`.
pub const CS_SUPPORTSTEAMID: u32 = 0x2_0200;

/// The first version with `codeLimit64`.
pub const CS_SUPPORTSCODELIMIT64: u32 = 0x2_0300;

/// The first version with `execSegBase`, `execSegLimit` and `execSegFlags`.
pub const CS_SUPPORTSEXECSEG: u32 = 0x2_0400;

/// The first version with `runtime` and `preEncryptOffset`.
pub const CS_SUPPORTSRUNTIME: u32 = 0x2_0500;

/// The first version with the fields of a linkage.
pub const CS_SUPPORTSLINKAGE: u32 = 0x2_0600;

/// The size in bytes of `CS_CodeDirectory` up to `spare2`, which each version has.
pub const CS_CODE_DIRECTORY_SIZE: u64 = 44;

/// Its size up to `scatterOffset`.
pub const SIZE_WITH_SCATTER: u64 = 48;

/// Its size up to `teamOffset`.
pub const SIZE_WITH_TEAMID: u64 = 52;

/// Its size up to `codeLimit64`.
pub const SIZE_WITH_CODELIMIT64: u64 = 64;

/// Its size up to `execSegFlags`.
pub const SIZE_WITH_EXECSEG: u64 = 88;

/// Its size up to `preEncryptOffset`.
pub const SIZE_WITH_RUNTIME: u64 = 96;

/// Its size with the fields of a linkage.
pub const SIZE_WITH_LINKAGE: u64 = 108;

/// The type of hashes by SHA-1.
pub const CS_HASHTYPE_SHA1: u8 = 1;

/// The type of hashes by SHA-256.
pub const CS_HASHTYPE_SHA256: u8 = 2;

/// The type of hashes by SHA-256 of which the first 20 bytes are left.
pub const CS_HASHTYPE_SHA256_TRUNCATED: u8 = 3;

/// The type of hashes by SHA-384.
pub const CS_HASHTYPE_SHA384: u8 = 4;

/// The size in bytes of a hash by SHA-1.
pub const CS_SHA1_LEN: u8 = 20;

/// The size in bytes of a hash by SHA-256.
pub const CS_SHA256_LEN: u8 = 32;

/// The size in bytes of a hash by SHA-256 that is cut.
pub const CS_SHA256_TRUNCATED_LEN: u8 = 20;

/// The size in bytes of a hash by SHA-384.
pub const CS_SHA384_LEN: u8 = 48;

/// The greatest log2 of the size of a page.
pub const MOST_PAGE_SIZE: u8 = 31;

/// The size in bytes of a cdhash: so many bytes of a digest name a signature.
pub const CS_CDHASH_LEN: u64 = 20;
// registry: end
