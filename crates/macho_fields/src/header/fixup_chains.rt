//! Of `mach-o/fixup-chains.h`: chained fixups, where each pointer that a loader writes says how far the next one is.

// registry: constants
/// The size in bytes of `dyld_chained_fixups_header`, with which the table begins.
pub const DYLD_CHAINED_FIXUPS_HEADER_SIZE: u64 = 28;

/// The size in bytes of `dyld_chained_starts_in_image`, after which its entries follow.
pub const DYLD_CHAINED_STARTS_IN_IMAGE_SIZE: u64 = 4;

/// The size in bytes of an entry of `dyld_chained_starts_in_image`.
pub const SEG_INFO_OFFSET_SIZE: u64 = 4;

/// The size in bytes of `dyld_chained_starts_in_segment`, after which its page starts follow.
pub const DYLD_CHAINED_STARTS_IN_SEGMENT_SIZE: u64 = 22;

/// The size in bytes of a page start.
pub const PAGE_START_SIZE: u64 = 2;

/// The page start of a page that has no chain.
pub const DYLD_CHAINED_PTR_START_NONE: u16 = 0xffff;

/// An import is a `dyld_chained_import`.
pub const DYLD_CHAINED_IMPORT: u32 = 1;

/// An import is a `dyld_chained_import_addend`.
pub const DYLD_CHAINED_IMPORT_ADDEND: u32 = 2;

/// An import is a `dyld_chained_import_addend64`.
pub const DYLD_CHAINED_IMPORT_ADDEND64: u32 = 3;

/// A pointer of arm64e has an address.
pub const DYLD_CHAINED_PTR_ARM64E: u16 = 1;

/// A pointer has an address.
pub const DYLD_CHAINED_PTR_64: u16 = 2;

/// A pointer has an offset from the base.
pub const DYLD_CHAINED_PTR_64_OFFSET: u16 = 6;

/// A pointer of arm64e has an offset from the base.
pub const DYLD_CHAINED_PTR_ARM64E_USERLAND: u16 = 9;

/// A pointer of arm64e has an offset from the base, and names an import by 24 bits.
pub const DYLD_CHAINED_PTR_ARM64E_USERLAND24: u16 = 12;
// registry: end
