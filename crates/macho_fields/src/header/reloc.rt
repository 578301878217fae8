//! Of `mach-o/reloc.h` and `mach-o/arm64/reloc.h`: the relocations of a section and of a symbol table.

// registry: constants
/// The size in bytes of `relocation_info`, a relocation.
pub const RELOCATION_INFO_SIZE: u64 = 8;

/// The type of a relocation of 64-bit ARM processors whose `r_symbolnum` is a number to add, and names nothing.
pub const ARM64_RELOC_ADDEND: u8 = 10;

/// The `r_length` of a relocation of 8 bytes, 2 to the power 3.
pub const POINTER_LENGTH: u8 = 3;
// registry: end
