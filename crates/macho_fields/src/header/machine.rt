//! Of `mach/machine.h`: the processors for which an image is made.

// registry: constants
/// The bit of a processor with 64-bit addresses.
pub const CPU_ARCH_ABI64: u32 = 0x100_0000;

/// A 64-bit processor of the x86 family.
pub const CPU_TYPE_X86_64: u32 = 0x100_0007;

/// A 64-bit processor of the ARM family.
pub const CPU_TYPE_ARM64: u32 = 0x100_000c;

/// The bits of a subtype that are capabilities, and no part of the processor.
pub const CPU_SUBTYPE_MASK: u32 = 0xff00_0000;

/// Any 64-bit x86 processor.
pub const CPU_SUBTYPE_X86_64_ALL: u32 = 3;

/// A 64-bit x86 processor from Haswell on.
pub const CPU_SUBTYPE_X86_64_H: u32 = 8;

/// Any 64-bit ARM processor.
pub const CPU_SUBTYPE_ARM64_ALL: u32 = 0;

/// A 64-bit ARM processor with authenticated pointers.
pub const CPU_SUBTYPE_ARM64E: u32 = 2;
// registry: end
