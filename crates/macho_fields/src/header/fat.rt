//! Of `mach-o/fat.h`: universal files, whose fields are big-endian.

// registry: constants
/// The magic number of a universal file with entries of 32-bit offsets.
pub const FAT_MAGIC: u32 = 0xcafe_babe;

/// The magic number of a universal file with entries of 64-bit offsets.
pub const FAT_MAGIC_64: u32 = 0xcafe_babf;

/// The size in bytes of `fat_header`, after which the entries begin.
pub const FAT_HEADER_SIZE: u64 = 8;

/// The size in bytes of `fat_arch`, an entry of 32-bit offsets.
pub const FAT_ARCH_SIZE: u64 = 20;

/// The size in bytes of `fat_arch_64`, an entry of 64-bit offsets.
pub const FAT_ARCH_64_SIZE: u64 = 32;

/// The offsets of fields of `fat_header`, each of 32 bits if nothing else is said.
pub mod fat_header {
    /// The number of entries.
    pub const NFAT_ARCH: u64 = 4;
}

/// The offsets of fields of `fat_arch`, each of 32 bits if nothing else is said.
pub mod fat_arch {
    /// The processor.
    pub const CPUTYPE: u64 = 0;
    /// The model of the processor, and in the high byte capabilities.
    pub const CPUSUBTYPE: u64 = 4;
    /// Where the slice begins in the file.
    pub const OFFSET: u64 = 8;
    /// The size of the slice in bytes.
    pub const SIZE: u64 = 12;
    /// The power of 2 of which the offset is a multiple.
    pub const ALIGN: u64 = 16;
}

/// The offsets of fields of `fat_arch_64`, each of 32 bits if nothing else is said.
pub mod fat_arch_64 {
    /// The processor.
    pub const CPUTYPE: u64 = 0;
    /// The model of the processor, and in the high byte capabilities.
    pub const CPUSUBTYPE: u64 = 4;
    /// Where the slice begins in the file. It has 64 bits.
    pub const OFFSET: u64 = 8;
    /// The size of the slice in bytes. It has 64 bits.
    pub const SIZE: u64 = 16;
    /// The power of 2 of which the offset is a multiple.
    pub const ALIGN: u64 = 24;
}
// registry: end
