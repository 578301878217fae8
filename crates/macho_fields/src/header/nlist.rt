//! Of `mach-o/nlist.h`: the entries of a symbol table.

// registry: constants
/// The bits of `n_type` any of which marks an entry for debuggers.
pub const N_STAB: u8 = 0xe0;

/// The bits of `n_type` that are the kind of the symbol.
pub const N_TYPE: u8 = 0xe;

/// The bit of a symbol that is external.
pub const N_EXT: u8 = 0x1;

/// The type of a symbol that another image defines, or, if its value is not 0, of a common symbol.
pub const N_UNDF: u8 = 0x0;

/// The type of a symbol that is another name of the one whose name begins at `n_value` in the strings.
pub const N_INDR: u8 = 0xa;

/// The type of a symbol that another image defines, in a prebound image.
pub const N_PBUD: u8 = 0xc;

/// The type of a symbol that is defined in the section with the number `n_sect`.
pub const N_SECT: u8 = 0xe;

/// The bit of a definition that another one of its name can replace.
pub const N_WEAK_DEF: u16 = 0x80;

/// The library ordinal of a symbol of the image itself.
pub const SELF_LIBRARY_ORDINAL: u16 = 0x0;

/// The library ordinal of a symbol that is looked for in all images.
pub const DYNAMIC_LOOKUP_ORDINAL: u16 = 0xfe;

/// The library ordinal of a symbol of the program that loads the image.
pub const EXECUTABLE_ORDINAL: u16 = 0xff;

/// The size in bytes of `nlist_64`, an entry of the symbol table.
pub const NLIST_64_SIZE: u64 = 16;

/// The offsets of fields of `nlist_64`, each of 32 bits if nothing else is said.
pub mod nlist_64 {
    /// Where the name begins in the strings.
    pub const N_STRX: u64 = 0;
    /// The type, in three groups of bits. It has 8 bits.
    pub const N_TYPE: u64 = 4;
    /// The number of the section, from 1 on, or 0 for none. It has 8 bits.
    pub const N_SECT: u64 = 5;
    /// The description: flags, and the ordinal of a library. It has 16 bits.
    pub const N_DESC: u64 = 6;
    /// The value: of a defined symbol its address. It has 64 bits.
    pub const N_VALUE: u64 = 8;
}
// registry: end
