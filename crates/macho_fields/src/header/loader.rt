//! Of `mach-o/loader.h`: the header of an image, its load commands, segments and sections, and the tables of a dynamic loader.

// registry: constants
/// The magic number of a 32-bit image, in the byte order of its fields.
pub const MH_MAGIC: u32 = 0xfeed_face;

/// The magic number of a 64-bit image, in the byte order of its fields.
pub const MH_MAGIC_64: u32 = 0xfeed_facf;

/// The size in bytes of `mach_header_64`, after which the load commands begin.
pub const MACH_HEADER_64_SIZE: u64 = 32;

/// The size in bytes of `load_command`, with which each load command begins.
pub const LOAD_COMMAND_SIZE: u64 = 8;

/// The size in bytes of `segment_command_64`, after which its sections follow.
pub const SEGMENT_COMMAND_64_SIZE: u64 = 72;

/// The size in bytes of `linkedit_data_command`.
pub const LINKEDIT_DATA_COMMAND_SIZE: u64 = 16;

/// The size in bytes of `version_min_command`.
pub const VERSION_MIN_COMMAND_SIZE: u64 = 16;

/// The size in bytes of `source_version_command`.
pub const SOURCE_VERSION_COMMAND_SIZE: u64 = 16;

/// The size in bytes of `section_64`.
pub const SECTION_64_SIZE: u64 = 80;

/// The size in bytes of `segname` and of `sectname`.
pub const SHORT_NAME_SIZE: u64 = 16;

/// The size in bytes of `build_tool_version`, of which records follow `build_version_command`.
pub const BUILD_TOOL_VERSION_SIZE: u64 = 8;

/// The size in bytes of `dylib_table_of_contents`, an entry of the table of contents.
pub const DYLIB_TABLE_OF_CONTENTS_SIZE: u64 = 8;

/// The size in bytes of `dylib_module_64`, an entry of the table of modules.
pub const DYLIB_MODULE_64_SIZE: u64 = 56;

/// The size in bytes of `dylib_reference`, an entry of the table of referenced symbols.
pub const DYLIB_REFERENCE_SIZE: u64 = 4;

/// The size in bytes of `twolevel_hint`, an entry of the table of hints.
pub const TWOLEVEL_HINT_SIZE: u64 = 4;

/// The size in bytes of an indirect entry, an index of a symbol.
pub const INDIRECT_ENTRY_SIZE: u64 = 4;

/// The bit of a command that the dynamic linker must know to load the image.
pub const LC_REQ_DYLD: u32 = 0x8000_0000;

/// The flag of a segment whose pages a kernel decrypts.
pub const SG_PROTECTED_VERSION_1: u32 = 0x8;

/// The bit of the flags of a section that is for debuggers alone.
pub const S_ATTR_DEBUG: u64 = 0x200_0000;

/// The bits of the flags of a section that are its type.
pub const SECTION_TYPE: u32 = 0xff;

/// The type of a section of zeros, which has no bytes in the file.
pub const S_ZEROFILL: u32 = 0x1;

/// The type of a section of zeros that may have more than 4 gigabytes.
pub const S_GB_ZEROFILL: u32 = 0xc;

/// The type of a section of zeros of which each thread has its own.
pub const S_THREAD_LOCAL_ZEROFILL: u32 = 0x12;

/// The type of a section of pointers that are bound when an image is loaded.
pub const S_NON_LAZY_SYMBOL_POINTERS: u32 = 0x6;

/// The type of a section of pointers that are bound when they are first used.
pub const S_LAZY_SYMBOL_POINTERS: u32 = 0x7;

/// The type of a section of stubs, of `reserved2` bytes each.
pub const S_SYMBOL_STUBS: u32 = 0x8;

/// The type of a section of pointers into libraries that are loaded late.
pub const S_LAZY_DYLIB_SYMBOL_POINTERS: u32 = 0x10;

/// The type of a section of pointers to variables that each thread has for itself.
pub const S_THREAD_LOCAL_VARIABLE_POINTERS: u32 = 0x14;

/// The type of a section of offsets, from the base, of functions that a loader calls first.
pub const S_INIT_FUNC_OFFSETS: u32 = 0x16;

/// The size in bytes of such an offset.
pub const INIT_OFFSET_SIZE: u64 = 4;

/// The mark of an indirect entry whose symbol is local to the image.
pub const INDIRECT_SYMBOL_LOCAL: u32 = 0x8000_0000;

/// The mark of an indirect entry whose symbol has a fixed value.
pub const INDIRECT_SYMBOL_ABS: u32 = 0x4000_0000;

/// The offset of the 32-bit field `lc_str.offset` in each command with a name. The field says how far from the start of
/// the command the name begins.
pub const LC_STR_OFFSET: u64 = 8;

/// How many modules a byte of `prebound_dylib_command.linked_modules` has a bit for.
pub const MODULES_OF_A_BYTE: u64 = 8;

/// The flag of an image whose undefined symbols each name the library that they are from.
pub const MH_TWOLEVEL: u32 = 0x80;

/// The bits of a byte that are its opcode.
pub const REBASE_OPCODE_MASK: u8 = 0xf0;

/// The bits of a byte that are its immediate.
pub const REBASE_IMMEDIATE_MASK: u8 = 0xf;

/// A rebased value is a pointer.
pub const REBASE_TYPE_POINTER: u8 = 1;

/// The stream ends.
pub const REBASE_OPCODE_DONE: u8 = 0x0;

/// The type is the immediate.
pub const REBASE_OPCODE_SET_TYPE_IMM: u8 = 0x10;

/// The segment is the immediate, and the offset a number.
pub const REBASE_OPCODE_SET_SEGMENT_AND_OFFSET_ULEB: u8 = 0x20;

/// A number is added to the offset.
pub const REBASE_OPCODE_ADD_ADDR_ULEB: u8 = 0x30;

/// The immediate is added to the offset, times the size of a pointer.
pub const REBASE_OPCODE_ADD_ADDR_IMM_SCALED: u8 = 0x40;

/// As many pointers as the immediate are rebased.
pub const REBASE_OPCODE_DO_REBASE_IMM_TIMES: u8 = 0x50;

/// As many pointers as a number are rebased.
pub const REBASE_OPCODE_DO_REBASE_ULEB_TIMES: u8 = 0x60;

/// A pointer is rebased, and a number is added to the offset.
pub const REBASE_OPCODE_DO_REBASE_ADD_ADDR_ULEB: u8 = 0x70;

/// As many pointers as a number are rebased, with as many bytes between them as a second number.
pub const REBASE_OPCODE_DO_REBASE_ULEB_TIMES_SKIPPING_ULEB: u8 = 0x80;

/// The bits of a byte that are its opcode.
pub const BIND_OPCODE_MASK: u8 = 0xf0;

/// The bits of a byte that are its immediate.
pub const BIND_IMMEDIATE_MASK: u8 = 0xf;

/// A bound value is a pointer.
pub const BIND_TYPE_POINTER: u8 = 1;

/// The stream ends, or in the lazy stream an entry.
pub const BIND_OPCODE_DONE: u8 = 0x0;

/// The ordinal of the library is the immediate.
pub const BIND_OPCODE_SET_DYLIB_ORDINAL_IMM: u8 = 0x10;

/// The ordinal of the library is a number.
pub const BIND_OPCODE_SET_DYLIB_ORDINAL_ULEB: u8 = 0x20;

/// The ordinal of the library is the immediate, which is 0 or the low four bits of a negative number.
pub const BIND_OPCODE_SET_DYLIB_SPECIAL_IMM: u8 = 0x30;

/// The flags of the symbol are the immediate, and its name follows.
pub const BIND_OPCODE_SET_SYMBOL_TRAILING_FLAGS_IMM: u8 = 0x40;

/// The type is the immediate.
pub const BIND_OPCODE_SET_TYPE_IMM: u8 = 0x50;

/// The addend is a signed number.
pub const BIND_OPCODE_SET_ADDEND_SLEB: u8 = 0x60;

/// The segment is the immediate, and the offset a number.
pub const BIND_OPCODE_SET_SEGMENT_AND_OFFSET_ULEB: u8 = 0x70;

/// A number is added to the offset.
pub const BIND_OPCODE_ADD_ADDR_ULEB: u8 = 0x80;

/// A pointer is bound.
pub const BIND_OPCODE_DO_BIND: u8 = 0x90;

/// A pointer is bound, and a number is added to the offset.
pub const BIND_OPCODE_DO_BIND_ADD_ADDR_ULEB: u8 = 0xa0;

/// A pointer is bound, and the immediate is added to the offset, times the size of a pointer.
pub const BIND_OPCODE_DO_BIND_ADD_ADDR_IMM_SCALED: u8 = 0xb0;

/// As many pointers as a number are bound, with as many bytes between them as a second number.
pub const BIND_OPCODE_DO_BIND_ULEB_TIMES_SKIPPING_ULEB: u8 = 0xc0;

/// Of the flags, those that say of which kind a symbol is.
pub const EXPORT_SYMBOL_FLAGS_KIND_MASK: u64 = 0x3;

/// The kind whose address counts from the base of the image.
pub const EXPORT_SYMBOL_FLAGS_KIND_REGULAR: u64 = 0x0;

/// The kind of a thread-local variable. What describes it is at the address.
pub const EXPORT_SYMBOL_FLAGS_KIND_THREAD_LOCAL: u64 = 0x1;

/// The kind whose address does not count from the base of the image.
pub const EXPORT_SYMBOL_FLAGS_KIND_ABSOLUTE: u64 = 0x2;

/// The flag of a symbol that another one of its name can replace.
pub const EXPORT_SYMBOL_FLAGS_WEAK_DEFINITION: u64 = 0x4;

/// The flag of a symbol of another library.
pub const EXPORT_SYMBOL_FLAGS_REEXPORT: u64 = 0x8;

/// The flag of a symbol whose address a function of the image finds.
pub const EXPORT_SYMBOL_FLAGS_STUB_AND_RESOLVER: u64 = 0x10;

/// A flag of later versions of the header. No rule knows it.
pub const EXPORT_SYMBOL_FLAGS_STATIC_RESOLVER: u64 = 0x20;

/// Any data.
pub const DICE_KIND_DATA: u16 = 1;

/// A table of jumps, of entries of 8 bits.
pub const DICE_KIND_JUMP_TABLE8: u16 = 2;

/// A table of jumps, of entries of 16 bits.
pub const DICE_KIND_JUMP_TABLE16: u16 = 3;

/// A table of jumps, of entries of 32 bits.
pub const DICE_KIND_JUMP_TABLE32: u16 = 4;

/// A table of jumps, of entries of 32 bits that are addresses.
pub const DICE_KIND_ABS_JUMP_TABLE32: u16 = 5;

/// The size in bytes of `data_in_code_entry`.
pub const DATA_IN_CODE_ENTRY_SIZE: u64 = 8;

/// An executable, which is run as a program.
pub const MH_EXECUTE: u32 = 2;

/// A library, which programs are linked with.
pub const MH_DYLIB: u32 = 6;

/// A bundle, which a running program loads.
pub const MH_BUNDLE: u32 = 8;

/// A segment of a 32-bit image, with its sections.
pub const LC_SEGMENT: u32 = 0x1;

/// The symbol table and its strings.
pub const LC_SYMTAB: u32 = 0x2;

/// The place of the symbols of an old debugger.
pub const LC_SYMSEG: u32 = 0x3;

/// The states of a thread, with no stack of its own.
pub const LC_THREAD: u32 = 0x4;

/// The states of a thread, with a stack: the entry of a program without a dynamic linker.
pub const LC_UNIXTHREAD: u32 = 0x5;

/// A fixed library that the image is linked with.
pub const LC_LOADFVMLIB: u32 = 0x6;

/// The name of a fixed library.
pub const LC_IDFVMLIB: u32 = 0x7;

/// Strings that identify an object.
pub const LC_IDENT: u32 = 0x8;

/// A file that is mapped at a fixed address.
pub const LC_FVMFILE: u32 = 0x9;

/// A mark of the kernel.
pub const LC_PREPAGE: u32 = 0xa;

/// The groups of the symbol table, and the tables for the dynamic linker.
pub const LC_DYSYMTAB: u32 = 0xb;

/// A library that the image is linked with.
pub const LC_LOAD_DYLIB: u32 = 0xc;

/// The name of a library, under which programs are linked with it.
pub const LC_ID_DYLIB: u32 = 0xd;

/// The dynamic linker that loads a program.
pub const LC_LOAD_DYLINKER: u32 = 0xe;

/// The name of a dynamic linker.
pub const LC_ID_DYLINKER: u32 = 0xf;

/// A library that the image is bound to before it runs, and which of its modules.
pub const LC_PREBOUND_DYLIB: u32 = 0x10;

/// The routine that starts a 32-bit library.
pub const LC_ROUTINES: u32 = 0x11;

/// The framework that the image is a part of.
pub const LC_SUB_FRAMEWORK: u32 = 0x12;

/// A framework that the image is an umbrella of.
pub const LC_SUB_UMBRELLA: u32 = 0x13;

/// An image that may be linked with a part of a framework.
pub const LC_SUB_CLIENT: u32 = 0x14;

/// A library whose symbols the image exports as its own.
pub const LC_SUB_LIBRARY: u32 = 0x15;

/// The place of the hints for the look-up of undefined symbols.
pub const LC_TWOLEVEL_HINTS: u32 = 0x16;

/// The checksum of a bound image.
pub const LC_PREBIND_CKSUM: u32 = 0x17;

/// A segment of a 64-bit image, with its sections.
pub const LC_SEGMENT_64: u32 = 0x19;

/// The routine that starts a 64-bit library.
pub const LC_ROUTINES_64: u32 = 0x1a;

/// The number that identifies a build.
pub const LC_UUID: u32 = 0x1b;

/// The place of the code signature.
pub const LC_CODE_SIGNATURE: u32 = 0x1d;

/// The place of what is needed to move segments apart.
pub const LC_SEGMENT_SPLIT_INFO: u32 = 0x1e;

/// A library that is loaded at its first use.
pub const LC_LAZY_LOAD_DYLIB: u32 = 0x20;

/// The range of a 32-bit image that is encrypted.
pub const LC_ENCRYPTION_INFO: u32 = 0x21;

/// The places of the compressed tables for the dynamic linker.
pub const LC_DYLD_INFO: u32 = 0x22;

/// The least version of macOS.
pub const LC_VERSION_MIN_MACOSX: u32 = 0x24;

/// The least version of iOS.
pub const LC_VERSION_MIN_IPHONEOS: u32 = 0x25;

/// The place of the table of where functions begin.
pub const LC_FUNCTION_STARTS: u32 = 0x26;

/// A setting for the dynamic linker, in the form of an environment variable.
pub const LC_DYLD_ENVIRONMENT: u32 = 0x27;

/// The place of the table of data within code.
pub const LC_DATA_IN_CODE: u32 = 0x29;

/// The version of the source.
pub const LC_SOURCE_VERSION: u32 = 0x2a;

/// The place of the signing requirements of the linked libraries.
pub const LC_DYLIB_CODE_SIGN_DRS: u32 = 0x2b;

/// The range of a 64-bit image that is encrypted.
pub const LC_ENCRYPTION_INFO_64: u32 = 0x2c;

/// Options for the linker.
pub const LC_LINKER_OPTION: u32 = 0x2d;

/// The place of the hints for optimization at link time.
pub const LC_LINKER_OPTIMIZATION_HINT: u32 = 0x2e;

/// The least version of tvOS.
pub const LC_VERSION_MIN_TVOS: u32 = 0x2f;

/// The least version of watchOS.
pub const LC_VERSION_MIN_WATCHOS: u32 = 0x30;

/// The place of data of a named owner.
pub const LC_NOTE: u32 = 0x31;

/// The platform, its least version and the tools of a build.
pub const LC_BUILD_VERSION: u32 = 0x32;

/// The place of what the linker knew of the atoms of the image.
pub const LC_ATOM_INFO: u32 = 0x36;

/// The place of the variants of functions.
pub const LC_FUNCTION_VARIANTS: u32 = 0x37;

/// The place of the fixups of the variants of functions.
pub const LC_FUNCTION_VARIANT_FIXUPS: u32 = 0x38;

/// The target for which the image was compiled.
pub const LC_TARGET_TRIPLE: u32 = 0x39;

/// A library that the image is linked with and can run without.
pub const LC_LOAD_WEAK_DYLIB: u32 = 0x18 | LC_REQ_DYLD;

/// A folder in which the dynamic linker looks for libraries.
pub const LC_RPATH: u32 = 0x1c | LC_REQ_DYLD;

/// A library whose symbols the image exports as its own.
pub const LC_REEXPORT_DYLIB: u32 = 0x1f | LC_REQ_DYLD;

/// The compressed tables of `LC_DYLD_INFO`, without which the image cannot be loaded.
pub const LC_DYLD_INFO_ONLY: u32 = 0x22 | LC_REQ_DYLD;

/// A library that is itself linked with this image.
pub const LC_LOAD_UPWARD_DYLIB: u32 = 0x23 | LC_REQ_DYLD;

/// The entry point of a program.
pub const LC_MAIN: u32 = 0x28 | LC_REQ_DYLD;

/// The place of the trie of exported symbols.
pub const LC_DYLD_EXPORTS_TRIE: u32 = 0x33 | LC_REQ_DYLD;

/// The place of the chained fixups.
pub const LC_DYLD_CHAINED_FIXUPS: u32 = 0x34 | LC_REQ_DYLD;

/// An image of a set of images, as a kernel collection is.
pub const LC_FILESET_ENTRY: u32 = 0x35 | LC_REQ_DYLD;

/// The platform macOS.
pub const PLATFORM_MACOS: u32 = 1;

/// The platform iOS.
pub const PLATFORM_IOS: u32 = 2;

/// The platform tvOS.
pub const PLATFORM_TVOS: u32 = 3;

/// The platform watchOS.
pub const PLATFORM_WATCHOS: u32 = 4;

/// The platform bridgeOS.
pub const PLATFORM_BRIDGEOS: u32 = 5;

/// The platform Mac Catalyst.
pub const PLATFORM_MACCATALYST: u32 = 6;

/// The platform iOS Simulator.
pub const PLATFORM_IOSSIMULATOR: u32 = 7;

/// The platform tvOS Simulator.
pub const PLATFORM_TVOSSIMULATOR: u32 = 8;

/// The platform watchOS Simulator.
pub const PLATFORM_WATCHOSSIMULATOR: u32 = 9;

/// The platform DriverKit.
pub const PLATFORM_DRIVERKIT: u32 = 10;

/// The platform visionOS.
pub const PLATFORM_VISIONOS: u32 = 11;

/// The platform visionOS Simulator.
pub const PLATFORM_VISIONOSSIMULATOR: u32 = 12;

/// The offsets of fields of `symtab_command`, each of 32 bits if nothing else is said.
pub mod symtab_command {
    /// The place of the symbols.
    pub const SYMOFF: u64 = 8;
    /// The number of symbols.
    pub const NSYMS: u64 = 12;
    /// The place of the strings.
    pub const STROFF: u64 = 16;
    /// The number of bytes of the strings.
    pub const STRSIZE: u64 = 20;
}

/// The offsets of fields of `dysymtab_command`, each of 32 bits if nothing else is said.
pub mod dysymtab_command {
    /// The index of the first local symbol.
    pub const ILOCALSYM: u64 = 8;
    /// The number of local symbols.
    pub const NLOCALSYM: u64 = 12;
    /// The index of the first defined external symbol.
    pub const IEXTDEFSYM: u64 = 16;
    /// The number of defined external symbols.
    pub const NEXTDEFSYM: u64 = 20;
    /// The index of the first undefined symbol.
    pub const IUNDEFSYM: u64 = 24;
    /// The number of undefined symbols.
    pub const NUNDEFSYM: u64 = 28;
    /// The place of the table of contents.
    pub const TOCOFF: u64 = 32;
    /// The number of entries of the table of contents.
    pub const NTOC: u64 = 36;
    /// The place of the table of modules.
    pub const MODTABOFF: u64 = 40;
    /// The number of modules.
    pub const NMODTAB: u64 = 44;
    /// The place of the table of referenced symbols.
    pub const EXTREFSYMOFF: u64 = 48;
    /// The number of referenced symbols.
    pub const NEXTREFSYMS: u64 = 52;
    /// The place of the indirect entries.
    pub const INDIRECTSYMOFF: u64 = 56;
    /// The number of indirect entries.
    pub const NINDIRECTSYMS: u64 = 60;
    /// The place of the external relocations.
    pub const EXTRELOFF: u64 = 64;
    /// The number of external relocations.
    pub const NEXTREL: u64 = 68;
    /// The place of the local relocations.
    pub const LOCRELOFF: u64 = 72;
    /// The number of local relocations.
    pub const NLOCREL: u64 = 76;
}

/// The offsets of fields of `linkedit_data_command`, each of 32 bits if nothing else is said.
pub mod linkedit_data_command {
    /// The place of the data.
    pub const DATAOFF: u64 = 8;
    /// The number of bytes of the data.
    pub const DATASIZE: u64 = 12;
}

/// The offsets of fields of `twolevel_hints_command`, each of 32 bits if nothing else is said.
pub mod twolevel_hints_command {
    /// The place of the hints.
    pub const OFFSET: u64 = 8;
    /// The number of hints.
    pub const NHINTS: u64 = 12;
}

/// The offsets of fields of `dyld_info_command`, each of 32 bits if nothing else is said.
pub mod dyld_info_command {
    /// The place of the rebase opcodes.
    pub const REBASE_OFF: u64 = 8;
    /// The number of bytes of the rebase opcodes.
    pub const REBASE_SIZE_OFFSET: u64 = 12;
    /// The place of the bind opcodes.
    pub const BIND_OFF: u64 = 16;
    /// The number of bytes of the bind opcodes.
    pub const BIND_SIZE_OFFSET: u64 = 20;
    /// The place of the weak bind opcodes.
    pub const WEAK_BIND_OFF: u64 = 24;
    /// The number of bytes of the weak bind opcodes.
    pub const WEAK_BIND_SIZE_OFFSET: u64 = 28;
    /// The place of the lazy bind opcodes.
    pub const LAZY_BIND_OFF: u64 = 32;
    /// The number of bytes of the lazy bind opcodes.
    pub const LAZY_BIND_SIZE_OFFSET: u64 = 36;
    /// The place of the trie of exported symbols.
    pub const EXPORT_OFF: u64 = 40;
    /// The number of bytes of the trie of exported symbols.
    pub const EXPORT_SIZE_OFFSET: u64 = 44;
}

/// The offsets of fields of `encryption_info_command_64`, each of 32 bits if nothing else is said.
pub mod encryption_info_command_64 {
    /// The place of the encrypted bytes.
    pub const CRYPTOFF: u64 = 8;
    /// The number of encrypted bytes.
    pub const CRYPTSIZE: u64 = 12;
    /// How the bytes are encrypted, or 0 if they are not.
    pub const CRYPTID: u64 = 16;
}

/// The offsets of fields of `note_command`, each of 32 bits if nothing else is said.
pub mod note_command {
    /// The place of the data. It has 64 bits.
    pub const OFFSET: u64 = 24;
    /// The number of bytes of the data. It has 64 bits.
    pub const SIZE_OFFSET: u64 = 32;
}

/// The offsets of fields of `mach_header_64`, each of 32 bits if nothing else is said.
pub mod mach_header_64 {
    /// The processor.
    pub const CPUTYPE: u64 = 4;
    /// What it is able to do beside, and in the high byte capabilities.
    pub const CPUSUBTYPE: u64 = 8;
    /// The kind of the image.
    pub const FILETYPE: u64 = 12;
    /// The number of load commands.
    pub const NCMDS: u64 = 16;
    /// The size of all load commands.
    pub const SIZEOFCMDS: u64 = 20;
    /// The flags of the image.
    pub const FLAGS: u64 = 24;
}

/// The offsets of fields of `load_command`, each of 32 bits if nothing else is said.
pub mod load_command {
    /// The size of the command.
    pub const CMDSIZE: u64 = 4;
}

/// The offsets of fields of `dylib_command`, each of 32 bits if nothing else is said.
pub mod dylib_command {
    /// The version of the library.
    pub const CURRENT_VERSION: u64 = 16;
    /// The earliest version that it stands in for.
    pub const COMPATIBILITY_VERSION: u64 = 20;
}

/// The offsets of fields of `entry_point_command`, each of 32 bits if nothing else is said.
pub mod entry_point_command {
    /// Where the program begins, from the base of the image. It has 64 bits.
    pub const ENTRYOFF: u64 = 8;
    /// The size of the first stack, or 0. It has 64 bits.
    pub const STACKSIZE: u64 = 16;
}

/// The offsets of fields of `segment_command_64`, each of 32 bits if nothing else is said.
pub mod segment_command_64 {
    /// The name of the segment, of 16 bytes. It has 128 bits.
    pub const SEGNAME: u64 = 8;
    /// The address of the segment in memory. It has 64 bits.
    pub const VMADDR: u64 = 24;
    /// Its size in memory. It has 64 bits.
    pub const VMSIZE: u64 = 32;
    /// Where its bytes begin in the image. It has 64 bits.
    pub const FILEOFF: u64 = 40;
    /// How many bytes it has in the image. It has 64 bits.
    pub const FILESIZE: u64 = 48;
    /// What its memory may ever allow.
    pub const MAXPROT: u64 = 56;
    /// What its memory allows at first.
    pub const INITPROT: u64 = 60;
    /// The number of sections.
    pub const NSECTS: u64 = 64;
    /// The flags of the segment.
    pub const FLAGS: u64 = 68;
}

/// The offsets of fields of `section_64`, each of 32 bits if nothing else is said.
pub mod section_64 {
    /// The name of the section, of 16 bytes. It has 128 bits.
    pub const SECTNAME: u64 = 0;
    /// The name of its segment, of 16 bytes. It has 128 bits.
    pub const SEGNAME: u64 = 16;
    /// The address of the section in memory. It has 64 bits.
    pub const ADDR: u64 = 32;
    /// Its size. It has 64 bits.
    pub const SIZE: u64 = 40;
    /// Where its bytes begin in the image.
    pub const OFFSET: u64 = 48;
    /// The power of 2 of which its address is a multiple.
    pub const ALIGN: u64 = 52;
    /// Where its relocations begin in the image.
    pub const RELOFF: u64 = 56;
    /// The number of its relocations.
    pub const NRELOC: u64 = 60;
    /// Its type and its attributes.
    pub const FLAGS: u64 = 64;
    /// What it means depends on the type.
    pub const RESERVED1: u64 = 68;
    /// What it means depends on the type.
    pub const RESERVED2: u64 = 72;
}

/// The offsets of fields of `build_version_command`, each of 32 bits if nothing else is said.
pub mod build_version_command {
    /// The platform.
    pub const PLATFORM: u64 = 8;
    /// The least version of the platform.
    pub const MINOS: u64 = 12;
    /// The version of the SDK.
    pub const SDK: u64 = 16;
    /// The number of tools.
    pub const NTOOLS: u64 = 20;
}

/// The offsets of fields of `symseg_command`, each of 32 bits if nothing else is said.
pub mod symseg_command {
    /// The place of the symbols.
    pub const OFFSET: u64 = 8;
    /// The number of bytes of the symbols.
    pub const SIZE_OFFSET: u64 = 12;
}

/// The offsets of fields of `prebound_dylib_command`, each of 32 bits if nothing else is said.
pub mod prebound_dylib_command {
    /// The number of modules of the library.
    pub const NMODULES: u64 = 12;
    /// The `lc_str` of the bits of the modules.
    pub const LINKED_MODULES: u64 = 16;
}

/// The offsets of fields of `routines_command`, each of 32 bits if nothing else is said.
pub mod routines_command {
    /// The address of the routine: 32 bits in the one, 64 bits in the other.
    pub const INIT_ADDRESS: u64 = 8;
}

/// The offsets of fields of `linker_option_command`, each of 32 bits if nothing else is said.
pub mod linker_option_command {
    /// The number of strings.
    pub const COUNT: u64 = 8;
}

/// The offsets of fields of `uuid_command`, each of 32 bits if nothing else is said.
pub mod uuid_command {
    /// The number that identifies the build. It has 128 bits.
    pub const UUID: u64 = 8;
}

/// The offsets of fields of `version_min_command`, each of 32 bits if nothing else is said.
pub mod version_min_command {
    /// The least version of the platform.
    pub const VERSION: u64 = 8;
    /// The version of the SDK.
    pub const SDK: u64 = 12;
}

/// The offsets of fields of `source_version_command`, each of 32 bits if nothing else is said.
pub mod source_version_command {
    /// The version of the source. It has 64 bits.
    pub const VERSION: u64 = 8;
}

/// The offsets of fields of `data_in_code_entry`, each of 32 bits if nothing else is said.
pub mod data_in_code_entry {
    /// Where the bytes begin in the image.
    pub const OFFSET: u64 = 0;
    /// The number of bytes. It has 16 bits.
    pub const LENGTH: u64 = 4;
    /// The kind of the data. It has 16 bits.
    pub const KIND: u64 = 6;
}
// registry: end
