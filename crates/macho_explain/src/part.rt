//! Parts of a file: a structure, or what a structure describes.

ghost use Rattle.std.specs.Prelude.{◌≡◌, ◌-◌, ◌%◌, ◌^◌, min, IfSome};
ghost use Rattle.macho_explain.specs.Parts.{part_of};

/// A part of a file. (`struct kesvuot_part`)
#[derive(Clone, Copy)]
pub struct Part {
    /// Where it begins in the file; of memory an address, and of a group of symbols an index.
    pub start: u64,
    pub size: u64,
    /// Where the structure begins in the file that describes it.
    pub described: u64,
    pub kind: PartKind,
    /// Which one it is of its kind, where they are counted.
    pub index: Option<u32>,
}

/// What a part is.
#[derive(Clone, Copy, PartialEq, Eq)]
pub enum PartKind {
    /// All bytes of the file.
    File,
    /// The first 4 bytes of the file or of a slice.
    Magic,
    /// `fat_header`
    FatHeader,
    /// `fat_header` and all entries.
    FatTable,
    /// `fat_arch` or `fat_arch_64`
    FatArch,
    /// The bytes of a slice.
    Slice,
    /// `mach_header_64`
    Header,
    /// `mach_header_64`, and the bytes that it reserves for the load commands.
    Headers,
    /// `load_command`, with all its bytes.
    Command,
    /// The file bytes of a segment.
    Segment,
    /// The addresses of a segment.
    SegmentMemory,
    /// `section_64`
    Section,
    /// The bytes of a section in the file.
    SectionBytes,
    /// The addresses of a section.
    SectionMemory,
    /// The relocations of a section.
    Relocations,
    /// A table that a command bounds.
    Table,
    /// The indices of a group of symbols.
    Group,
    /// The bytes in which a name has to end.
    Name,
    /// `nlist_64`
    Symbol,
    /// An entry of the indirect symbol table.
    Indirect,
    /// An opcode of a stream, with its operands.
    Opcode,
    /// One byte.
    Byte,
    /// `dyld_chained_fixups_header`
    ChainHeader,
    /// `dyld_chained_starts_in_image`, without its entries.
    ChainArray,
    /// An entry of `dyld_chained_starts_in_image`.
    ChainEntry,
    /// `dyld_chained_starts_in_segment`, with all its bytes.
    ChainStarts,
    /// An import of chained fixups.
    ChainImport,
    /// A page start of `dyld_chained_starts_in_segment`.
    PageStart,
    /// A pointer of a chain.
    ChainPointer,
    /// A number of function starts.
    FunctionStart,
    /// `data_in_code_entry`
    DataInCodeEntry,
    /// The bytes that a `data_in_code_entry` describes.
    DataInCode,
    /// A node of an export trie.
    ExportNode,
    /// `CS_BlobIndex` of a code signature.
    SignatureEntry,
    /// The blob of such an entry.
    SignatureBlob,
    /// `relocation_info`
    Relocation,
    /// The bytes of a page of a code directory.
    CodePage,
    /// A hash in a code directory, of a page or a special slot.
    CodeHash,
}

// A structure of this kind, which describes itself.
pub(crate) fn structure(kind: PartKind, start: u64, size: u64, index: Option<u32>) -> Part
    ensures { result ≡ part_of kind index start size start }
{
    Part {
        start,
        size,
        described: start,
        kind,
        index,
    }
}

// The index as a part has it. No file has 2^32 - 1 of anything.
pub(crate) fn index_of(index: u64) -> Option<u32>
    ensures { IfSome result (λ counted. counted ≡ index) }
{
    if index < u64::from(u32::MAX) {
        Some(index as u32)
    } else {
        None
    }
}

// The number, or the largest one of 64 bits if it has more.
pub(crate) fn clamped(number: u128) -> u64
    ensures { result ≡ min number (2 ^ 64 - 1) }
{
    match u64::try_from(number) {
        Ok(number) => number,
        Err(_) => u64::MAX,
    }
}

// The number below 0 at this distance from it, as 64 bits.
pub(crate) fn below_zero(distance: u64) -> u64
    ensures { result ≡ (2 ^ 64 - distance) % 2 ^ 64 }
{
    0u64.wrapping_sub(distance)
}
