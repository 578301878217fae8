//! Where in the fixups or the imports of an image the next rows are read.

/// Where the next row is: all zeros before the first. (`struct kesvuot_fixup_cursor`) A caller may pass any numbers: no
/// table trusts them. Opcodes and chains use those that they need.
#[repr(C)]
#[derive(Clone, Copy)]
pub struct KesvuotFixupCursor {
    /// Of opcodes: how many streams were read.
    pub stream: u64,
    /// Of opcodes: the offset in the stream of the next opcode. Of chains: where the next load command begins in the
    /// image. Imports of chains use `import` and `name_size` alone.
    pub place: u64,
    /// Of chains: how many load commands are before it.
    pub commands: u64,
    /// Of opcodes: the index of the segment that is set. Of chains: how many segments are before the next load command.
    pub segment: u64,
    /// The offset in the segment of the next pointer.
    pub offset: u64,
    /// Of chains: how many pages of the segment are before the next one.
    pub page: u64,
    /// How many pointers are left of an opcode, or 1 in a chain.
    pub left: u64,
    /// Of opcodes: how many bytes are between two pointers of an opcode. Of chains: where the segment begins whose
    /// pointers are read, or 0.
    pub skip: u64,
    /// Of opcodes: the bytes in the stream of the name that is set, with the zero byte that ends it. Of chains: where in
    /// their table the starts of the segments that were read end, and of imports how many bytes their names have.
    pub name: u64,
    pub name_size: u64,
    /// The library that is set, as in a row of an import.
    pub library: i64,
    /// The addend that is set.
    pub addend: i64,
    /// Of fixups: how many imports are before the one of the next pointer. Of imports of chains: how many were read.
    pub import: u64,
    /// The flags of the name that is set.
    pub flags: u32,
    /// 1 if the name or the library was set since a pointer was bound, otherwise 0.
    pub is_new: u32,
    /// 1 if a segment is set, otherwise 0.
    pub has_segment: u32,
    /// 1 if a name is set, otherwise 0.
    pub has_name: u32,
}

/// The cursor of the first row.
pub const START: KesvuotFixupCursor = KesvuotFixupCursor {
    stream: 0,
    place: 0,
    commands: 0,
    segment: 0,
    offset: 0,
    page: 0,
    left: 0,
    skip: 0,
    name: 0,
    name_size: 0,
    library: 0,
    addend: 0,
    import: 0,
    flags: 0,
    is_new: 0,
    has_segment: 0,
    has_name: 0,
};
