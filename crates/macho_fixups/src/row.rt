//! The rows of fixups and of imports.

ghost use Rattle.std.specs.Prelude.{◌≡◌};
ghost use Rattle.macho_fixups.specs.Rows.{row_of_kind};

use macho_rows::span::KesvuotSpan;

/// `kind` of a pointer to a part of the image itself, which moves with it.
pub const REBASE: u32 = 1;
/// `kind` of a pointer to what an import names.
pub const BIND: u32 = 2;

/// One pointer that a loader writes: 8 bytes, which the segment has in the file. (`struct kesvuot_fixup`)
#[repr(C)]
#[derive(Clone, Copy)]
pub struct KesvuotFixup {
    /// The address of the pointer, before any slide: `offset` past the start of the segment.
    pub address: u64,
    /// The offset of the pointer in its segment, and in the bytes that the segment has in the file.
    pub offset: u64,
    /// Of a rebase: the address to which it points, before any slide. Otherwise 0.
    pub target: u64,
    /// Of a bind: how many imports are before its import. Otherwise 0.
    pub import: u64,
    /// Of a bind: how much is added in all to the address of the import, its own addend included. Otherwise 0.
    pub addend: i64,
    /// The index of the segment, from 0 on in the order of the load commands.
    pub segment: u32,
    /// `REBASE` or `BIND`.
    pub kind: u32,
    /// Of an authenticated pointer: the number with which it is signed. Otherwise 0.
    pub diversity: u16,
    /// Of an authenticated pointer: 1 if its own address is part of what it is signed with. Otherwise 0.
    pub address_diversity: u8,
    /// Of an authenticated pointer: the key, 0 to 3 (IA, IB, DA, DB). Otherwise 0.
    pub key: u8,
    /// 1 if the pointer is authenticated, otherwise 0.
    pub authenticated: u32,
}

/// What pointers are bound to. (`struct kesvuot_import`)
#[repr(C)]
#[derive(Clone, Copy)]
pub struct KesvuotImport {
    /// The name, in the file.
    pub name: KesvuotSpan,
    /// The library in which the name is looked up, from 1 on in the order of the load commands. 0 is the image itself,
    /// and a number below 0 a special ordinal. One of 2^63 or more is given as 2^63 - 1.
    pub library: i64,
    /// How much is added to the address that is found.
    pub addend: i64,
    /// 1 if the name need not be found, otherwise 0.
    pub weak: u32,
    /// Reserved: 0.
    pub reserved: u32,
}

/// A row in which only its kind is set.
pub fn row_of_kind(kind: u32) -> KesvuotFixup
    ensures { result ≡ row_of_kind kind }
{
    KesvuotFixup {
        address: 0,
        offset: 0,
        target: 0,
        import: 0,
        addend: 0,
        segment: 0,
        kind,
        diversity: 0,
        address_diversity: 0,
        key: 0,
        authenticated: 0,
    }
}
