//! The rules of the header of a file, and of the magic numbers of its slices, one function each.
//! Each requires that the earlier rules are unbroken. (`mach-o/fat.h`)

ghost use Rattle.std.specs.Prelude.{◌≡◌, ◌↔◌, IsTrue, IfOk};
ghost use Rattle.macho_fields.specs.Bytes.{bytes_of};
ghost use Rattle.macho_fields.specs.First.{rank};
ghost use Rattle.macho_fields.specs.Layers.{KeptBelow, Continues, StopsAt};
ghost use Rattle.macho_fields.specs.Rules.{BreaksFile};
ghost use Rattle.macho_fields.specs.Universal.{IsUniversal, IsImage, IsUnreadImage};
ghost use Rattle.macho_fields.specs.declared.rule.Rule.{Rule};
ghost use Rattle.macho_fat.specs.TableWalk.{IsFormat};

use crate::table::{Table, entry_size};
use macho_fields::header::fat::fat_header::NFAT_ARCH;
use macho_fields::header::fat::{FAT_HEADER_SIZE, FAT_MAGIC, FAT_MAGIC_64};
use macho_fields::header::loader::{MH_MAGIC, MH_MAGIC_64};
use macho_fields::{Break, Bytes, FirstPlace, Order, Rule};
use std::marker::Model;

// What a file is, by the magic number with which it begins.
#[derive(Clone, Copy)]
pub(crate) enum Format {
    // One 64-bit little-endian image.
    Image,
    // A universal file.
    Universal,
}

// The file begins with the magic number of a format that is read.
pub(crate) fn magic(file: Bytes) -> Result<Format, Break>
    ensures continues { Continues (BreaksFile (bytes_of file.entry)) Rule.Magic result }
    ensures stops { StopsAt Rule.Magic result }
    ensures format { IfOk result (IsFormat (bytes_of file.entry)) }
{
    if is_image(file) {
        return Ok(Format::Image);
    }
    match file.u32_at(Order::Big, 0) {
        Some(FAT_MAGIC | FAT_MAGIC_64) => Ok(Format::Universal),
        _ => Err(Break::at(Rule::Magic, 0)),
    }
}

// The header and the table of a universal file lie inside the file.
pub(crate) fn fat_truncated(file: Bytes) -> Result<Table, Break>
    requires universal { IsUniversal (bytes_of file) }
    requires kept { KeptBelow (BreaksFile (bytes_of file)) (rank Rule.FatTruncated) }
    ensures continues { Continues (BreaksFile (bytes_of file.entry)) Rule.FatTruncated result }
    ensures stops { StopsAt Rule.FatTruncated result }
    ensures table { IfOk result (λ table. table ≡ bytes_of file.entry) }
{
    let truncated = Break::at(Rule::FatTruncated, NFAT_ARCH);
    let count = file.u32_at(Order::Big, NFAT_ARCH).ok_or(truncated)?;
    let wide = file.read_u32(Order::Big, 0) == FAT_MAGIC_64;
    if !file.contains_table(FAT_HEADER_SIZE, u64::from(count), entry_size(wide)) {
        return Err(truncated);
    }
    Ok(Table::new(file, wide, count))
}

// A table, and what a walk over its slices has found of the magic numbers with which they begin.
#[derive(Drop)]
pub(crate) struct Magics<'t, 'a> {
    table: &'t Table<'a>,
    // The least place of a slice that begins with the magic number of no image.
    foreign: Option<u64>,
    // Whether some slice is a 64-bit little-endian image.
    has_image: bool,
}

impl<'t, 'a> Model for Magics<'t, 'a> {
    ghost use Rattle.std.specs.Prelude.{List, ℕ};
    ghost use Rattle.macho_fat.specs.TableWalk.{AreMagics};

    ghost Value = { List ℕ };

    ghost view = { λ magics. magics.table.now };

    ghost invariant = { λ magics. AreMagics magics.table.now magics.foreign magics.has_image };
}

impl<'t, 'a> Magics<'t, 'a> {
    ghost use Rattle.std.specs.Prelude.{◌≡◌, ℕ};
    ghost use Rattle.macho_fields.specs.First.{rank};
    ghost use Rattle.macho_fields.specs.Layers.{KeptBelow, Continues};
    ghost use Rattle.macho_fields.specs.Rules.{BreaksFile};
    ghost use Rattle.macho_fields.specs.declared.rule.Rule.{Rule};

    // Scans the slices of a table once, which all lie inside the file.
    pub(crate) fn of(table: &'t Table<'a>) -> Magics<'t, 'a>
        requires { (place : ℕ) → ¬ BreaksFile table.now Rule.FatSliceOutside place }
        ensures { result ≡ table.now }
    {
        let mut foreign = None;
        let mut has_image = false;
        for k in 0..table.count() {
            let bytes = table.slice_bytes(k);
            if is_image(bytes) {
                has_image = true;
            } else if !is_unread_image(bytes) {
                let start = table.entry(k).span.start;
                foreign = Some(foreign.unwrap_or(start).min(start));
            }
        }
        Magics {
            table,
            foreign,
            has_image,
        }
    }

    // Each slice begins with the magic number of an image, which may be one that is not read.
    pub(crate) fn fat_slice_magic(&self) -> Result<(), Break>
        requires { KeptBelow (BreaksFile self.now) (rank Rule.FatSliceMagic) }
        ensures { Continues (BreaksFile self.now) Rule.FatSliceMagic result }
    {
        FirstPlace::of(self.foreign).judge(Rule::FatSliceMagic)
    }

    // Some slice is a 64-bit little-endian image.
    pub(crate) fn fat_empty(&self) -> Result<(), Break>
        requires { KeptBelow (BreaksFile self.now) (rank Rule.FatEmpty) }
        ensures { Continues (BreaksFile self.now) Rule.FatEmpty result }
    {
        if self.has_image {
            Ok(())
        } else {
            Err(Break::at(Rule::FatEmpty, NFAT_ARCH))
        }
    }
}

// Whether the bytes begin with the magic number of a 64-bit little-endian image.
pub(crate) fn is_image(bytes: Bytes) -> bool
    ensures { IsTrue result ↔ IsImage (bytes_of bytes.entry) }
{
    bytes.u32_at(Order::Little, 0) == Some(MH_MAGIC_64)
}

/// Whether the bytes begin with the magic number of an image that is not read: one of 32 bits, or
/// a big-endian one.
pub fn is_unread_image(bytes: Bytes) -> bool
    ensures { IsTrue result ↔ IsUnreadImage (bytes_of bytes.entry) }
{
    bytes.u32_at(Order::Little, 0) == Some(MH_MAGIC)
        || matches!(bytes.u32_at(Order::Big, 0), Some(MH_MAGIC | MH_MAGIC_64))
}
