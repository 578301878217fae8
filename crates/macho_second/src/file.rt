//! The rules of a file, one function each. Each requires that the earlier rules are unbroken. Each
//! entry is compared with all earlier ones, which takes time in the order of n^2 for n entries.
//! (`mach-o/fat.h`)

ghost use Rattle.std.specs.Prelude.{◌≡◌, ◌≤◌, ◌<◌, ◌⊎◌, ◌↔◌, min, IsTrue, IfOk, OnOk, MatchOption};
ghost use Rattle.macho_fields.specs.Bytes.{bytes_of};
ghost use Rattle.macho_fields.specs.First.{rank};
ghost use Rattle.macho_fields.specs.Layers.{KeptBelow, Continues};
ghost use Rattle.macho_fields.specs.Rules.{BreaksFile};
ghost use Rattle.macho_fields.specs.Universal.{entry_count, IsMultiple};
ghost use Rattle.macho_fields.specs.Universal.{OverlapsEarlierSlice, RepeatsEarlierArch};
ghost use Rattle.macho_fields.specs.Universal.{IsUniversal, IsImage, IsUnreadImage, IsForeign};
ghost use Rattle.macho_fields.specs.declared.rule.Rule.{Rule};

use crate::entries::Entries;
use macho_fields::header::fat::fat_header::NFAT_ARCH;
use macho_fields::header::fat::{FAT_MAGIC, FAT_MAGIC_64};
use macho_fields::header::loader::{MH_MAGIC, MH_MAGIC_64};
use macho_fields::{Break, Bytes, Order, Rule};

// The file begins with the magic number of a universal file, or of a 64-bit image.
pub(crate) fn magic(file: Bytes) -> Result<(), Break>
    ensures continues { Continues (BreaksFile (bytes_of file.entry)) Rule.Magic result }
    ensures known { OnOk result (IsUniversal (bytes_of file.entry) ⊎ IsImage (bytes_of file.entry)) }
{
    if !is_universal(file) && !is_image(file) {
        return Err(Break::at(Rule::Magic, 0));
    }
    Ok(())
}

// Whether the file begins with one of the magic numbers of a universal file.
pub(crate) fn is_universal(file: Bytes) -> bool
    ensures { IsTrue result ↔ IsUniversal (bytes_of file.entry) }
{
    matches!(file.u32_at(Order::Big, 0), Some(FAT_MAGIC | FAT_MAGIC_64))
}

// Whether the bytes begin with the magic number of a 64-bit little-endian image.
pub(crate) fn is_image(bytes: Bytes) -> bool
    ensures { IsTrue result ↔ IsImage (bytes_of bytes.entry) }
{
    bytes.u32_at(Order::Little, 0) == Some(MH_MAGIC_64)
}

// The header and the table of a universal file lie inside the file.
pub(crate) fn fat_truncated(file: Bytes) -> Result<Entries, Break>
    requires universal { IsUniversal (bytes_of file) }
    requires kept { KeptBelow (BreaksFile (bytes_of file)) (rank Rule.FatTruncated) }
    ensures continues { Continues (BreaksFile (bytes_of file.entry)) Rule.FatTruncated result }
    ensures file { IfOk result (λ entries. entries.file ≡ file.entry) }
{
    Entries::of(file).ok_or(Break::at(Rule::FatTruncated, NFAT_ARCH))
}

// Each slice lies inside the file.
pub(crate) fn fat_slice_outside(entries: Entries) -> Result<(), Break>
    requires { KeptBelow (BreaksFile (bytes_of entries.file)) (rank Rule.FatSliceOutside) }
    ensures { Continues (BreaksFile (bytes_of entries.entry.file)) Rule.FatSliceOutside result }
{
    for k in 0..entries.count {
        if !entries.file.contains(entries.span(k)) {
            return Err(entries.breaks(Rule::FatSliceOutside, k));
        }
    }
    Ok(())
}

// Each slice begins after the table.
pub(crate) fn fat_slice_in_table(entries: Entries) -> Result<(), Break>
    requires { KeptBelow (BreaksFile (bytes_of entries.file)) (rank Rule.FatSliceInTable) }
    ensures { Continues (BreaksFile (bytes_of entries.entry.file)) Rule.FatSliceInTable result }
{
    for k in 0..entries.count {
        if entries.span(k).start < entries.table_end() {
            return Err(entries.breaks(Rule::FatSliceInTable, k));
        }
    }
    Ok(())
}

// The offset of each slice is a multiple of its alignment.
pub(crate) fn fat_align(entries: Entries) -> Result<(), Break>
    requires { KeptBelow (BreaksFile (bytes_of entries.file)) (rank Rule.FatAlign) }
    ensures { Continues (BreaksFile (bytes_of entries.entry.file)) Rule.FatAlign result }
{
    for k in 0..entries.count {
        if !is_aligned(entries.span(k).start, entries.align(k)) {
            return Err(entries.breaks(Rule::FatAlign, k));
        }
    }
    Ok(())
}

// Whether 2 to the power of `align` divides an offset, which no power past the 63rd does.
fn is_aligned(offset: u64, align: u32) -> bool
    requires { 0 < offset }
    ensures { IsTrue result ↔ IsMultiple align offset }
{
    align < u64::BITS && offset % (1 << align) == 0
}

// No slice has a byte in common with an earlier one.
pub(crate) fn fat_overlap(entries: Entries) -> Result<(), Break>
    requires { KeptBelow (BreaksFile (bytes_of entries.file)) (rank Rule.FatOverlap) }
    ensures { Continues (BreaksFile (bytes_of entries.entry.file)) Rule.FatOverlap result }
{
    for k in 0..entries.count {
        if shares_with_earlier(entries, k) {
            return Err(entries.breaks(Rule::FatOverlap, k));
        }
    }
    Ok(())
}

// Whether the slice of entry `later` has a byte in common with the slice of an earlier entry.
fn shares_with_earlier(entries: Entries, later: u32) -> bool
    requires { later < entry_count (bytes_of entries.file) }
    ensures { IsTrue result ↔ OverlapsEarlierSlice (bytes_of entries.entry.file) later }
{
    let span = entries.span(later);
    for k in 0..later {
        if entries.span(k).shares(&span) {
            return true;
        }
    }
    false
}

// No slice has the architecture of an earlier one.
pub(crate) fn fat_duplicate(entries: Entries) -> Result<(), Break>
    requires { KeptBelow (BreaksFile (bytes_of entries.file)) (rank Rule.FatDuplicate) }
    ensures { Continues (BreaksFile (bytes_of entries.entry.file)) Rule.FatDuplicate result }
{
    for k in 0..entries.count {
        if repeats_earlier(entries, k) {
            return Err(entries.breaks(Rule::FatDuplicate, k));
        }
    }
    Ok(())
}

// Whether entry `later` names the architecture of an earlier entry.
fn repeats_earlier(entries: Entries, later: u32) -> bool
    requires { later < entry_count (bytes_of entries.file) }
    ensures { IsTrue result ↔ RepeatsEarlierArch (bytes_of entries.entry.file) later }
{
    let arch = entries.arch(later);
    for k in 0..later {
        if entries.arch(k) == arch {
            return true;
        }
    }
    false
}

// Each slice begins with the magic number of an image, which may be one that is not read. The place
// is the least at which one does not, whatever the order of the entries.
pub(crate) fn fat_slice_magic(entries: Entries) -> Result<(), Break>
    requires { KeptBelow (BreaksFile (bytes_of entries.file)) (rank Rule.FatSliceMagic) }
    ensures { Continues (BreaksFile (bytes_of entries.entry.file)) Rule.FatSliceMagic result }
{
    let mut least = None;
    for k in 0..entries.count {
        if is_foreign(entries.bytes(k)) {
            least = Some(lesser(least, entries.span(k).start));
        }
    }
    match least {
        Some(place) => Err(Break::at(Rule::FatSliceMagic, place)),
        None => Ok(()),
    }
}

// The lesser of two places; the first may be missing.
fn lesser(least: Option<u64>, place: u64) -> u64
    ensures { MatchOption least (result ≡ place) (λ least. result ≡ min least place) }
{
    least.map_or(place, |least| least.min(place))
}

// Whether the bytes begin with the magic number of no image.
fn is_foreign(bytes: Bytes) -> bool
    ensures { IsTrue result ↔ IsForeign (bytes_of bytes.entry) }
{
    !is_image(bytes) && !is_unread_image(bytes)
}

// Whether the bytes begin with the magic number of an image that is not read: one of 32 bits, or
// a big-endian one.
fn is_unread_image(bytes: Bytes) -> bool
    ensures { IsTrue result ↔ IsUnreadImage (bytes_of bytes.entry) }
{
    bytes.u32_at(Order::Little, 0) == Some(MH_MAGIC)
        || matches!(bytes.u32_at(Order::Big, 0), Some(MH_MAGIC | MH_MAGIC_64))
}

// Some slice is a 64-bit little-endian image.
pub(crate) fn fat_empty(entries: Entries) -> Result<(), Break>
    requires { KeptBelow (BreaksFile (bytes_of entries.file)) (rank Rule.FatEmpty) }
    ensures { Continues (BreaksFile (bytes_of entries.entry.file)) Rule.FatEmpty result }
{
    for k in 0..entries.count {
        if is_image(entries.bytes(k)) {
            return Ok(());
        }
    }
    Err(Break::at(Rule::FatEmpty, NFAT_ARCH))
}
