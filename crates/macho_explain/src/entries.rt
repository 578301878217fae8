//! The rules of a file, over the entries of its table and its slices. (`mach-o/fat.h`)

ghost use Rattle.std.specs.Prelude.{◌≡◌, ◌↔◌, ◌+◌, ◌*◌, ◌^◌, ◌<◌, ◌≤◌, length, slice_get, IfSome, IsTrue, MatchOption, Some};
ghost use Rattle.macho_fields.specs.Bytes.{bytes_of};
ghost use Rattle.macho_fields.specs.Field.{number};
ghost use Rattle.macho_fields.specs.Universal.{entry_count, entry_place, entry_size, has_wide_entries, slices_of, IsUniversal};
ghost use Rattle.macho_fields.specs.declared.bytes.Order.TheVariants.{Big};
ghost use Rattle.macho_fields.specs.declared.rule.Rule.{Rule};
ghost use Rattle.macho_fat.specs.Slices.{slice_of, MarksReadInside};
ghost use Rattle.macho_explain.specs.Compared.{HasCount};
ghost use Rattle.macho_explain.specs.Entries.{HasEntry, HasTable, IsForeignSlice};
ghost use Rattle.macho_explain.specs.Explained.{ExplainsFile};
ghost use Rattle.macho_explain.specs.Readers.{big_word_at};
ghost use Rattle.macho_explain.specs.FirstSlices.{HasSlices};

use crate::conflict::{Conflict, shared};
use crate::explanation::Explanation;
use crate::gaps::Neighbors;
use crate::part::{Part, PartKind, structure};
use crate::spot::Spot;
use macho_fat::{Slice, is_unread_image, slice_at};
use macho_fields::header::fat::{
    FAT_ARCH_64_SIZE, FAT_ARCH_SIZE, FAT_HEADER_SIZE, FAT_MAGIC, FAT_MAGIC_64,
};
use macho_fields::header::loader::MH_MAGIC_64;
use macho_fields::{Bytes, Order};

// The size of a magic number.
const MAGIC_SIZE: u64 = 4;

// The offset of `nfat_arch` in `fat_header`.
const NFAT_ARCH: u64 = 4;

// The offsets of `align` in `fat_arch` and `fat_arch_64`.
const ALIGN: u64 = 16;

const ALIGN_64: u64 = 24;

// What the file begins with, and with what it would begin as an image.
#[inline(never)]
pub(crate) fn magic(file: Bytes, place: u64) -> Option<Explanation>
    ensures { ExplainsFile Rule.Magic (bytes_of file.entry) place result }
{
    if place != 0 {
        return None;
    }
    let at = Spot::of(None, magic_part(0, file.len(), None));
    let word = u64::from(first_word(file, 0, file.len()));
    Some(at.shows(Conflict::numbers(word, u64::from(MH_MAGIC_64))))
}

// The table, or in a file of fewer bytes its header, ends past the file.
#[inline(never)]
pub(crate) fn fat_truncated(file: Bytes, place: u64) -> Option<Explanation>
    ensures { ExplainsFile Rule.FatTruncated (bytes_of file.entry) place result }
{
    let at = header_here(file, place)?;
    let first = if file.len() < FAT_HEADER_SIZE {
        structure(PartKind::FatHeader, 0, FAT_HEADER_SIZE, None)
    } else {
        fat_table(file)
    };
    let size = first.size;
    Some(at.shows(Conflict::of(first, whole(file), size, file.len())))
}

// No entry of the table is of a 64-bit image.
#[inline(never)]
pub(crate) fn fat_empty(file: Bytes, place: u64) -> Option<Explanation>
    ensures { ExplainsFile Rule.FatEmpty (bytes_of file.entry) place result }
{
    let at = header_here(file, place)?;
    Some(at.shows(Conflict::alone(fat_table(file), 0, 1)))
}

// What there is of the header of a universal file, by the place of its second field.
pub(crate) fn header_here(file: Bytes, place: u64) -> Option<Spot>
    ensures { MatchOption result (¬ HasCount (bytes_of file.entry) place) (λ at. place ≡ 4) }
{
    if place != NFAT_ARCH || !is_universal(file) {
        return None;
    }
    let size = file.len().min(FAT_HEADER_SIZE);
    Some(Spot::of(None, structure(PartKind::FatHeader, 0, size, None)))
}

// The entry at the place, its index, and its slice.
pub(crate) fn entry_here(file: Bytes, place: u64) -> Option<(Spot, u32, Slice)>
    ensures entry { MatchOption result (¬ HasEntry (bytes_of file.entry) place)
        (λ found. HasTable (bytes_of file.entry) → (found.1 < entry_count (bytes_of file.entry))
        × (place ≡ entry_place (bytes_of file.entry) found.1)) }
    ensures slice { IfSome result (λ found. found.0.slice ≡ Some found.1) }
    ensures listed { IfSome result (λ found.
        slice_get (slices_of (bytes_of file.entry)) found.1 ≡ Some (slice_of found.2)) }
{
    let offset = place.checked_sub(FAT_HEADER_SIZE)?;
    let size = entry_size(file);
    let number = offset / size;
    if offset % size != 0 || number >= u64::from(entry_count(file)) {
        return None;
    }
    let index = number as u32;
    let slice = slice_with_index(file, index)?;
    let part = structure(PartKind::FatArch, place, size, Some(index));
    Some((Spot::of(Some(index), part), index, slice))
}

// Where the slice of an entry ends, and the file.
#[inline(never)]
pub(crate) fn fat_slice_outside(file: Bytes, place: u64) -> Option<Explanation>
    ensures { ExplainsFile Rule.FatSliceOutside (bytes_of file.entry) place result }
{
    let (at, index, slice) = entry_here(file, place)?;
    let (part, end) = (slice_part(file, index, &slice), slice.span.end());
    Some(at.shows(Conflict::past(part, whole(file), end, u128::from(file.len()))))
}

// Where the slice begins, and where the table ends.
#[inline(never)]
pub(crate) fn fat_slice_in_table(file: Bytes, place: u64) -> Option<Explanation>
    ensures { ExplainsFile Rule.FatSliceInTable (bytes_of file.entry) place result }
{
    let (at, index, slice) = entry_here(file, place)?;
    let (part, table) = (slice_part(file, index, &slice), fat_table(file));
    let end = table.size;
    Some(at.shows(Conflict::of(part, table, slice.span.start, end)))
}

// Where the slice begins, and its alignment.
#[inline(never)]
pub(crate) fn fat_align(file: Bytes, place: u64) -> Option<Explanation>
    ensures { ExplainsFile Rule.FatAlign (bytes_of file.entry) place result }
{
    let (at, index, slice) = entry_here(file, place)?;
    let part = slice_part(file, index, &slice);
    let alignment = alignment(file, index);
    Some(at.shows(Conflict::alone(part, slice.span.start, alignment)))
}

// The first earlier slice that shares a byte with the slice of the entry.
#[inline(never)]
pub(crate) fn fat_overlap(file: Bytes, place: u64) -> Option<Explanation>
    ensures { ExplainsFile Rule.FatOverlap (bytes_of file.entry) place result }
{
    let (at, index, slice) = entry_here(file, place)?;
    for earlier in 0..index {
        let other = slice_with_index(file, earlier)?;
        if let Some((first, last)) = shared(slice.span, other.span) {
            let one = slice_part(file, index, &slice);
            let other = slice_part(file, earlier, &other);
            return Some(at.shows(Conflict::of(one, other, first, last)));
        }
    }
    None
}

// The first earlier slice that has the architecture of the slice of the entry.
#[inline(never)]
pub(crate) fn fat_duplicate(file: Bytes, place: u64) -> Option<Explanation>
    ensures { ExplainsFile Rule.FatDuplicate (bytes_of file.entry) place result }
{
    let (at, index, slice) = entry_here(file, place)?;
    let arch = arch_number(slice.arch?);
    for earlier in 0..index {
        let other = slice_with_index(file, earlier)?;
        if arch_number(other.arch?) == arch {
            let one = slice_part(file, index, &slice);
            let other = slice_part(file, earlier, &other);
            return Some(at.shows(Conflict::of(one, other, arch, arch)));
        }
    }
    None
}

// The slice at the place, which begins with the magic number of no image.
#[inline(never)]
pub(crate) fn fat_slice_magic(file: Bytes, place: u64) -> Option<Explanation>
    ensures { ExplainsFile Rule.FatSliceMagic (bytes_of file.entry) place result }
{
    for index in 0..entry_count(file) {
        let slice = slice_with_index(file, index)?;
        if slice.span.start == place && is_foreign(file, &slice) {
            let word = u64::from(first_word(file, place, slice.span.len));
            let part = slice_part(file, index, &slice);
            let at = Spot::of(Some(index), magic_part(place, slice.span.len, Some(index)));
            return Some(at.shows(Conflict::alone(part, word, u64::from(MH_MAGIC_64))));
        }
    }
    None
}

// Whether the slice lies in the file, and begins with the magic number of no image.
fn is_foreign(file: Bytes, slice: &Slice) -> bool
    requires { MarksReadInside (bytes_of file) slice.now }
    ensures { IsTrue result ↔ IsForeignSlice (bytes_of file.entry) (slice_of slice.now) }
{
    match file.part(slice.span) {
        Some(bytes) => !slice.read && !is_unread_image(Bytes::new(bytes)),
        None => false,
    }
}

// The byte at the place, and between which slices it is.
#[inline(never)]
pub(crate) fn fat_stray_byte(file: Bytes, place: u64) -> Option<Explanation>
    ensures { ExplainsFile Rule.FatStrayByte (bytes_of file.entry) place result }
{
    let byte = file.u8_at(place)?;
    let found = slices_beside(file, place);
    let at = Spot::of(None, structure(PartKind::Byte, place, 1, None));
    Some(at.shows(Conflict {
        first: part_with(file, found.before()).or(Some(fat_table(file))),
        second: part_with(file, found.after()),
        ..Conflict::numbers(u64::from(byte), 0)
    }))
}

// The slices beside a place.
fn slices_beside(file: Bytes, place: u64) -> Neighbors {
    let mut neighbors = Neighbors::of(place);
    for index in 0..entry_count(file) {
        let Some(slice) = slice_with_index(file, index) else {
            return neighbors;
        };
        neighbors.note(slice.span, u64::from(index));
    }
    neighbors
}

// The slice with an index, as a part.
fn part_with(file: Bytes, index: Option<u64>) -> Option<Part> {
    let index = u32::try_from(index?).ok()?;
    let slice = slice_with_index(file, index)?;
    Some(slice_part(file, index, &slice))
}

// The slice of the entry with an index, in a universal file.
pub(crate) fn slice_with_index(file: Bytes, index: u32) -> Option<Slice>
    ensures listed { MatchOption result
        (HasTable (bytes_of file.entry) → entry_count (bytes_of file.entry) ≤ index)
        (λ slice. slice_get (slices_of (bytes_of file.entry)) index ≡ Some (slice_of slice)) }
    ensures read { IfSome result (MarksReadInside (bytes_of file.entry)) }
{
    if !is_universal(file) {
        return None;
    }
    match slice_at(file, u64::from(index)) {
        Ok(slice) => slice,
        Err(_) => None,
    }
}

// The slice, as a part. That of a file without a table is described at its start.
pub(crate) fn slice_part(file: Bytes, index: u32, slice: &Slice) -> Part
    ensures start { result.start ≡ slice.now.span.start }
    ensures size { result.size ≡ slice.now.span.len }
    ensures index { result.index ≡ Some index }
{
    let described = match slice.arch {
        Some(_) => entry_place(file, index),
        None => 0,
    };
    Part {
        start: slice.span.start,
        size: slice.span.len,
        described,
        kind: PartKind::Slice,
        index: Some(index),
    }
}

// The entry of a slice, as a part.
pub(crate) fn entry_part(file: Bytes, index: u32) -> Part {
    structure(
        PartKind::FatArch,
        entry_place(file, index),
        entry_size(file),
        Some(index),
    )
}

// The number of an architecture: `cputype` and the masked `cpusubtype`.
pub(crate) fn arch_number(arch: (u32, u32)) -> u64
    ensures { result ≡ arch.0 * 2 ^ 32 + arch.1 }
{
    let (cputype, cpusubtype) = arch;
    (u64::from(cputype) << 32) + u64::from(cpusubtype)
}

// Where the entry with an index begins.
fn entry_place(file: Bytes, index: u32) -> u64
    ensures { result < 2 ^ 40 }
{
    FAT_HEADER_SIZE + u64::from(index) * entry_size(file)
}

// 2 to the power of the `align` of an entry, or 0 if that is 2^64 or more.
fn alignment(file: Bytes, index: u32) -> u64 {
    let offset = if has_wide_entries(file) {
        ALIGN_64
    } else {
        ALIGN
    };
    let place = entry_place(file, index) + offset;
    let align = big_word(file, place);
    match 1u64.checked_shl(align) {
        Some(alignment) => alignment,
        None => 0,
    }
}

// All bytes of the file.
fn whole(file: Bytes) -> Part {
    structure(PartKind::File, 0, file.len(), None)
}

// The `fat_header` and all entries.
pub(crate) fn fat_table(file: Bytes) -> Part {
    let end = FAT_HEADER_SIZE + u64::from(entry_count(file)) * entry_size(file);
    structure(PartKind::FatTable, 0, end, None)
}

// What there is of the magic number at the start of bytes of this length.
pub(crate) fn magic_part(start: u64, len: u64, index: Option<u32>) -> Part {
    structure(PartKind::Magic, start, len.min(MAGIC_SIZE), index)
}

// The first 4 bytes as a number of an image, or 0 if there are fewer.
fn first_word(file: Bytes, start: u64, len: u64) -> u32 {
    if len < MAGIC_SIZE {
        return 0;
    }
    match file.u32_at(Order::Little, start) {
        Some(word) => word,
        None => 0,
    }
}

// How many entries the table has. (`fat_header.nfat_arch`)
pub(crate) fn entry_count(file: Bytes) -> u32
    ensures { HasTable (bytes_of file.entry) → result ≡ entry_count (bytes_of file.entry) }
{
    if !is_universal(file) {
        return 0;
    }
    big_word(file, NFAT_ARCH)
}

// How many slices the file has.
pub(crate) fn slice_count(file: Bytes) -> u32
    ensures { HasSlices (bytes_of file.entry) → result ≡ length (slices_of (bytes_of file.entry)) }
{
    if is_universal(file) {
        entry_count(file)
    } else {
        1
    }
}

// Whether the file begins as a universal one.
fn is_universal(file: Bytes) -> bool
    ensures { IsTrue result ↔ IsUniversal (bytes_of file.entry) }
{
    matches!(file.u32_at(Order::Big, 0), Some(FAT_MAGIC | FAT_MAGIC_64))
}

// Whether the entries are `fat_arch_64`.
fn has_wide_entries(file: Bytes) -> bool
    ensures { 4 ≤ length (bytes_of file.entry) → result ≡ has_wide_entries (bytes_of file.entry) }
{
    big_word(file, 0) == FAT_MAGIC_64
}

// The size of an entry.
fn entry_size(file: Bytes) -> u64
    ensures size { 4 ≤ length (bytes_of file.entry) → result ≡ entry_size (bytes_of file.entry) }
    ensures some { 0 < result }
    ensures near { result ≤ 32 }
{
    if has_wide_entries(file) {
        FAT_ARCH_64_SIZE
    } else {
        FAT_ARCH_SIZE
    }
}

// The big-endian word at a place, or 0 past the file.
pub(crate) fn big_word(file: Bytes, place: u64) -> u32
    ensures inside { place + 4 ≤ length (bytes_of file.entry)
        → result ≡ number Big 4 (bytes_of file.entry) place }
    ensures word { result ≡ big_word_at (bytes_of file.entry) place }
{
    match file.u32_at(Order::Big, place) {
        Some(word) => word,
        None => 0,
    }
}
