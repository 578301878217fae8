//! The rules of a universal file: which slice a reader runs. (`mach-o/fat.h`)

ghost use Rattle.std.specs.Prelude.{◌≡◌, ◌+◌, ◌≤◌, ◌<◌, ◌↔◌, ◌≢◌, IsTrue, length, Some};
ghost use Rattle.macho_fields.specs.Bytes.{bytes_of};
ghost use Rattle.macho_fields.specs.Field.{field};
ghost use Rattle.macho_fields.specs.FirstPlace.{IsLeastPlace};
ghost use Rattle.macho_fields.specs.Universal.{IsUniversal, IsImage, entry_place, entry_slice, slice_bytes, slices_of};
ghost use Rattle.macho_fields.specs.declared.bytes.Order.TheVariants.{Little};
ghost use Rattle.macho_readers.specs.Files.{LooksLikeClass, BreaksFatCount, has_magic as has_magic_of, is_wide as is_wide_of, header_order as header_order_of, HasOtherType, is_of_64_bits as is_of_64_bits_of, HasOtherWidth, HasOtherSubtype, is_judged as is_judged_of, IsUnjudged, HasOtherProcessor, IsOtherwiseRead, HasOtherHeader, IsOtherEntry, BreaksFatHeader};

use macho_fields::header::fat::fat_header::NFAT_ARCH;
use macho_fields::header::fat::{FAT_HEADER_SIZE, FAT_MAGIC, fat_arch};
use macho_fields::header::loader::mach_header_64::{CPUSUBTYPE, CPUTYPE};
use macho_fields::header::loader::{MH_MAGIC, MH_MAGIC_64};
use macho_fields::header::machine::{CPU_ARCH_ABI64, CPU_TYPE_ARM64, CPU_TYPE_X86_64};
use macho_fields::{Bytes, Order};
use macho_rules::Verified;
use macho_strict::entry_size;

/// From how many entries on a reader takes a file with `FAT_MAGIC` for a Java class. `file(1)` takes a file for a class
/// if it has more than 30 entries: the version of a class is in the place of their number.
pub const LEAST_CLASS_COUNT: u64 = 31;

/// The place of `nfat_arch`, if a reader takes the file for a Java class.
pub fn fat_count(file: Bytes) -> Option<u64>
    ensures { IsLeastPlace (BreaksFatCount (bytes_of file.entry)) result }
{
    if looks_like_class(file) {
        Some(NFAT_ARCH)
    } else {
        None
    }
}

// Whether a reader takes the file for a Java class.
fn looks_like_class(file: Bytes) -> bool
    ensures { IsTrue result ↔ LooksLikeClass (bytes_of file.entry) }
{
    file.len() >= FAT_HEADER_SIZE
        && file.read_u32(Order::Big, 0) == FAT_MAGIC
        && u64::from(file.read_u32(Order::Big, NFAT_ARCH)) >= LEAST_CLASS_COUNT
}

/// The place of the first entry that says of the processor something that the header of its slice does not, or whose
/// slice is for a judged processor and is not read.
pub fn fat_header(verified: &Verified) -> Option<u64>
    ensures { IsLeastPlace (BreaksFatHeader verified.now) result }
{
    let size = entry_size(verified.bytes())?;
    for index in 0..verified.slice_count() {
        let place = FAT_HEADER_SIZE + index * size;
        if is_other_entry(verified, index, place) {
            return Some(place);
        }
    }
    None
}

// Whether the entry with this index, which is at `place`, says something else than its slice.
fn is_other_entry(verified: &Verified, index: u64, place: u64) -> bool
    requires universal { IsUniversal verified.now }
    requires entry { index < length (slices_of verified.now) }
    requires place { place ≡ entry_place verified.now index }
    requires inside { place + 8 ≤ length verified.now }
    ensures { IsTrue result ↔ IsOtherEntry verified.now index }
{
    let file = verified.bytes();
    let cputype = file.read_u32(Order::Big, place + fat_arch::CPUTYPE);
    let cpusubtype = file.read_u32(Order::Big, place + fat_arch::CPUSUBTYPE);
    has_other_header(bytes_of_slice(verified, index), cputype, cpusubtype)
}

// The bytes of the slice of the entry with this index.
pub(crate) fn bytes_of_slice<'a>(verified: &Verified<'a>, index: u64) -> Bytes<'a>
    requires universal { IsUniversal verified.now }
    requires entry { index < length (slices_of verified.now) }
    ensures { bytes_of result ≡ slice_bytes verified.now (entry_slice verified.now index) }
{
    let slice = verified.slice(index).unwrap();
    verified.bytes().slice(slice.span)
}

// Whether an entry with these numbers says something of the slice that its bytes do not.
#[tactic(auto, unfolding(crate::specs::Files::HasOtherHeader))]
fn has_other_header(bytes: Bytes, cputype: u32, cpusubtype: u32) -> bool
    ensures { IsTrue result ↔ HasOtherHeader (bytes_of bytes.entry) cputype cpusubtype }
{
    has_other_processor(bytes, cputype) || is_otherwise_read(bytes, cputype, cpusubtype)
}

// Whether the header is for another processor.
fn has_other_processor(bytes: Bytes, cputype: u32) -> bool
    ensures { IsTrue result ↔ HasOtherProcessor (bytes_of bytes.entry) cputype }
{
    has_other_type(bytes, cputype) || has_other_width(bytes, cputype)
}

// Whether the slice is read for another model of the processor, or is not read and should be.
fn is_otherwise_read(bytes: Bytes, cputype: u32, cpusubtype: u32) -> bool
    ensures { IsTrue result ↔ IsOtherwiseRead (bytes_of bytes.entry) cputype cpusubtype }
{
    has_other_subtype(bytes, cpusubtype) || is_unjudged(bytes, cputype)
}

// Whether the header has another `cputype`, or none.
fn has_other_type(bytes: Bytes, cputype: u32) -> bool
    ensures { IsTrue result ↔ HasOtherType (bytes_of bytes.entry) cputype }
{
    match bytes.u32_at(header_order(bytes), CPUTYPE) {
        Some(found) => found != cputype,
        None => true,
    }
}

// Whether the header has 32 bits and the processor 64, or the reverse.
fn has_other_width(bytes: Bytes, cputype: u32) -> bool
    ensures { IsTrue result ↔ HasOtherWidth (bytes_of bytes.entry) cputype }
{
    is_wide(bytes) != is_of_64_bits(cputype)
}

// Whether the slice is read, and its header has another whole `cpusubtype`, or none.
fn has_other_subtype(bytes: Bytes, cpusubtype: u32) -> bool
    ensures { IsTrue result ↔ HasOtherSubtype (bytes_of bytes.entry) cpusubtype }
{
    is_read(bytes) && lacks_subtype(bytes, cpusubtype)
}

// Whether the header has another whole `cpusubtype`, or none.
fn lacks_subtype(bytes: Bytes, cpusubtype: u32) -> bool
    ensures { IsTrue result ↔ (field Little 4 (bytes_of bytes.entry) 8 ≢ Some cpusubtype) }
{
    match bytes.u32_at(Order::Little, CPUSUBTYPE) {
        Some(found) => found != cpusubtype,
        None => true,
    }
}

// Whether the slice is for a judged processor, and is not read.
fn is_unjudged(bytes: Bytes, cputype: u32) -> bool
    ensures { IsTrue result ↔ IsUnjudged (bytes_of bytes.entry) cputype }
{
    is_judged(cputype) && !is_read(bytes)
}

/// Whether slices for the processor are judged.
pub fn is_judged(cputype: u32) -> bool
    ensures { result ≡ is_judged_of cputype }
{
    cputype == CPU_TYPE_X86_64 || cputype == CPU_TYPE_ARM64
}

/// Whether the processor has 64 bits.
pub fn is_of_64_bits(cputype: u32) -> bool
    ensures { result ≡ is_of_64_bits_of cputype }
{
    cputype & CPU_ARCH_ABI64 != 0
}

// Whether the slice is read: it begins with the magic number of a 64-bit little-endian image.
pub(crate) fn is_read(bytes: Bytes) -> bool
    ensures { IsTrue result ↔ IsImage (bytes_of bytes.entry) }
{
    bytes.u32_at(Order::Little, 0) == Some(MH_MAGIC_64)
}

// Whether the header has 64 bits.
fn is_wide(bytes: Bytes) -> bool
    ensures { result ≡ is_wide_of (bytes_of bytes.entry) }
{
    has_magic(bytes, Order::Little, MH_MAGIC_64) || has_magic(bytes, Order::Big, MH_MAGIC_64)
}

// The order of the fields of the header.
fn header_order(bytes: Bytes) -> Order
    ensures { result ≡ header_order_of (bytes_of bytes.entry) }
{
    if has_magic(bytes, Order::Big, MH_MAGIC) || has_magic(bytes, Order::Big, MH_MAGIC_64) {
        Order::Big
    } else {
        Order::Little
    }
}

// Whether the bytes begin with the magic number in this order.
fn has_magic(bytes: Bytes, order: Order, magic: u32) -> bool
    ensures { result ≡ has_magic_of order magic (bytes_of bytes.entry) }
{
    match bytes.u32_at(order, 0) {
        Some(found) => found == magic,
        None => false,
    }
}
