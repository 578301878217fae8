//! The table of a universal file, whose fields are big-endian.
//! (`mach-o/fat.h`: `fat_header`, `fat_arch`, `fat_arch_64`)

ghost use Rattle.std.specs.Prelude.{◌≡◌, if◌then◌else◌};

use macho_fields::header::fat::{
    FAT_ARCH_64_SIZE, FAT_ARCH_SIZE, FAT_HEADER_SIZE, fat_arch, fat_arch_64,
};
use macho_fields::header::machine::CPU_SUBTYPE_MASK;
use macho_fields::{Bytes, Order, Span};
use std::marker::Model;

// How many bits a `cpusubtype` has without the capability bits.
const CPU_SUBTYPE_BITS: u32 = 24;

// Where an entry has its fields: their offsets from `cputype`, with which it begins.
#[derive(Clone, Copy)]
struct Fields {
    cpusubtype: u64,
    offset: u64,
    size: u64,
    align: u64,
}

// `fat_arch`
const FAT_ARCH: Fields = Fields {
    cpusubtype: fat_arch::CPUSUBTYPE,
    offset: fat_arch::OFFSET,
    size: fat_arch::SIZE,
    align: fat_arch::ALIGN,
};

// `fat_arch_64`, whose `offset` and `size` have 64 bits.
const FAT_ARCH_64: Fields = Fields {
    cpusubtype: fat_arch_64::CPUSUBTYPE,
    offset: fat_arch_64::OFFSET,
    size: fat_arch_64::SIZE,
    align: fat_arch_64::ALIGN,
};

// The size in bytes of an entry: a `fat_arch_64` where entries are wide, otherwise a `fat_arch`.
pub(crate) fn entry_size(wide: bool) -> u64
    ensures { result ≡ (if wide then FAT_ARCH_64_SIZE else FAT_ARCH_SIZE) }
{
    if wide {
        FAT_ARCH_64_SIZE
    } else {
        FAT_ARCH_SIZE
    }
}

// The table of a universal file, which lies inside the file.
#[derive(Drop)]
pub(crate) struct Table<'a> {
    file: Bytes<'a>,
    wide: bool,
    count: u32,
}

impl<'a> Model for Table<'a> {
    ghost use Rattle.std.specs.Prelude.{List, ℕ, ◌≡◌};
    ghost use Rattle.macho_fields.specs.Bytes.{bytes_of};
    ghost use Rattle.macho_fields.specs.Universal.{has_wide_entries, entry_count};
    ghost use Rattle.macho_fat.specs.TableWalk.{HasWholeTable};

    ghost Value = { List ℕ };

    ghost view = { λ table. bytes_of table.file };

    ghost invariant = { λ table. HasWholeTable (bytes_of table.file)
        × (table.wide ≡ has_wide_entries (bytes_of table.file))
        × (table.count ≡ entry_count (bytes_of table.file)) };
}

// An entry of the table: a slice of the file, and the processor that it is for.
#[derive(Clone, Copy)]
pub(crate) struct Entry {
    // The offset of the entry in the file.
    pub(crate) place: u64,
    // `cputype`, and `cpusubtype` without the capability bits.
    pub(crate) arch: (u32, u32),
    // `offset` and `size`.
    pub(crate) span: Span,
    // `align`: the exponent of a power of two.
    pub(crate) align: u32,
}

impl Entry {
    ghost use Rattle.std.specs.Prelude.{◌≡◌, ◌+◌, ◌*◌, ◌^◌};

    // A span of one place, whose start is the number of the architecture: the spans of two entries
    // share a place exactly if their architectures are the same.
    pub(crate) fn arch_span(self) -> Span
        ensures start { result.start ≡ self.arch.0 * 2 ^ 24 + self.arch.1 }
        ensures len { result.len ≡ 1 }
    {
        let (cputype, cpusubtype) = self.arch;
        Span {
            start: (u64::from(cputype) << CPU_SUBTYPE_BITS) + u64::from(cpusubtype),
            len: 1,
        }
    }
}

impl<'a> Table<'a> {
    ghost use Rattle.std.specs.Prelude.{◌≡◌, ◌+◌, ◌≤◌, ◌<◌, ◌↔◌, ℕ, IsTrue, length, if◌then◌else◌};
    ghost use Rattle.macho_fields.specs.Bytes.{bytes_of};
    ghost use Rattle.macho_fields.specs.Field.{number};
    ghost use Rattle.macho_fields.specs.declared.bytes.Order.{Order};
    ghost use Rattle.macho_fields.specs.declared.rule.Rule.{Rule};
    ghost use Rattle.macho_fields.specs.Rules.{BreaksFile};
    ghost use Rattle.macho_spans.specs.Span.{end_of};
    ghost use Rattle.macho_fields.specs.Universal.{has_wide_entries, entry_count, entry_slice, table_end, slice_bytes};
    ghost use Rattle.macho_fat.specs.TableWalk.{HasWholeTable, IsEntry};

    // The table of a universal file. Its entries are `fat_arch_64` where they are wide, otherwise
    // `fat_arch`.
    pub(crate) fn new(file: Bytes<'a>, wide: bool, count: u32) -> Table<'a>
        requires table { HasWholeTable (bytes_of file) }
        requires wide { wide ≡ has_wide_entries (bytes_of file) }
        requires count { count ≡ entry_count (bytes_of file) }
        ensures { result ≡ bytes_of file.entry }
    {
        Table { file, wide, count }
    }

    // How many entries there are.
    pub(crate) fn count(&self) -> u32
        ensures count { result ≡ entry_count self.now }
        ensures table { HasWholeTable self.now }
    {
        self.count
    }

    // Whether a span ends within the file.
    pub(crate) fn contains(&self, span: Span) -> bool
        ensures { IsTrue result ↔ (end_of span ≤ length self.now) }
    {
        self.file.contains(span)
    }

    // The offset at which the table ends.
    pub(crate) fn end(&self) -> u64
        ensures { result ≡ table_end self.now }
    {
        FAT_HEADER_SIZE + u64::from(self.count) * entry_size(self.wide)
    }

    // Entry `k`, counted from 0.
    pub(crate) fn entry(&self, k: u32) -> Entry
        requires { k < entry_count self.now }
        ensures { IsEntry self.now k result }
    {
        let place = FAT_HEADER_SIZE + u64::from(k) * entry_size(self.wide);
        let fields = if self.wide { FAT_ARCH_64 } else { FAT_ARCH };
        let subtype = self.file.read_u32(Order::Big, place + fields.cpusubtype);
        Entry {
            place,
            arch: (
                self.file.read_u32(Order::Big, place),
                subtype & !CPU_SUBTYPE_MASK,
            ),
            span: Span {
                start: self.offset_at(place + fields.offset),
                len: self.offset_at(place + fields.size),
            },
            align: self.file.read_u32(Order::Big, place + fields.align),
        }
    }

    // The bytes of the slice of entry `k`, where each slice lies inside the file.
    pub(crate) fn slice_bytes(&self, k: u32) -> Bytes<'a>
        requires entry { k < entry_count self.now }
        requires inside { (place : ℕ) → ¬ BreaksFile self.now Rule.FatSliceOutside place }
        ensures { bytes_of result ≡ slice_bytes self.now (entry_slice self.now k) }
    {
        self.file.slice(self.entry(k).span)
    }

    // A field that has 64 bits in a `fat_arch_64`, and 32 bits in a `fat_arch`.
    fn offset_at(&self, place: u64) -> u64
        requires { place + 8 ≤ length self.now }
        ensures { result ≡ (if has_wide_entries self.now
            then number Order.Big 8 self.now place else number Order.Big 4 self.now place) }
    {
        if self.wide {
            self.file.read_u64(Order::Big, place)
        } else {
            u64::from(self.file.read_u32(Order::Big, place))
        }
    }
}
