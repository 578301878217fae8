//! The entries of a universal file, each read from its place in the file. (`mach-o/fat.h`:
//! `fat_header`, `fat_arch`, `fat_arch_64`)

ghost use Rattle.std.specs.Prelude.{◌≡◌, ◌≤◌, length, if◌then◌else◌};
ghost use Rattle.macho_fields.specs.Bytes.{bytes_of};
ghost use Rattle.macho_fields.specs.Universal.{has_wide_entries, entry_count, table_end, IsUniversal};

use macho_fields::header::fat::fat_header::NFAT_ARCH;
use macho_fields::header::fat::{
    FAT_ARCH_64_SIZE, FAT_ARCH_SIZE, FAT_HEADER_SIZE, FAT_MAGIC_64, fat_arch, fat_arch_64,
};
use macho_fields::header::machine::CPU_SUBTYPE_MASK;
use macho_fields::{Break, Bytes, Order, Rule, Span};

// The entries of a universal file whose table lies inside the file.
#[derive(Clone, Copy)]
pub(crate) struct Entries<'a> {
    pub(crate) file: Bytes<'a>,
    // Whether they are `fat_arch_64`, and not `fat_arch`.
    wide: bool,
    // How many there are.
    pub(crate) count: u32,

    ghost universal: { IsUniversal (bytes_of file) },

    ghost inside: { table_end (bytes_of file) ≤ length (bytes_of file) },

    ghost width: { wide ≡ has_wide_entries (bytes_of file) },

    ghost number: { count ≡ entry_count (bytes_of file) },
}

impl<'a> Entries<'a> {
    ghost use Rattle.std.specs.Prelude.{◌≡◌, ◌≤◌, ◌<◌, ◌↔◌, ℕ, Some, IsSome, IfSome, length};
    ghost use Rattle.macho_fields.specs.Bytes.{bytes_of};
    ghost use Rattle.macho_fields.specs.Rules.{BreaksFile};
    ghost use Rattle.macho_fields.specs.declared.rule.Rule.{Rule};
    ghost use Rattle.macho_fields.specs.Universal.{entry_align, entry_count, entry_place};
    ghost use Rattle.macho_fields.specs.Universal.{entry_slice, slice_bytes, table_end, IsUniversal};

    // The entries of a universal file, or `None` if the header or the table ends past the file.
    pub(crate) fn of(file: Bytes<'a>) -> Option<Entries<'a>>
        requires { IsUniversal (bytes_of file) }
        ensures inside { IsSome result ↔ ((8 ≤ length (bytes_of file.entry))
            × (table_end (bytes_of file.entry) ≤ length (bytes_of file.entry))) }
        ensures file { IfSome result (λ entries. entries.file ≡ file.entry) }
    {
        let wide = file.u32_at(Order::Big, 0) == Some(FAT_MAGIC_64);
        let count = file.u32_at(Order::Big, NFAT_ARCH)?;
        if !file.contains_table(FAT_HEADER_SIZE, u64::from(count), entry_size(wide)) {
            return None;
        }
        Some(Entries { file, wide, count })
    }

    // Where the table ends.
    pub(crate) fn table_end(self) -> u64
        ensures { result ≡ table_end (bytes_of self.entry.file) }
    {
        FAT_HEADER_SIZE + u64::from(self.count) * entry_size(self.wide)
    }

    // The offset of entry `k` in the file.
    fn place(self, k: u32) -> u64
        requires { k < entry_count (bytes_of self.file) }
        ensures { result ≡ entry_place (bytes_of self.entry.file) k }
    {
        FAT_HEADER_SIZE + u64::from(k) * entry_size(self.wide)
    }

    // The break of a rule at entry `k`.
    pub(crate) fn breaks(self, rule: Rule, k: u32) -> Break
        requires { k < entry_count (bytes_of self.file) }
        ensures rule { result.rule ≡ rule }
        ensures place { result.place ≡ entry_place (bytes_of self.entry.file) k }
    {
        Break::at(rule, self.place(k))
    }

    // `cputype`, and `cpusubtype` without the capability bits.
    pub(crate) fn arch(self, k: u32) -> (u32, u32)
        requires { k < entry_count (bytes_of self.file) }
        ensures { Some result ≡ (entry_slice (bytes_of self.entry.file) k).arch }
    {
        let place = self.place(k);
        let subtype = self.file.read_u32(Order::Big, place + fat_arch::CPUSUBTYPE);
        (
            self.file.read_u32(Order::Big, place),
            subtype & !CPU_SUBTYPE_MASK,
        )
    }

    // `offset` and `size`: where the slice of entry `k` lies in the file.
    pub(crate) fn span(self, k: u32) -> Span
        requires { k < entry_count (bytes_of self.file) }
        ensures start { result.start ≡ (entry_slice (bytes_of self.entry.file) k).start }
        ensures len { result.len ≡ (entry_slice (bytes_of self.entry.file) k).size }
    {
        let place = self.place(k);
        if self.wide {
            Span {
                start: self.file.read_u64(Order::Big, place + fat_arch_64::OFFSET),
                len: self.file.read_u64(Order::Big, place + fat_arch_64::SIZE),
            }
        } else {
            Span {
                start: u64::from(self.file.read_u32(Order::Big, place + fat_arch::OFFSET)),
                len: u64::from(self.file.read_u32(Order::Big, place + fat_arch::SIZE)),
            }
        }
    }

    // `align`: the exponent of a power of two.
    pub(crate) fn align(self, k: u32) -> u32
        requires { k < entry_count (bytes_of self.file) }
        ensures { result ≡ entry_align (bytes_of self.entry.file) k }
    {
        let field = if self.wide {
            fat_arch_64::ALIGN
        } else {
            fat_arch::ALIGN
        };
        self.file.read_u32(Order::Big, self.place(k) + field)
    }

    // The bytes of the slice of entry `k`, where each slice lies inside the file.
    pub(crate) fn bytes(self, k: u32) -> Bytes<'a>
        requires entry { k < entry_count (bytes_of self.file) }
        requires inside { (place : ℕ) → ¬ BreaksFile (bytes_of self.file) Rule.FatSliceOutside place }
        ensures { bytes_of result
            ≡ slice_bytes (bytes_of self.entry.file) (entry_slice (bytes_of self.entry.file) k) }
    {
        Bytes::new(self.file.read_part(self.span(k)))
    }
}

// The size in bytes of an entry: a `fat_arch_64` where entries are wide, otherwise a `fat_arch`.
fn entry_size(wide: bool) -> u64
    ensures { result ≡ (if wide then FAT_ARCH_64_SIZE else FAT_ARCH_SIZE) }
{
    if wide {
        FAT_ARCH_64_SIZE
    } else {
        FAT_ARCH_SIZE
    }
}
