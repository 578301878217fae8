//! The pointers of chained fixups, and where they first break their rules. The offset of a pointer is one in
//! its segment. (`mach-o/fixup-chains.h`: `dyld_chained_ptr_64_rebase`, `dyld_chained_ptr_64_bind`,
//! `dyld_chained_ptr_arm64e_rebase`, `dyld_chained_ptr_arm64e_bind`, `dyld_chained_ptr_arm64e_bind24`)

use crate::chain_starts::PointerFormat;
use macho_fields::{Bytes, Order};

/// How the bits of a pointer say where the next one is, and what is bound.
#[derive(Clone, Copy)]
pub struct PointerBits {
    /// From which bit on they are `next`.
    pub next_shift: u32,
    /// Which bits are `next`, from there on.
    pub next_mask: u64,
    /// How many bytes a step of `next` has.
    pub stride: u64,
    /// Which bit is `bind`.
    pub bind_shift: u32,
    /// Which bits are the ordinal of the import.
    pub ordinal_mask: u64,
}

impl PointerFormat {
    ghost use Rattle.std.specs.Prelude.{◌≡◌};
    ghost use Rattle.macho_chains.specs.ChainPointers.{pointer_bits};

    /// How its pointers are written.
    pub fn bits(self) -> PointerBits
        ensures { result ≡ pointer_bits self }
    {
        match self {
            PointerFormat::Pointer64 => PointerBits {
                next_shift: 51,
                next_mask: 0xfff,
                stride: 4,
                bind_shift: 63,
                ordinal_mask: 0xff_ffff,
            },
            PointerFormat::Arm64e => PointerBits {
                next_shift: 51,
                next_mask: 0x7ff,
                stride: 8,
                bind_shift: 62,
                ordinal_mask: 0xffff,
            },
            PointerFormat::Arm64e24 => PointerBits {
                next_shift: 51,
                next_mask: 0x7ff,
                stride: 8,
                bind_shift: 62,
                ordinal_mask: 0xff_ffff,
            },
        }
    }
}

/// What a pointer of a chain says.
#[derive(Clone, Copy)]
pub struct ChainPointer {
    /// How many bytes further the next pointer begins. It is 0 in the last one.
    pub distance: u64,
    /// The import that it binds, if it binds one.
    pub import: Option<u64>,
}

impl ChainPointer {
    ghost use Rattle.std.specs.Prelude.{◌≡◌, ◌↔◌, ◌+◌, ◌≤◌, IsTrue, IsSomeAnd, length};
    ghost use Rattle.macho_fields.specs.Bytes.{bytes_of};
    ghost use Rattle.macho_fields.specs.Image.{long};
    ghost use Rattle.macho_chains.specs.ChainPointers.{pointer_of};

    /// The pointer at a place of the image, which is inside.
    #[inline(always)]
    pub fn read(image: Bytes, format: PointerFormat, place: u64) -> ChainPointer
        requires { place + 8 ≤ length (bytes_of image) }
        ensures { result ≡ pointer_of format (long (bytes_of image.entry) place) }
    {
        ChainPointer::of(format, image.read_u64(Order::Little, place))
    }

    /// Whether it binds an import, and there are no more than so many.
    #[inline(always)]
    pub fn binds_none(self, imports: u32) -> bool
        ensures { IsTrue result ↔ IsSomeAnd self.import (λ import. imports ≤ import) }
    {
        match self.import {
            Some(import) => import >= u64::from(imports),
            None => false,
        }
    }

    /// What the pointer with these bits says.
    #[inline(always)]
    #[tactic(auto, unfolding(crate::specs::ChainPointers::pointer_of))]
    pub fn of(format: PointerFormat, raw: u64) -> ChainPointer
        ensures { result ≡ pointer_of format raw }
    {
        let bits = format.bits();
        let binds = (raw >> bits.bind_shift) % 2 == 1;
        ChainPointer {
            distance: (raw >> bits.next_shift & bits.next_mask) * bits.stride,
            import: if binds {
                Some(raw & bits.ordinal_mask)
            } else {
                None
            },
        }
    }
}
