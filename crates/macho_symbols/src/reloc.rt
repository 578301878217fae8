//! Relocations. (`mach-o/reloc.h`: `relocation_info`; `mach-o/arm64/reloc.h`)

ghost use Rattle.std.specs.Prelude.{◌≡◌, ◌+◌, ◌≤◌, length};
ghost use Rattle.macho_fields.specs.Bytes.{bytes_of};
ghost use Rattle.macho_symbols.specs.Reloc.{relocation_at};

use macho_fields::header::reloc::RELOCATION_INFO_SIZE;
use macho_fields::{Bytes, Order};

/// A relocation. (`relocation_info`)
#[derive(Clone, Copy)]
pub struct Relocation {
    /// `r_address`: the bits of a signed offset.
    pub address: u32,
    /// `r_symbolnum`, 24 bits: the index of a symbol, or the number of a section from 1 on, or 0 for none.
    pub symbolnum: u32,
    /// `r_pcrel`: whether what it names is counted from where it is.
    pub is_relative: bool,
    /// `r_length`, 2 bits: the size in bytes is 2 to this power.
    pub length: u8,
    /// `r_extern`: whether it names a symbol.
    pub is_external: bool,
    /// `r_type`, 4 bits: its type, which depends on the processor.
    pub kind: u8,
}

impl Relocation {
    /// The relocation at `place`, which is inside.
    pub fn read(image: Bytes, place: u64) -> Relocation
        requires { place + RELOCATION_INFO_SIZE ≤ length (bytes_of image) }
        ensures { result ≡ relocation_at (bytes_of image.entry) place }
    {
        let bits = image.read_u32(Order::Little, place + BITS);
        Relocation {
            address: image.read_u32(Order::Little, place),
            symbolnum: bits % (1 << 24),
            is_relative: (bits >> 24) % 2 == 1,
            length: ((bits >> 25) % 4) as u8,
            is_external: (bits >> 27) % 2 == 1,
            kind: (bits >> 28) as u8,
        }
    }
}

// The offset in `relocation_info` of the word with all fields except `r_address`.
const BITS: u64 = 4;
