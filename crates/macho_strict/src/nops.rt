//! The instructions that do nothing, with which linkers fill gaps between code.

ghost use Rattle.std.specs.Prelude.{◌≡◌, ◌<◌, length};
ghost use Rattle.macho_fields.specs.Bytes.{bytes_of};
ghost use Rattle.macho_strict.specs.Nops.{is_nop as is_nop_of, is_nop_word as is_nop_word_of};

use macho_fields::header::machine::{CPU_TYPE_ARM64, CPU_TYPE_X86_64};
use macho_fields::{Bytes, Order};

// The NOP of x86_64, of one byte.
const NOP_X86_64: u8 = 0x90;

// The NOP of arm64, of 4 bytes.
const NOP_ARM64: u32 = 0xd503_201f;

// Whether the byte at `place` belongs to a NOP of the processor.
pub(crate) fn is_nop(cpu: u32, image: Bytes, place: u64) -> bool
    requires { place < length (bytes_of image) }
    ensures { result ≡ is_nop_of cpu (bytes_of image.entry) place }
{
    if cpu == CPU_TYPE_X86_64 {
        image.read_u8(place) == NOP_X86_64
    } else if cpu == CPU_TYPE_ARM64 {
        is_nop_word(image, place)
    } else {
        false
    }
}

// Whether the 4 bytes with the one at `place`, at a multiple of 4, are the NOP of arm64.
fn is_nop_word(image: Bytes, place: u64) -> bool
    ensures { result ≡ is_nop_word_of (bytes_of image.entry) place }
{
    match image.u32_at(Order::Little, place - place % 4) {
        Some(word) => word == NOP_ARM64,
        None => false,
    }
}
