//! What the pointers of chains say. (`mach-o/fixup-chains.h`: `dyld_chained_ptr_64_rebase`, `dyld_chained_ptr_64_bind`,
//! `dyld_chained_ptr_arm64e_rebase`, `dyld_chained_ptr_arm64e_bind`, `dyld_chained_ptr_arm64e_bind24`,
//! `dyld_chained_ptr_arm64e_auth_rebase`, `dyld_chained_ptr_arm64e_auth_bind`, `dyld_chained_ptr_arm64e_auth_bind24`)

ghost use Rattle.std.specs.Prelude.{◌≡◌, ◌^◌, ◌<◌, ℤ};
ghost use Rattle.macho_tables.specs.Numbers.{twos_complement};
ghost use Rattle.macho_fixups.specs.ChainedPointers.{bind_of, counts_from_base, is_authenticated, own_addend, plain_target, rebase_of, signed_row, target_of};

use crate::row::{BIND, KesvuotFixup, REBASE, row_of_kind};
use macho_chains::chain_starts::PointerFormat;
use macho_fields::header::fixup_chains::{
    DYLD_CHAINED_PTR_64_OFFSET, DYLD_CHAINED_PTR_ARM64E_USERLAND,
    DYLD_CHAINED_PTR_ARM64E_USERLAND24,
};

// As many numbers as so many bits have.
const BITS_2: u64 = 0x4;

const BITS_8: u64 = 0x100;

const BITS_16: u64 = 0x1_0000;

const BITS_19: u64 = 0x8_0000;

const BITS_32: u64 = 0x1_0000_0000;

const BITS_36: u64 = 0x10_0000_0000;

const BITS_43: u64 = 0x800_0000_0000;

/// What a rebase with these bits says, in a row without its location. `number` is the `pointer_format`.
#[tactic(auto, unfolding(crate::specs::ChainedPointers::rebase_of))]
pub fn rebase_of(base: u64, number: u16, format: PointerFormat, raw: u64) -> KesvuotFixup
    ensures { result ≡ rebase_of base number format raw }
{
    let row = KesvuotFixup {
        target: target_of(base, number, format, raw),
        ..row_of_kind(REBASE)
    };
    signed_row(format, raw, row)
}

/// What a bind with these bits says, of an import, with so much added in all, in a row without its location.
#[tactic(auto, unfolding(crate::specs::ChainedPointers::bind_of))]
pub fn bind_of(format: PointerFormat, raw: u64, import: u64, addend: i64) -> KesvuotFixup
    ensures { result ≡ bind_of format raw import addend }
{
    let row = KesvuotFixup {
        import,
        addend,
        ..row_of_kind(BIND)
    };
    signed_row(format, raw, row)
}

// A row with how the pointer with these bits is signed.
fn signed_row(format: PointerFormat, raw: u64, row: KesvuotFixup) -> KesvuotFixup
    ensures { result ≡ signed_row format raw row }
{
    if !is_authenticated(format, raw) {
        return row;
    }
    KesvuotFixup {
        diversity: ((raw >> 32) % BITS_16) as u16,
        address_diversity: ((raw >> 48) % 2) as u8,
        key: ((raw >> 49) % BITS_2) as u8,
        authenticated: 1,
        ..row
    }
}

// The address to which a rebase points, before any slide.
#[tactic(auto, unfolding(crate::specs::ChainedPointers::target_of))]
fn target_of(base: u64, number: u16, format: PointerFormat, raw: u64) -> u64
    ensures { result ≡ target_of base number format raw }
{
    if is_authenticated(format, raw) {
        base.wrapping_add(raw % BITS_32)
    } else if counts_from_base(number) {
        base.wrapping_add(plain_target(format, raw))
    } else {
        plain_target(format, raw)
    }
}

// Whether the target of a rebase that is not authenticated counts from the base.
fn counts_from_base(number: u16) -> bool
    ensures { result ≡ counts_from_base number }
{
    matches!(
        number,
        DYLD_CHAINED_PTR_64_OFFSET
            | DYLD_CHAINED_PTR_ARM64E_USERLAND
            | DYLD_CHAINED_PTR_ARM64E_USERLAND24
    )
}

// The target of a rebase that is not authenticated, with `high8` as its highest byte.
fn plain_target(format: PointerFormat, raw: u64) -> u64
    ensures value { result ≡ plain_target format raw }
    ensures near { result < 2 ^ 64 }
{
    match format {
        PointerFormat::Pointer64 => raw % BITS_36 + ((raw >> 36) % BITS_8 << 56),
        PointerFormat::Arm64e | PointerFormat::Arm64e24 => {
            raw % BITS_43 + ((raw >> 43) % BITS_8 << 56)
        }
    }
}

/// The addend of a bind with these bits, without the addend of its import.
#[tactic(auto, unfolding(crate::specs::ChainedPointers::own_addend))]
pub fn own_addend(format: PointerFormat, raw: u64) -> i64
    ensures { result ≡ own_addend format raw }
{
    match format {
        PointerFormat::Pointer64 => ((raw >> 24) % BITS_8) as i64,
        PointerFormat::Arm64e | PointerFormat::Arm64e24 => {
            if is_authenticated(format, raw) {
                0
            } else {
                signed_addend((raw >> 32) % BITS_19)
            }
        }
    }
}

// The number that these 19 bits are in two's complement.
fn signed_addend(bits: u64) -> i64
    requires { bits < 2 ^ 19 }
    ensures { result ≡ twos_complement bits (2 ^ 19) }
{
    let value = bits as i64;
    if 2 * bits < BITS_19 {
        value
    } else {
        value - BITS_19 as i64
    }
}

// Whether a pointer with these bits is authenticated.
fn is_authenticated(format: PointerFormat, raw: u64) -> bool
    ensures { result ≡ is_authenticated format raw }
{
    match format {
        PointerFormat::Pointer64 => false,
        PointerFormat::Arm64e | PointerFormat::Arm64e24 => (raw >> 63) % 2 == 1,
    }
}
