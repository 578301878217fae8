//! The version of the library.

ghost use Rattle.std.specs.Prelude.{◌≡◌};

// The parts of the version, each below 256: interfaces of one major version are compatible.
const MAJOR: u32 = 2;

const MINOR: u32 = 0;

const PATCH: u32 = 0;

/// The version of the library: `major << 16 | minor << 8 | patch`.
#[unsafe(no_mangle)]
pub extern "C" fn kesvuot_version() -> u32
    ensures { result ≡ 0x02_00_00 }
{
    MAJOR << 16 | MINOR << 8 | PATCH
}
