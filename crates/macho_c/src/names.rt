//! The names of load commands and platforms, as the headers of the system have them
//! (`mach-o/loader.h`), and of architectures, as `lipo` prints them (`mach/machine.h`).

ghost use Rattle.std.specs.Prelude.{◌≡◌, ◌==◌, ◌-◌, find, length, take};
ghost use Rattle.std.specs.Option.{option_map};
ghost use Rattle.macho_fields.specs.Universal.{masked};
ghost use Rattle.macho_c.specs.Names.{IsName, IsFound, name_in, command_names, platform_names};
ghost use Rattle.macho_c.specs.Names.{arch_names, arch_number, number_in, is_named, IsArchNamed};

use crate::status::{NONE, OK};
use macho_fields::header::machine::CPU_SUBTYPE_MASK;

/// Writes the name of the load commands with this `cmd`, borrowed from the library. A zero byte, which is
/// not counted, follows it in memory. The status is `OK`, or `NONE` where the command has no name here.
#[unsafe(no_mangle)]
pub extern "C" fn kesvuot_find_command(cmd: u32, name: &mut &'static [u8]) -> u32
    ensures { IsName command_names cmd result name.new.now }
{
    match command_name(cmd) {
        Some(text) => {
            *name = before_last(text.as_bytes());
            OK
        }
        None => {
            *name = &[];
            NONE
        }
    }
}

/// Writes the name of a platform, as `kesvuot_find_command` writes a command's.
#[unsafe(no_mangle)]
pub extern "C" fn kesvuot_find_platform(platform: u32, name: &mut &'static [u8]) -> u32
    ensures { IsName platform_names platform result name.new.now }
{
    match platform_name(platform) {
        Some(text) => {
            *name = before_last(text.as_bytes());
            OK
        }
        None => {
            *name = &[];
            NONE
        }
    }
}

/// Writes the name of an architecture, as `kesvuot_find_command` writes a command's. The capability
/// byte of the `cpusubtype` does not matter.
#[unsafe(no_mangle)]
pub extern "C" fn kesvuot_find_arch(cputype: u32, cpusubtype: u32, name: &mut &'static [u8]) -> u32
    ensures { IsName arch_names (arch_number cputype (masked cpusubtype)) result name.new.now }
{
    match arch_name(arch_number(cputype, cpusubtype & !CPU_SUBTYPE_MASK)) {
        Some(text) => {
            *name = before_last(text.as_bytes());
            OK
        }
        None => {
            *name = &[];
            NONE
        }
    }
}

/// Writes the numbers of the architecture for which `kesvuot_find_arch` has this name, without a
/// capability byte. The status is `OK`, or `NONE` where it has the name for none: then both are 0.
#[unsafe(no_mangle)]
pub extern "C" fn kesvuot_arch_named(name: &[u8], cputype: &mut u32, cpusubtype: &mut u32) -> u32
    ensures { IsArchNamed name.now result cputype.new cpusubtype.new }
{
    match arch_named(name) {
        Some(arch) => {
            *cputype = (arch / (1 << 32)) as u32;
            *cpusubtype = (arch % (1 << 32)) as u32;
            OK
        }
        None => {
            *cputype = 0;
            *cpusubtype = 0;
            NONE
        }
    }
}

// The name of the load commands with this `cmd`, and a zero byte.
fn command_name(cmd: u32) -> Option<&'static str>
    ensures { option_map (λ name. name.now) result ≡ name_in command_names cmd }
{
    match find_named(COMMANDS, u64::from(cmd)) {
        Some(command) => Some(command.name),
        None => None,
    }
}

// The name of a platform, and a zero byte.
fn platform_name(platform: u32) -> Option<&'static str>
    ensures { option_map (λ name. name.now) result ≡ name_in platform_names platform }
{
    match find_named(PLATFORMS, u64::from(platform)) {
        Some(platform) => Some(platform.name),
        None => None,
    }
}

// The name of the architecture with this number, and a zero byte.
fn arch_name(arch: u64) -> Option<&'static str>
    ensures { option_map (λ name. name.now) result ≡ name_in arch_names arch }
{
    match find_named(ARCHITECTURES, arch) {
        Some(arch) => Some(arch.name),
        None => None,
    }
}

// The number of the architecture with this name.
fn arch_named(name: &[u8]) -> Option<u64>
    ensures { result ≡ number_in arch_names name.now }
{
    match find_name(ARCHITECTURES, name) {
        Some(arch) => Some(arch.number),
        None => None,
    }
}

// The number of an architecture in its table: the `cputype`, and in the low 32 bits the `cpusubtype`.
fn arch_number(cputype: u32, cpusubtype: u32) -> u64
    ensures { result ≡ arch_number cputype cpusubtype }
{
    u64::from(cputype) * (1 << 32) + u64::from(cpusubtype)
}

// The bytes before the last: none of no bytes.
pub(crate) fn before_last(bytes: &'static [u8]) -> &'static [u8]
    ensures { result.now ≡ take (length bytes.now - 1) bytes.now }
{
    match bytes.split_last() {
        Some((_, front)) => front,
        None => &[],
    }
}

// A number and its name, which a zero byte ends.
#[derive(Clone, Copy)]
struct Named {
    number: u64,
    name: &'static str,
}

// The first entry of a table that has this number.
fn find_named(table: &'static [Named], number: u64) -> Option<Named>
    ensures { IsFound table.now (λ named. named.number == number) result }
{
    first_numbered(table, number)
}

// The same, found by an iterator.
fn first_numbered(table: &'static [Named], number: u64) -> Option<Named>
    ensures { result ≡ find (λ named. named.number == number) table.now }
{
    table.iter().copied().find(|named| named.number == number)
}

// The first entry of a table that has this name.
fn find_name(table: &'static [Named], name: &[u8]) -> Option<Named>
    ensures { IsFound table.now (λ named. is_named named.name.now name.now) result }
{
    first_named(table, name)
}

// The same, found by an iterator.
fn first_named(table: &'static [Named], name: &[u8]) -> Option<Named>
    ensures { result ≡ find (λ named. is_named named.name.now name.now) table.now }
{
    table
        .iter()
        .copied()
        .find(|named| before_last(named.name.as_bytes()) == name)
}

// The load commands.
const COMMANDS: &[Named] = &[
    // registry: commands
    Named {
        number: 0x1,
        name: "LC_SEGMENT\0",
    },
    Named {
        number: 0x2,
        name: "LC_SYMTAB\0",
    },
    Named {
        number: 0x3,
        name: "LC_SYMSEG\0",
    },
    Named {
        number: 0x4,
        name: "LC_THREAD\0",
    },
    Named {
        number: 0x5,
        name: "LC_UNIXTHREAD\0",
    },
    Named {
        number: 0x6,
        name: "LC_LOADFVMLIB\0",
    },
    Named {
        number: 0x7,
        name: "LC_IDFVMLIB\0",
    },
    Named {
        number: 0x8,
        name: "LC_IDENT\0",
    },
    Named {
        number: 0x9,
        name: "LC_FVMFILE\0",
    },
    Named {
        number: 0xa,
        name: "LC_PREPAGE\0",
    },
    Named {
        number: 0xb,
        name: "LC_DYSYMTAB\0",
    },
    Named {
        number: 0xc,
        name: "LC_LOAD_DYLIB\0",
    },
    Named {
        number: 0xd,
        name: "LC_ID_DYLIB\0",
    },
    Named {
        number: 0xe,
        name: "LC_LOAD_DYLINKER\0",
    },
    Named {
        number: 0xf,
        name: "LC_ID_DYLINKER\0",
    },
    Named {
        number: 0x10,
        name: "LC_PREBOUND_DYLIB\0",
    },
    Named {
        number: 0x11,
        name: "LC_ROUTINES\0",
    },
    Named {
        number: 0x12,
        name: "LC_SUB_FRAMEWORK\0",
    },
    Named {
        number: 0x13,
        name: "LC_SUB_UMBRELLA\0",
    },
    Named {
        number: 0x14,
        name: "LC_SUB_CLIENT\0",
    },
    Named {
        number: 0x15,
        name: "LC_SUB_LIBRARY\0",
    },
    Named {
        number: 0x16,
        name: "LC_TWOLEVEL_HINTS\0",
    },
    Named {
        number: 0x17,
        name: "LC_PREBIND_CKSUM\0",
    },
    Named {
        number: 0x19,
        name: "LC_SEGMENT_64\0",
    },
    Named {
        number: 0x1a,
        name: "LC_ROUTINES_64\0",
    },
    Named {
        number: 0x1b,
        name: "LC_UUID\0",
    },
    Named {
        number: 0x1d,
        name: "LC_CODE_SIGNATURE\0",
    },
    Named {
        number: 0x1e,
        name: "LC_SEGMENT_SPLIT_INFO\0",
    },
    Named {
        number: 0x20,
        name: "LC_LAZY_LOAD_DYLIB\0",
    },
    Named {
        number: 0x21,
        name: "LC_ENCRYPTION_INFO\0",
    },
    Named {
        number: 0x22,
        name: "LC_DYLD_INFO\0",
    },
    Named {
        number: 0x24,
        name: "LC_VERSION_MIN_MACOSX\0",
    },
    Named {
        number: 0x25,
        name: "LC_VERSION_MIN_IPHONEOS\0",
    },
    Named {
        number: 0x26,
        name: "LC_FUNCTION_STARTS\0",
    },
    Named {
        number: 0x27,
        name: "LC_DYLD_ENVIRONMENT\0",
    },
    Named {
        number: 0x29,
        name: "LC_DATA_IN_CODE\0",
    },
    Named {
        number: 0x2a,
        name: "LC_SOURCE_VERSION\0",
    },
    Named {
        number: 0x2b,
        name: "LC_DYLIB_CODE_SIGN_DRS\0",
    },
    Named {
        number: 0x2c,
        name: "LC_ENCRYPTION_INFO_64\0",
    },
    Named {
        number: 0x2d,
        name: "LC_LINKER_OPTION\0",
    },
    Named {
        number: 0x2e,
        name: "LC_LINKER_OPTIMIZATION_HINT\0",
    },
    Named {
        number: 0x2f,
        name: "LC_VERSION_MIN_TVOS\0",
    },
    Named {
        number: 0x30,
        name: "LC_VERSION_MIN_WATCHOS\0",
    },
    Named {
        number: 0x31,
        name: "LC_NOTE\0",
    },
    Named {
        number: 0x32,
        name: "LC_BUILD_VERSION\0",
    },
    Named {
        number: 0x36,
        name: "LC_ATOM_INFO\0",
    },
    Named {
        number: 0x37,
        name: "LC_FUNCTION_VARIANTS\0",
    },
    Named {
        number: 0x38,
        name: "LC_FUNCTION_VARIANT_FIXUPS\0",
    },
    Named {
        number: 0x39,
        name: "LC_TARGET_TRIPLE\0",
    },
    Named {
        number: 0x8000_0018,
        name: "LC_LOAD_WEAK_DYLIB\0",
    },
    Named {
        number: 0x8000_001c,
        name: "LC_RPATH\0",
    },
    Named {
        number: 0x8000_001f,
        name: "LC_REEXPORT_DYLIB\0",
    },
    Named {
        number: 0x8000_0022,
        name: "LC_DYLD_INFO_ONLY\0",
    },
    Named {
        number: 0x8000_0023,
        name: "LC_LOAD_UPWARD_DYLIB\0",
    },
    Named {
        number: 0x8000_0028,
        name: "LC_MAIN\0",
    },
    Named {
        number: 0x8000_0033,
        name: "LC_DYLD_EXPORTS_TRIE\0",
    },
    Named {
        number: 0x8000_0034,
        name: "LC_DYLD_CHAINED_FIXUPS\0",
    },
    Named {
        number: 0x8000_0035,
        name: "LC_FILESET_ENTRY\0",
    },
    // registry: end
];

// The platforms of `build_version_command`.
const PLATFORMS: &[Named] = &[
    // registry: platforms
    Named {
        number: 1,
        name: "PLATFORM_MACOS\0",
    },
    Named {
        number: 2,
        name: "PLATFORM_IOS\0",
    },
    Named {
        number: 3,
        name: "PLATFORM_TVOS\0",
    },
    Named {
        number: 4,
        name: "PLATFORM_WATCHOS\0",
    },
    Named {
        number: 5,
        name: "PLATFORM_BRIDGEOS\0",
    },
    Named {
        number: 6,
        name: "PLATFORM_MACCATALYST\0",
    },
    Named {
        number: 7,
        name: "PLATFORM_IOSSIMULATOR\0",
    },
    Named {
        number: 8,
        name: "PLATFORM_TVOSSIMULATOR\0",
    },
    Named {
        number: 9,
        name: "PLATFORM_WATCHOSSIMULATOR\0",
    },
    Named {
        number: 10,
        name: "PLATFORM_DRIVERKIT\0",
    },
    Named {
        number: 11,
        name: "PLATFORM_VISIONOS\0",
    },
    Named {
        number: 12,
        name: "PLATFORM_VISIONOSSIMULATOR\0",
    },
    // registry: end
];

// The architectures, by their numbers.
const ARCHITECTURES: &[Named] = &[
    Named {
        number: 0x0000_0007_0000_0003,
        name: "i386\0",
    },
    Named {
        number: 0x0100_0007_0000_0003,
        name: "x86_64\0",
    },
    Named {
        number: 0x0100_0007_0000_0008,
        name: "x86_64h\0",
    },
    Named {
        number: 0x0000_000c_0000_0005,
        name: "armv4t\0",
    },
    Named {
        number: 0x0000_000c_0000_0006,
        name: "armv6\0",
    },
    Named {
        number: 0x0000_000c_0000_0007,
        name: "armv5e\0",
    },
    Named {
        number: 0x0000_000c_0000_0008,
        name: "xscale\0",
    },
    Named {
        number: 0x0000_000c_0000_0009,
        name: "armv7\0",
    },
    Named {
        number: 0x0000_000c_0000_000b,
        name: "armv7s\0",
    },
    Named {
        number: 0x0000_000c_0000_000c,
        name: "armv7k\0",
    },
    Named {
        number: 0x0000_000c_0000_000e,
        name: "armv6m\0",
    },
    Named {
        number: 0x0000_000c_0000_000f,
        name: "armv7m\0",
    },
    Named {
        number: 0x0000_000c_0000_0010,
        name: "armv7em\0",
    },
    Named {
        number: 0x0100_000c_0000_0000,
        name: "arm64\0",
    },
    Named {
        number: 0x0100_000c_0000_0002,
        name: "arm64e\0",
    },
    Named {
        number: 0x0200_000c_0000_0001,
        name: "arm64_32\0",
    },
    Named {
        number: 0x0000_0012_0000_0000,
        name: "ppc\0",
    },
    Named {
        number: 0x0100_0012_0000_0000,
        name: "ppc64\0",
    },
];
