//! Architectures as text. (`mach/machine.h`)

ghost use Rattle.std.specs.Prelude.{◌≡◌, ◌+◌, ◌≤◌, [], ◌++◌, length, IfSome};
ghost use Rattle.std.specs.Option.{option_map, option_map_or};
ghost use Rattle.macho_lines.specs.Arch.{named_arch, numbers_text, arch_text};

use macho_fields::header::machine::{
    CPU_SUBTYPE_ARM64_ALL, CPU_SUBTYPE_ARM64E, CPU_SUBTYPE_X86_64_ALL, CPU_SUBTYPE_X86_64_H,
    CPU_TYPE_ARM64, CPU_TYPE_X86_64,
};
use macho_text::line::{Line, PLACES};

// Puts the name of the architecture of a slice, a `cputype` and a `cpusubtype` without its
// capability bits. If it has no name, both numbers are put, as `0x7/0x3`. In an accepted file
// each slice has an architecture.
pub(crate) fn put_arch(arch: Option<(u32, u32)>, line: &mut Line)
    requires room { length line.old + 45 ≤ PLACES }
    ensures text { line.new ≡ line.old ++ option_map_or arch_text arch [] }
    ensures end { length line.new ≤ length line.old + 45 }
{
    let Some(arch) = arch else {
        return;
    };
    match arch_name(arch) {
        Some(name) => line.bytes(name.as_bytes()),
        None => put_arch_numbers(arch, line),
    }
}

// Puts both numbers of an architecture.
fn put_arch_numbers(arch: (u32, u32), line: &mut Line)
    requires room { length line.old + 45 ≤ PLACES }
    ensures text { line.new ≡ line.old ++ numbers_text arch }
    ensures end { length line.new ≤ length line.old + 45 }
{
    line.hex(u64::from(arch.0));
    line.text(b"/");
    line.hex(u64::from(arch.1));
}

// The name of an architecture.
fn arch_name(arch: (u32, u32)) -> Option<&'static str>
    ensures name { option_map (λ name. name.now) result
        ≡ option_map (λ known. known.name) (named_arch arch) }
    ensures short { IfSome result (λ name. length name.now ≤ 7) }
{
    match arch {
        (CPU_TYPE_X86_64, CPU_SUBTYPE_X86_64_ALL) => Some("x86_64"),
        (CPU_TYPE_X86_64, CPU_SUBTYPE_X86_64_H) => Some("x86_64h"),
        (CPU_TYPE_ARM64, CPU_SUBTYPE_ARM64_ALL) => Some("arm64"),
        (CPU_TYPE_ARM64, CPU_SUBTYPE_ARM64E) => Some("arm64e"),
        _ => None,
    }
}
