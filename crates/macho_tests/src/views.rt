//! An opened image, its views and its rules. `tests/library` and `tests/oracle` compare the other views.

use super::same;
use crate::notation::{BARE_HEADER, executable, written};
use macho_fields::Bytes;
use macho_fields::header::machine::CPU_TYPE_X86_64;
use macho_image::{Build, Dysymtab, Image, Kind, MainCommand};
use macho_rules::check_image;
use std::process::Abort;

/// The image that a file is.
fn opened<'a>(rt: &impl Abort, file: &'a [u8]) -> Image<'a> {
    Image::open(Bytes::new(file), None).expect(rt, "an image")
}

#[test]
fn open_of_a_bare_header(rt: HostRuntime) {
    let image = opened(&rt, BARE_HEADER);
    same(&rt, &matches!(image.kind(), Kind::Execute), &true);
    same(&rt, &image.arch(), &(CPU_TYPE_X86_64, 3));
    same(&rt, &image.commands().next().is_none(), &true);
}

#[test]
fn check_image_of_a_bare_header(rt: HostRuntime) {
    let image = opened(&rt, BARE_HEADER);
    check_image(rt.alloc(), &image).expect(&rt, "an image that keeps all rules");
}

#[test]
fn whole_executable(rt: HostRuntime) {
    let file = executable(&rt);
    let image = opened(&rt, &file);
    same(&rt, &image.section_count(), &3);
    let build = Build {
        place: 0x280,
        platform: 1,
        minos: 0xb_0000,
        sdk: 0xd_0100,
    };
    same(&rt, &image.builds().next(), &Some(build));
}

/// An image with `LC_MAIN` and no base, and one with both, where the sum is 2^64; `LC_MAIN` and the base.
const ENTRIES: &[(&str, MainCommand, Option<u64>)] = &[
    (
        "cffaedfe 07000001 03000000 02000000 01000000 18000000 .8
        28000080 18000000 0700000000000000 0900000000000000",
        MainCommand {
            place: 0x20,
            entryoff: 7,
            stacksize: 9,
        },
        None,
    ),
    (
        "cffaedfe 07000001 03000000 02000000 02000000 60000000 .8
        19000000 48000000 41424344454647484142434445464748
        0010000000000000 0100000000000000 .8 0100000000000000 07000000 05000000 .8
        28000080 18000000 00f0ffffffffffff .8",
        MainCommand {
            place: 0x68,
            entryoff: 0xffff_ffff_ffff_f000,
            stacksize: 0,
        },
        Some(0x1000),
    ),
];

#[test]
fn images_without_an_entry(rt: HostRuntime) {
    for &(bytes, main, base) in ENTRIES {
        let file = written(&rt, bytes);
        let image = opened(&rt, &file);
        same(&rt, &image.main_command(), &Some(main));
        same(&rt, &(image.base(), image.entry()), &(base, None));
    }
}

/// An image with groups of symbols, and of the two entries of the indirect table all bytes but the last.
const GROUPS: &str = "
cffaedfe 07000001 03000000 02000000 01000000 50000000 .8 0b000000 50000000
01000000 02000000 03000000 04000000 05000000 06000000
07000000 08000000 09000000 0a000000 0b000000 0c000000
70000000 02000000 0d000000 0e000000 0f000000 10000000 .7";

#[test]
fn words_of_the_groups(rt: HostRuntime) {
    let file = written(&rt, GROUPS);
    let image = opened(&rt, &file);
    let groups = Dysymtab {
        place: 0x20,
        ilocalsym: 1,
        nlocalsym: 2,
        iextdefsym: 3,
        nextdefsym: 4,
        iundefsym: 5,
        nundefsym: 6,
        tocoff: 7,
        ntoc: 8,
        modtaboff: 9,
        nmodtab: 10,
        extrefsymoff: 11,
        nextrefsyms: 12,
        indirectsymoff: 0x70,
        nindirectsyms: 2,
        extreloff: 13,
        nextrel: 14,
        locreloff: 15,
        nlocrel: 16,
    };
    same(&rt, &image.dysymtab(), &Some(groups));
    same(&rt, &image.indirects().next().is_none(), &true);
}

/// The string table is 00 61 00 62, with a zero byte after it.
const STRINGS: &str = "
cffaedfe 07000001 03000000 02000000 01000000 18000000 .8
02000000 18000000 38000000 01000000 48000000 04000000 01000000 01 .11 0061006200";

/// Offsets in that string table, and the names there.
const NAMES: &[(u32, Option<&[u8]>)] = &[
    (0, None),
    (1, Some(b"a")),
    (2, Some(b"")),
    (3, None),
    (4, None),
    (u32::MAX, None),
];

#[test]
fn symbol_names(rt: HostRuntime) {
    let file = written(&rt, STRINGS);
    let image = opened(&rt, &file);
    for &(strx, name) in NAMES {
        same(&rt, &(strx, image.symbol_name(strx)), &(strx, name));
    }
}
