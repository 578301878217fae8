//! The slices of a file, and what a verified file gives of each.

use super::same;
use crate::notation::written;
use macho_fat::{Slice, slices};
use macho_fields::header::machine::{CPU_TYPE_ARM64, CPU_TYPE_X86_64};
use macho_fields::{Bytes, Span};
use macho_rules::{Mapping, verify};
use std::process::Abort;

/// A slice with the bytes and the architecture, and whether it is read.
macro_rules! slice {
    ($start:expr, $len:expr, $arch:expr, $read:expr) => {
        Slice {
            span: Span {
                start: $start,
                len: $len,
            },
            arch: $arch,
            read: $read,
        }
    };
}

/// Files, and their slices. No image is looked at. In the last file the second image and the last are of
/// 32 bits, and the last two entries are not in the order of the file.
const LISTS: &[(&str, &[Slice])] = &[
    ("cffaedfe 07000001 03000000", &[slice!(0, 12, None, true)]),
    (
        "cafebabf 00000001 01000007 00000003 0000000000000028 0000000000000004 00000003 .4 cffaedfe",
        &[slice!(40, 4, Some((CPU_TYPE_X86_64, 3)), true)],
    ),
    (
        "cafebabe 00000005 0000000c 00000000 0000006c 00000004 00000002
        0000000c 00000001 00000070 00000004 00000002 0000000c 00000002 00000074 00000004 00000002
        0000000c 00000003 0000007c 00000004 00000002 0000000c 00000004 00000078 00000004 00000002
        cffaedfe cefaedfe cffaedfe cefaedfe cffaedfe",
        &[
            slice!(108, 4, Some((12, 0)), true),
            slice!(112, 4, Some((12, 1)), false),
            slice!(116, 4, Some((12, 2)), true),
            slice!(124, 4, Some((12, 3)), true),
            slice!(120, 4, Some((12, 4)), false),
        ],
    ),
];

#[test]
fn lists_of_slices(rt: HostRuntime) {
    for &(bytes, wanted) in LISTS {
        let file = written(&rt, bytes);
        let list = slices(rt.alloc(), Bytes::new(&file)).expect(&rt, "a list of slices");
        same(&rt, &list.as_slice(), &wanted);
    }
}

/// A file that keeps all rules. Of the entries the second has a capability byte, and the third names an
/// image of 32 bits, which is not read.
const VERIFIED: &str = "
cafebabe 00000003 0100000c 00000000 00000060 00000020 .4
0100000c 80000002 00000080 00000020 .4 00000007 00000003 000000a0 00000004 .4 .28
cffaedfe 0c000001 00000000 02000000 .16 cffaedfe 0c000001 02000000 02000000 .16 cefaedfe";

/// The slices of that file, by their indexes, each with whether it has an image. The last three indexes
/// are past the last slice.
const SLICES: &[(u64, Option<Slice>, bool)] = &[
    (
        0,
        Some(slice!(96, 32, Some((CPU_TYPE_ARM64, 0)), true)),
        true,
    ),
    (
        1,
        Some(slice!(128, 32, Some((CPU_TYPE_ARM64, 2)), true)),
        true,
    ),
    (2, Some(slice!(160, 4, Some((7, 3)), false)), false),
    (3, None, false),
    (1 << 32, None, false),
    (u64::MAX, None, false),
];

#[test]
fn slices_of_a_verified_file(rt: HostRuntime) {
    let file = written(&rt, VERIFIED);
    let verified = verify(rt.alloc(), &file).expect(&rt, "a file that keeps all rules");
    same(&rt, &verified.slice_count(), &3);
    for &(index, slice, has_image) in SLICES {
        same(
            &rt,
            &(index, verified.slice(index)),
            &(index, slice.as_ref()),
        );
        let mapping = Mapping::of(rt.alloc(), &verified, index).expect(&rt, "memory");
        let given = (verified.image(index).is_some(), mapping.is_some());
        same(&rt, &(index, given), &(index, (has_image, has_image)));
    }
}
