//! What is at the addresses of a verified image, and how many probes a look-up takes.

use super::same;
use crate::notation::executable;
use macho_rules::{Mapping, Source, verify};
use std::process::Abort;

/// What is at addresses of the executable.
const SOURCES: &[(u64, Option<Source>)] = &[
    (0, Some(Source::Zero)),
    (0xffff_ffff, Some(Source::Zero)),
    (0x1_0000_0000, Some(Source::File(0))),
    (0x1_0000_1fff, Some(Source::File(0x1fff))),
    (0x1_0000_2000, Some(Source::Zero)),
    (0x1_0000_302b, Some(Source::File(0x202b))),
    (0x1_0000_302c, Some(Source::Zero)),
    (0x1_0000_4000, None),
    (u64::MAX, None),
];

#[test]
fn counted_look_ups(rt: HostRuntime) {
    let file = executable(&rt);
    let verified = verify(rt.alloc(), &file).expect(&rt, "a file that keeps all rules");
    let mapping = Mapping::of(rt.alloc(), &verified, 0).expect(&rt, "memory");
    check_sources(&rt, &mut mapping.expect(&rt, "an image"));
}

/// Compares what is at each address. Four segments are mapped, and 4 has three binary digits.
fn check_sources(rt: &impl Abort, mapping: &mut Mapping) {
    same(rt, &mapping.probes(), &0);
    for &(address, source) in SOURCES {
        same(rt, &(address, mapping.source(address)), &(address, source));
        let probes = mapping.probes();
        same(rt, &(probes, (1..4).contains(&probes)), &(probes, true));
    }
}
