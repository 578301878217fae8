//! The texts of faults, which no clause says.

use super::same;
use macho_fat::FatFault;
use macho_fields::{Break, Rule};
use macho_program::ProgramFault;
use macho_report::{RunFault, WriteFault};
use macho_rules::Refusal;
use macho_text::transfer::ReadFault;
use macho_words::WordFault;
use std::fmt::Display;
use std::process::Abort;

const USAGE: &str = "usage: macho-check check FILE | where FILE SLICE ADDRESS";

/// The faults of a run, each with its line.
const RUN_FAULTS: &[(RunFault, &str)] = &[
    (RunFault::Read, "macho-check: read failed"),
    (RunFault::TooLong, "macho-check: more than 4294967296 bytes"),
    (RunFault::Write, "macho-check: write failed"),
    (RunFault::Memory, "macho-check: out of memory"),
];

#[test]
fn texts_of_faults(rt: HostRuntime) {
    let broken = Break::at(Rule::FatAlign, 8);
    check_text(&rt, &FatFault::Broken(broken), "refused: fat-align at 0x8");
    check_text(&rt, &FatFault::Memory, "out of memory");
    check_text(&rt, &Refusal::Broken(broken), "refused: fat-align at 0x8");
    check_text(&rt, &Refusal::Memory, "out of memory");
    check_text(&rt, &ReadFault::Read, "reading failed");
    check_text(&rt, &ReadFault::TooLong, "the input is too long");
    check_text(&rt, &ReadFault::Memory, "out of memory");
    check_text(&rt, &WriteFault, "writing failed");
    check_text(&rt, &WordFault::Usage, USAGE);
    check_text(&rt, &WordFault::BadNumber, "macho-check: bad number");
    check_text(&rt, &WordFault::Memory, "macho-check: out of memory");
    for &(fault, text) in RUN_FAULTS {
        check_text(&rt, &ProgramFault::Run(fault), text);
    }
}

/// Compares the text of a fault.
fn check_text<T: Display>(rt: &(impl Abort + AllocGlobal), fault: &T, text: &str) {
    let given = fault.to_string(rt.alloc()).expect(rt, "memory");
    same(rt, &given.as_str(), &text);
}
