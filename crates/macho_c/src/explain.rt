//! Why a file is refused: what is at the place of the verdict, and which parts and numbers conflict there.

ghost use Rattle.std.specs.Prelude.{◌≡◌};
ghost use Rattle.macho_c.specs.Explained.{IsAnswer, IsExplanationIn, explanation_in_c, index_in_c, part_in_c, part_number, some_part_in_c};

use crate::status::answer;
use crate::verdict::KesvuotVerdict;
use macho_explain::explanation::{Explanation, explain};
use macho_explain::part::{Part, PartKind};
use macho_fields::Rule;

/// A part of a file. (`struct kesvuot_part`)
#[repr(C)]
#[derive(Clone, Copy)]
pub struct KesvuotPart {
    /// Where it begins in the file; of memory an address, and of a group of symbols an index.
    pub start: u64,
    pub size: u64,
    /// Where the structure begins in the file that describes it.
    pub described: u64,
    /// Its kind: a number of `part_number`, or 0 of no part.
    pub kind: u32,
    /// Which one it is of its kind, or `NO_INDEX`.
    pub index: u32,
}

/// Why a file is refused. (`struct kesvuot_explanation`)
#[repr(C)]
#[derive(Clone, Copy)]
pub struct KesvuotExplanation {
    /// The structure that has the place, or the byte there.
    pub at: KesvuotPart,
    /// What breaks the rule, and with what it conflicts.
    pub first: KesvuotPart,
    pub second: KesvuotPart,
    /// The numbers that the rule compares.
    pub value: u64,
    pub limit: u64,
    /// The index of the slice, and of the command, the section and the symbol whose structure has the
    /// place, each or `NO_INDEX`.
    pub slice: u32,
    pub command: u32,
    pub section: u32,
    pub symbol: u32,
}

/// The index of nothing.
const NO_INDEX: u32 = u32::MAX;

/// No part.
const NO_PART: KesvuotPart = KesvuotPart {
    start: 0,
    size: 0,
    described: 0,
    kind: 0,
    index: NO_INDEX,
};

/// Nothing is explained.
const NOTHING: KesvuotExplanation = KesvuotExplanation {
    at: NO_PART,
    first: NO_PART,
    second: NO_PART,
    value: 0,
    limit: 0,
    slice: NO_INDEX,
    command: NO_INDEX,
    section: NO_INDEX,
    symbol: NO_INDEX,
};

/// Explains a refusal, by the rule and the place of the verdict on the file. The status is `OK`, or `NONE`
/// if no rule has the number, or nothing is at the place that the rule is about.
#[unsafe(no_mangle)]
pub extern "C" fn kesvuot_explain(
    file: &[u8],
    verdict: &KesvuotVerdict,
    explanation: &mut KesvuotExplanation,
) -> u32
    ensures { IsAnswer file.now verdict.now.rule verdict.now.place result explanation.new }
{
    answer(explained(file, verdict), NOTHING, explanation)
}

// What explains the verdict.
fn explained(file: &[u8], verdict: &KesvuotVerdict) -> Option<KesvuotExplanation>
    ensures { IsExplanationIn file.now verdict.now.rule verdict.now.place result }
{
    let rule = Rule::with_number(verdict.rule)?;
    let found = explain(file, rule, verdict.place)?;
    Some(KesvuotExplanation::of(&found))
}

impl KesvuotExplanation {
    // The explanation as C reads it.
    fn of(found: &Explanation) -> KesvuotExplanation
        ensures { result ≡ explanation_in_c found.now }
    {
        let (at, conflict) = (found.at, found.conflict);
        KesvuotExplanation {
            at: KesvuotPart::of(at.part),
            first: KesvuotPart::of_some(conflict.first),
            second: KesvuotPart::of_some(conflict.second),
            value: conflict.value,
            limit: conflict.limit,
            slice: index_or_none(at.slice),
            command: index_or_none(at.command),
            section: index_or_none(at.section),
            symbol: index_or_none(at.symbol),
        }
    }
}

impl KesvuotPart {
    // The part as C reads it.
    fn of(part: Part) -> KesvuotPart
        ensures { result ≡ part_in_c part }
    {
        KesvuotPart {
            start: part.start,
            size: part.size,
            described: part.described,
            kind: number_of(part.kind),
            index: index_or_none(part.index),
        }
    }

    // The part, or none.
    fn of_some(part: Option<Part>) -> KesvuotPart
        ensures { result ≡ some_part_in_c part }
    {
        match part {
            Some(part) => KesvuotPart::of(part),
            None => NO_PART,
        }
    }
}

// The index, or `NO_INDEX`.
fn index_or_none(index: Option<u32>) -> u32
    ensures { result ≡ index_in_c index }
{
    match index {
        Some(index) => index,
        None => NO_INDEX,
    }
}

// The number of what a part is. (`kesvuot.h`: `KESVUOT_PART_`)
fn number_of(kind: PartKind) -> u32
    ensures { result ≡ part_number kind }
{
    match kind {
        PartKind::File => 1,
        PartKind::Magic => 2,
        PartKind::FatHeader => 3,
        PartKind::FatTable => 4,
        PartKind::FatArch => 5,
        PartKind::Slice => 6,
        PartKind::Header => 7,
        PartKind::Headers => 8,
        PartKind::Command => 9,
        PartKind::Segment => 10,
        PartKind::SegmentMemory => 11,
        PartKind::Section => 12,
        PartKind::SectionBytes => 13,
        PartKind::SectionMemory => 14,
        PartKind::Relocations => 15,
        PartKind::Table => 16,
        PartKind::Group => 17,
        PartKind::Name => 18,
        PartKind::Symbol => 19,
        PartKind::Indirect => 20,
        PartKind::Opcode => 21,
        PartKind::Byte => 22,
        PartKind::ChainHeader => 23,
        PartKind::ChainArray => 24,
        PartKind::ChainEntry => 25,
        PartKind::ChainStarts => 26,
        PartKind::ChainImport => 27,
        PartKind::PageStart => 28,
        PartKind::ChainPointer => 29,
        PartKind::FunctionStart => 30,
        PartKind::DataInCodeEntry => 31,
        PartKind::DataInCode => 32,
        PartKind::ExportNode => 33,
        PartKind::SignatureEntry => 34,
        PartKind::SignatureBlob => 35,
        PartKind::Relocation => 36,
        PartKind::CodePage => 37,
        PartKind::CodeHash => 38,
    }
}
