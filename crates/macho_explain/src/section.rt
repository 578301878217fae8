//! The rules of sections. (`mach-o/loader.h`: `section_64`)

ghost use Rattle.std.specs.Prelude.{◌≡◌, ℕ, ◌+◌, List, IfSome, MatchOption};
ghost use Rattle.macho_fields.specs.Bytes.{bytes_of};
ghost use Rattle.macho_fields.specs.declared.rule.Rule.{Rule};
ghost use Rattle.macho_explain.specs.Commanded.{HasSection};
ghost use Rattle.macho_explain.specs.Explained.{ExplainsIn, IsSpot};
ghost use Rattle.macho_explain.specs.Explain.{IsNthSection, IsSectionOf, IsWalked, IsSectionFound, IsSectionRow, IsSegmentRow};
ghost use Rattle.macho_explain.specs.Parts.{part_of, place_in_file};
ghost use Rattle.macho_explain.specs.declared.part.PartKind.{PartKind};
ghost use Rattle.macho_explain.specs.declared.walk.Sought.TheVariants as sought;
ghost use Rattle.macho_symbols.specs.Indirects.{stride as stride_of};

use crate::conflict::Conflict;
use crate::explanation::Explanation;
use crate::part::{Part, PartKind, index_of};
use crate::segment::{SegmentAt, SegmentWith, find_segment};
use crate::sliced::Sliced;
use crate::spot::Spot;
use crate::table::indirects;
use crate::walk::{Sought, Walked, walk_to};
use macho_fields::Span;
use macho_fields::header::loader::{
    S_SYMBOL_STUBS, SECTION_64_SIZE, SECTION_TYPE, SEGMENT_COMMAND_64_SIZE,
};
use macho_fields::header::reloc::RELOCATION_INFO_SIZE;
use macho_rows::sections::{KesvuotSection, nsects_at, row_of};
use macho_rows::segments::last_address;
use macho_symbols::indirects::indirect_count;
use macho_tables::limits::POINTER_SIZE;

// A section: where its structure begins, its index among the sections, its fields, and its segment.
#[derive(Clone, Copy)]
pub(crate) struct SectionAt {
    pub(crate) place: u64,
    pub(crate) index: Option<u32>,
    pub(crate) row: KesvuotSection,
    pub(crate) segment: u64,
}

// The section of a command whose structure has the byte at a place.
pub(crate) fn section_with(sliced: &Sliced, walked: &Walked, place: u64) -> Option<SectionAt>
    requires { IsWalked (bytes_of sliced.now.held.bytes) (sought.At place) walked.now }
    ensures found { MatchOption result
        ((nth : ℕ) → ¬ IsNthSection (bytes_of sliced.now.held.bytes) walked.now.load.place nth place)
        (IsSectionFound (bytes_of sliced.now.held.bytes) place) }
    ensures segment { IfSome result (λ section. section.segment ≡ walked.now.load.place) }
{
    let segment = walked.load.place;
    let first = segment + SEGMENT_COMMAND_64_SIZE;
    let number = place.checked_sub(first)? / SECTION_64_SIZE;
    if number >= nsects_at(sliced.held.bytes, segment) {
        return None;
    }
    let section = first + SECTION_64_SIZE * number;
    Some(SectionAt {
        place: section,
        index: section_index(walked, number),
        row: row_of(&sliced.held, segment, section),
        segment,
    })
}

// The index of the section of a command with this number there.
fn section_index(walked: &Walked, number: u64) -> Option<u32>
    ensures { IfSome result (λ index. index ≡ walked.now.sections + number) }
{
    index_of(walked.sections.checked_add(number)?)
}

// The structure of a section, and the indices of it and its command.
pub(crate) fn section_spot(sliced: &Sliced, walked: &Walked, section: &SectionAt) -> Spot
    requires walked { IsWalked (bytes_of sliced.now.held.bytes) (sought.At sliced.now.place) walked.now }
    requires section { IsSectionFound (bytes_of sliced.now.held.bytes) sliced.now.place section.now }
    ensures { IsSpot sliced.now result }
{
    let part = section.structure(sliced);
    Spot {
        section: section.index,
        ..sliced.at(part).in_command(Some(walked.index))
    }
}

// The section whose structure has the byte at a place.
pub(crate) fn section_from(sliced: &Sliced, place: u64) -> Option<SectionAt> {
    let walked = walk_to(sliced.held.bytes, Sought::At(place))?;
    section_with(sliced, &walked, place)
}

// The section whose structure begins at the place, and its segment.
pub(crate) fn section_here(sliced: &Sliced) -> Option<(Spot, SectionAt, SegmentAt)>
    ensures { MatchOption result (¬ HasSection (bytes_of sliced.now.held.bytes) sliced.now.place)
        (λ found. IsSpot sliced.now found.0
        × IsSectionRow (bytes_of sliced.now.held.bytes) found.1 × (found.1.place ≡ sliced.now.place)
        × IsSegmentRow (bytes_of sliced.now.held.bytes) found.2
        × IsSectionOf (bytes_of sliced.now.held.bytes) found.2.place found.1.place) }
{
    let walked = walk_to(sliced.held.bytes, Sought::At(sliced.place))?;
    let section = section_with(sliced, &walked, sliced.place)?;
    if section.place != sliced.place {
        return None;
    }
    let segment = find_segment(sliced, SegmentWith::Command(section.segment))?;
    Some((section_spot(sliced, &walked, &section), section, segment))
}

// The first addresses of a section and of its segment, or the last ones.
#[inline(never)]
pub(crate) fn section_address(sliced: &Sliced) -> Option<Explanation>
    ensures { ExplainsIn Rule.SectionAddress sliced.now result }
{
    let (at, section, segment) = section_here(sliced)?;
    let (memory, own) = (section.memory(), section.addresses(sliced));
    let whole = sliced.memory(&segment);
    if memory.start < segment.row.vmaddr {
        return Some(at.shows(Conflict::of(own, whole, memory.start, segment.row.vmaddr)));
    }
    let last = last_address(memory.start, memory.len);
    Some(at.shows(Conflict::of(own, whole, last, segment.row.last)))
}

// Where the bytes of a section begin, or end, and where by its segment.
#[inline(never)]
pub(crate) fn section_file(sliced: &Sliced) -> Option<Explanation>
    ensures { ExplainsIn Rule.SectionFile sliced.now result }
{
    let (at, section, segment) = section_here(sliced)?;
    let span = section.file_part();
    let bytes = sliced.described(PartKind::SectionBytes, span, section.place, section.index);
    if segment.row.vmsize == 0 {
        let len = u128::from(sliced.held.bytes.len());
        return Some(at.shows(Conflict::past(bytes, sliced.whole(), span.end(), len)));
    }
    let whole = sliced.segment(&segment);
    let past = section.row.addr.saturating_sub(segment.row.vmaddr);
    let wanted = segment.row.fileoff.saturating_add(past);
    if span.start != wanted {
        return Some(at.shows(Conflict::of(bytes, whole, span.start, wanted)));
    }
    let end = segment.file_part().end();
    Some(at.shows(Conflict::past(bytes, whole, span.end(), end)))
}

// Where the relocations of a section end, and the image.
#[inline(never)]
pub(crate) fn section_relocs(sliced: &Sliced) -> Option<Explanation>
    ensures { ExplainsIn Rule.SectionRelocs sliced.now result }
{
    let (at, section, _) = section_here(sliced)?;
    let span = Span {
        start: u64::from(section.row.reloff),
        len: RELOCATION_INFO_SIZE * u64::from(section.row.nreloc),
    };
    let relocations = sliced.described(PartKind::Relocations, span, section.place, section.index);
    let len = u128::from(sliced.held.bytes.len());
    Some(at.shows(Conflict::past(relocations, sliced.whole(), span.end(), len)))
}

// The size of a section, which its stubs or pointers do not fill, and the size of one; or where their indirect entries
// end, and how many there are.
#[inline(never)]
pub(crate) fn indirect_range(sliced: &Sliced) -> Option<Explanation>
    ensures { ExplainsIn Rule.IndirectRange sliced.now result }
{
    let (at, section, _) = section_here(sliced)?;
    let span = section.file_part();
    let bytes = sliced.described(PartKind::SectionBytes, span, section.place, section.index);
    let stride = section.stride();
    if stride == 0 || span.len % stride != 0 {
        return Some(at.shows(Conflict::alone(bytes, span.len, stride)));
    }
    let end = u64::from(section.row.reserved1).saturating_add(span.len / stride);
    let count = indirect_count(&sliced.held.open()?);
    Some(at.shows(Conflict {
        second: indirects(sliced),
        ..Conflict::alone(bytes, end, count)
    }))
}

impl SectionAt {
    // The size of one of its stubs, or of a pointer.
    fn stride(&self) -> u64
        ensures { (image : List ℕ) → IsSectionRow image self.now → result ≡ stride_of image self.now.place }
    {
        if self.row.flags & SECTION_TYPE == S_SYMBOL_STUBS {
            u64::from(self.row.reserved2)
        } else {
            POINTER_SIZE
        }
    }

    // Its structure, as a part.
    pub(crate) fn structure(&self, sliced: &Sliced) -> Part {
        sliced.structure(PartKind::Section, self.place, SECTION_64_SIZE, self.index)
    }

    // Its addresses, as a part.
    pub(crate) fn addresses(&self, sliced: &Sliced) -> Part
        ensures { result ≡ part_of PartKind.SectionMemory self.now.index self.now.row.addr
            self.now.row.size (place_in_file sliced.now.held.place self.now.place) }
    {
        sliced.numbered(
            PartKind::SectionMemory,
            self.memory(),
            self.place,
            self.index,
        )
    }

    // Its addresses.
    pub(crate) fn memory(&self) -> Span
        ensures start { result.start ≡ self.now.row.addr }
        ensures len { result.len ≡ self.now.row.size }
    {
        Span {
            start: self.row.addr,
            len: self.row.size,
        }
    }

    // Its bytes in the image.
    fn file_part(&self) -> Span
        ensures start { result.start ≡ self.now.row.offset }
        ensures len { result.len ≡ self.now.row.size }
    {
        Span {
            start: u64::from(self.row.offset),
            len: self.row.size,
        }
    }
}
