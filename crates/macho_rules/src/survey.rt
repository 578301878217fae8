//! What one walk over the segments of an image and their sections finds: where each of their rules is
//! first broken, and what other rules need of them.

ghost use Rattle.std.specs.Prelude.{◌≡◌, ◌∷◌, []};
ghost use Rattle.std.specs.Option.{option_or};
ghost use Rattle.macho_rules.specs.Survey.{base_among};

use crate::sections::{has_relocs_outside, is_misplaced, is_outside_memory};
use crate::segments::{is_longer_in_file, passes_image, passes_last_address};
use macho_fields::{Break, Bytes, FirstPlace, Rule, Sharing, SpanOrder};
use macho_image::{Image, Section, Segment};
use std::marker::Model;

// What one walk over the segments of an image and their sections finds.
#[derive(Drop)]
pub(crate) struct SegmentSurvey<'a> {
    // The image that was scanned.
    image: Bytes<'a>,
    segments: SegmentBreaks,
    sections: SectionBreaks,
    mapped: Mapped,
    // How many sections there are.
    section_count: u64,
}

impl<'a> Model for SegmentSurvey<'a> {
    ghost use Rattle.std.specs.Prelude.{List, ℕ};
    ghost use Rattle.macho_fields.specs.Bytes.{bytes_of};
    ghost use Rattle.macho_rules.specs.Survey.{IsImageSurvey};

    ghost Value = { List ℕ };

    ghost view = { λ survey. bytes_of survey.image };

    ghost invariant = { λ survey. IsImageSurvey (bytes_of survey.image) survey.segments
        survey.sections survey.mapped survey.section_count };
}

impl<'a> SegmentSurvey<'a> {
    ghost use Rattle.std.specs.Prelude.{◌≡◌, ◌-◌, ◌^◌, min, length};
    ghost use Rattle.macho_spans.specs.SpanOrder.{IsSharingOf};
    ghost use Rattle.macho_fields.specs.Image.{commands_of};
    ghost use Rattle.macho_fields.specs.Segment.{base_of, section_count};
    ghost use Rattle.macho_fields.specs.declared.rule.Rule.{Rule};
    ghost use Rattle.macho_rules.specs.Check.{KeptBefore, JudgesUpTo};
    ghost use Rattle.macho_rules.specs.Mapped.{mapped_segments, tagged_memory};

    // Scans the segments of the image, and the sections of each.
    pub(crate) fn of(image: &Image<'a>) -> SegmentSurvey<'a>
        ensures { result ≡ image.now }
    {
        let bytes = image.bytes();
        let mut segments = SegmentBreaks::none();
        let mut sections = SectionBreaks::none();
        let mut mapped = Mapped::none();
        let mut section_count: u64 = 0;
        for segment in image.segments() {
            segments.note(&segment);
            sections.note_all(&segment);
            mapped.note(&segment);
            section_count = section_count.saturating_add(segment.nsects());
        }
        SegmentSurvey {
            image: bytes,
            segments,
            sections,
            mapped,
            section_count,
        }
    }

    // Decides the rules of segments up to `segment-file`, in their order. The rules before them are
    // unbroken in each opened image.
    pub(crate) fn judge_segments(&self) -> Result<(), Break>
        ensures { JudgesUpTo self.now Rule.SegmentFile result }
    {
        self.segment_address()?;
        self.segment_size()?;
        self.segment_file()
    }

    // Decides the rules of sections, in their order.
    pub(crate) fn judge_sections(&self) -> Result<(), Break>
        requires { KeptBefore self.now Rule.SectionAddress }
        ensures { JudgesUpTo self.now Rule.SectionRelocs result }
    {
        self.section_address()?;
        self.section_file()?;
        self.section_relocs()
    }

    // No segment passes the last address.
    fn segment_address(&self) -> Result<(), Break>
        ensures { JudgesUpTo self.now Rule.SegmentAddress result }
    {
        self.segments.address.judge(Rule::SegmentAddress)
    }

    // No mapped segment has more bytes in the file than in memory.
    fn segment_size(&self) -> Result<(), Break>
        requires { KeptBefore self.now Rule.SegmentSize }
        ensures { JudgesUpTo self.now Rule.SegmentSize result }
    {
        self.segments.size.judge(Rule::SegmentSize)
    }

    // The bytes of each segment lie inside the image.
    fn segment_file(&self) -> Result<(), Break>
        requires { KeptBefore self.now Rule.SegmentFile }
        ensures { JudgesUpTo self.now Rule.SegmentFile result }
    {
        self.segments.file.judge(Rule::SegmentFile)
    }

    // Each section of a mapped segment lies within the addresses of the segment.
    fn section_address(&self) -> Result<(), Break>
        requires { KeptBefore self.now Rule.SectionAddress }
        ensures { JudgesUpTo self.now Rule.SectionAddress result }
    {
        self.sections.address.judge(Rule::SectionAddress)
    }

    // The bytes of each section are where its mapped segment puts them, or inside the image.
    fn section_file(&self) -> Result<(), Break>
        requires { KeptBefore self.now Rule.SectionFile }
        ensures { JudgesUpTo self.now Rule.SectionFile result }
    {
        self.sections.file.judge(Rule::SectionFile)
    }

    // The relocations of each section, also of an empty one, lie inside the image.
    fn section_relocs(&self) -> Result<(), Break>
        requires { KeptBefore self.now Rule.SectionRelocs }
        ensures { JudgesUpTo self.now Rule.SectionRelocs result }
    {
        self.sections.relocs.judge(Rule::SectionRelocs)
    }

    // The number of sections of all segments.
    pub(crate) fn section_count(&self) -> u64
        ensures { result ≡ section_count self.now (commands_of self.now) }
    {
        self.section_count
    }

    // What the order of the mapped segments shows about segments that share an address. The place of a
    // segment is its tag.
    pub(crate) fn sharing(&self) -> Sharing
        ensures { IsSharingOf (tagged_memory self.now) result }
    {
        self.mapped.order.sharing()
    }

    // How many segments are mapped, or the largest `usize` where there are more.
    pub(crate) fn mapped_count(&self) -> usize
        ensures { result ≡ min (length (mapped_segments self.now)) (2 ^ 64 - 1) }
    {
        self.mapped.count
    }

    // The base address of the image: the `vmaddr` of the first segment that shows the start of the file.
    pub(crate) fn base(&self) -> Option<u64>
        ensures { result ≡ base_of self.now (commands_of self.now) }
    {
        self.mapped.base
    }
}

// Where the rules of segments are first broken.
#[derive(Clone, Copy)]
struct SegmentBreaks {
    address: FirstPlace,
    size: FirstPlace,
    file: FirstPlace,
}

impl SegmentBreaks {
    ghost use Rattle.std.specs.Prelude.{◌≡◌, []};
    ghost use Rattle.macho_rules.specs.Survey.{AreFirstSegments, NotesSegment};

    // None is broken.
    const fn none() -> SegmentBreaks
        ensures { AreFirstSegments [] result }
    {
        SegmentBreaks {
            address: FirstPlace::none(),
            size: FirstPlace::none(),
            file: FirstPlace::none(),
        }
    }

    // Notes which rules the segment breaks.
    fn note(&mut self, segment: &Segment)
        ensures { NotesSegment segment.now self.old self.new }
    {
        if passes_last_address(segment) || is_longer_in_file(segment) || passes_image(segment) {
            self.note_broken(segment);
        }
    }

    // Notes which rules the segment breaks. It breaks at least one.
    #[cold]
    #[inline(never)]
    fn note_broken(&mut self, segment: &Segment)
        ensures { NotesSegment segment.now self.old self.new }
    {
        let place = segment.place();
        self.address.note_if(passes_last_address(segment), place);
        self.size.note_if(is_longer_in_file(segment), place);
        self.file.note_if(passes_image(segment), place);
    }
}

// Where the rules of sections are first broken.
#[derive(Clone, Copy)]
struct SectionBreaks {
    address: FirstPlace,
    file: FirstPlace,
    relocs: FirstPlace,
}

impl SectionBreaks {
    ghost use Rattle.std.specs.Prelude.{◌≡◌, ◌++◌, [], List, map};
    ghost use Rattle.macho_image.specs.Segment.{SectionView, section_at, sections_with};
    ghost use Rattle.macho_rules.specs.Survey.{AreFirstSections, EndBy, NotesSection};

    // None is broken.
    const fn none() -> SectionBreaks
        ensures { AreFirstSections [] result }
    {
        SectionBreaks {
            address: FirstPlace::none(),
            file: FirstPlace::none(),
            relocs: FirstPlace::none(),
        }
    }

    // Notes which rules the sections of the segment break.
    fn note_all(&mut self, segment: &Segment)
        ensures { (passed : List SectionView)
            → EndBy (λ s. s.place) passed segment.now.place → AreFirstSections passed self.old
            → AreFirstSections (passed ++ map (section_at segment.now.image)
            (sections_with segment.now.image segment.now.place)) self.new }
    {
        for section in segment.sections() {
            self.note(&section);
        }
    }

    // Notes which rules the section breaks.
    fn note(&mut self, section: &Section)
        ensures { NotesSection section.now self.old self.new }
    {
        if is_outside_memory(section) || is_misplaced(section) || has_relocs_outside(section) {
            self.note_broken(section);
        }
    }

    // Notes which rules the section breaks. It breaks at least one.
    #[cold]
    #[inline(never)]
    fn note_broken(&mut self, section: &Section)
        ensures { NotesSection section.now self.old self.new }
    {
        let place = section.place();
        self.address.note_if(is_outside_memory(section), place);
        self.file.note_if(is_misplaced(section), place);
        self.relocs.note_if(has_relocs_outside(section), place);
    }
}

// What is found of the mapped segments.
#[derive(Clone, Copy)]
struct Mapped {
    // In what order their addresses come. The place of a segment is its tag.
    order: SpanOrder,
    // How many there are, or the largest `usize` where there are more.
    count: usize,
    // The base address of the image.
    base: Option<u64>,
}

impl Mapped {
    ghost use Rattle.std.specs.Prelude.{◌≡◌, ◌++◌, ◌∷◌, [], List};
    ghost use Rattle.macho_image.specs.Segment.{SegmentView};
    ghost use Rattle.macho_rules.specs.Survey.{AreMapped};

    // No segment is mapped.
    const fn none() -> Mapped
        ensures { AreMapped [] result }
    {
        Mapped {
            order: SpanOrder::new(),
            count: 0,
            base: None,
        }
    }

    // Notes the segment if it is mapped.
    fn note(&mut self, segment: &Segment)
        ensures { (passed : List SegmentView) → AreMapped passed self.old
            → AreMapped (passed ++ segment.now ∷ []) self.new }
    {
        if segment.vmsize() == 0 {
            return;
        }
        self.order.note(segment.memory(), segment.place());
        self.count = self.count.saturating_add(1);
        self.base = base_with(self.base, segment);
    }
}

// The base address: the one found before, if any, otherwise the segment's.
fn base_with(base: Option<u64>, segment: &Segment) -> Option<u64>
    ensures { result ≡ option_or base (base_among (segment.now ∷ [])) }
{
    if base.is_none() && segment.shows_start() {
        Some(segment.vmaddr())
    } else {
        base
    }
}
