//! The rules of segments. (`mach-o/loader.h`: `segment_command_64`)

ghost use Rattle.std.specs.Prelude.{◌≡◌, ◌↔◌, ◌^◌, ◌<◌, ℕ, List, IsTrue, MatchOption};
ghost use Rattle.macho_fields.specs.Bytes.{bytes_of};
ghost use Rattle.macho_fields.specs.declared.rule.Rule.{Rule};
ghost use Rattle.macho_explain.specs.Compared.{HasSegment};
ghost use Rattle.macho_explain.specs.Explained.{ExplainsIn, IsSpot};
ghost use Rattle.macho_explain.specs.Explain.{IsSegment, IsSegmentFound, IsSegmentRow, MeetsSegment, NoSegmentMeets};
ghost use Rattle.macho_tables.specs.Segments.{is_writable as is_writable_of};

use crate::command::command_here;
use crate::conflict::{Conflict, shared};
use crate::explanation::Explanation;
use crate::part::{Part, PartKind, index_of};
use crate::sliced::Sliced;
use crate::spot::Spot;
use crate::whole::data_table;
use macho_fields::Span;
use macho_fields::header::loader::LC_CODE_SIGNATURE;
use macho_fields::header::loader::mach_header_64::CPUTYPE;
use macho_fields::header::vm_prot::{VM_PROT_EXECUTE, VM_PROT_READ, VM_PROT_WRITE};
use macho_readers::pages::page_size;
use macho_rows::cursor::START;
use macho_rows::load::{Wanted, next_wanted};
use macho_rows::segments::{KesvuotSegment, row_of};

// A segment: where its command begins, its index among the segments, and its fields.
#[derive(Clone, Copy)]
pub(crate) struct SegmentAt {
    pub(crate) place: u64,
    pub(crate) index: Option<u32>,
    pub(crate) row: KesvuotSegment,
}

// Which segment is sought.
#[derive(Clone, Copy)]
pub(crate) enum SegmentWith {
    // The one whose command begins at a place.
    Command(u64),
    // The one that has the base.
    Base,
    // The first mapped one whose bytes begin with the image.
    Start,
    // The first that has an address.
    Address(u64),
    // The first that has a byte of the image.
    FileByte(u64),
    // The first that shares an address with a span, before the command at a place.
    SharingMemory(Span, u64),
    // The first that shares a byte of the image with a span, before the command at a place.
    SharingFile(Span, u64),
    // The first that can be written, after the command at a place.
    WritablePast(u64),
}

// The first segment that is sought, if there is one.
pub(crate) fn find_segment(sliced: &Sliced, wanted: SegmentWith) -> Option<SegmentAt>
    ensures { MatchOption result (NoSegmentMeets (bytes_of sliced.now.held.bytes) wanted)
        (IsSegmentFound (bytes_of sliced.now.held.bytes) wanted) }
{
    let mut cursor = START;
    let mut index: u64 = 0;
    while let Some(load) = next_wanted(sliced.held.bytes, &mut cursor, Wanted::Segments) {
        let segment = SegmentAt {
            place: load.place,
            index: index_of(index),
            row: row_of(&sliced.held, load.place, 0),
        };
        if segment.is_wanted(wanted) {
            return Some(segment);
        }
        index = index.saturating_add(1);
    }
    None
}

// The file bytes of the segment whose command begins at a place, as a part.
pub(crate) fn segment_at(sliced: &Sliced, place: u64) -> Option<Part> {
    let segment = find_segment(sliced, SegmentWith::Command(place))?;
    Some(sliced.segment(&segment))
}

// The segment whose command begins at the place.
pub(crate) fn segment_here(sliced: &Sliced) -> Option<(Spot, SegmentAt)>
    ensures { MatchOption result (¬ HasSegment (bytes_of sliced.now.held.bytes) sliced.now.place)
        (λ found. IsSpot sliced.now found.0
        × IsSegmentRow (bytes_of sliced.now.held.bytes) found.1 × (found.1.place ≡ sliced.now.place)
        × IsSegment (bytes_of sliced.now.held.bytes) found.1.place × (found.1.place < 2 ^ 33)) }
{
    let (at, _) = command_here(sliced)?;
    Some((
        at,
        find_segment(sliced, SegmentWith::Command(sliced.place))?,
    ))
}

impl SegmentAt {
    // Whether the segment is the one that is sought.
    fn is_wanted(&self, wanted: SegmentWith) -> bool
        ensures { (image : List ℕ) → IsSegmentRow image self.now
            → IsTrue result ↔ MeetsSegment image wanted self.now.place }
    {
        let row = &self.row;
        match wanted {
            SegmentWith::Command(place) => self.place == place,
            SegmentWith::Base => row.fileoff == 0 && row.filesize > 0 && row.vmsize > 0,
            SegmentWith::Start => row.fileoff == 0 && row.vmsize > 0,
            SegmentWith::Address(address) => self.memory().holds(address),
            SegmentWith::FileByte(place) => self.file_part().holds(place),
            SegmentWith::SharingMemory(span, end) => {
                self.place < end && span.shares(&self.memory())
            }
            SegmentWith::SharingFile(span, end) => {
                self.place < end && span.shares(&self.file_part())
            }
            SegmentWith::WritablePast(place) => place < self.place && self.is_writable(),
        }
    }

    // Whether it is mapped, and its initial protection allows writing.
    fn is_writable(&self) -> bool
        ensures { (image : List ℕ) → IsSegmentRow image self.now → result ≡ is_writable_of image self.now.place }
    {
        self.row.vmsize > 0 && self.row.initprot & VM_PROT_WRITE != 0
    }

    // Its addresses.
    pub(crate) fn memory(&self) -> Span
        ensures start { result.start ≡ self.now.row.vmaddr }
        ensures len { result.len ≡ self.now.row.vmsize }
    {
        Span {
            start: self.row.vmaddr,
            len: self.row.vmsize,
        }
    }

    // Its bytes in the image.
    pub(crate) fn file_part(&self) -> Span
        ensures start { result.start ≡ self.now.row.fileoff }
        ensures len { result.len ≡ self.now.row.filesize }
    {
        Span {
            start: self.row.fileoff,
            len: self.row.filesize,
        }
    }
}

// The addresses of a segment, and how many there are from its start on.
#[inline(never)]
pub(crate) fn segment_address(sliced: &Sliced) -> Option<Explanation>
    ensures { ExplainsIn Rule.SegmentAddress sliced.now result }
{
    let (at, segment) = segment_here(sliced)?;
    let room = (u64::MAX - segment.row.vmaddr).saturating_add(1);
    let part = sliced.memory(&segment);
    Some(at.shows(Conflict::alone(part, segment.row.vmsize, room)))
}

// The sizes of a segment in the file and in memory.
#[inline(never)]
pub(crate) fn segment_size(sliced: &Sliced) -> Option<Explanation>
    ensures { ExplainsIn Rule.SegmentSize sliced.now result }
{
    let (at, segment) = segment_here(sliced)?;
    let (bytes, memory) = (sliced.segment(&segment), sliced.memory(&segment));
    let row = segment.row;
    Some(at.shows(Conflict::of(bytes, memory, row.filesize, row.vmsize)))
}

// Where the file bytes of a segment end, and the image.
#[inline(never)]
pub(crate) fn segment_file(sliced: &Sliced) -> Option<Explanation>
    ensures { ExplainsIn Rule.SegmentFile sliced.now result }
{
    let (at, segment) = segment_here(sliced)?;
    let (bytes, end) = (sliced.segment(&segment), segment.file_part().end());
    let len = u128::from(sliced.held.bytes.len());
    Some(at.shows(Conflict::past(bytes, sliced.whole(), end, len)))
}

// The first earlier segment that has an address of a segment.
#[inline(never)]
pub(crate) fn segment_overlap(sliced: &Sliced) -> Option<Explanation>
    ensures { ExplainsIn Rule.SegmentOverlap sliced.now result }
{
    let (at, segment) = segment_here(sliced)?;
    let own = segment.memory();
    let earlier = find_segment(sliced, SegmentWith::SharingMemory(own, segment.place))?;
    let (first, last) = shared(own, earlier.memory())?;
    let (one, other) = (sliced.memory(&segment), sliced.memory(&earlier));
    Some(at.shows(Conflict::of(one, other, first, last)))
}

// The first earlier segment that has a file byte of a segment.
#[inline(never)]
pub(crate) fn segment_file_overlap(sliced: &Sliced) -> Option<Explanation>
    ensures { ExplainsIn Rule.SegmentFileOverlap sliced.now result }
{
    let (at, segment) = segment_here(sliced)?;
    let own = segment.file_part();
    let earlier = find_segment(sliced, SegmentWith::SharingFile(own, segment.place))?;
    let (first, last) = shared(own, earlier.file_part())?;
    let (one, other) = (sliced.segment(&segment), sliced.segment(&earlier));
    Some(at.shows(sliced.sharing(one, other, first, last)))
}

// The address of a mapped segment, or its offset in the file, and the size of a page.
#[inline(never)]
pub(crate) fn segment_page(sliced: &Sliced) -> Option<Explanation>
    ensures { ExplainsIn Rule.SegmentPage sliced.now result }
{
    let (at, segment) = segment_here(sliced)?;
    let (row, page) = (segment.row, page_size(sliced.word(CPUTYPE)));
    if row.vmsize > 0 && row.vmaddr % page != 0 {
        let memory = sliced.memory(&segment);
        return Some(at.shows(Conflict::alone(memory, row.vmaddr, page)));
    }
    let bytes = sliced.segment(&segment);
    Some(at.shows(Conflict::alone(bytes, row.fileoff, page)))
}

// The initial protection of a segment, and its maximum protection if that lacks a bit, or otherwise all bits that have a
// meaning.
#[inline(never)]
pub(crate) fn segment_protection(sliced: &Sliced) -> Option<Explanation>
    ensures { ExplainsIn Rule.SegmentProtection sliced.now result }
{
    let (at, segment) = segment_here(sliced)?;
    let (initprot, maxprot) = (segment.row.initprot, segment.row.maxprot);
    let limit = if initprot & maxprot != initprot {
        maxprot
    } else {
        VM_PROT_READ + VM_PROT_WRITE + VM_PROT_EXECUTE
    };
    let memory = sliced.memory(&segment);
    Some(at.shows(Conflict::alone(memory, u64::from(initprot), u64::from(limit))))
}

// The bytes that the segment at the place shares with the code signature.
#[inline(never)]
pub(crate) fn signature_executable(sliced: &Sliced) -> Option<Explanation>
    ensures { ExplainsIn Rule.SignatureExecutable sliced.now result }
{
    let (at, segment) = segment_here(sliced)?;
    let table = data_table(sliced, LC_CODE_SIGNATURE)?;
    let (first, last) = shared(segment.file_part(), table.span)?;
    let one = sliced.segment(&segment);
    let other = sliced.described(PartKind::Table, table.span, table.command, Some(0));
    Some(at.shows(sliced.sharing(one, other, first, last)))
}
