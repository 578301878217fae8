//! The rule of the order of segments and libraries, by which fixups number them. (`mach-o/loader.h`)

ghost use Rattle.std.specs.Prelude.{◌≡◌, ◌⊎◌, ◌↔◌, IsTrue, MatchOption};
ghost use Rattle.macho_fields.specs.Bytes.{bytes_of};
ghost use Rattle.macho_fields.specs.declared.rule.Rule.{Rule};
ghost use Rattle.macho_readers.specs.Order.{HasPageZero, IsRunNumber, segment_number};
ghost use Rattle.macho_explain.specs.Explained.{ExplainsIn};
ghost use Rattle.macho_explain.specs.Explain.{IsSegmentFound, IsUncounted, IsWalked};
ghost use Rattle.macho_explain.specs.Readers.{AreNumbersShown, AreSectionsShown, AreStartsShown, CanShift, HasLaterLibrary, HasLaterSegment, IsLateShown, IsShiftShown, IsUnmappedShown, first_address};
ghost use Rattle.macho_explain.specs.Wholes.{Opens};
ghost use Rattle.macho_explain.specs.declared.segment.SegmentWith.TheVariants as with;
ghost use Rattle.macho_explain.specs.declared.walk.Sought.TheVariants as sought;

use crate::command::command_here;
use crate::conflict::Conflict;
use crate::explanation::Explanation;
use crate::section::section_from;
use crate::segment::{SegmentAt, SegmentWith, find_segment};
use crate::sliced::Sliced;
use crate::walk::{Sought, Walked, walk_to};
use macho_fields::header::loader::SEGMENT_COMMAND_64_SIZE;
use macho_fields::header::loader::section_64::ADDR;
use macho_image::Image;

// The name of the segment that readers number before those with sections. (`SEG_PAGEZERO`)
const SEG_PAGEZERO: &[u8] = b"__PAGEZERO";

// The first later segment that can be written, or the first later library that is loaded at once: to readers that leave
// out what the command names, it has another number. Or the number or the start of a segment, and what these are by the
// sections.
#[inline(never)]
pub(crate) fn number_shift(sliced: &Sliced) -> Option<Explanation>
    ensures { ExplainsIn Rule.NumberShift sliced.now result }
{
    let (at, walked) = command_here(sliced)?;
    Some(at.shows(shift(sliced, &walked)?))
}

// What shifts numbers at the place: a segment, or a library.
fn shift(sliced: &Sliced, walked: &Walked) -> Option<Conflict>
    requires { IsWalked (bytes_of sliced.now.held.bytes) (sought.From sliced.now.place) walked.now }
    ensures { MatchOption result
        (¬ IsUncounted (bytes_of sliced.now.held.bytes) → ¬ CanShift (bytes_of sliced.now.held.bytes) sliced.now.place)
        (IsShiftShown (bytes_of sliced.now.held.bytes) sliced.now.place) }
{
    match find_segment(sliced, SegmentWith::Command(sliced.place)) {
        Some(segment) => by_segment(sliced, &segment),
        None => by_library(sliced, walked),
    }
}

// What is shown of a segment: the first later one that can be written, or otherwise what it is by its sections.
fn by_segment(sliced: &Sliced, segment: &SegmentAt) -> Option<Conflict>
    requires { IsSegmentFound (bytes_of sliced.now.held.bytes) (with.Command sliced.now.place) segment.now }
    ensures { MatchOption result
        (¬ (HasLaterSegment (bytes_of sliced.now.held.bytes) sliced.now.place ⊎ Opens (bytes_of sliced.now.held.bytes)))
        (λ c. IsUnmappedShown (bytes_of sliced.now.held.bytes) sliced.now.place c
        ⊎ AreSectionsShown (bytes_of sliced.now.held.bytes) sliced.now.place c) }
{
    match later_writable(sliced, segment) {
        Some(conflict) => Some(conflict),
        None => by_sections(sliced, segment),
    }
}

// The size of the segment, if it is not mapped, and of the first later one that can be written.
fn later_writable(sliced: &Sliced, segment: &SegmentAt) -> Option<Conflict>
    requires { IsSegmentFound (bytes_of sliced.now.held.bytes) (with.Command sliced.now.place) segment.now }
    ensures { MatchOption result (¬ HasLaterSegment (bytes_of sliced.now.held.bytes) sliced.now.place)
        (IsUnmappedShown (bytes_of sliced.now.held.bytes) sliced.now.place) }
{
    if segment.row.vmsize > 0 {
        return None;
    }
    let writable = find_segment(sliced, SegmentWith::WritablePast(sliced.place))?;
    let (own, other) = (sliced.memory(segment), sliced.memory(&writable));
    Some(Conflict::of(own, other, 0, writable.row.vmsize))
}

// A library that is loaded late, and the first later one that is loaded at once.
fn by_library(sliced: &Sliced, walked: &Walked) -> Option<Conflict>
    requires { IsWalked (bytes_of sliced.now.held.bytes) (sought.From sliced.now.place) walked.now }
    ensures { MatchOption result (IsUncounted (bytes_of sliced.now.held.bytes)
        ⊎ (¬ HasLaterLibrary (bytes_of sliced.now.held.bytes) sliced.now.place))
        (IsLateShown (bytes_of sliced.now.held.bytes) sliced.now.place) }
{
    let eager = walk_to(sliced.held.bytes, Sought::EagerPast(sliced.place))?;
    let (own, other) = (sliced.command(walked), sliced.command(&eager));
    let (cmd, later) = (u64::from(walked.load.cmd), u64::from(eager.load.cmd));
    Some(Conflict::of(own, other, cmd, later))
}

// The number of the segment, and its number by the segments that have sections, if that is another one; or its address,
// and of its first section.
fn by_sections(sliced: &Sliced, segment: &SegmentAt) -> Option<Conflict>
    requires { IsSegmentFound (bytes_of sliced.now.held.bytes) (with.Command sliced.now.place) segment.now }
    ensures { MatchOption result (¬ Opens (bytes_of sliced.now.held.bytes)) (λ c.
        AreNumbersShown (bytes_of sliced.now.held.bytes) sliced.now.place c
        ⊎ AreStartsShown (bytes_of sliced.now.held.bytes) sliced.now.place c) }
{
    let image = sliced.held.open()?;
    let (number, run) = numbers_of(&image, sliced.place);
    if number != run {
        return Some(Conflict::alone(sliced.memory(segment), number, run));
    }
    Some(starts(sliced, segment))
}

// How many segments of the image are before the place, and the number of a segment there by the segments that have
// sections.
fn numbers_of(image: &Image, place: u64) -> (u64, u64)
    ensures number { result.0 ≡ segment_number image.now place }
    ensures run { IsRunNumber image.now place result.1 }
{
    let mut number = 0;
    let mut run = u64::from(has_page_zero(image));
    for segment in image.segments() {
        if segment.place() < place {
            number += 1;
            if segment.nsects() > 0 {
                run += 1;
            }
        }
    }
    (number, run)
}

// Whether a segment of the image is named `__PAGEZERO`.
fn has_page_zero(image: &Image) -> bool
    ensures { IsTrue result ↔ HasPageZero image.now }
{
    image
        .segments()
        .any(|segment| segment.name() == SEG_PAGEZERO)
}

// The address of the segment, and of its first section, or 0 if it has none.
fn starts(sliced: &Sliced, segment: &SegmentAt) -> Conflict
    requires { IsSegmentFound (bytes_of sliced.now.held.bytes) (with.Command sliced.now.place) segment.now }
    ensures value { result.value ≡ segment.now.row.vmaddr }
    ensures limit { result.limit ≡ first_address (bytes_of sliced.now.held.bytes) sliced.now.place }
{
    let (own, vmaddr) = (sliced.memory(segment), segment.row.vmaddr);
    if segment.row.section_count == 0 {
        return Conflict::alone(own, vmaddr, 0);
    }
    let first = sliced.place + SEGMENT_COMMAND_64_SIZE;
    Conflict {
        second: section_from(sliced, first).map(|section| section.addresses(sliced)),
        ..Conflict::alone(own, vmaddr, sliced.long(first + ADDR))
    }
}
