//! The rule of what readers find at the addresses of sections. (`mach-o/loader.h`: `section_64`)

ghost use Rattle.std.specs.Prelude.{IfSome};
ghost use Rattle.macho_fields.specs.declared.rule.Rule.{Rule};
ghost use Rattle.macho_fields.specs.Bytes.{bytes_of};
ghost use Rattle.macho_explain.specs.Explained.{ExplainsIn};
ghost use Rattle.macho_explain.specs.Explain.{IsSectionOf, IsSectionRow, IsSegmentRow};
ghost use Rattle.macho_explain.specs.Readers.{IsTakenShown};

use crate::conflict::{Conflict, shared};
use crate::explanation::Explanation;
use crate::part::PartKind;
use crate::section::{SectionAt, section_from, section_here};
use crate::segment::{SegmentAt, SegmentWith, find_segment};
use crate::sliced::Sliced;
use macho_fields::Span;
use macho_image::Image;
use macho_readers::section_alone::is_debug;

// What else is at the addresses of the section: a segment, if its own is not mapped; or otherwise an earlier section, or
// a byte of the file that is not zero.
#[inline(never)]
pub(crate) fn section_alone(sliced: &Sliced) -> Option<Explanation>
    ensures { ExplainsIn Rule.SectionAlone sliced.now result }
{
    let (at, section, segment) = section_here(sliced)?;
    let image = sliced.held.open()?;
    Some(at.shows(taken(sliced, &image, &section, &segment)))
}

// What else is at the addresses of the section, or its first address if nothing is.
fn taken(sliced: &Sliced, image: &Image, section: &SectionAt, segment: &SegmentAt) -> Conflict
    requires section { IsSectionRow (bytes_of sliced.now.held.bytes) section.now }
    requires segment { IsSegmentRow (bytes_of sliced.now.held.bytes) segment.now }
    requires of { IsSectionOf (bytes_of sliced.now.held.bytes) segment.now.place section.now.place }
    ensures { IsTakenShown (bytes_of sliced.now.held.bytes) section.now.place result }
{
    if segment.row.vmsize == 0 {
        return or_address(sliced, section, over_segment(sliced, section));
    }
    if let Some(conflict) = sharing(sliced, image, section) {
        return conflict;
    }
    or_address(sliced, section, hidden(sliced, section, segment))
}

// What was found, or otherwise the first address of the section.
fn or_address(sliced: &Sliced, section: &SectionAt, found: Option<Conflict>) -> Conflict
    requires row { IsSectionRow (bytes_of sliced.now.held.bytes) section.now }
    requires found { IfSome found (IsTakenShown (bytes_of sliced.now.held.bytes) section.now.place) }
    ensures { IsTakenShown (bytes_of sliced.now.held.bytes) section.now.place result }
{
    match found {
        Some(conflict) => conflict,
        None => Conflict::alone(section.addresses(sliced), section.row.addr, 0),
    }
}

// The first segment that has an address of the section.
fn over_segment(sliced: &Sliced, section: &SectionAt) -> Option<Conflict>
    ensures { IfSome result (IsTakenShown (bytes_of sliced.now.held.bytes) section.now.place) }
{
    let wanted = SegmentWith::SharingMemory(section.memory(), u64::MAX);
    let segment = find_segment(sliced, wanted)?;
    let (first, last) = shared(section.memory(), segment.memory())?;
    let (one, other) = (section.addresses(sliced), sliced.memory(&segment));
    Some(Conflict::of(one, other, first, last))
}

// The first earlier section that readers look for and that has an address of this one.
fn sharing(sliced: &Sliced, image: &Image, section: &SectionAt) -> Option<Conflict>
    ensures { IfSome result (IsTakenShown (bytes_of sliced.now.held.bytes) section.now.place) }
{
    let own = section.memory();
    let earlier = image.sections().find(|earlier| {
        earlier.place() < section.place && !is_debug(earlier) && own.shares(&earlier.memory())
    })?;
    let earlier = section_from(sliced, earlier.place())?;
    let (first, last) = shared(own, earlier.memory())?;
    let (one, other) = (section.addresses(sliced), earlier.addresses(sliced));
    Some(Conflict::of(one, other, first, last))
}

// The first byte of the file that is not zero, where the section shows a zero.
fn hidden(sliced: &Sliced, section: &SectionAt, segment: &SegmentAt) -> Option<Conflict>
    requires section { IsSectionRow (bytes_of sliced.now.held.bytes) section.now }
    requires segment { IsSegmentRow (bytes_of sliced.now.held.bytes) segment.now }
    requires of { IsSectionOf (bytes_of sliced.now.held.bytes) segment.now.place section.now.place }
    ensures { IfSome result (IsTakenShown (bytes_of sliced.now.held.bytes) section.now.place) }
{
    let past = section.row.addr.checked_sub(segment.row.vmaddr)?;
    let bytes = Span {
        start: segment.row.fileoff.checked_add(past)?,
        len: segment
            .row
            .filesize
            .saturating_sub(past)
            .min(section.row.size),
    };
    let place = sliced.held.bytes.first_nonzero(bytes)?;
    let byte = u64::from(sliced.held.bytes.u8_at(place)?);
    let other = sliced.structure(PartKind::Byte, place, 1, None);
    Some(Conflict::of(section.addresses(sliced), other, byte, 0))
}
