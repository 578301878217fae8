//! The rules of elements: the parts of an image that its structures describe.

ghost use Rattle.std.specs.Prelude.{◌≡◌, ◌<◌, MatchOption, Some};
ghost use Rattle.macho_fields.specs.Bytes.{bytes_of};
ghost use Rattle.macho_fields.specs.declared.rule.Rule.{Rule};
ghost use Rattle.macho_explain.specs.Compared.{SharesOrPasses};
ghost use Rattle.macho_explain.specs.Elements.{AreFew, HasConflicting, IsConflicting, SharesBefore};
ghost use Rattle.macho_explain.specs.Explained.{ExplainsIn, IsSpot};
ghost use Rattle.macho_explain.specs.Parts.{Share, place_in_file};
ghost use Rattle.macho_explain.specs.Explain.{IsWalked};
ghost use Rattle.macho_explain.specs.declared.walk.Sought.TheVariants as sought;

use crate::conflict::{Conflict, shared};
use crate::explanation::Explanation;
use crate::gaps::Neighbors;
use crate::part::{Part, PartKind, index_of};
use crate::section::{section_spot, section_with};
use crate::segment::segment_at;
use crate::sliced::Sliced;
use crate::spot::Spot;
use crate::walk::{Sought, Walked, walk_to};
use macho_image::Image;
use macho_strict::{Element, Elements};

// Which element that the structure at the place describes shares bytes with an earlier one, or ends past the
// image.
#[inline(never)]
pub(crate) fn element_overlap(sliced: &Sliced) -> Option<Explanation>
    ensures { ExplainsIn Rule.ElementOverlap sliced.now result }
{
    let image = sliced.held.open()?;
    let walked = walk_to(sliced.held.bytes, Sought::At(sliced.place))?;
    let conflict = first_conflict(sliced, &image, sliced.place)?;
    Some(describing_spot(sliced, &walked).shows(conflict))
}

// The section that has the place, or otherwise the command that has it.
fn describing_spot(sliced: &Sliced, walked: &Walked) -> Spot
    requires { IsWalked (bytes_of sliced.now.held.bytes) (sought.At sliced.now.place) walked.now }
    ensures { IsSpot sliced.now result }
{
    match section_with(sliced, walked, sliced.place) {
        Some(section) => section_spot(sliced, walked, &section),
        None => sliced
            .at(sliced.command(walked))
            .in_command(Some(walked.index)),
    }
}

// The conflict of the first element that is described at a place and has one.
fn first_conflict(sliced: &Sliced, image: &Image, place: u64) -> Option<Conflict>
    requires { image.now ≡ bytes_of sliced.now.held.bytes }
    ensures { MatchOption result (AreFew image.now → ¬ HasConflicting image.now place)
        (SharesOrPasses (bytes_of sliced.now.held.bytes)) }
{
    let mut index: u64 = 0;
    for element in Elements::of(image) {
        if element.described == place
            && let Some(conflict) = conflict_of(sliced, image, element, index)
        {
            return Some(conflict);
        }
        index = index.saturating_add(1);
    }
    None
}

// What conflicts with the element with this index: an earlier one, or the end of the image.
fn conflict_of(sliced: &Sliced, image: &Image, element: Element, index: u64) -> Option<Conflict>
    requires { image.now ≡ bytes_of sliced.now.held.bytes }
    ensures { MatchOption result (AreFew image.now → ¬ IsConflicting image.now index element)
        (SharesOrPasses (bytes_of sliced.now.held.bytes)) }
{
    if let Some(conflict) = sharing_earlier(sliced, image, element, index) {
        return Some(conflict);
    }
    let len = u128::from(sliced.held.bytes.len());
    if element.span.len == 0 || element.span.end() <= len {
        return None;
    }
    let part = element_part(sliced, image, element, index);
    Some(Conflict::past(part, sliced.whole(), element.span.end(), len))
}

// The first element before the one with this index that shares a byte with it.
fn sharing_earlier(sliced: &Sliced, image: &Image, element: Element, index: u64) -> Option<Conflict>
    ensures { MatchOption result (AreFew image.now → ¬ SharesBefore image.now index element.span) Share }
{
    let mut before: u64 = 0;
    for earlier in Elements::of(image) {
        if before >= index {
            return None;
        }
        if let Some((first, last)) = shared(element.span, earlier.span) {
            let one = element_part(sliced, image, element, index);
            let other = element_part(sliced, image, earlier, before);
            return Some(sliced.sharing(one, other, first, last));
        }
        before = before.saturating_add(1);
    }
    None
}

// The element with this index, as a part.
fn element_part(sliced: &Sliced, image: &Image, element: Element, index: u64) -> Part
    ensures start { result.start ≡ place_in_file sliced.now.held.place element.span.start }
    ensures size { result.size ≡ element.span.len }
{
    let Some(walked) = walk_to(sliced.held.bytes, Sought::At(element.described)) else {
        return sliced.described(PartKind::Headers, element.span, element.described, None);
    };
    let nth = described_before(image, element.described, index);
    let (kind, number) = match section_with(sliced, &walked, element.described) {
        Some(section) if nth == 0 => (PartKind::SectionBytes, section.index),
        Some(section) => (PartKind::Relocations, section.index),
        None => (PartKind::Table, index_of(nth)),
    };
    sliced.described(kind, element.span, element.described, number)
}

// How many elements before the one with this index are described at the same place.
fn described_before(image: &Image, place: u64, index: u64) -> u64 {
    let mut passed: u64 = 0;
    let mut count: u64 = 0;
    for element in Elements::of(image) {
        if passed >= index {
            return count;
        }
        passed = passed.saturating_add(1);
        if element.described == place {
            count = count.saturating_add(1);
        }
    }
    count
}

// The byte at the place, and the command that has it.
#[inline(never)]
pub(crate) fn command_slack(sliced: &Sliced) -> Option<Explanation>
    ensures { ExplainsIn Rule.CommandSlack sliced.now result }
{
    let (at, byte) = sliced.byte()?;
    let walked = walk_to(sliced.held.bytes, Sought::At(sliced.place))?;
    let conflict = Conflict::alone(sliced.command(&walked), byte, 0);
    Some(at.in_command(Some(walked.index)).shows(conflict))
}

// The byte at the place, and the segments before and after it.
#[inline(never)]
pub(crate) fn stray_byte(sliced: &Sliced) -> Option<Explanation>
    ensures { ExplainsIn Rule.StrayByte sliced.now result }
{
    let (at, byte) = sliced.byte()?;
    let (first, second) = segments_beside(sliced);
    Some(at.shows(Conflict {
        first,
        second,
        ..Conflict::numbers(byte, 0)
    }))
}

// The byte at the place, and the elements before and after it.
#[inline(never)]
pub(crate) fn unclaimed_byte(sliced: &Sliced) -> Option<Explanation>
    ensures { ExplainsIn Rule.UnclaimedByte sliced.now result }
{
    let (at, byte) = sliced.byte()?;
    let (first, second) = elements_beside(sliced);
    Some(at.shows(Conflict {
        first,
        second,
        ..Conflict::numbers(byte, 0)
    }))
}

// The segments before and after the place.
fn segments_beside(sliced: &Sliced) -> (Option<Part>, Option<Part>) {
    let Some(image) = sliced.held.open() else {
        return (None, None);
    };
    let mut found = Neighbors::of(sliced.place);
    let mut index: u64 = 0;
    for segment in image.segments() {
        found.note(segment.file_part(), index);
        index = index.saturating_add(1);
    }
    (
        segment_part(sliced, &image, found.before()),
        segment_part(sliced, &image, found.after()),
    )
}

// The elements before and after the place.
fn elements_beside(sliced: &Sliced) -> (Option<Part>, Option<Part>) {
    let Some(image) = sliced.held.open() else {
        return (None, None);
    };
    let mut found = Neighbors::of(sliced.place);
    let mut index: u64 = 0;
    for element in Elements::of(&image) {
        found.note(element.span, index);
        index = index.saturating_add(1);
    }
    (
        part_at(sliced, &image, found.before()),
        part_at(sliced, &image, found.after()),
    )
}

// The segment with this index, as a part.
fn segment_part(sliced: &Sliced, image: &Image, index: Option<u64>) -> Option<Part> {
    let segment = image.segments().nth(index? as usize)?;
    segment_at(sliced, segment.place())
}

// The element with this index, as a part.
fn part_at(sliced: &Sliced, image: &Image, index: Option<u64>) -> Option<Part> {
    let index = index?;
    let element = Elements::of(image).nth(index as usize)?;
    Some(element_part(sliced, image, element, index))
}
