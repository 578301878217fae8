//! The rules of the names of segments and sections. (`mach-o/loader.h`: `segment_command_64`, `section_64`)

ghost use Rattle.std.specs.Prelude.{◌≡◌, ◌≢◌, ◌+◌, ◌^◌, ◌≤◌, ◌<◌, length, Any, IfSome, MatchOption};
ghost use Rattle.macho_fields.specs.Bytes.{bytes_of};
ghost use Rattle.macho_fields.specs.Segment.{all_segments};
ghost use Rattle.macho_image.specs.Segment.{short_name};
ghost use Rattle.macho_fields.specs.declared.rule.Rule.{Rule};
ghost use Rattle.macho_explain.specs.Explained.{ExplainsIn};
ghost use Rattle.macho_explain.specs.Explain.{IsSegment, IsSegmentRow};
ghost use Rattle.macho_explain.specs.Readers.{IsNameShown, IsNamesShown, IsNamesake, IsTailShown};

use crate::conflict::Conflict;
use crate::explanation::Explanation;
use crate::part::{Part, PartKind};
use crate::section::{SectionAt, section_from, section_here};
use crate::segment::{SegmentAt, SegmentWith, find_segment, segment_at, segment_here};
use crate::sliced::Sliced;
use macho_fields::header::loader::{SHORT_NAME_SIZE, section_64, segment_command_64};
use macho_fields::{Bytes, Span};
use macho_image::Image;
use macho_tables::segment::is_text;

// The first byte past the name of a segment; or where its command begins, and the first earlier one of the name; or that
// the name has 0 bytes; or the addresses of the segment and of the one that is named `__TEXT` or has the base.
#[inline(never)]
pub(crate) fn segment_name(sliced: &Sliced) -> Option<Explanation>
    ensures { ExplainsIn Rule.SegmentName sliced.now result }
{
    let (at, segment) = segment_here(sliced)?;
    let image = sliced.held.open()?;
    Some(at.shows(named_conflict(sliced, &image, &segment)))
}

// What a segment shares its name with, or what else is wrong with the name.
fn named_conflict(sliced: &Sliced, image: &Image, segment: &SegmentAt) -> Conflict
    requires row { IsSegmentRow (bytes_of sliced.now.held.bytes) segment.now }
    requires listed { IsSegment (bytes_of sliced.now.held.bytes) segment.now.place }
    requires near { segment.now.place < 2 ^ 33 }
    ensures { IsNameShown (bytes_of sliced.now.held.bytes) segment.now.place result }
{
    let start = segment.place + segment_command_64::SEGNAME;
    let name = name_at(sliced.held.bytes, start);
    if let Some(conflict) = tail(sliced, segment.place, start, name) {
        return conflict;
    }
    if let Some(conflict) = namesake(sliced, image, segment, name) {
        return conflict;
    }
    if name.is_empty() {
        return Conflict::alone(name_part(sliced, start, segment.place), 0, 1);
    }
    other_text(sliced, image, segment, name)
}

// The name in the 16 bytes at a place, and no bytes where they are not all inside.
fn name_at(image: Bytes, start: u64) -> &[u8]
    ensures { start + SHORT_NAME_SIZE ≤ length (bytes_of image.entry)
        → result.now ≡ short_name (bytes_of image.entry) start }
{
    let whole = Span {
        start,
        len: SHORT_NAME_SIZE,
    };
    let Some(bytes) = image.part(whole) else {
        return &[];
    };
    match image.string_in(whole) {
        Some(name) => name,
        None => bytes,
    }
}

// The first byte past a name that is not zero, in the 16 bytes from `start` on of the structure at a place.
fn tail(sliced: &Sliced, structure: u64, start: u64, name: &[u8]) -> Option<Conflict>
    ensures { IfSome result IsTailShown }
{
    let past = name.len() as u64;
    let rest = Span {
        start: start.saturating_add(past),
        len: SHORT_NAME_SIZE.saturating_sub(past),
    };
    let place = sliced.held.bytes.first_nonzero(rest)?;
    let byte = u64::from(sliced.held.bytes.u8_at(place)?);
    let first = sliced.structure(PartKind::Byte, place, 1, None);
    Some(Conflict::of(first, name_part(sliced, start, structure), byte, 0))
}

// The 16 bytes of a name from a place on, in the structure at a place.
fn name_part(sliced: &Sliced, start: u64, structure: u64) -> Part {
    let whole = Span {
        start,
        len: SHORT_NAME_SIZE,
    };
    sliced.described(PartKind::Name, whole, structure, None)
}

// The first earlier segment with the name of one, and where the commands of both begin.
fn namesake(sliced: &Sliced, image: &Image, segment: &SegmentAt, name: &[u8]) -> Option<Conflict>
    ensures { MatchOption result (¬ Any (IsNamesake image.now segment.now.place name.now) (all_segments image.now))
        (λ c. (c.value ≡ segment.now.place) × IsNamesake image.now segment.now.place name.now c.limit) }
{
    let place = segment.place;
    let earlier = image.segments().find(|earlier| earlier.place() < place
        && earlier.name() == name)?;
    Some(Conflict {
        second: segment_at(sliced, earlier.place()),
        ..Conflict::alone(sliced.segment(segment), place, earlier.place())
    })
}

// The segment with the base, if one is named `__TEXT`, or otherwise the first of that name; and the addresses of both.
fn other_text(sliced: &Sliced, image: &Image, segment: &SegmentAt, name: &[u8]) -> Conflict
    ensures { result.value ≡ segment.now.row.vmaddr }
{
    let own = sliced.memory(segment);
    match text_or_base(sliced, image, name) {
        Some(other) => {
            let (one, two) = (segment.row.vmaddr, other.row.vmaddr);
            Conflict::of(own, sliced.memory(&other), one, two)
        }
        None => Conflict::alone(own, segment.row.vmaddr, 0),
    }
}

// The segment with the base, if the name is `__TEXT`, or otherwise the first of that name.
fn text_or_base(sliced: &Sliced, image: &Image, name: &[u8]) -> Option<SegmentAt> {
    if name == SEG_TEXT {
        return find_segment(sliced, SegmentWith::Base);
    }
    let text = image.segments().find(|segment| is_text(segment))?;
    find_segment(sliced, SegmentWith::Command(text.place()))
}

// The name of the segment that readers take for the one with the base. (`SEG_TEXT`)
const SEG_TEXT: &[u8] = b"__TEXT";

// The first byte past the name of a section; or the bytes of the name of its segment, in the section and in the segment;
// or where the structure of the section begins, and the first earlier one of both names.
#[inline(never)]
pub(crate) fn section_name(sliced: &Sliced) -> Option<Explanation>
    ensures { ExplainsIn Rule.SectionName sliced.now result }
{
    let (at, section, segment) = section_here(sliced)?;
    let image = sliced.held.open()?;
    Some(at.shows(section_conflict(sliced, &image, &section, &segment)))
}

// What a section shares its names with, or what else is wrong with them.
fn section_conflict(
    sliced: &Sliced,
    image: &Image,
    section: &SectionAt,
    segment: &SegmentAt,
) -> Conflict
    ensures { IsNamesShown (bytes_of sliced.now.held.bytes) section.now.place result }
{
    let start = section.place.saturating_add(section_64::SECTNAME);
    let name = name_at(sliced.held.bytes, start);
    if let Some(conflict) = tail(sliced, section.place, start, name) {
        return conflict;
    }
    match other_segment(sliced, section.place, segment.place) {
        Some(conflict) => conflict,
        None => same_names(sliced, image, section, name),
    }
}

// The 8 bytes, as a number, in which the segment's name is not the same in a section and in its segment.
fn other_segment(sliced: &Sliced, section: u64, segment: u64) -> Option<Conflict>
    ensures { IfSome result (λ c. c.value ≢ c.limit) }
{
    let one = section.saturating_add(section_64::SEGNAME);
    let other = segment.saturating_add(segment_command_64::SEGNAME);
    let first = name_part(sliced, one, section);
    let second = name_part(sliced, other, segment);
    let (own, its) = (sliced.long(one), sliced.long(other));
    if own != its {
        return Some(Conflict::of(first, second, own, its));
    }
    let own = sliced.long(one.saturating_add(HALF));
    let its = sliced.long(other.saturating_add(HALF));
    if own != its {
        return Some(Conflict::of(first, second, own, its));
    }
    None
}

// Half of the bytes of a name.
const HALF: u64 = SHORT_NAME_SIZE / 2;

// The first earlier section with both names of one, and where the structures of both begin.
fn same_names(sliced: &Sliced, image: &Image, section: &SectionAt, name: &[u8]) -> Conflict
    ensures { result.value ≡ section.now.place }
{
    let (own, place) = (section.structure(sliced), section.place);
    let segment = name_at(sliced.held.bytes, place.saturating_add(section_64::SEGNAME));
    let bytes = sliced.held.bytes;
    let earlier = image.sections().find(|earlier| {
        earlier.place() < place
            && earlier.name() == name
            && name_at(bytes, earlier.place().saturating_add(section_64::SEGNAME)) == segment
    });
    match earlier {
        Some(earlier) => Conflict {
            second: section_from(sliced, earlier.place()).map(|other| other.structure(sliced)),
            ..Conflict::alone(own, place, earlier.place())
        },
        None => Conflict::alone(own, place, place),
    }
}
