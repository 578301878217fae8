//! Lists of parts of an image, in the order of what describes them, and which parts share a place.

ghost use Rattle.std.specs.Prelude.{◌≡◌, ◌-◌, ◌*◌, ◌+◌, ◌≤◌, ◌^◌, List, length, map, max, min, IfOk};
ghost use Rattle.std.specs.Iterator.{Drains, IsFinite};
ghost use Rattle.macho_fields.specs.Bytes.{bytes_of};
ghost use Rattle.macho_strict.specs.Passed.{AreCounted};
ghost use Rattle.macho_strict.specs.Sharing.{IsFirstSharing, tagged_parts};
ghost use Rattle.macho_strict.specs.Sharing.{file_part as file_part_of};
ghost use Rattle.macho_strict.specs.declared.elements.Element.{Element};
ghost use Rattle.macho_strict.specs.declared.gaps.Wanted.{Wanted};

use crate::elements::Element;
use crate::gaps::{CountedGaps, Wanted};
use macho_fields::{Bytes, SpanList};
use macho_image::{Image, Segment, Segments};
use std::alloc::{AllocError, Global};
use std::marker::Model;

// The file parts of segments that remain, each described by the command of its segment.
#[derive(Drop)]
pub(crate) struct FileParts<'a> {
    segments: Segments<'a>,
}

impl<'a> Model for FileParts<'a> {
    ghost use Rattle.std.specs.Prelude.{List, map};
    ghost use Rattle.macho_strict.specs.Sharing.{file_part};
    ghost use Rattle.macho_strict.specs.declared.elements.Element.{Element};

    ghost Value = { List Element };

    ghost view = { λ parts. map (λ s. file_part s.image s.place) parts.segments };
}

impl<'a> Iterator for FileParts<'a> {
    ghost use Rattle.std.specs.Iterator.{YieldsFirst, item_count};

    type Item = Element;

    ghost next_gives = { YieldsFirst (λ left. left) };

    ghost remaining = { item_count (λ left. left) };

    fn next(&mut self) -> Option<Element> {
        let segment = self.segments.next()?;
        Some(file_part(&segment))
    }
}

// The file part of a segment.
fn file_part(segment: &Segment) -> Element
    ensures { result ≡ file_part_of segment.now.image segment.now.place }
{
    Element {
        described: segment.place(),
        span: segment.file_part(),
    }
}

impl<'a> FileParts<'a> {
    ghost use Rattle.std.specs.Prelude.{◌≡◌};
    ghost use Rattle.macho_strict.specs.Sharing.{all_parts};

    // The file parts of all segments, in the order of the commands.
    pub(crate) fn of(image: &Image<'a>) -> FileParts<'a>
        ensures { result ≡ all_parts image.now }
    {
        FileParts {
            segments: image.segments(),
        }
    }
}

// The place of the first segment whose file part shares a place with an earlier one's, or
// `None` if no two share one. For n segments it takes time in the order of n log n, and 24 bytes of
// memory for each.
pub(crate) fn sorted_file_overlap(alloc: Global, image: &Image) -> Result<Option<u64>, AllocError>
    ensures { IfOk result (IsFirstSharing (tagged_parts image.now)) }
{
    let list = span_list(alloc, count_of(FileParts::of(image)), FileParts::of(image))?;
    let Some(index) = list.least_overlap() else {
        return Ok(None);
    };
    Ok(
        FileParts::of(image)
            .nth(index as usize)
            .map(|part| part.described),
    )
}

// What lies between the elements, which are passed in their order, and how many of them have bytes.
pub(crate) fn gaps_between<'a, I: Iterator<Item = Element>>(
    bytes: Bytes<'a>,
    wanted: Wanted<'a>,
    elements: I,
) -> CountedGaps<'a>
    requires can { I.can_next elements }
    requires finite { IsFinite (I.remaining elements) }
    ensures { (all : List Element) × Drains I.next_gives elements all
        × AreCounted wanted.entry (bytes_of bytes.entry) (map (λ element. element.span) all) result }
{
    let mut counted = CountedGaps::new(bytes, wanted);
    for element in elements {
        if element.span.len > 0 {
            counted.pass(element.span);
        }
    }
    counted
}

// How many elements there are, or the largest `usize` where there are more.
pub(crate) fn count_of<I: Iterator<Item = Element>>(elements: I) -> usize
    requires can { I.can_next elements }
    requires finite { IsFinite (I.remaining elements) }
    ensures { (all : List Element) × Drains I.next_gives elements all
        × (result ≡ min (length all) (2 ^ 64 - 1)) }
{
    let mut count: usize = 0;
    for _element in elements {
        count = count.saturating_add(1);
    }
    count
}

// The spans of the elements, in their order. The memory for `count` of them is allocated at once.
pub(crate) fn span_list<I: Iterator<Item = Element>>(
    alloc: Global,
    count: usize,
    elements: I,
) -> Result<SpanList, AllocError>
    requires can { I.can_next elements }
    requires finite { IsFinite (I.remaining elements) }
    ensures { IfOk result (λ list. (all : List Element) × Drains I.next_gives elements all
        × (list.spans ≡ map (λ element. element.span) all)
        × (list.capacity ≤ max count (2 * length all + 4))) }
{
    let mut list = SpanList::with_capacity(alloc, count)?;
    for element in elements {
        list.push(element.span)?;
    }
    Ok(list)
}
