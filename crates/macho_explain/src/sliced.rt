//! The image that has the place of a refusal: which slice of the file it is, and its parts.

ghost use Rattle.std.specs.Prelude.{◌≡◌, ℕ, ◌+◌, slice_get, Some, MatchOption, IfSome};
ghost use Rattle.macho_fields.specs.Bytes.{bytes_of};
ghost use Rattle.macho_fields.specs.Universal.{slices_of};
ghost use Rattle.macho_fat.specs.Slices.{slice_of};
ghost use Rattle.macho_spans.specs.Span.{Holds};
ghost use Rattle.macho_explain.specs.Compared.{HasByte};
ghost use Rattle.macho_explain.specs.Explained.{IsImageFound, IsSpot};
ghost use Rattle.macho_explain.specs.FirstSlices.{HasImageWith, HasSlices, IsByteOf, IsFirstWith};
ghost use Rattle.macho_explain.specs.Explain.{word_at, long_at};
ghost use Rattle.macho_explain.specs.Parts.{part_of, place_in_file, conflict_of, spot_of};
ghost use Rattle.macho_explain.specs.declared.part.PartKind.{PartKind};

use crate::conflict::Conflict;
use crate::entries::{slice_count, slice_part};
use crate::part::{Part, PartKind, structure};
use crate::segment::SegmentAt;
use crate::spot::Spot;
use crate::walk::Walked;
use macho_fat::{Slice, slice_at};
use macho_fields::header::loader::MACH_HEADER_64_SIZE;
use macho_fields::header::loader::mach_header_64::SIZEOFCMDS;
use macho_fields::{Bytes, Order, Rule, Span};
use macho_rows::span::{Held, held_at};

// An image in a file, the slice that it is, and the place in the image that is explained.
#[derive(Clone, Copy)]
pub(crate) struct Sliced<'a> {
    pub(crate) file: Bytes<'a>,
    pub(crate) slice: Slice,
    pub(crate) index: u32,
    pub(crate) held: Held<'a>,
    pub(crate) place: u64,
}

// The image in the first 64-bit slice that has the byte by which a rule is broken at the place.
pub(crate) fn image_with(file: &[u8], rule: Rule, place: u64) -> Option<Sliced>
    ensures { IsImageFound rule file.now place result }
{
    let bytes = Bytes::new(file);
    let (index, slice) = slice_with(bytes, byte_of(rule, place)?)?;
    let at = place.checked_sub(slice.span.start)?;
    Some(Sliced {
        file: bytes,
        slice,
        index,
        held: held_at(file, slice.span.start, slice.span.len),
        place: at,
    })
}

// The byte that breaks a rule at a place. A walk over commands, and an export trie, can end just past the image.
fn byte_of(rule: Rule, place: u64) -> Option<u64>
    ensures { MatchOption result ((byte : ℕ) → ¬ IsByteOf rule place byte) (IsByteOf rule place) }
{
    match rule {
        Rule::CommandWalk | Rule::ExportNode => place.checked_sub(1),
        _ => Some(place),
    }
}

// The first 64-bit slice that has the byte at a place, and its index.
fn slice_with(file: Bytes, place: u64) -> Option<(u32, Slice)>
    ensures first { MatchOption result
        (HasSlices (bytes_of file.entry) → (k : ℕ) → ¬ HasImageWith (bytes_of file.entry) place k)
        (λ found. IsFirstWith (bytes_of file.entry) place found.0) }
    ensures listed { IfSome result (λ found.
        slice_get (slices_of (bytes_of file.entry)) found.0 ≡ Some (slice_of found.1)) }
    ensures holds { IfSome result (λ found. Holds found.1.span place) }
{
    for index in 0..slice_count(file) {
        let Ok(Some(slice)) = slice_at(file, u64::from(index)) else {
            return None;
        };
        if slice.read && slice.span.holds(place) {
            return Some((index, slice));
        }
    }
    None
}

impl<'a> Sliced<'a> {
    // An explained part of the image that is outside all commands and not a symbol.
    pub(crate) fn at(&self, part: Part) -> Spot
        ensures { result ≡ spot_of (Some self.now.index) part }
    {
        Spot::of(Some(self.index), part)
    }

    // The bytes of the slice.
    pub(crate) fn whole(&self) -> Part {
        slice_part(self.file, self.index, &self.slice)
    }

    // The byte at the place, and its number.
    pub(crate) fn byte(&self) -> Option<(Spot, u64)>
        ensures { MatchOption result (¬ HasByte (bytes_of self.now.held.bytes) self.now.place)
            (λ found. IsSpot self.now found.0
            × (slice_get (bytes_of self.now.held.bytes) self.now.place ≡ Some found.1)) }
    {
        let byte = u64::from(self.held.bytes.u8_at(self.place)?);
        Some((
            self.at(self.structure(PartKind::Byte, self.place, 1, None)),
            byte,
        ))
    }

    // Where a place of the image is in the file.
    pub(crate) fn file_place(&self, place: u64) -> u64
        ensures { result ≡ place_in_file self.now.held.place place }
    {
        self.held.place.saturating_add(place)
    }

    // A structure of the image, which describes itself.
    pub(crate) fn structure(
        &self,
        kind: PartKind,
        place: u64,
        size: u64,
        index: Option<u32>,
    ) -> Part
        ensures { result ≡ part_of kind index (place_in_file self.now.held.place place) size
            (place_in_file self.now.held.place place) }
    {
        structure(kind, self.file_place(place), size, index)
    }

    // Bytes of the image that the structure at a place describes.
    pub(crate) fn described(&self, kind: PartKind, span: Span, by: u64, index: Option<u32>) -> Part
        ensures { result ≡ part_of kind index (place_in_file self.now.held.place span.start) span.len
            (place_in_file self.now.held.place by) }
    {
        Part {
            start: self.file_place(span.start),
            size: span.len,
            described: self.file_place(by),
            kind,
            index,
        }
    }

    // Numbers that the structure at a place describes, and that are not places of the file.
    pub(crate) fn numbered(&self, kind: PartKind, span: Span, by: u64, index: Option<u32>) -> Part
        ensures { result ≡ part_of kind index span.start span.len
            (place_in_file self.now.held.place by) }
    {
        Part {
            start: span.start,
            size: span.len,
            described: self.file_place(by),
            kind,
            index,
        }
    }

    // Two parts of the image that share its bytes from the first to the last.
    pub(crate) fn sharing(&self, one: Part, other: Part, first: u64, last: u64) -> Conflict
        ensures { result ≡ conflict_of (Some one) (Some other) (place_in_file self.now.held.place first)
            (place_in_file self.now.held.place last) }
    {
        Conflict::of(one, other, self.file_place(first), self.file_place(last))
    }

    // The header and the bytes that it reserves for the load commands.
    pub(crate) fn headers(&self) -> Part {
        self.structure(PartKind::Headers, 0, self.commands_end(), None)
    }

    // A load command.
    pub(crate) fn command(&self, walked: &Walked) -> Part
        ensures index { result.index ≡ Some walked.now.index }
        ensures size { result.size ≡ walked.now.load.size }
    {
        let load = walked.load;
        self.structure(PartKind::Command, load.place, load.size, Some(walked.index))
    }

    // The file bytes of a segment.
    pub(crate) fn segment(&self, segment: &SegmentAt) -> Part
        ensures { result ≡ part_of PartKind.Segment segment.now.index
            (place_in_file self.now.held.place segment.now.row.fileoff) segment.now.row.filesize
            (place_in_file self.now.held.place segment.now.place) }
    {
        self.described(
            PartKind::Segment,
            segment.file_part(),
            segment.place,
            segment.index,
        )
    }

    // The addresses of a segment.
    pub(crate) fn memory(&self, segment: &SegmentAt) -> Part
        ensures { result ≡ part_of PartKind.SegmentMemory segment.now.index segment.now.row.vmaddr
            segment.now.row.vmsize (place_in_file self.now.held.place segment.now.place) }
    {
        self.numbered(
            PartKind::SegmentMemory,
            segment.memory(),
            segment.place,
            segment.index,
        )
    }

    // Where the bytes end that the header reserves for the load commands.
    pub(crate) fn commands_end(&self) -> u64
        ensures { result ≡ 32 + word_at (bytes_of self.now.held.bytes) 20 }
    {
        MACH_HEADER_64_SIZE + u64::from(self.word(SIZEOFCMDS))
    }

    // The word at a place of the image, or 0 past its end.
    pub(crate) fn word(&self, place: u64) -> u32
        ensures { result ≡ word_at (bytes_of self.now.held.bytes) place }
    {
        match self.held.bytes.u32_at(Order::Little, place) {
            Some(word) => word,
            None => 0,
        }
    }

    // The number of 64 bits at a place of the image, or 0 past its end.
    pub(crate) fn long(&self, place: u64) -> u64
        ensures { result ≡ long_at (bytes_of self.now.held.bytes) place }
    {
        match self.held.bytes.u64_at(Order::Little, place) {
            Some(long) => long,
            None => 0,
        }
    }
}
