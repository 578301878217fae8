//! What one walk over the elements of an image finds: which of them share bytes, and what lies between
//! them.

ghost use Rattle.std.specs.Prelude.{◌≡◌, ◌≤◌, ◌+◌, ◌*◌, ◌↔◌, List, length, max, IfOk, IsSome, IsTrue, true};
ghost use Rattle.macho_fields.specs.Bytes.{bytes_of};
ghost use Rattle.macho_fields.specs.FirstPlace.{IsLeastPlace};
ghost use Rattle.macho_strict.specs.Claims.{least_option};
ghost use Rattle.macho_strict.specs.Passed.{ArePassedBy, ArePassedFor};
ghost use Rattle.macho_strict.specs.Rules.{EndsPast, SomeElementEndsPast};
ghost use Rattle.macho_strict.specs.Sharing.{IsFirstSharing, tagged_elements};
ghost use Rattle.macho_strict.specs.Verdict.{element_spans};

use crate::by_start::{Passed, occupied_list, pass_sorted};
use crate::elements::{Element, Elements, Tables, contents, headers, relocations, tables_of};
use crate::gaps::{CountedGaps, Gaps, Wanted, stray_in};
use crate::overlap::{count_of, gaps_between, span_list};
use macho_fields::{Bytes, Span, SpanList, SpansByStart, Structure};
use macho_image::{Command, Image, Sections};
use std::alloc::{AllocError, Global};

// The elements are few if the commands end by this place. Then a walk lists them, so that they can be
// sorted without another walk: at most 1,703 are described there, in 41 KB.
const FEW_END: u64 = 16_384;

// For how many elements there is room at first.
const ROOM: usize = 32;

// What one walk over the elements of an image notes.
#[derive(Drop)]
pub(crate) enum Noted<'a> {
    // The bytes of the elements that have some, if the elements are few.
    Listed(SpanList),
    // Nothing, if there was no memory to list them.
    Unlisted,
    // What lies between them, if they are many.
    Passed(CountedGaps<'a>),
}

impl<'a> Noted<'a> {
    ghost use Rattle.std.specs.Prelude.{◌≡◌, ◌<◌, ◌≤◌, ◌∷◌, ◌++◌, [], List, ℕ, length, map, IsSome, true};
    ghost use Rattle.macho_fields.specs.Bytes.{bytes_of};
    ghost use Rattle.macho_fields.specs.LoadCommands.{structure_of};
    ghost use Rattle.macho_image.specs.Command.{command_of};
    ghost use Rattle.macho_image.specs.Opened.{IsCommandOf};
    ghost use Rattle.macho_strict.specs.Claims.{AreNoted};
    ghost use Rattle.macho_strict.specs.ElementWalk.{section_elements_left};
    ghost use Rattle.macho_strict.specs.Elements.{command_elements, elements_of, headers as headers_of};
    ghost use Rattle.macho_strict.specs.Passed.{ArePassedBy, occupied};
    ghost use Rattle.macho_strict.specs.Verdict.{element_spans};
    ghost use Rattle.macho_strict.specs.declared.elements.Element.{Element};

    // Notes the headers of the image.
    pub(crate) fn of_headers(alloc: Global, image: &Image<'a>) -> Noted<'a>
        ensures { AreNoted image.now (headers_of image.now ∷ []) result }
    {
        let mut noted = Noted::new(alloc, image.bytes(), image.commands_end() <= FEW_END);
        noted.note(headers(image));
        noted
    }

    // Nothing is noted yet of an image that has these bytes.
    fn new(alloc: Global, bytes: Bytes<'a>, few: bool) -> Noted<'a>
        ensures { AreNoted (bytes_of bytes.entry) [] result }
    {
        if !few {
            return Noted::Passed(CountedGaps::new(bytes, Wanted::NonZero));
        }
        match SpanList::with_capacity(alloc, ROOM) {
            Ok(list) => Noted::Listed(list),
            Err(_) => Noted::Unlisted,
        }
    }

    // Notes what one more command of an image that has these bytes describes, by its structure.
    pub(crate) fn note_command(
        &mut self,
        bytes: Bytes<'a>,
        command: &Command,
        structure: Option<Structure>,
    )
        requires structure { structure ≡ structure_of command.now.cmd }
        requires listed { IsCommandOf (bytes_of bytes) (command_of command.now) }
        ensures { (elements : List Element) → AreNoted (bytes_of bytes.entry) elements self.old
            → AreNoted (bytes_of bytes.entry)
            (elements ++ command_elements (bytes_of bytes.entry) command.now.place) self.new }
    {
        match command.segment(bytes) {
            Some(segment) => self.note_sections(segment.sections()),
            None => self.note_tables(tables_of(bytes, command, structure)),
        }
    }

    // Notes the elements of some sections.
    fn note_sections(&mut self, sections: Sections)
        ensures { (image : List ℕ) (elements : List Element) → AreNoted image elements self.old
            → AreNoted image (elements ++ section_elements_left sections.entry) self.new }
    {
        for section in sections {
            self.note(contents(&section));
            self.note(relocations(&section));
        }
    }

    // Notes some tables.
    fn note_tables(&mut self, tables: Tables)
        ensures { (image : List ℕ) (elements : List Element) → AreNoted image elements self.old
            → AreNoted image (elements ++ tables.entry) self.new }
    {
        for element in tables {
            self.note(element);
        }
    }

    // Notes one more element.
    fn note(&mut self, element: Element)
        ensures { (image : List ℕ) (elements : List Element) → AreNoted image elements self.old
            → AreNoted image (elements ++ element ∷ []) self.new }
    {
        if element.span.len > 0 {
            self.note_bytes(element);
        }
    }

    // Notes one more element, which has bytes. Without memory the list is given up.
    fn note_bytes(&mut self, element: Element)
        requires { 0 < element.span.len }
        ensures { (image : List ℕ) (elements : List Element) → AreNoted image elements self.old
            → AreNoted image (elements ++ element ∷ []) self.new }
    {
        match self {
            Noted::Listed(list) => {
                if list.push(element.span).is_err() {
                    *self = Noted::Unlisted;
                }
            }
            Noted::Unlisted => {}
            Noted::Passed(counted) => counted.pass(element.span),
        }
    }

    // Passes the elements of the image, which were all noted: those that were listed by their starts,
    // and otherwise all in their order.
    fn pass(self, image: &Image<'a>) -> Passed<'a>
        requires { AreNoted image.now (elements_of image.now) self }
        ensures passed { ArePassedBy image.now (element_spans image.now) result.gaps result.sorted }
        ensures by_start { IsSome result.sorted → result.gaps.by_start ≡ true }
    {
        match self {
            Noted::Listed(list) => pass_sorted(image.bytes(), list),
            Noted::Unlisted => Passed {
                gaps: gaps_between(image.bytes(), Wanted::NonZero, Elements::of(image)).gaps,
                sorted: None,
            },
            Noted::Passed(counted) => Passed {
                gaps: counted.gaps,
                sorted: None,
            },
        }
    }

    // How many elements have bytes, as far as they were counted.
    fn count(&self) -> usize
        ensures { (image : List ℕ) (elements : List Element) → AreNoted image elements self.now
            → result ≤ length (occupied (map (λ element. element.span) elements)) }
    {
        match self {
            Noted::Listed(_) | Noted::Unlisted => 0,
            Noted::Passed(counted) => counted.count,
        }
    }
}

// The lesser of two places, either of them possibly missing.
pub(crate) fn least(one: Option<u64>, other: Option<u64>) -> Option<u64>
    ensures { result ≡ least_option one other }
{
    match (one, other) {
        (Some(one), Some(other)) => Some(one.min(other)),
        (Some(place), None) | (None, Some(place)) => Some(place),
        (None, None) => None,
    }
}

// What is found of the elements of an image.
#[derive(Drop)]
pub(crate) struct Claims {
    // The least place at which `element-overlap` is broken.
    pub(crate) broken: Option<u64>,
    // The least place of a byte that is not zero and lies in none of them.
    pub(crate) loose: Option<u64>,
    // Those that have bytes, by their starts, or `None` if all come in that order.
    sorted: Option<SpansByStart>,
}

impl Claims {
    ghost use Rattle.std.specs.Prelude.{◌≡◌, List, IfOk, OnErr, IsSome, true};
    ghost use Rattle.macho_fields.specs.FirstPlace.{IsLeastPlace};
    ghost use Rattle.macho_image.specs.Opened.{IsOpened};
    ghost use Rattle.macho_spans.specs.Overlap.{IsAscending};
    ghost use Rattle.macho_strict.specs.Claims.{AreClaims, AreNoted};
    ghost use Rattle.macho_strict.specs.Elements.{elements_of};
    ghost use Rattle.macho_strict.specs.Gaps.{IsStray};
    ghost use Rattle.macho_strict.specs.Passed.{ArePassedBy, IsByStart};
    ghost use Rattle.macho_strict.specs.Sharing.{IsFirstSharing, tagged_elements};
    ghost use Rattle.macho_strict.specs.Verdict.{element_spans};
    ghost use Rattle.macho_strict.specs.declared.gaps.Wanted.{Wanted};

    // The claims of the elements of the image, which were noted. It needs memory only if they do not
    // ascend: 24 bytes for each, to sort them.
    pub(crate) fn of<'a>(
        alloc: Global,
        image: &Image<'a>,
        noted: Noted<'a>,
    ) -> Result<Claims, AllocError>
        requires opened { IsOpened image.now }
        requires noted { AreNoted image.now (elements_of image.now) noted }
        ensures claims { IfOk result (AreClaims image.now) }
        ensures memory { OnErr result (¬ IsAscending (element_spans image.now)) }
    {
        let count = noted.count();
        let passed = noted.pass(image);
        if passed.gaps.ascend() {
            return Ok(Claims::new(image, passed, None));
        }
        if passed.sorted.is_some() {
            return Claims::of_sorted(alloc, image, passed);
        }
        Claims::of_sorted(alloc, image, sorted_elements(alloc, image, count)?)
    }

    // The claims of elements that were passed by their starts. It needs memory only if some share a byte.
    fn of_sorted(alloc: Global, image: &Image, passed: Passed) -> Result<Claims, AllocError>
        requires opened { IsOpened image.now }
        requires passed { ArePassedBy image.now (element_spans image.now) passed.gaps passed.sorted }
        requires by_start { passed.gaps.by_start ≡ true }
        requires sorted { IsSome passed.sorted }
        ensures { IfOk result (AreClaims image.now) }
    {
        let shared = if passed.gaps.ascend() {
            None
        } else {
            sorted_overlap(alloc, image)?
        };
        Ok(Claims::new(image, passed, shared))
    }

    // The claims of elements that were passed. The first that shares a byte with an earlier one is
    // described at `shared`.
    fn new(image: &Image, passed: Passed, shared: Option<u64>) -> Claims
        requires opened { IsOpened image.now }
        requires passed { ArePassedBy image.now (element_spans image.now) passed.gaps passed.sorted }
        requires by_start { passed.gaps.by_start ≡ true }
        requires sorted { IsByStart (element_spans image.now) passed.sorted }
        requires shared { IsFirstSharing (tagged_elements image.now) shared }
        ensures { AreClaims image.now result }
    {
        Claims {
            broken: least(outside(image, &passed.gaps), shared),
            loose: passed.gaps.stray(),
            sorted: passed.sorted,
        }
    }

    // The least place of a byte of the image that is looked for and lies in no element.
    pub(crate) fn stray(&self, image: &Image, wanted: Wanted) -> Option<u64>
        requires { AreClaims image.now self.now }
        ensures { IsLeastPlace (IsStray wanted.entry image.now (element_spans image.now)) result }
    {
        match &self.sorted {
            Some(sorted) => stray_in(image.bytes(), wanted, sorted),
            None => gaps_between(image.bytes(), wanted, Elements::of(image))
                .gaps
                .stray(),
        }
    }
}

// Passes the elements of the image by their starts. The memory for `count` spans that have bytes is
// allocated at once.
fn sorted_elements<'a>(
    alloc: Global,
    image: &Image<'a>,
    count: usize,
) -> Result<Passed<'a>, AllocError>
    ensures passed { IfOk result (λ passed.
        ArePassedBy image.now (element_spans image.now) passed.gaps passed.sorted) }
    ensures by_start { IfOk result (λ passed. passed.gaps.by_start ≡ true) }
    ensures sorted { IfOk result (λ passed. IsSome passed.sorted) }
{
    let list = occupied_list(alloc, count, Elements::of(image))?;
    Ok(pass_sorted(image.bytes(), list))
}

// Where the first element is described that ends past the image. The gaps are those between the
// elements.
fn outside(image: &Image, gaps: &Gaps) -> Option<u64>
    requires passed { ArePassedFor image.now (element_spans image.now) gaps.now }
    requires by_start { gaps.now.by_start ≡ true }
    ensures { IsLeastPlace (SomeElementEndsPast image.now) result }
{
    if gaps.are_inside() {
        return None;
    }
    first_outside(image)
}

// Where the first element is described that ends past the image.
fn first_outside(image: &Image) -> Option<u64>
    ensures { IsLeastPlace (SomeElementEndsPast image.now) result }
{
    let bytes = image.bytes();
    for element in Elements::of(image) {
        if ends_past(bytes, element) {
            return Some(element.described);
        }
    }
    None
}

// Whether the element has bytes, and ends past the image.
fn ends_past(image: Bytes, element: Element) -> bool
    ensures { IsTrue result ↔ EndsPast (bytes_of image.entry) element }
{
    element.span.len > 0 && !image.contains(element.span)
}

// Where the first element is described that shares a byte with an earlier one, or `None` if no two
// share one. For n elements it takes time in the order of n log n, and 24 bytes of memory for each.
fn sorted_overlap(alloc: Global, image: &Image) -> Result<Option<u64>, AllocError>
    ensures { IfOk result (IsFirstSharing (tagged_elements image.now)) }
{
    let list = span_list(alloc, count_of(Elements::of(image)), Elements::of(image))?;
    let Some(index) = list.least_overlap() else {
        return Ok(None);
    };
    Ok(
        Elements::of(image)
            .nth(index as usize)
            .map(|element| element.described),
    )
}
