//! Spans that are passed by their starts: in their own order, or sorted.

ghost use Rattle.std.specs.Prelude.{◌≡◌, ◌*◌, ◌+◌, ◌≤◌, List, length, map, max, IfOk, IsSome, true};
ghost use Rattle.std.specs.Iterator.{Drains, IsFinite};
ghost use Rattle.macho_fields.specs.Bytes.{bytes_of};
ghost use Rattle.macho_spans.specs.declared.span.Span.{Span};
ghost use Rattle.macho_strict.specs.Passed.{ArePassedBy, occupied};
ghost use Rattle.macho_strict.specs.declared.elements.Element.{Element};

use crate::elements::Element;
use crate::gaps::{Gaps, Wanted, gaps_in};
use macho_fields::{Bytes, SpanList, SpansByStart};
use std::alloc::{AllocError, Global};

// Spans that were passed.
#[derive(Drop)]
pub(crate) struct Passed<'a> {
    // What lies between them.
    pub(crate) gaps: Gaps<'a>,
    // Those that have a place, by their starts, or `None` if all were passed in their own order.
    pub(crate) sorted: Option<SpansByStart>,
}

// Passes the spans of the list by their starts.
pub(crate) fn pass_sorted(bytes: Bytes, list: SpanList) -> Passed
    ensures passed { (spans : List Span) → list.spans ≡ occupied spans
        → ArePassedBy (bytes_of bytes.entry) spans result.gaps result.sorted }
    ensures by_start { result.gaps.by_start ≡ true }
    ensures sorted { IsSome result.sorted }
{
    let sorted = list.sorted();
    Passed {
        gaps: gaps_in(bytes, Wanted::NonZero, &sorted),
        sorted: Some(sorted),
    }
}

// The spans of the elements that have bytes, in their order. The memory for `count` of them is
// allocated at once.
pub(crate) fn occupied_list<I: Iterator<Item = Element>>(
    alloc: Global,
    count: usize,
    elements: I,
) -> Result<SpanList, AllocError>
    requires can { I.can_next elements }
    requires finite { IsFinite (I.remaining elements) }
    ensures { IfOk result (λ list. (all : List Element) × Drains I.next_gives elements all
        × (list.spans ≡ occupied (map (λ element. element.span) all))
        × (list.capacity ≤ max count (2 * length list.spans + 4))) }
{
    let mut list = SpanList::with_capacity(alloc, count)?;
    for element in elements {
        if element.span.len > 0 {
            list.push(element.span)?;
        }
    }
    Ok(list)
}
