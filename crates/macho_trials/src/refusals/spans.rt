//! The calls that add spans. One that is refused is made again, and all calls after it are made too, so
//! the answer to them all is that with ample memory. It is printed in each case.

ghost use Rattle.std.specs.Prelude.{◌↔◌, IsTrue};
ghost use Rattle.macho_spans.specs.Spans.{IsPlaced};

use crate::refusals::announce;
use crate::refusals::fault::Fault;
use macho_fields::{Insert, Span, SpanList, Spans};
use std::alloc::Global;

/// Makes `Spans` with room for all spans or for none, inserts each, and prints how many are held in
/// the end. After running out of memory and at the end, the held spans are compared with a plain
/// list.
pub(crate) fn call_try_insert(rt: &HostRuntime, input: &[u8], has_room: bool) -> Result<(), Fault> {
    let all = spans_of(rt.alloc(), input)?;
    let mut pairs = Vec::with_capacity(rt.alloc(), all.len())?;
    announce(rt)?;
    let mut spans = Spans::with_capacity(rt.alloc(), if has_room { all.len() } else { 0 })?;
    let refused = insert_each(&mut spans, &mut pairs, &all)?;
    println!(rt; "{} held", spans.len())?;
    end(refused)
}

/// Inserts each span, and compares what is held in the end. It returns whether memory ran out.
fn insert_each(
    spans: &mut Spans,
    pairs: &mut Vec<(Span, u64)>,
    all: &[Span],
) -> Result<bool, Fault> {
    let mut refused = false;
    for &span in all {
        refused |= insert(spans, pairs, all, span)?;
    }
    expect_held(spans, pairs, all)?;
    Ok(refused)
}

/// Inserts a span, a second time if memory ran out. It returns whether it did.
fn insert(
    spans: &mut Spans,
    pairs: &mut Vec<(Span, u64)>,
    all: &[Span],
    span: Span,
) -> Result<bool, Fault> {
    if !is_placed(span) {
        return Err(Fault::NoCall);
    }
    let tag = pairs.len() as u64;
    let mut inserted = spans.try_insert(span, tag);
    let refused = inserted.is_err();
    if refused {
        expect_held(spans, pairs, all)?;
        inserted = spans.try_insert(span, tag);
    }
    if inserted? == Insert::Added {
        pairs.push((span, tag))?;
    }
    Ok(refused)
}

/// How all calls have ended: out of memory if one of them was refused some.
fn end(refused: bool) -> Result<(), Fault> {
    if refused {
        return Err(Fault::Memory);
    }
    Ok(())
}

/// Makes a `SpanList` with room for all spans or for none, pushes each, and prints the index of the
/// first that shares a place with an earlier one.
pub(crate) fn call_push(rt: &HostRuntime, input: &[u8], has_room: bool) -> Result<(), Fault> {
    let all = spans_of(rt.alloc(), input)?;
    announce(rt)?;
    let mut list = SpanList::with_capacity(rt.alloc(), if has_room { all.len() } else { 0 })?;
    let refused = push_each(&mut list, &all)?;
    println!(rt; "{:?}", list.least_overlap())?;
    end(refused)
}

/// Pushes each span, a second time if memory ran out. It returns whether it did.
fn push_each(list: &mut SpanList, all: &[Span]) -> Result<bool, Fault> {
    let mut refused = false;
    for &span in all {
        if list.push(span).is_err() {
            refused = true;
            list.push(span)?;
        }
    }
    Ok(refused)
}

/// The spans of the lines `START LEN`.
fn spans_of(alloc: Global, input: &[u8]) -> Result<Vec<Span>, Fault> {
    let Ok(text) = str::from_utf8(input) else {
        return Err(Fault::NoCall);
    };
    let mut spans = Vec::new(alloc);
    for line in text.lines() {
        spans.push(span_of(line)?)?;
    }
    Ok(spans)
}

/// The span of a line.
fn span_of(line: &str) -> Result<Span, Fault> {
    let (start, len) = line.split_once(' ').ok_or(Fault::NoCall)?;
    match (start.parse(), len.parse()) {
        (Ok(start), Ok(len)) => Ok(Span { start, len }),
        _ => Err(Fault::NoCall),
    }
}

/// Whether the span is not empty, and ends at 2^64 or before.
fn is_placed(span: Span) -> bool
    ensures { IsTrue result ↔ IsPlaced span }
{
    span.len > 0 && span.end() <= 1 << 64
}

/// Compares how many pairs are held, and what is found at both ends of each span and past it, with the
/// pairs of the list.
fn expect_held(spans: &mut Spans, pairs: &[(Span, u64)], all: &[Span]) -> Result<(), Fault> {
    if spans.len() != pairs.len() as u64 {
        return Err(Fault::Changed);
    }
    for span in all {
        let end = span.start.saturating_add(span.len);
        for place in [span.start, end.saturating_sub(1), end] {
            if spans.find(place) != pair_with(pairs, place) {
                return Err(Fault::Changed);
            }
        }
    }
    Ok(())
}

/// The pair of the list whose span holds the place.
fn pair_with(pairs: &[(Span, u64)], place: u64) -> Option<(Span, u64)> {
    for &(held, tag) in pairs {
        if held.holds(place) {
            return Some((held, tag));
        }
    }
    None
}
