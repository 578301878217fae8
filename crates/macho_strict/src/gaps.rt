//! The bytes between spans.

ghost use Rattle.std.specs.Prelude.{◌≡◌, ◌≤◌, ◌<◌, ℕ, length, true, false};
ghost use Rattle.std.specs.List.Sorted.{IsNonDecreasingBy};
ghost use Rattle.macho_fields.specs.Bytes.{bytes_of};
ghost use Rattle.macho_fields.specs.FirstPlace.{IsLeastPlace};
ghost use Rattle.macho_spans.specs.Span.{end_of};
ghost use Rattle.macho_spans.specs.Overlap.{sorted_spans};
ghost use Rattle.macho_strict.specs.Gaps.{ArePassed, IsStray, IsUnpadded};
ghost use Rattle.macho_strict.specs.Nops.{is_nop as is_nop_of};

use crate::disjoint::Disjoint;
use crate::nops::is_nop;
use macho_fields::{Bytes, Span, SpansByStart};

// Which bytes are looked for.
#[derive(Clone, Copy)]
pub(crate) enum Wanted<'a> {
    // Those that are not zero.
    NonZero,
    // Those that are neither zero nor a NOP of the processor in one of the spans, which are code.
    Unpadded(u32, &'a Disjoint),
}

impl<'a> Wanted<'a> {
    ghost use Rattle.std.specs.Prelude.{◌≡◌, ◌+◌};
    ghost use Rattle.macho_fields.specs.Bytes.{bytes_of};
    ghost use Rattle.macho_spans.specs.Span.{end_of, Holds};
    ghost use Rattle.macho_strict.specs.Gaps.{IsLeastWithin};

    // The least place of the span that has such a byte.
    fn first(self, bytes: Bytes, span: Span) -> Option<u64>
        ensures { IsLeastWithin self.entry (bytes_of bytes.entry) span.start (end_of span) result }
    {
        match self {
            Wanted::NonZero => bytes.first_nonzero(span),
            Wanted::Unpadded(cpu, code) => first_unpadded(bytes, cpu, code, span),
        }
    }
}

// The least place of the span that has a byte which is neither zero nor a NOP of the code, which is of this
// processor. It is not made part of the search for any byte that is not zero, which is more frequent.
#[inline(never)]
fn first_unpadded(bytes: Bytes, cpu: u32, code: &Disjoint, span: Span) -> Option<u64>
    ensures { IsLeastPlace (λ place. (span.start ≤ place) × (place < end_of span)
        × IsUnpadded cpu code.now (bytes_of bytes.entry) place) result }
{
    let end = span.end().min(u128::from(bytes.len())) as u64;
    let mut start = span.start;
    while start < end {
        let len = end - start;
        let place = bytes.first_nonzero(Span { start, len })?;
        if !is_nop(cpu, bytes, place) {
            return Some(place);
        }
        let Some(part) = code.holding_next(place) else {
            return Some(place);
        };
        let limit = part.end().min(u128::from(end)) as u64;
        start = nops_end(bytes, cpu, place + 1, limit);
    }
    None
}

// The first place from `start` on that has no NOP of the processor, or `end` if all up to there have one.
fn nops_end(bytes: Bytes, cpu: u32, start: u64, end: u64) -> u64
    requires order { start ≤ end }
    requires inside { end ≤ length (bytes_of bytes) }
    ensures after { start ≤ result }
    ensures before { result ≤ end }
    ensures nops { (place : ℕ) → start ≤ place → place < result
        → is_nop_of cpu (bytes_of bytes.entry) place ≡ true }
    ensures other { result < end → is_nop_of cpu (bytes_of bytes.entry) result ≡ false }
{
    let mut place = start;
    while place < end && is_nop(cpu, bytes, place) {
        place += 1;
    }
    place
}

// What lies between spans that are passed by their starts. Empty spans are skipped.
#[derive(Clone, Copy)]
pub(crate) struct Gaps<'a> {
    bytes: Bytes<'a>,
    wanted: Wanted<'a>,
    // Whether none of the spans began before an earlier one. If one did, nothing more is noted.
    by_start: bool,
    // Whether none of them began before an earlier one ended.
    ascend: bool,
    // Where the last span begins.
    start: u64,
    // The greatest end of a span.
    end: u128,
    // The least place before `start` that has a byte which is looked for, and is in no span.
    stray: Option<u64>,
}

impl<'a> Gaps<'a> {
    ghost use Rattle.std.specs.Prelude.{◌≡◌, ◌≤◌, ◌<◌, ◌↔◌, ◌++◌, [], ◌∷◌, List, ℕ, true, IsTrue};
    ghost use Rattle.macho_fields.specs.Bytes.{bytes_of};
    ghost use Rattle.macho_fields.specs.FirstPlace.{IsLeastPlace};
    ghost use Rattle.macho_spans.specs.declared.span.Span.{Span};
    ghost use Rattle.macho_strict.specs.Gaps.{AreInside, ArePassed, IsLeastNext, IsStray};
    ghost use Rattle.macho_strict.specs.declared.gaps.Wanted.{Wanted};

    // No span was passed.
    pub(crate) fn new(bytes: Bytes<'a>, wanted: Wanted<'a>) -> Gaps<'a>
        ensures { ArePassed wanted.entry (bytes_of bytes.entry) [] result }
    {
        Gaps {
            bytes,
            wanted,
            by_start: true,
            ascend: true,
            start: 0,
            end: 0,
            stray: None,
        }
    }

    // Passes one more span.
    pub(crate) fn pass(&mut self, span: Span)
        ensures { (wanted : Wanted) (bytes : List ℕ) (spans : List Span)
            → ArePassed wanted bytes spans self.old
            → ArePassed wanted bytes (spans ++ span ∷ []) self.new }
    {
        if span.len == 0 {
            return;
        }
        if self.ascends_to(span.start) {
            self.pass_after(span);
        } else {
            self.pass_back(span);
        }
    }

    // Passes one more span, with which the spans ascend. It is not empty.
    fn pass_after(&mut self, span: Span)
        requires filled { 0 < span.len }
        requires ascend { self.old.ascend ≡ true }
        requires after { self.old.end ≤ span.start }
        ensures { (wanted : Wanted) (bytes : List ℕ) (spans : List Span)
            → ArePassed wanted bytes spans self.old
            → ArePassed wanted bytes (spans ++ span ∷ []) self.new }
    {
        // Most spans begin where the one before them ends.
        if self.end < u128::from(span.start) {
            self.stray = self.stray_before(span.start);
        }
        self.start = span.start;
        self.end = span.end();
    }

    // Passes one more span, with which the spans do not ascend. It is not empty.
    fn pass_back(&mut self, span: Span)
        requires filled { 0 < span.len }
        requires back { ¬ ((self.old.ascend ≡ true) × (self.old.end ≤ span.start)) }
        ensures { (wanted : Wanted) (bytes : List ℕ) (spans : List Span)
            → ArePassed wanted bytes spans self.old
            → ArePassed wanted bytes (spans ++ span ∷ []) self.new }
    {
        self.ascend = false;
        self.by_start = self.by_start && self.start <= span.start;
        if self.by_start {
            self.stray = self.stray_before(span.start);
            self.start = span.start;
            self.end = self.end.max(span.end());
        }
    }

    // Whether the spans ascend with one more that begins there and is not empty.
    fn ascends_to(&self, start: u64) -> bool
        ensures { IsTrue result ↔ ((self.now.ascend ≡ true) × (self.now.end ≤ start)) }
    {
        self.ascend && self.end <= u128::from(start)
    }

    // Whether none of the spans began before an earlier one.
    pub(crate) fn by_start(&self) -> bool
        ensures { result ≡ self.now.by_start }
    {
        self.by_start
    }

    // Whether none of the spans began before an earlier one ended.
    pub(crate) fn ascend(&self) -> bool
        ensures { result ≡ self.now.ascend }
    {
        self.ascend
    }

    // Whether each of the spans that are not empty ends inside the bytes.
    pub(crate) fn are_inside(&self) -> bool
        requires { self.now.by_start ≡ true }
        ensures { (wanted : Wanted) (bytes : List ℕ) (spans : List Span)
            → ArePassed wanted bytes spans self.now
            → (IsTrue result ↔ AreInside bytes spans) }
    {
        self.end <= u128::from(self.bytes.len())
    }

    // The least place of a byte that is looked for and lies in none of the spans.
    pub(crate) fn stray(&self) -> Option<u64>
        requires { self.now.by_start ≡ true }
        ensures { (wanted : Wanted) (bytes : List ℕ) (spans : List Span)
            → ArePassed wanted bytes spans self.now
            → IsLeastPlace (IsStray wanted bytes spans) result }
    {
        self.stray_before(self.bytes.len())
    }

    // The place that was found, otherwise the least place from `end` up to `limit` that has a byte
    // which is looked for.
    fn stray_before(&self, limit: u64) -> Option<u64>
        ensures { IsLeastNext self.now.wanted (bytes_of self.now.bytes) self.now.end limit
            self.now.stray result }
    {
        if self.stray.is_some() || u128::from(limit) <= self.end {
            return self.stray;
        }
        let start = self.end as u64;
        self.wanted.first(
            self.bytes,
            Span {
                start,
                len: limit - start,
            },
        )
    }
}

// What lies between spans, and how many of them have a place.
#[derive(Clone, Copy)]
pub(crate) struct CountedGaps<'a> {
    pub(crate) gaps: Gaps<'a>,
    // The largest `usize` where there are more.
    pub(crate) count: usize,
}

impl<'a> CountedGaps<'a> {
    ghost use Rattle.std.specs.Prelude.{◌++◌, ◌∷◌, [], ◌<◌, List, ℕ};
    ghost use Rattle.macho_fields.specs.Bytes.{bytes_of};
    ghost use Rattle.macho_spans.specs.declared.span.Span.{Span};
    ghost use Rattle.macho_strict.specs.Passed.{AreCounted};
    ghost use Rattle.macho_strict.specs.declared.gaps.Wanted.{Wanted};

    // No span was passed.
    pub(crate) fn new(bytes: Bytes<'a>, wanted: Wanted<'a>) -> CountedGaps<'a>
        ensures { AreCounted wanted.entry (bytes_of bytes.entry) [] result }
    {
        CountedGaps {
            gaps: Gaps::new(bytes, wanted),
            count: 0,
        }
    }

    // Passes one more span, which has a place.
    pub(crate) fn pass(&mut self, span: Span)
        requires { 0 < span.len }
        ensures { (wanted : Wanted) (bytes : List ℕ) (spans : List Span)
            → AreCounted wanted bytes spans self.old
            → AreCounted wanted bytes (spans ++ span ∷ []) self.new }
    {
        self.gaps.pass(span);
        self.count = self.count.saturating_add(1);
    }
}

// What lies between the spans, which are passed by their starts.
pub(crate) fn gaps_in<'a>(bytes: Bytes<'a>, wanted: Wanted<'a>, spans: &SpansByStart) -> Gaps<'a>
    requires { IsNonDecreasingBy (λ span. span.start) (sorted_spans spans.now) }
    ensures passed { ArePassed wanted.entry (bytes_of bytes.entry) (sorted_spans spans.now) result }
    ensures by_start { result.by_start ≡ true }
{
    let mut gaps = Gaps::new(bytes, wanted);
    for index in 0..spans.len() {
        gaps.pass(spans.span(index));
    }
    gaps
}

// The least place of a byte that is looked for and lies in none of the spans.
pub(crate) fn stray_in(bytes: Bytes, wanted: Wanted, spans: &SpansByStart) -> Option<u64>
    requires { IsNonDecreasingBy (λ span. span.start) (sorted_spans spans.now) }
    ensures { IsLeastPlace (IsStray wanted.entry (bytes_of bytes.entry) (sorted_spans spans.now)) result }
{
    gaps_in(bytes, wanted, spans).stray()
}
