//! Which of many spans is the first that shares a place with an earlier one.

ghost use Rattle.std.specs.Prelude.{◌+◌, ◌↔◌, length, IsTrue};
ghost use Rattle.std.specs.List.Sorted.{IsNonDecreasingBy};
ghost use Rattle.macho_spans.specs.SearchSteps.{PairBelow};

use crate::room::make_room;
use crate::span::Span;
use std::alloc::{AllocError, Global};
use std::marker::Model;

/// Spans in the order in which they were added. Each takes 24 bytes.
#[derive(Drop)]
pub struct SpanList {
    items: Vec<Numbered>,
}

// A span, and how many spans were added before it.
#[derive(Clone, Copy)]
struct Numbered {
    span: Span,
    index: u64,
}

impl Model for SpanList {
    ghost use Rattle.std.specs.Prelude.{map};
    ghost use Rattle.std.specs.Vec.{vec_capacity};
    ghost use Rattle.macho_spans.specs.Overlap.{SpanListView, AreNumbered};

    ghost Value = { SpanListView };

    ghost view = { λ list. record {
      spans = map (λ item. item.span) list.items.items;
      capacity = vec_capacity list.items;
    } };

    ghost invariant = { λ list. AreNumbered list.items.items };
}

impl SpanList {
    ghost use Rattle.std.specs.Prelude.{◌≡◌, ◌+◌, ◌<◌, ◌≤◌, [], ◌∷◌, ◌++◌, ℕ, max, length};
    ghost use Rattle.std.specs.Prelude.{IfOk, OnOk, OnErr, MatchOption, IsPermutation};
    ghost use Rattle.std.specs.List.Sorted.{IsNonDecreasingBy};
    ghost use Rattle.macho_spans.specs.Overlap.{SharesEarlier, IsLeastSharing, WereAdded, sorted_spans};

    /// No spans. The capacity is exactly `count`. It allocates nothing if `count` is 0.
    pub fn with_capacity(alloc: Global, count: usize) -> Result<SpanList, AllocError>
        ensures none { IfOk result (λ list. list.spans ≡ []) }
        ensures capacity { IfOk result (λ list. list.capacity ≡ count) }
        ensures memory { OnErr result (0 < count) }
    {
        let items = Vec::with_capacity(alloc, count)?;
        Ok(SpanList { items })
    }

    /// Adds a span, which may be empty, as the last one. Memory is allocated only if the list is
    /// full, and then for as many more as there are, or for four if there are fewer. If it runs
    /// out, nothing has changed.
    pub fn push(&mut self, span: Span) -> Result<(), AllocError>
        ensures ok { OnOk result (self.new.spans ≡ self.old.spans ++ span ∷ []) }
        ensures err { OnErr result (self.new ≡ self.old) }
        ensures room { length self.old.spans < self.old.capacity
            → self.new.capacity ≡ self.old.capacity }
        ensures more { self.old.capacity ≤ length self.old.spans
            → self.new.capacity ≤ length self.old.spans + max (length self.old.spans) 4 }
        ensures memory { OnErr result (self.old.capacity ≤ length self.old.spans) }
    {
        make_room(&mut self.items)?;
        let index = self.items.len() as u64;
        self.items.push_reserved(Numbered { span, index });
        Ok(())
    }

    /// The index of the first span that shares a place with an earlier one, or `None` if no two
    /// spans share a place.
    ///
    /// For n spans it takes time in the order of n log n, and no memory: it sorts the spans by
    /// start, and compares neighbours.
    pub fn least_overlap(self) -> Option<u64>
        ensures { MatchOption result ((j : ℕ) → ¬ SharesEarlier self.spans j)
            (IsLeastSharing self.spans) }
    {
        self.sorted().least_overlap()
    }

    /// The spans, sorted by their starts. It takes no memory.
    pub fn sorted(self) -> SpansByStart
        ensures added { WereAdded self.spans result }
        ensures permutation { IsPermutation self.spans (sorted_spans result) }
        ensures rising { IsNonDecreasingBy (λ span. span.start) (sorted_spans result) }
    {
        let mut items = self.items;
        items.sort_unstable_by_key(|item| item.span.start);
        SpansByStart { items }
    }
}

/// The spans of a list, sorted by their starts. The list in which they were added is the list of the
/// [`SpanList`].
#[derive(Drop)]
pub struct SpansByStart {
    items: Vec<Numbered>,
}

impl Model for SpansByStart {
    ghost use Rattle.std.specs.Prelude.{List};
    ghost use Rattle.std.specs.List.Sorted.{IsNonDecreasingBy};
    ghost use Rattle.macho_spans.specs.declared.overlap.Numbered.{Numbered};

    ghost Value = { List Numbered };

    ghost view = { λ sorted. sorted.items.items };

    ghost invariant = { λ sorted.
        IsNonDecreasingBy (λ item. item.span.start) sorted.items.items };
}

impl SpansByStart {
    ghost use Rattle.std.specs.Prelude.{◌≡◌, ◌<◌, ◌↔◌, [], ℕ, List, length, IsTrue, MatchOption};
    ghost use Rattle.macho_spans.specs.Overlap.{SharesEarlier, IsLeastSharing, IsLastBy, span_at, WereAdded, sorted_spans};
    ghost use Rattle.macho_spans.specs.declared.span.Span.{Span};

    /// How many spans there are.
    pub fn len(&self) -> usize
        ensures { result ≡ length (sorted_spans self.now) }
    {
        self.items.len()
    }

    /// Whether it is empty.
    pub fn is_empty(&self) -> bool
        ensures { IsTrue result ↔ (sorted_spans self.now ≡ []) }
    {
        self.items.is_empty()
    }

    /// The span with this index, by ascending starts.
    pub fn span(&self, index: usize) -> Span
        requires { index < length (sorted_spans self.now) }
        ensures { result ≡ span_at (sorted_spans self.now) index }
    {
        self.items[index].span
    }

    /// The last span that begins at `place` or before it, or `None` if each begins after it. For n
    /// spans it takes time in the order of log n.
    pub fn last_by(&self, place: u64) -> Option<Span>
        ensures { IsLastBy (sorted_spans self.now) place result }
    {
        let next = self.items.partition_point(|item| item.span.start <= place);
        let last = next.checked_sub(1)?;
        Some(self.items[last].span)
    }

    /// The index in the list of the first span that shares a place with an earlier one, or `None` if
    /// no two spans share a place. It compares neighbours.
    pub fn least_overlap(&self) -> Option<u64>
        ensures { (spans : List Span) → WereAdded spans self.now
            → MatchOption result ((j : ℕ) → ¬ SharesEarlier spans j) (IsLeastSharing spans) }
    {
        if shares_below(&self.items, self.items.len() as u64) {
            Some(least_sharing(&self.items))
        } else {
            None
        }
    }
}

// Whether two of the spans with an index below `count` share a place. The items are sorted by
// start.
fn shares_below(items: &[Numbered], count: u64) -> bool
    requires { IsNonDecreasingBy (λ item. item.span.start) items.now }
    ensures { IsTrue result ↔ PairBelow items.now (length items.now) count }
{
    let mut end = 0;
    for item in items {
        if item.index < count && item.span.len > 0 {
            if u128::from(item.span.start) < end {
                return true;
            }
            end = item.span.end();
        }
    }
    false
}

// The least index of a span that shares a place with one of a lower index, by binary search. The
// items are sorted by start.
fn least_sharing(items: &[Numbered]) -> u64
    requires sorted { IsNonDecreasingBy (λ item. item.span.start) items.now }
    requires some { PairBelow items.now (length items.now) (length items.now) }
    ensures share { PairBelow items.now (length items.now) (result + 1) }
    ensures apart { ¬ PairBelow items.now (length items.now) result }
{
    let mut low = 0;
    let mut high = items.len() as u64;
    while high - low > 1 {
        let middle = low + (high - low) / 2;
        if shares_below(items, middle) {
            high = middle;
        } else {
            low = middle;
        }
    }
    high - 1
}
