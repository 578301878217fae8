//! Spans that share no place.

ghost use Rattle.std.specs.Prelude.{◌≡◌};
ghost use Rattle.macho_spans.specs.Overlap.{sorted_spans};
ghost use Rattle.macho_strict.specs.Disjoint.{AreDisjoint};

use macho_fields::{Span, SpansByStart};
use std::cell::Cell;
use std::marker::Model;

/// Spans by their starts, which share no place.
#[derive(Drop)]
pub struct Disjoint {
    spans: SpansByStart,
    // The index of the span that held the last place, where places mostly ascend.
    last: Cell<usize>,
}

impl Model for Disjoint {
    ghost use Rattle.std.specs.Prelude.{List};
    ghost use Rattle.macho_spans.specs.Overlap.{sorted_spans};
    ghost use Rattle.macho_spans.specs.declared.span.Span.{Span};
    ghost use Rattle.macho_strict.specs.Disjoint.{AreDisjoint};

    ghost Value = { List Span };

    ghost view = { λ disjoint. sorted_spans disjoint.spans };

    ghost invariant = { λ disjoint. AreDisjoint (sorted_spans disjoint.spans) };
}

impl Disjoint {
    ghost use Rattle.std.specs.Prelude.{◌↔◌, ◌<◌, Any, IfSome, IsTrue, Some};
    ghost use Rattle.macho_spans.specs.Span.{IsInside};
    ghost use Rattle.macho_strict.specs.Disjoint.{IsHolding};

    /// The spans; each ends where the next one begins, or before.
    pub fn new(spans: SpansByStart) -> Disjoint
        requires { AreDisjoint (sorted_spans spans) }
        ensures { result ≡ sorted_spans spans }
    {
        Disjoint {
            spans,
            last: Cell::new(0),
        }
    }

    // The span that holds the place, or `None` if none does. All are searched.
    pub(crate) fn holding(&self, place: u64) -> Option<Span>
        ensures { IsHolding self.now place result }
    {
        let span = self.spans.last_by(place)?;
        if span.holds(place) { Some(span) } else { None }
    }

    /// Whether the range, which is not empty, lies in one of the spans.
    pub fn has_range(&self, range: Span) -> bool
        requires { 0 < range.len }
        ensures { IsTrue result ↔ Any (IsInside range) self.now }
    {
        match self.holding(range.start) {
            Some(span) => range.inside(&span),
            None => false,
        }
    }

    /// The span that holds the place, of places that mostly ascend: the span that held the last place and the one after it
    /// are looked at before all are searched.
    pub fn holding_next(&self, place: u64) -> Option<Span>
        ensures { IsHolding self.now place result }
    {
        match self.holding_near(place) {
            Some(span) => Some(span),
            None => self.holding(place),
        }
    }

    // The span that holds the place, if it held the last place, or is the span after that.
    fn holding_near(&self, place: u64) -> Option<Span>
        ensures { IfSome result (λ span. IsHolding self.now place (Some span)) }
    {
        let last = self.last.get();
        match self.holding_at(last, place) {
            Some(span) => Some(span),
            None => self.holding_at(last.saturating_add(1), place),
        }
    }

    // The span with this index, if there is one and it holds the place.
    fn holding_at(&self, index: usize, place: u64) -> Option<Span>
        ensures { IfSome result (λ span. IsHolding self.now place (Some span)) }
    {
        if index >= self.spans.len() {
            return None;
        }
        let span = self.spans.span(index);
        if !span.holds(place) {
            return None;
        }
        self.last.set(index);
        Some(span)
    }
}
