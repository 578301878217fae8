//! Between which parts a byte is that none of them has.

use macho_fields::Span;

// What is next to a place, among spans by their index.
#[derive(Clone, Copy)]
pub(crate) struct Neighbors {
    place: u64,
    // The span that ends last, at the place or before it.
    before: Option<(Span, u64)>,
    // The span that begins first, past the place.
    after: Option<(Span, u64)>,
}

impl Neighbors {
    // Nothing is next to the place.
    pub(crate) fn of(place: u64) -> Neighbors {
        Neighbors {
            place,
            before: None,
            after: None,
        }
    }

    // Notes one more span. An empty one is next to nothing.
    pub(crate) fn note(&mut self, span: Span, index: u64) {
        if span.len == 0 {
            return;
        }
        if span.end() <= u128::from(self.place) {
            self.before = later(self.before, span, index);
        } else if self.place < span.start {
            self.after = earlier(self.after, span, index);
        }
    }

    // The index of the span before the place.
    pub(crate) fn before(&self) -> Option<u64> {
        match self.before {
            Some((_, index)) => Some(index),
            None => None,
        }
    }

    // The index of the span after the place.
    pub(crate) fn after(&self) -> Option<u64> {
        match self.after {
            Some((_, index)) => Some(index),
            None => None,
        }
    }
}

// The span that ends later.
fn later(known: Option<(Span, u64)>, span: Span, index: u64) -> Option<(Span, u64)> {
    match known {
        Some((other, _)) if span.end() <= other.end() => known,
        _ => Some((span, index)),
    }
}

// The span that begins earlier.
fn earlier(known: Option<(Span, u64)>, span: Span, index: u64) -> Option<(Span, u64)> {
    match known {
        Some((other, _)) if other.start <= span.start => known,
        _ => Some((span, index)),
    }
}
