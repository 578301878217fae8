//! What neighbours show about spans that share a place.

use crate::span::Span;

/// Whether some of a list of spans share a place, as far as the order of the spans shows it.
#[derive(Clone, Copy)]
pub enum Sharing {
    /// No two spans share a place.
    None,
    /// The span with this tag is the first that shares a place with an earlier one.
    First(u64),
    /// The spans are unordered, so they must be sorted.
    Unknown,
}

/// The order in which spans come. Empty spans share nothing, and are skipped.
#[derive(Clone, Copy)]
pub struct SpanOrder {
    // The last span that is not empty.
    last: Span,
    trend: Trend,
}

// In what order the nonempty spans come.
#[derive(Clone, Copy)]
enum Trend {
    // No span was added.
    Empty,
    // There is one.
    Single,
    // Each begins at or past the end of the one before it.
    Ascending,
    // Each ends at or before the start of the one before it.
    Descending,
    // No two before the one with this tag share a place, and it shares one with an earlier span.
    Sharing(u64),
    // They neither ascend nor descend.
    Unordered,
}

impl SpanOrder {
    ghost use Rattle.std.specs.Prelude.{◌≡◌, ◌<◌, [], ◌∷◌, ◌++◌, ℕ, List, length};
    ghost use Rattle.macho_spans.specs.SpanOrder.{IsTrend, IsOrderOf, IsSharingOf};
    ghost use Rattle.macho_spans.specs.declared.span.Span.{Span};

    /// The order of no spans.
    pub const fn new() -> SpanOrder
        ensures { IsOrderOf [] result }
    {
        SpanOrder {
            last: Span { start: 0, len: 0 },
            trend: Trend::Empty,
        }
    }

    /// Notes a span that comes after those noted before. `tag` names it in the answer.
    pub fn note(&mut self, span: Span, tag: u64)
        ensures { (spans : List (Span × ℕ)) → IsOrderOf spans self.old
            → IsOrderOf (spans ++ (span, tag) ∷ []) self.new }
    {
        if span.len > 0 {
            self.trend = self.trend_with(span, tag);
            self.last = span;
        }
    }

    // The trend after one more span, which is not empty.
    fn trend_with(&self, span: Span, tag: u64) -> Trend
        requires { 0 < span.len }
        ensures { (spans : List Span) (tags : List ℕ) → length tags ≡ length spans
            → IsTrend spans tags self.now.last self.now.trend
            → IsTrend (spans ++ span ∷ []) (tags ++ tag ∷ []) span result }
    {
        let above = self.last.end() <= u128::from(span.start);
        let below = span.end() <= u128::from(self.last.start);
        match self.trend {
            Trend::Empty => Trend::Single,
            Trend::Single if above => Trend::Ascending,
            Trend::Single if below => Trend::Descending,
            Trend::Single => Trend::Sharing(tag),
            Trend::Ascending if above => Trend::Ascending,
            Trend::Ascending if below => Trend::Unordered,
            Trend::Ascending => Trend::Sharing(tag),
            Trend::Descending if below => Trend::Descending,
            Trend::Descending if above => Trend::Unordered,
            Trend::Descending => Trend::Sharing(tag),
            Trend::Sharing(first) => Trend::Sharing(first),
            Trend::Unordered => Trend::Unordered,
        }
    }

    /// Whether some of the spans that were noted share a place.
    pub fn sharing(&self) -> Sharing
        ensures { (spans : List (Span × ℕ)) → IsOrderOf spans self.now → IsSharingOf spans result }
    {
        match self.trend {
            Trend::Empty | Trend::Single | Trend::Ascending | Trend::Descending => Sharing::None,
            Trend::Sharing(tag) => Sharing::First(tag),
            Trend::Unordered => Sharing::Unknown,
        }
    }
}
