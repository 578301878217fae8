//! The search among the held pairs. It sees a start only by the steps of `pairs`, which count.

ghost use Rattle.std.specs.Prelude.{◌≡◌, ◌≤◌, length, MatchOption};
ghost use Rattle.macho_spans.specs.SearchSteps.{StartBy, IsOneSearch};
ghost use Rattle.macho_spans.specs.Spans.{AreSorted, IsPlaced, SharesWithOne};

use super::pairs::CountedPairs;
use crate::span::Span;

// How many of the spans start at or before the place, by binary search. Each call begins with it.
pub(super) fn count_starts_by(held: &mut CountedPairs, place: u64) -> usize
    requires { AreSorted held.old.pairs.items }
    ensures count { StartBy held.old.pairs.items place result }
    ensures search { IsOneSearch held.old held.new 0 }
{
    held.begin_call();
    let mut low = 0;
    let mut high = held.len();
    while low < high {
        let middle = low + (high - low) / 2;
        if held.starts_by(middle, place) {
            low = middle + 1;
        } else {
            high = middle;
        }
    }
    low
}

// The index at which to insert a span, or `None` if it shares a place with a held span.
pub(super) fn gap_for(held: &mut CountedPairs, span: Span) -> Option<usize>
    requires sorted { AreSorted held.old.pairs.items }
    requires placed { IsPlaced span }
    ensures gap { MatchOption result (SharesWithOne held.old.pairs.items span)
        (λ next. (¬ SharesWithOne held.old.pairs.items span)
        × StartBy held.old.pairs.items span.start next) }
    ensures search { IsOneSearch held.old held.new 2 }
{
    let next = count_starts_by(held, span.start);
    let before = next > 0 && held.shares(next - 1, span);
    let after = next < held.len() && held.shares(next, span);
    if before || after { None } else { Some(next) }
}
