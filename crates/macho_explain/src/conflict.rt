//! Two parts that conflict, and the numbers that a rule compares.

ghost use Rattle.std.specs.Prelude.{◌≡◌, ◌-◌, ◌^◌, ◌≤◌, min, IfSome, IfNone, Some, None};
ghost use Rattle.macho_spans.specs.Span.{Holds, Shares};
ghost use Rattle.macho_explain.specs.Parts.{conflict_of};
ghost use Rattle.macho_rows.specs.Segments.{last_address};

use crate::part::{Part, clamped};
use macho_fields::Span;
use macho_rows::segments::last_address;

/// What conflicts.
#[derive(Clone, Copy)]
pub struct Conflict {
    /// What breaks the rule, and with what it conflicts.
    pub first: Option<Part>,
    pub second: Option<Part>,
    /// The numbers that the rule compares.
    pub value: u64,
    pub limit: u64,
}

impl Conflict {
    // Two parts, and the numbers that show that they conflict.
    pub(crate) fn of(first: Part, second: Part, value: u64, limit: u64) -> Conflict
        ensures { result ≡ conflict_of (Some first) (Some second) value limit }
    {
        Conflict {
            first: Some(first),
            second: Some(second),
            value,
            limit,
        }
    }

    // A part that conflicts with no other.
    pub(crate) fn alone(first: Part, value: u64, limit: u64) -> Conflict
        ensures { result ≡ conflict_of (Some first) None value limit }
    {
        Conflict {
            first: Some(first),
            ..Conflict::numbers(value, limit)
        }
    }

    // What a number conflicts with.
    pub(crate) fn against(second: Part, value: u64, limit: u64) -> Conflict
        ensures { result ≡ conflict_of None (Some second) value limit }
    {
        Conflict {
            second: Some(second),
            ..Conflict::numbers(value, limit)
        }
    }

    // Numbers alone.
    pub(crate) fn numbers(value: u64, limit: u64) -> Conflict
        ensures { result ≡ conflict_of None None value limit }
    {
        Conflict {
            first: None,
            second: None,
            value,
            limit,
        }
    }

    // A part that has to end by the limit, and where it ends.
    pub(crate) fn past(first: Part, second: Part, end: u128, limit: u128) -> Conflict
        ensures { result ≡ conflict_of (Some first) (Some second) (min end (2 ^ 64 - 1)) (min limit (2 ^ 64 - 1)) }
    {
        Conflict::of(first, second, clamped(end), clamped(limit))
    }
}

// The first and the last place that two spans share, if they share one.
pub(crate) fn shared(one: Span, other: Span) -> Option<(u64, u64)>
    ensures ordered { IfSome result (λ both. both.0 ≤ both.1) }
    ensures first { IfSome result (λ both. Holds one both.0 × Holds other both.0) }
    ensures last { IfSome result (λ both. Holds one both.1 × Holds other both.1) }
    ensures none { IfNone result (¬ Shares one other) }
{
    if !one.shares(&other) {
        return None;
    }
    let first = one.start.max(other.start);
    let last = last_of(one).min(last_of(other));
    Some((first, last))
}

// The last place of a span below 2^64.
fn last_of(span: Span) -> u64
    ensures { result ≡ last_address span.start span.len }
{
    last_address(span.start, span.len)
}
