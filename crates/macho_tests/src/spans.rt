//! Sorted spans: the answers, and the probes that each call made. The answers are written out.

ghost use Rattle.std.specs.Prelude.{◌<◌};

use super::same;
use macho_fields::{Insert, Span, Spans};
use std::process::Abort;
use std::test::Fail;

/// A span that is inserted, with its tag, what becomes of it, and how many probes that takes at most.
#[derive(Clone, Copy)]
struct Insertion {
    start: u64,
    len: u64,
    tag: u64,
    insert: Insert,
    most: u64,
}

/// A place that is looked for, the span that is found there, with its start, its length and its tag, and
/// how many probes that takes at most.
#[derive(Clone, Copy)]
struct LookUp {
    place: u64,
    found: Option<(u64, u64, u64)>,
    most: u64,
}

/// Compares how many probes the last call made. Where it may make one, it does.
fn check_probes(rt: &impl Abort, spans: &Spans, most: u64) {
    let probes = spans.probes();
    same(rt, &probes, &probes.max(most.min(1)).min(most));
}

/// Inserts a span, and compares the answer and the probes.
fn check_insert(rt: &impl Abort, spans: &mut Spans, one: &Insertion) -> Result<(), Fail> {
    let span = Span {
        start: one.start,
        len: one.len,
    };
    if span.len == 0 || span.end() > 1 << 64 {
        return Err("a span that has no place".into());
    }
    let given = (one.start, spans.try_insert(span, one.tag)?);
    same(rt, &given, &(one.start, one.insert));
    check_probes(rt, spans, one.most);
    Ok(())
}

/// Inserts spans, one after the other.
fn check_inserts(rt: &impl Abort, spans: &mut Spans, all: &[Insertion]) -> Result<(), Fail> {
    for one in all {
        check_insert(rt, spans, one)?;
    }
    Ok(())
}

/// Looks for a place, and compares the answer and the probes.
fn check_find(rt: &impl Abort, spans: &mut Spans, one: &LookUp) {
    let given = spans.find(one.place);
    let found = given.map(|(span, tag)| (span.start, span.len, tag));
    same(rt, &(one.place, found), &(one.place, one.found));
    check_probes(rt, spans, one.most);
}

/// An insertion, by the span, its tag, what becomes of it and the most probes.
macro_rules! insertion {
    ($start:expr, $len:expr, $tag:expr, $insert:ident, $most:expr) => {
        Insertion {
            start: $start,
            len: $len,
            tag: $tag,
            insert: Insert::$insert,
            most: $most,
        }
    };
}

/// A look-up, by the place, what is found and the most probes.
macro_rules! look_up {
    ($place:expr, $found:expr, $most:expr) => {
        LookUp {
            place: $place,
            found: $found,
            most: $most,
        }
    };
}

/// Spans up to the last place. The third shares places with the first two.
const SORTED: &[Insertion] = &[
    insertion!(0, 10, 7, Added, 0),
    insertion!(10, 5, 8, Added, 1),
    insertion!(9, 2, 6, Overlap, 2),
    insertion!(u64::MAX, 1, 9, Added, 2),
];

/// Places, and what is found there among the spans.
const SORTED_FINDS: &[LookUp] = &[
    look_up!(14, Some((10, 5, 8)), 2),
    look_up!(15, None, 2),
    look_up!(u64::MAX, Some((u64::MAX, 1, 9)), 2),
];

#[test]
fn sorted_spans(rt: HostRuntime) -> Result<(), Fail> {
    let mut spans = Spans::new(rt.alloc());
    same(&rt, &(spans.len(), spans.probes()), &(0, 0));
    check_inserts(&rt, &mut spans, SORTED)?;
    same(&rt, &spans.len(), &3);
    for look_up in SORTED_FINDS {
        check_find(&rt, &mut spans, look_up);
    }
    Ok(())
}

/// Spans on both sides of a gap; three overlap one or both.
const AROUND: &[Insertion] = &[
    insertion!(0, 100, 1, Added, 0),
    insertion!(200, 1, 2, Added, 1),
    insertion!(50, 1, 4, Overlap, 2),
    insertion!(150, 100, 5, Overlap, 2),
    insertion!(0, u64::MAX, 6, Overlap, 2),
    insertion!(100, 100, 3, Added, 2),
];

#[test]
fn spans_around_a_gap(rt: HostRuntime) -> Result<(), Fail> {
    let mut spans = Spans::new(rt.alloc());
    check_inserts(&rt, &mut spans, AROUND)?;
    check_find(&rt, &mut spans, &look_up!(199, Some((100, 100, 3)), 2));
    Ok(())
}

/// Looks for the first place of one of a thousand spans, and for the place after it, which none has. A
/// thousand has ten binary digits.
fn check_one_of_many(rt: &impl Abort, spans: &mut Spans, tag: u64)
    requires { tag < 1000 }
{
    let found = Some((3 * tag, 2, tag));
    check_find(rt, spans, &look_up!(3 * tag, found, 10));
    check_find(rt, spans, &look_up!(3 * tag + 2, None, 10));
}

/// Spans at both ends and in the middle of a thousand; each has a place between two of them, or more.
const BETWEEN: &[Insertion] = &[
    insertion!(1, 2, 1000, Overlap, 10),
    insertion!(2, 1, 1001, Added, 10),
    insertion!(1501, 2, 1000, Overlap, 10),
    insertion!(1502, 1, 1001, Added, 10),
    insertion!(2998, 2, 1000, Overlap, 10),
    insertion!(2999, 1, 1001, Added, 10),
];

#[test]
fn many_spans(rt: HostRuntime) -> Result<(), Fail> {
    let mut spans = Spans::new(rt.alloc());
    for held in 0..1000u64 {
        let tag = 999 - held;
        let digits = 64 - u64::from(held.leading_zeros());
        check_insert(&rt, &mut spans, &insertion!(3 * tag, 2, tag, Added, digits))?;
    }
    same(&rt, &spans.len(), &1000);
    for tag in 0..1000 {
        check_one_of_many(&rt, &mut spans, tag);
    }
    check_inserts(&rt, &mut spans, BETWEEN)?;
    same(&rt, &spans.len(), &1003);
    Ok(())
}
