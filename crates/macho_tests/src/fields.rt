//! Numbers, spans and rules. The values are written out.

ghost use Rattle.std.specs.Prelude.{◌≡◌, ◌+◌, ◌≤◌, ◌<◌, ◌^◌};

use super::same;
use macho_fields::{Break, Bytes, Order, Rule, Span, SpanList, table_end};
use std::alloc::{AllocError, Global};

/// A span, by its start and its length.
const fn span(start: u64, len: u64) -> Span
    ensures start { result.start ≡ start }
    ensures len { result.len ≡ len }
{
    Span { start, len }
}

#[test]
fn numbers_in_both_orders(rt: HostRuntime) {
    let bytes = Bytes::new(&[0xca, 0xfe, 0xba, 0xbe, 0, 0, 0, 2]);
    same(&rt, &(bytes.len(), bytes.is_empty()), &(8, false));
    same(&rt, &bytes.u8_at(3), &Some(0xbe));
    same(&rt, &bytes.u16_at(Order::Little, 6), &Some(0x200));
    same(&rt, &bytes.u32_at(Order::Big, 0), &Some(0xcafe_babe));
    same(
        &rt,
        &bytes.u64_at(Order::Big, 0),
        &Some(0xcafe_babe_0000_0002),
    );
    same(&rt, &bytes.u32_at(Order::Big, 5), &None);
    same(&rt, &bytes.u64_at(Order::Little, u64::MAX), &None);
}

#[test]
fn parts_are_never_cut(rt: HostRuntime) {
    let bytes = Bytes::new(b"__TEXT");
    same(&rt, &bytes.part(span(2, 4)), &Some(b"TEXT".as_slice()));
    same(&rt, &bytes.part(span(3, 4)), &None);
}

/// The first and the last zero byte of `ab\0c\0\0d` in a span.
const ZEROS: &[(u64, u64, Option<u64>, Option<u64>)] = &[
    (0, 7, Some(2), Some(5)),
    (0, 5, Some(2), Some(4)),
    (0, 4, Some(2), Some(2)),
    (0, 2, None, None),
    (3, 1, None, None),
    (4, 1, Some(4), Some(4)),
    (4, 0, None, None),
    (2, u64::MAX, Some(2), Some(5)),
    (6, u64::MAX, None, None),
    (7, 1, None, None),
    (9, 1, None, None),
    (u64::MAX, u64::MAX, None, None),
];

#[test]
fn zeros_are_found_in_the_span_alone(rt: HostRuntime) {
    let bytes = Bytes::new(b"ab\0c\0\0d");
    for &(start, len, first, last) in ZEROS {
        let within = span(start, len);
        let found = (
            start,
            len,
            bytes.first_zero(within),
            bytes.last_zero(within),
        );
        same(&rt, &found, &(start, len, first, last));
    }
}

/// Tables by their starts, counts and sizes of an item, and where they end.
const TABLE_ENDS: &[(u64, u64, u64, u128)] = &[
    (8, 3, 20, 68),
    (8, 0, 20, 8),
    (8, 3, 0, 8),
    (u64::MAX, 1, 1, 0x1_0000_0000_0000_0000),
    (
        1,
        u64::MAX,
        u64::MAX,
        0xffff_ffff_ffff_fffe_0000_0000_0000_0002,
    ),
    (
        u64::MAX,
        u64::MAX,
        u64::MAX,
        0xffff_ffff_ffff_ffff_0000_0000_0000_0000,
    ),
];

#[test]
fn the_end_of_a_table_does_not_wrap(rt: HostRuntime) {
    for &(start, count, each, end) in TABLE_ENDS {
        let given = table_end(start, count, each);
        same(
            &rt,
            &(start, count, each, given),
            &(start, count, each, end),
        );
    }
}

/// Places of the span of 4 from 8 on, and whether it holds them.
const PLACES: &[(u64, bool)] = &[(7, false), (8, true), (11, true), (12, false)];

#[test]
fn a_span_holds_its_first_place_and_not_its_end(rt: HostRuntime) {
    for &(place, holds) in PLACES {
        same(&rt, &(place, span(8, 4).holds(place)), &(place, holds));
    }
    let last = span(u64::MAX, 9);
    same(&rt, &(last.holds(u64::MAX), last.holds(7)), &(true, false));
}

/// Spans, whether each is inside the span of 4 from 8 on, and whether it shares a place with it.
const INSIDE: &[(u64, u64, bool, bool)] = &[
    (8, 4, true, true),
    (9, 2, true, true),
    (10, 0, true, false),
    (12, 0, true, false),
    (7, 3, false, true),
    (9, 4, false, true),
    (7, 6, false, true),
    (7, 0, false, false),
    (13, 0, false, false),
];

#[test]
fn a_span_is_inside_where_both_ends_are(rt: HostRuntime) {
    let whole = span(8, 4);
    same(&rt, &whole.end(), &12);
    for &(start, len, inside, shares) in INSIDE {
        let part = span(start, len);
        let given = (start, len, part.inside(&whole), part.shares(&whole));
        same(&rt, &given, &(start, len, inside, shares));
    }
}

/// Breaks, and how each is shown.
const BREAKS: &[(Rule, u64, &str)] = &[
    (Rule::Magic, 0, "magic at 0x0"),
    (Rule::SegmentFile, 0x1e8, "segment-file at 0x1e8"),
    (Rule::Name, 0x1_0000_0001, "name at 0x100000001"),
    (
        Rule::FatSliceInTable,
        u64::MAX,
        "fat-slice-in-table at 0xffffffffffffffff",
    ),
];

#[test]
fn a_break_shows_its_place_in_hexadecimal(rt: HostRuntime) {
    for &(rule, place, shown) in BREAKS {
        let text = Break::at(rule, place).to_string(rt.alloc());
        same(&rt, &text.as_deref(), &Ok(shown));
    }
}

#[test]
fn a_width_applies_to_the_whole_text(rt: HostRuntime) {
    let broken = Break::at(Rule::Entry, 0x20);
    let text = format!(in rt.alloc(); "{:-<8}{broken:>16}", broken.rule);
    same(&rt, &text.as_deref(), &Ok("entry---   entry at 0x20"));
}

/// Spans by their starts and lengths, and the first that shares a place with an earlier one.
const OVERLAPS: &[(&[(u64, u64)], Option<u64>)] = &[
    (&[(8, 4), (0, 8), (12, 1)], None),
    (&[(8, 4), (0, 9), (11, 1)], Some(1)),
    (&[(8, 4), (12, 2), (11, 1), (0, 100)], Some(2)),
    (&[(5, 0), (0, 10), (3, 0), (9, 1)], Some(3)),
    (&[(u64::MAX, 1), (0, u64::MAX), (u64::MAX, 9)], Some(2)),
    (&[(7, 0), (7, 0)], None),
    (&[(7, 1)], None),
    (&[], None),
];

/// A list of spans.
fn list_of(alloc: Global, spans: &[(u64, u64)]) -> Result<SpanList, AllocError> {
    let mut list = SpanList::with_capacity(alloc, spans.len())?;
    for &(start, len) in spans {
        list.push(span(start, len))?;
    }
    Ok(list)
}

#[test]
fn the_first_span_that_shares_with_an_earlier_one_is_found(rt: HostRuntime) {
    for &(spans, first) in OVERLAPS {
        let found = list_of(rt.alloc(), spans).map(SpanList::least_overlap);
        same(&rt, &(spans, found), &(spans, Ok(first)));
    }
}
