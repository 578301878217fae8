//! The first entry whose span shares a place with an earlier entry's.

ghost use Rattle.std.specs.Prelude.{◌≡◌, ◌<◌, ◌^◌, ℕ, length, IfOk, OnErr};
ghost use Rattle.macho_spans.specs.SpanOrder.{IsSharingOf};
ghost use Rattle.macho_fields.specs.Universal.{entry_count};
ghost use Rattle.macho_spans.specs.declared.span.Span.{Span};
ghost use Rattle.macho_spans.specs.declared.span_order.Sharing.{Sharing};
ghost use Rattle.macho_fat.specs.Slices.{entry_spans};
ghost use Rattle.macho_fat.specs.TableWalk.{ReturnsSpans, placed_spans};
ghost use Rattle.macho_fat.specs.TableWalk.{FindsFirstSharing, AnswersByFound};

use crate::fault::FatFault;
use crate::table::{Entry, Table};
use macho_fields::{FirstPlace, Rule, Sharing, Span, SpanList};
use std::alloc::{AllocError, Global};

// The place of the first entry whose span, as `span_of` returns it, shares a place with the span of an
// earlier entry. `sharing` is what the order of the spans shows of it. If it shows nothing, the
// spans are sorted.
pub(crate) fn first_sharing<F: Fn(Entry) -> Span>(
    alloc: Global,
    table: &Table,
    sharing: Sharing,
    span_of: F,
) -> Result<Option<u64>, AllocError>
    requires { F.IsAlwaysCallable span_of }
    ensures first { (span : ℕ → Span) → ReturnsSpans (F.post span_of) table.now span
        → IsSharingOf (placed_spans table.now span (entry_count table.now)) sharing
        → IfOk result (FindsFirstSharing table.now span) }
    ensures memory { OnErr result (sharing ≡ Sharing.Unknown) }
{
    match sharing {
        Sharing::None => Ok(None),
        Sharing::First(place) => Ok(Some(place)),
        Sharing::Unknown => first_sorted(alloc, table, span_of),
    }
}

// The result of the rule, if the search for its first place found this one, or ran out of memory.
pub(crate) fn judge(rule: Rule, found: Result<Option<u64>, AllocError>) -> Result<(), FatFault>
    ensures { AnswersByFound rule found result }
{
    Ok(FirstPlace::of(found?).judge(rule)?)
}

// Finds the first such entry, whatever the order of the spans. This takes time in the order of n
// log n for n entries, and 24 bytes per entry.
fn first_sorted<F: Fn(Entry) -> Span>(
    alloc: Global,
    table: &Table,
    span_of: F,
) -> Result<Option<u64>, AllocError>
    requires { F.IsAlwaysCallable span_of }
    ensures { (span : ℕ → Span) → ReturnsSpans (F.post span_of) table.now span
        → IfOk result (FindsFirstSharing table.now span) }
{
    let spans = listed_spans(alloc, table, span_of)?;
    let Some(k) = spans.least_overlap() else {
        return Ok(None);
    };
    Ok(Some(table.entry(k as u32).place))
}

// The spans of the entries in their order, with no spare capacity.
fn listed_spans<F: Fn(Entry) -> Span>(
    alloc: Global,
    table: &Table,
    span_of: F,
) -> Result<SpanList, AllocError>
    requires { F.IsAlwaysCallable span_of }
    ensures spans { (span : ℕ → Span) → ReturnsSpans (F.post span_of) table.now span
        → IfOk result (λ list. list.spans ≡ entry_spans table.now span) }
    ensures count { IfOk result (λ list. length list.spans ≡ entry_count table.now) }
    ensures few { IfOk result (λ list. length list.spans < 2 ^ 32) }
    ensures capacity { IfOk result (λ list. list.capacity ≡ entry_count table.now) }
{
    let mut list = SpanList::with_capacity(alloc, table.count() as usize)?;
    for k in 0..table.count() {
        list.push(span_of(table.entry(k)))?;
    }
    Ok(list)
}
