//! The bytes of a universal file that lie in no slice. (`mach-o/fat.h`)

ghost use Rattle.std.specs.Prelude.{◌≡◌, ◌<◌, ◌∷◌, ℕ, length, IfOk, OnErr, MatchOption};
ghost use Rattle.macho_fields.specs.Bytes.{bytes_of};
ghost use Rattle.macho_fields.specs.FirstPlace.{IsLeastPlace};
ghost use Rattle.macho_spans.specs.Overlap.{IsAscending, span_at};
ghost use Rattle.macho_fields.specs.Universal.{IsUniversal, entry_size, slices_of};
ghost use Rattle.macho_strict.specs.Gaps.{IsStray, ComeByStart, ArePassed};
ghost use Rattle.macho_rules.specs.Check.{ContinuesWithMemory};
ghost use Rattle.macho_strict.specs.Rules.{BreaksStrictFile};
ghost use Rattle.macho_strict.specs.Verdict.{slice_spans};
ghost use Rattle.macho_strict.specs.Stray.{fat_table_span};
ghost use Rattle.macho_fields.specs.declared.rule.Rule.{Rule};
ghost use Rattle.macho_strict.specs.declared.gaps.Wanted.{Wanted};

use crate::gaps::{Gaps, Wanted, stray_in};
use macho_fields::header::fat::{
    FAT_ARCH_64_SIZE, FAT_ARCH_SIZE, FAT_HEADER_SIZE, FAT_MAGIC, FAT_MAGIC_64,
};
use macho_fields::{Bytes, Order, Rule, Span, SpanList};
use macho_rules::{Refusal, Verified};
use std::alloc::{AllocError, Global};

// Each byte of a universal file after its table is zero or lies in a slice.
//
// It takes memory only if the slices do not ascend: 24 bytes for each, to sort them.
pub(crate) fn fat_stray_byte(alloc: Global, verified: &Verified) -> Result<(), Refusal>
    ensures { ContinuesWithMemory (BreaksStrictFile verified.now) Rule.FatStrayByte
        (¬ IsAscending (slice_spans verified.now)) result }
{
    let Some(table) = table(verified) else {
        return Ok(());
    };
    let stray = least_stray(alloc, verified, table)?;
    Rule::FatStrayByte.judge(stray)?;
    Ok(())
}

// The header and the table of a universal file, or `None` if the file is one image.
fn table(verified: &Verified) -> Option<Span>
    ensures { MatchOption result (¬ IsUniversal verified.now)
        (λ table. IsUniversal verified.now × (table ≡ fat_table_span verified.now)) }
{
    let file = verified.bytes();
    // The table lies inside the file, so its size is below 2^64.
    prove!(file.len() <= u64::MAX);
    let entry_size = entry_size(file)?;
    Some(Span {
        start: 0,
        len: FAT_HEADER_SIZE + verified.slice_count() * entry_size,
    })
}

/// The size in bytes of an entry of the table, or `None` if the file is not universal.
pub fn entry_size(file: Bytes) -> Option<u64>
    ensures { MatchOption result (¬ IsUniversal (bytes_of file.entry))
        (λ size. IsUniversal (bytes_of file.entry) × (size ≡ entry_size (bytes_of file.entry))) }
{
    match file.u32_at(Order::Big, 0)? {
        FAT_MAGIC => Some(FAT_ARCH_SIZE),
        FAT_MAGIC_64 => Some(FAT_ARCH_64_SIZE),
        _ => None,
    }
}

// The least place of a nonzero byte that is neither in the table nor in a slice.
fn least_stray(alloc: Global, verified: &Verified, table: Span) -> Result<Option<u64>, AllocError>
    ensures found { IfOk result (IsLeastPlace
        (IsStray Wanted.NonZero verified.now (table ∷ slice_spans verified.now))) }
    ensures memory { OnErr result (¬ ComeByStart (table ∷ slice_spans verified.now)) }
{
    let gaps = pass_slices(verified, table);
    if gaps.by_start() {
        return Ok(gaps.stray());
    }
    let spans = span_list(alloc, verified, table)?.sorted();
    Ok(stray_in(verified.bytes(), Wanted::NonZero, &spans))
}

// Passes the table and the slices, in their order.
fn pass_slices<'a>(verified: &Verified<'a>, table: Span) -> Gaps<'a>
    ensures { ArePassed Wanted.NonZero verified.now (table ∷ slice_spans verified.now) result }
{
    let mut gaps = Gaps::new(verified.bytes(), Wanted::NonZero);
    gaps.pass(table);
    for index in 0..verified.slice_count() {
        gaps.pass(slice_span(verified, index));
    }
    gaps
}

// The table and the slices, in their order. The memory for them is allocated at once.
fn span_list(alloc: Global, verified: &Verified, table: Span) -> Result<SpanList, AllocError>
    ensures { IfOk result (λ list. list.spans ≡ table ∷ slice_spans verified.now) }
{
    let count = (verified.slice_count() as usize).saturating_add(1);
    let mut list = SpanList::with_capacity(alloc, count)?;
    list.push(table)?;
    for index in 0..verified.slice_count() {
        list.push(slice_span(verified, index))?;
    }
    Ok(list)
}

// Where the slice with this index lies in the file.
fn slice_span(verified: &Verified, index: u64) -> Span
    requires { index < length (slices_of verified.now) }
    ensures { result ≡ span_at (slice_spans verified.now) index }
{
    verified.slice(index).unwrap().span
}
