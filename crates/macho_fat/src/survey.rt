//! What one walk over the entries of a table finds, and the rules that it decides, one function
//! each. (`mach-o/fat.h`)

ghost use Rattle.std.specs.Prelude.{◌≡◌, ◌↔◌, ℕ, List, Some, IsTrue, unwrap_or, if◌then◌else◌};
ghost use Rattle.macho_fields.specs.Universal.{IsMultiple, IsSliceOutside, IsSliceInTable, IsSliceMisaligned};
ghost use Rattle.macho_fat.specs.TableWalk.{IsEntry, BreaksAlone};

use crate::fault::FatFault;
use crate::sharing::{first_sharing, judge};
use crate::table::{Entry, Table};
use macho_fields::{Break, FirstPlace, Rule, SpanOrder};
use std::alloc::Global;
use std::marker::Model;

// A table, and what a walk over its entries has found.
#[derive(Drop)]
pub(crate) struct EntrySurvey<'t, 'a> {
    table: &'t Table<'a>,
    notes: Notes,
}

impl<'t, 'a> Model for EntrySurvey<'t, 'a> {
    ghost use Rattle.std.specs.Prelude.{List, ℕ};
    ghost use Rattle.macho_fat.specs.TableWalk.{IsSurvey};

    ghost Value = { List ℕ };

    ghost view = { λ survey. survey.table.now };

    ghost invariant = { λ survey. IsSurvey survey.table.now survey.notes };
}

impl<'t, 'a> EntrySurvey<'t, 'a> {
    ghost use Rattle.std.specs.Prelude.{◌≡◌};
    ghost use Rattle.macho_fields.specs.First.{rank};
    ghost use Rattle.macho_fields.specs.Layers.{KeptBelow, Continues};
    ghost use Rattle.macho_fields.specs.Rules.{BreaksFile};
    ghost use Rattle.macho_fields.specs.declared.rule.Rule.{Rule};
    ghost use Rattle.macho_fat.specs.Slices.{entry_spans, slice_span, arch_span};
    ghost use Rattle.macho_spans.specs.Overlap.{IsUnordered};
    ghost use Rattle.macho_fat.specs.TableWalk.{ContinuesOrFaults};

    // Scans the entries of a table once.
    pub(crate) fn of(table: &'t Table<'a>) -> EntrySurvey<'t, 'a>
        ensures { result ≡ table.now }
    {
        let mut notes = Notes::none();
        for k in 0..table.count() {
            notes.note(table, k);
        }
        EntrySurvey { table, notes }
    }

    // Each slice lies inside the file.
    pub(crate) fn fat_slice_outside(&self) -> Result<(), Break>
        requires { KeptBelow (BreaksFile self.now) (rank Rule.FatSliceOutside) }
        ensures { Continues (BreaksFile self.now) Rule.FatSliceOutside result }
    {
        self.notes.outside.judge(Rule::FatSliceOutside)
    }

    // Each slice begins after the table.
    pub(crate) fn fat_slice_in_table(&self) -> Result<(), Break>
        requires { KeptBelow (BreaksFile self.now) (rank Rule.FatSliceInTable) }
        ensures { Continues (BreaksFile self.now) Rule.FatSliceInTable result }
    {
        self.notes.in_table.judge(Rule::FatSliceInTable)
    }

    // The offset of each slice is a multiple of its alignment.
    pub(crate) fn fat_align(&self) -> Result<(), Break>
        requires { KeptBelow (BreaksFile self.now) (rank Rule.FatAlign) }
        ensures { Continues (BreaksFile self.now) Rule.FatAlign result }
    {
        self.notes.misaligned.judge(Rule::FatAlign)
    }

    // No slice has a byte in common with an earlier one. Memory is taken only if the slices neither
    // ascend nor descend.
    pub(crate) fn fat_overlap(&self, alloc: Global) -> Result<(), FatFault>
        requires { KeptBelow (BreaksFile self.now) (rank Rule.FatOverlap) }
        ensures { ContinuesOrFaults (BreaksFile self.now) Rule.FatOverlap
            (IsUnordered (entry_spans self.now (slice_span self.now))) result }
    {
        let sharing = self.notes.spans.sharing();
        let found = first_sharing(alloc, self.table, sharing, |entry| entry.span);
        judge(Rule::FatOverlap, found)
    }

    // No slice has the architecture of an earlier one. Memory is taken only if the numbers of the
    // architectures neither ascend nor descend.
    pub(crate) fn fat_duplicate(&self, alloc: Global) -> Result<(), FatFault>
        requires { KeptBelow (BreaksFile self.now) (rank Rule.FatDuplicate) }
        ensures { ContinuesOrFaults (BreaksFile self.now) Rule.FatDuplicate
            (IsUnordered (entry_spans self.now (arch_span self.now))) result }
    {
        let sharing = self.notes.archs.sharing();
        let found = first_sharing(alloc, self.table, sharing, Entry::arch_span);
        judge(Rule::FatDuplicate, found)
    }
}

// What a walk has found of the entries that it has passed.
#[derive(Clone, Copy)]
struct Notes {
    // The first slice that ends past the file.
    outside: FirstPlace,
    // The first slice that begins before the table ends.
    in_table: FirstPlace,
    // The first slice whose offset is not a multiple of its alignment.
    misaligned: FirstPlace,
    // The order of the slices.
    spans: SpanOrder,
    // The order of the architectures, by their numbers.
    archs: SpanOrder,
}

impl Notes {
    ghost use Rattle.std.specs.Prelude.{List, ℕ, ◌+◌, ◌<◌};
    ghost use Rattle.macho_fields.specs.Universal.{entry_count};
    ghost use Rattle.macho_fat.specs.TableWalk.{IsEntry, AreNotes, AreFirstBreaks};

    // The notes before the first entry, of any table.
    fn none() -> Notes
        ensures { (file : List ℕ) → AreNotes file 0 result }
    {
        Notes {
            outside: FirstPlace::none(),
            in_table: FirstPlace::none(),
            misaligned: FirstPlace::none(),
            spans: SpanOrder::new(),
            archs: SpanOrder::new(),
        }
    }

    // Notes entry `k`, after those before it.
    fn note(&mut self, table: &Table, k: u32)
        requires { k < entry_count table.now }
        ensures { AreNotes table.now k self.old → AreNotes table.now (k + 1) self.new }
    {
        let entry = table.entry(k);
        self.spans.note(entry.span, entry.place);
        self.archs.note(entry.arch_span(), entry.place);
        if is_broken(table, entry) {
            self.note_broken(table, entry);
        }
    }

    // Notes which of the rules of a single entry an entry breaks.
    #[cold]
    #[inline(never)]
    fn note_broken(&mut self, table: &Table, entry: Entry)
        ensures breaks { (k : ℕ) → IsEntry table.now k entry → AreFirstBreaks table.now k self.old
            → AreFirstBreaks table.now (k + 1) self.new }
        ensures spans { self.new.spans ≡ self.old.spans }
        ensures archs { self.new.archs ≡ self.old.archs }
    {
        self.outside.note_if(is_outside(table, entry), entry.place);
        self.in_table
            .note_if(is_in_table(table, entry), entry.place);
        self.misaligned.note_if(is_misaligned(entry), entry.place);
    }
}

// Whether an entry breaks one of the rules of a single entry.
fn is_broken(table: &Table, entry: Entry) -> bool
    ensures { (k : ℕ) → IsEntry table.now k entry → IsTrue result ↔ BreaksAlone table.now k }
{
    is_outside(table, entry) || is_in_table(table, entry) || is_misaligned(entry)
}

// Whether the slice of an entry ends past the file.
fn is_outside(table: &Table, entry: Entry) -> bool
    ensures { (k : ℕ) → IsEntry table.now k entry → IsTrue result ↔ IsSliceOutside table.now k }
{
    !table.contains(entry.span)
}

// Whether the slice of an entry begins before the table ends.
fn is_in_table(table: &Table, entry: Entry) -> bool
    ensures { (k : ℕ) → IsEntry table.now k entry → IsTrue result ↔ IsSliceInTable table.now k }
{
    entry.span.start < table.end()
}

// Whether the offset of an entry is not a multiple of its alignment.
fn is_misaligned(entry: Entry) -> bool
    ensures { (file : List ℕ) (k : ℕ) → IsEntry file k entry
        → IsTrue result ↔ IsSliceMisaligned file k }
{
    !is_aligned(entry.span.start, entry.align)
}

// Whether 2 to the power of `align` divides an offset. A power past the 63rd divides only 0.
fn is_aligned(offset: u64, align: u32) -> bool
    ensures { IsTrue result ↔ IsMultiple align offset }
{
    match 1u64.checked_shl(align) {
        Some(alignment) => offset % alignment == 0,
        None => offset == 0,
    }
}
