//! Spans that share no place, each with a tag: a list sorted by start, with binary search.

mod pairs;
mod search;

use crate::span::Span;
use pairs::CountedPairs;
use search::{count_starts_by, gap_for};
use std::alloc::{AllocError, Global};
use std::marker::Model;

/// The result of an insertion.
#[derive(Clone, Copy, Debug, PartialEq, Eq)]
pub enum Insert {
    /// The span is held now, with its tag.
    Added,
    /// The span shares a place with a held span, and nothing has changed.
    Overlap,
}

/// Spans that share no place, each with a tag. A place is an address or an offset in
/// bytes.
#[derive(Drop)]
pub struct Spans {
    held: CountedPairs,
}

impl Model for Spans {
    ghost use Rattle.std.specs.Vec.{vec_capacity};
    ghost use Rattle.macho_spans.specs.Spans.{SpansView, AreSorted};

    ghost Value = { SpansView };

    ghost view = { λ spans. record {
      pairs = spans.held.pairs.items;
      capacity = vec_capacity spans.held.pairs;
      probes = spans.held.probes.call;
      tests = spans.held.tests.call;
      all_probes = spans.held.probes.all;
      all_tests = spans.held.tests.all;
    } };

    ghost invariant = { λ spans. AreSorted spans.held.pairs.items };
}

impl Spans {
    ghost use Rattle.std.specs.Prelude.{◌≡◌, ◌+◌, ◌<◌, ◌≤◌, ◌↔◌, ℕ, [], ◌∷◌, ◌++◌, List};
    ghost use Rattle.std.specs.Prelude.{length, max};
    ghost use Rattle.std.specs.Prelude.{Contains, IsPermutation, IfOk, OnOk, OnErr, MatchOption};
    ghost use Rattle.macho_spans.specs.Span.{Holds};
    ghost use Rattle.macho_spans.specs.Spans.{AreKept, AreSorted, HoldsInOne, IsPlaced};
    ghost use Rattle.macho_spans.specs.Spans.{IsProbeCount, RoseBy, SharesWithOne};
    ghost use Rattle.macho_spans.specs.declared.span.Span.{Span};
    ghost use Rattle.macho_spans.specs.declared.spans.Insert.{Insert};

    /// No spans. It takes no memory.
    pub fn new(alloc: Global) -> Spans
        ensures none { result.pairs ≡ [] }
        ensures capacity { result.capacity ≡ 0 }
        ensures probes { result.probes ≡ 0 }
        ensures all_probes { result.all_probes ≡ 0 }
    {
        Spans {
            held: CountedPairs::new(alloc),
        }
    }

    /// No spans. The capacity is exactly `count`. It allocates nothing if `count` is 0.
    pub fn with_capacity(alloc: Global, count: usize) -> Result<Spans, AllocError>
        ensures none { IfOk result (λ spans. spans.pairs ≡ []) }
        ensures capacity { IfOk result (λ spans. spans.capacity ≡ count) }
        ensures probes { IfOk result (λ spans. spans.probes ≡ 0) }
        ensures all_probes { IfOk result (λ spans. spans.all_probes ≡ 0) }
        ensures memory { OnErr result (0 < count) }
    {
        let held = CountedPairs::with_capacity(alloc, count)?;
        Ok(Spans { held })
    }

    /// How many spans are held.
    pub fn len(&self) -> u64
        ensures { result ≡ length self.now.pairs }
    {
        self.held.len() as u64
    }

    /// How many probes the last insertion or look-up made, 0 before any. A probe is one comparison
    /// of a held span's start with the start or place that is searched for.
    pub fn probes(&self) -> u64
        ensures { result ≡ self.now.probes }
    {
        self.held.probes()
    }

    /// Adds the span with its tag, unless it shares a place with a held span. The span must not be
    /// empty, and must end at or before 2^64. An overlap allocates no memory. Otherwise memory is
    /// allocated only if the room is used up, and then for as many more as are held, or for four if
    /// there are fewer. If it runs out, nothing has changed.
    pub fn try_insert(&mut self, span: Span, tag: u64) -> Result<Insert, AllocError>
        requires { IsPlaced span }

        // Pairs that were kept stay, and the new pair is kept too if it shares no place with any of
        // them.
        ensures kept { OnOk result ((calls : List (Span × ℕ)) → AreKept calls self.old.pairs
            → AreKept (calls ++ (span, tag) ∷ []) self.new.pairs) }
        ensures overlap { IfOk result (λ insert.
            (insert ≡ Insert.Overlap) ↔ SharesWithOne self.old.pairs span) }
        ensures added { IfOk result (λ insert. insert ≡ Insert.Added
            → IsPermutation ((span, tag) ∷ self.old.pairs) self.new.pairs) }
        ensures unchanged { IfOk result (λ insert. insert ≡ Insert.Overlap
            → (self.new.pairs ≡ self.old.pairs) × (self.new.capacity ≡ self.old.capacity)) }
        ensures memory { OnErr result (self.new.pairs ≡ self.old.pairs) }
        ensures memory_when_full { OnErr result (self.old.capacity ≤ length self.old.pairs) }
        ensures room { length self.old.pairs < self.old.capacity
            → self.new.capacity ≡ self.old.capacity }
        ensures more { self.old.capacity ≤ length self.old.pairs
            → self.new.capacity ≤ length self.old.pairs + max (length self.old.pairs) 4 }
        ensures memory_to_add { OnErr result (¬ SharesWithOne self.old.pairs span) }

        ensures sorted { AreSorted self.new.pairs }
        ensures probes { IsProbeCount (length self.old.pairs) self.new.probes }
        ensures all_probes { RoseBy self.old.all_probes self.new.probes self.new.all_probes }
        ensures tests { self.new.tests ≤ 2 }
        ensures all_tests { RoseBy self.old.all_tests self.new.tests self.new.all_tests }
    {
        let Some(next) = gap_for(&mut self.held, span) else {
            return Ok(Insert::Overlap);
        };
        self.held.insert(next, span, tag)?;
        Ok(Insert::Added)
    }

    /// The held span that holds the place, with its tag, or `None` without such a span.
    pub fn find(&mut self, place: u64) -> Option<(Span, u64)>
        ensures found { MatchOption result (¬ HoldsInOne self.old.pairs place)
            (λ pair. Contains self.old.pairs pair × Holds pair.0 place) }
        ensures same { self.new.pairs ≡ self.old.pairs }
        ensures sorted { AreSorted self.new.pairs }
        ensures probes { IsProbeCount (length self.old.pairs) self.new.probes }
        ensures all_probes { RoseBy self.old.all_probes self.new.probes self.new.all_probes }
        ensures tests { self.new.tests ≤ 1 }
        ensures all_tests { RoseBy self.old.all_tests self.new.tests self.new.all_tests }
    {
        let next = count_starts_by(&mut self.held, place);
        let before = next.checked_sub(1)?;
        self.held.holding(before, place)
    }
}
