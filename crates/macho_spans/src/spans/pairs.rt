//! The pairs of a span and a tag. They and their counts are private to this file. It has to be read
//! for what no clause says of it: **nothing here looks at a start without counting.**
//!
//! - `starts_by` makes a *probe*: it compares the start of one held span with the place that is
//!   searched for, and counts once.
//! - `shares` and `holding` make a *test* of one pair, which compares its start as well, and count
//!   once. `holding` returns the pair if its span holds the place.
//! - No other function looks at a start, and none lends a pair or a count.
//! - A total is 0 where a list is made. After that only `raise` changes it, by one. A list cannot be
//!   copied.
//!
//! The clauses of `Spans` say that the totals rise by what a call reports. So a probe or test that is
//! made outside this file cannot be hidden.

ghost use Rattle.std.specs.Prelude.{◌≡◌, ◌<◌, ◌^◌};
ghost use Rattle.macho_spans.specs.SearchSteps.{IsRaised};

use crate::room::make_room;
use crate::span::Span;
use std::alloc::{AllocError, Global};

// Pairs of a span and its tag, with how many probes and tests were made.
#[derive(Drop)]
pub(super) struct CountedPairs {
    pairs: Vec<(Span, u64)>,
    probes: Count,
    tests: Count,
}

// How often something was done, in the last call and in all calls. The total is 0 again after 2^64
// - 1.
#[derive(Drop)]
struct Count {
    call: u64,
    all: u64,
}

impl Count {
    // Counts once more.
    fn raise(&mut self)
        requires { self.old.call < 2 ^ 32 }
        ensures { IsRaised self.old self.new }
    {
        self.call += 1;
        self.all = self.all.wrapping_add(1);
    }
}

impl CountedPairs {
    ghost use Rattle.std.specs.Prelude.{◌≡◌, ◌↔◌, ◌+◌, ◌≤◌, ◌<◌, ◌^◌, [], length, max};
    ghost use Rattle.std.specs.Prelude.{IsTrue, MatchOption, IfOk, OnOk, OnErr};
    ghost use Rattle.std.specs.List.{HoldsAt, insert};
    ghost use Rattle.std.specs.Vec.{vec_capacity};
    ghost use Rattle.macho_spans.specs.SearchSteps.{IsBegun, IsRaised};
    ghost use Rattle.macho_spans.specs.Span.{Holds, Shares};

    // The pairs of the list, before any is counted.
    fn counting(pairs: Vec<(Span, u64)>) -> CountedPairs
        ensures pairs { result.pairs ≡ pairs }
        ensures probes { (result.probes.call ≡ 0) × (result.probes.all ≡ 0) }
        ensures tests { (result.tests.call ≡ 0) × (result.tests.all ≡ 0) }
    {
        CountedPairs {
            pairs,
            probes: Count { call: 0, all: 0 },
            tests: Count { call: 0, all: 0 },
        }
    }

    // No pairs. It takes no memory.
    pub(super) fn new(alloc: Global) -> CountedPairs
        ensures none { result.pairs.items ≡ [] }
        ensures capacity { vec_capacity result.pairs ≡ 0 }
        ensures probes { (result.probes.call ≡ 0) × (result.probes.all ≡ 0) }
        ensures tests { (result.tests.call ≡ 0) × (result.tests.all ≡ 0) }
    {
        CountedPairs::counting(Vec::new(alloc))
    }

    // No pairs. The capacity is exactly `count`.
    pub(super) fn with_capacity(alloc: Global, count: usize) -> Result<CountedPairs, AllocError>
        ensures none { IfOk result (λ held. held.pairs.items ≡ []) }
        ensures capacity { IfOk result (λ held. vec_capacity held.pairs ≡ count) }
        ensures probes { IfOk result (λ held.
            (held.probes.call ≡ 0) × (held.probes.all ≡ 0)) }
        ensures tests { IfOk result (λ held. (held.tests.call ≡ 0) × (held.tests.all ≡ 0)) }
        ensures memory { OnErr result (0 < count) }
    {
        let pairs = Vec::with_capacity(alloc, count)?;
        Ok(CountedPairs::counting(pairs))
    }

    // How many pairs there are.
    pub(super) fn len(&self) -> usize
        ensures { result ≡ length self.now.pairs.items }
    {
        self.pairs.len()
    }

    // How many probes the last call made.
    pub(super) fn probes(&self) -> u64
        ensures { result ≡ self.now.probes.call }
    {
        self.probes.call
    }

    // A call begins, which has made no probe and no test.
    pub(super) fn begin_call(&mut self)
        ensures same { self.new.pairs ≡ self.old.pairs }
        ensures probes { IsBegun self.old.probes self.new.probes }
        ensures tests { IsBegun self.old.tests self.new.tests }
    {
        self.probes.call = 0;
        self.tests.call = 0;
    }

    // Whether the span at the index starts at the place or before it. It counts as a probe.
    pub(super) fn starts_by(&mut self, index: usize, place: u64) -> bool
        requires index { index < length self.old.pairs.items }
        requires few { self.old.probes.call < 2 ^ 32 }
        ensures starts { HoldsAt (λ pair. IsTrue result ↔ (pair.0.start ≤ place))
            self.old.pairs.items index }
        ensures same { self.new.pairs ≡ self.old.pairs }
        ensures probes { IsRaised self.old.probes self.new.probes }
        ensures tests { self.new.tests ≡ self.old.tests }
    {
        self.probes.raise();
        self.pairs[index].0.start <= place
    }

    // Whether the span at the index shares a place with `span`. It counts as a test.
    pub(super) fn shares(&mut self, index: usize, span: Span) -> bool
        requires index { index < length self.old.pairs.items }
        requires few { self.old.tests.call < 2 }
        ensures shares { HoldsAt (λ pair. IsTrue result ↔ Shares pair.0 span)
            self.old.pairs.items index }
        ensures same { self.new.pairs ≡ self.old.pairs }
        ensures probes { self.new.probes ≡ self.old.probes }
        ensures tests { IsRaised self.old.tests self.new.tests }
    {
        self.tests.raise();
        self.pairs[index].0.shares(&span)
    }

    // The pair at the index, where its span holds the place. It counts as a test.
    pub(super) fn holding(&mut self, index: usize, place: u64) -> Option<(Span, u64)>
        requires index { index < length self.old.pairs.items }
        requires few { self.old.tests.call < 2 }
        ensures pair { HoldsAt (λ pair. MatchOption result (¬ Holds pair.0 place)
            (λ found. (found ≡ pair) × Holds pair.0 place)) self.old.pairs.items index }
        ensures same { self.new.pairs ≡ self.old.pairs }
        ensures probes { self.new.probes ≡ self.old.probes }
        ensures tests { IsRaised self.old.tests self.new.tests }
    {
        self.tests.raise();
        let pair = self.pairs[index];
        if pair.0.holds(place) {
            Some(pair)
        } else {
            None
        }
    }

    // Puts a pair before the one at the index, or last. Without room it allocates as
    // `make_room` does.
    pub(super) fn insert(&mut self, index: usize, span: Span, tag: u64) -> Result<(), AllocError>
        requires { index ≤ length self.old.pairs.items }
        ensures ok { OnOk result
            (self.new.pairs.items ≡ insert self.old.pairs.items index (span, tag)) }
        ensures err { OnErr result (self.new.pairs.items ≡ self.old.pairs.items) }
        ensures room { length self.old.pairs.items < vec_capacity self.old.pairs
            → vec_capacity self.new.pairs ≡ vec_capacity self.old.pairs }
        ensures more { vec_capacity self.old.pairs ≤ length self.old.pairs.items
            → vec_capacity self.new.pairs
            ≤ length self.old.pairs.items + max (length self.old.pairs.items) 4 }
        ensures full { OnErr result
            (vec_capacity self.old.pairs ≤ length self.old.pairs.items) }
        ensures probes { self.new.probes ≡ self.old.probes }
        ensures tests { self.new.tests ≡ self.old.tests }
    {
        make_room(&mut self.pairs)?;
        self.pairs.insert(index, (span, tag))?;
        Ok(())
    }
}
