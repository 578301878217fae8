//! Where a rule is first broken, as a walk finds it.

use crate::rule::{Break, Rule};
use std::marker::Model;

/// The first of the places that a walk has noted: those at which one rule is broken.
#[derive(Clone, Copy)]
pub struct FirstPlace {
    place: Option<u64>,
}

impl Model for FirstPlace {
    ghost use Rattle.std.specs.Prelude.{Option, ℕ};

    ghost Value = { Option ℕ };

    ghost view = { λ first. first.place };

    ghost inverse = { λ place. record { place = place } };
}

impl FirstPlace {
    ghost use Rattle.std.specs.Prelude.{◌≡◌, None, Some, unwrap_or, IsTrue, IsOk, IsErrAnd, MatchOption};
    ghost use Rattle.macho_fields.specs.FirstPlace.{IsNoted};

    /// No place is noted.
    pub const fn none() -> FirstPlace
        ensures { result ≡ None }
    {
        FirstPlace { place: None }
    }

    /// The place that is found, if there is one.
    pub const fn of(place: Option<u64>) -> FirstPlace
        ensures { result ≡ place }
    {
        FirstPlace { place }
    }

    /// Notes a place that comes after those noted before.
    pub fn note(&mut self, place: u64)
        ensures { self.new ≡ Some (unwrap_or self.old place) }
    {
        if self.place.is_none() {
            self.place = Some(place);
        }
    }

    /// Notes the place, as [`note`](FirstPlace::note) does, where the rule is broken there, and
    /// nothing otherwise.
    pub fn note_if(&mut self, is_broken: bool, place: u64)
        ensures { IsNoted (IsTrue is_broken) place self.old self.new }
    {
        if is_broken {
            self.note_broken(place);
        }
    }

    // Notes a place outside the loop that looks for it: a rule is seldom broken.
    #[cold]
    #[inline(never)]
    fn note_broken(&mut self, place: u64)
        ensures { self.new ≡ Some (unwrap_or self.old place) }
    {
        self.note(place);
    }

    /// The result of the rule: its break at the first place, if one is noted.
    pub fn judge(self, rule: Rule) -> Result<(), Break>
        ensures { MatchOption self (IsOk result)
            (λ place. IsErrAnd result (λ b. (b.rule ≡ rule) × (b.place ≡ place))) }
    {
        rule.judge(self.place)
    }
}
