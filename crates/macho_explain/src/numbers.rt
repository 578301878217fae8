//! The two numbers that a rule compares, which are not as it says.

ghost use Rattle.std.specs.Prelude.{◌≡◌, ◌≤◌, MatchOption, Some, None};
ghost use Rattle.macho_explain.specs.Parts.{conflict_of};
ghost use Rattle.macho_explain.specs.Signatures.{Differ, IsAbove, IsBelow};

use crate::conflict::Conflict;
use crate::part::Part;

// The numbers.
#[derive(Clone, Copy)]
pub(crate) struct Numbers {
    pub(crate) value: u64,
    pub(crate) limit: u64,
}

impl Numbers {
    // What these numbers show of a part.
    pub(crate) fn of(self, part: Part) -> Conflict
        ensures { result ≡ conflict_of (Some part) None self.value self.limit }
    {
        Conflict::alone(part, self.value, self.limit)
    }

    // Numbers that have to be the same, if they are not.
    pub(crate) fn differing(value: u64, limit: u64) -> Option<Numbers>
        ensures { MatchOption result (value ≡ limit) (λ n. Differ n.value n.limit value limit) }
    {
        if value == limit {
            return None;
        }
        Some(Numbers { value, limit })
    }

    // A number that may not be below the limit, if it is.
    pub(crate) fn below(value: u64, limit: u64) -> Option<Numbers>
        ensures { MatchOption result (limit ≤ value) (λ n. IsBelow n.value n.limit value limit) }
    {
        if value >= limit {
            return None;
        }
        Some(Numbers { value, limit })
    }

    // A number that may not be above the limit, if it is.
    pub(crate) fn above(value: u64, limit: u64) -> Option<Numbers>
        ensures { MatchOption result (value ≤ limit) (λ n. IsAbove n.value n.limit value limit) }
    {
        if value <= limit {
            return None;
        }
        Some(Numbers { value, limit })
    }
}
