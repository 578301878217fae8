//! Ranges of places, and where they end. A place is an offset in bytes.

ghost use Rattle.std.specs.Prelude.{◌≡◌, ◌+◌, ◌*◌, ◌↔◌, IsTrue};
ghost use Rattle.macho_spans.specs.Span.{end_of, Holds, IsInside, Shares};

/// The `len` places from `start` on. A span may end past the largest `u64`.
#[derive(Clone, Copy, Debug, PartialEq, Eq)]
pub struct Span {
    /// The first place.
    pub start: u64,
    /// How many places there are.
    pub len: u64,
}

impl Span {
    /// The first place past the span, which may be too large for a `u64`.
    pub fn end(self) -> u128
        ensures { result ≡ end_of self }
    {
        u128::from(self.start) + u128::from(self.len)
    }

    /// Whether `place` is one of the places.
    pub fn holds(self, place: u64) -> bool
        ensures { IsTrue result ↔ Holds self place }
    {
        self.start <= place && u128::from(place) < self.end()
    }

    /// Whether this span begins and ends within `other`, whether or not it is empty.
    pub fn inside(self, other: &Span) -> bool
        ensures { IsTrue result ↔ IsInside self other.now }
    {
        other.start <= self.start && self.end() <= other.end()
    }

    /// Whether some place is in both spans. An empty span shares no place.
    pub fn shares(self, other: &Span) -> bool
        ensures { IsTrue result ↔ Shares self other.now }
    {
        let start = u128::from(self.start.max(other.start));
        start < self.end() && start < other.end()
    }
}

/// The first place past a table of `count` entries of `each` bytes that begins at `start`.
pub fn table_end(start: u64, count: u64, each: u64) -> u128
    ensures { result ≡ start + count * each }
{
    u128::from(start) + u128::from(count) * u128::from(each)
}
