//! Where the steps of a stream write, and what they look up.

ghost use Rattle.std.specs.Prelude.{◌≡◌};

use crate::step::Step;
use macho_fields::Span;
use macho_tables::limits::POINTER_SIZE;

/// What the steps up to a place have set.
#[derive(Clone, Copy)]
pub struct Cursor {
    /// The index of the segment that is written, if one is set.
    pub segment: Option<u8>,
    /// The offset in the segment, which is kept modulo 2^64: linkers move back by adding.
    pub offset: u64,
    /// The bytes in the stream of the name that is looked up, with the zero byte that ends it, if one is
    /// set.
    pub name: Option<Span>,
    /// Whether the name or the library was set since a name was looked up, which then is looked up again.
    pub is_new: bool,
}

// How much the steps before a place do.
#[derive(Clone, Copy)]
pub(crate) struct Totals {
    // How many pointers they write.
    pub(crate) pointers: u128,
    // How many bytes of names they look up.
    pub(crate) names: u128,
}

impl Totals {
    ghost use Rattle.std.specs.Prelude.{◌≡◌, ◌+◌, ◌^◌, ◌≤◌, ◌<◌};
    ghost use Rattle.macho_opcodes.specs.Cursor.{nothing, with_step, writes, looks_up};

    // Of no step.
    pub(crate) fn new() -> Totals
        ensures { result ≡ nothing }
    {
        Totals {
            pointers: 0,
            names: 0,
        }
    }

    // With one step more, at its cursor.
    pub(crate) fn with(self, cursor: Cursor, step: Step) -> Totals
        requires pointers { self.pointers + 2 ^ 64 ≤ 2 ^ 128 }
        requires names { self.names + 2 ^ 64 ≤ 2 ^ 128 }
        ensures sums { result ≡ with_step self cursor step }
        ensures pointers { writes step < 2 ^ 64 }
        ensures names { looks_up cursor step < 2 ^ 64 }
    {
        match step {
            Step::Write { count, .. } => Totals {
                pointers: self.pointers + u128::from(count),
                names: self.names + u128::from(cursor.looks_up(step)),
            },
            _ => self,
        }
    }
}

impl Cursor {
    ghost use Rattle.std.specs.Prelude.{◌≡◌};
    ghost use Rattle.macho_opcodes.specs.Cursor.{start, advanced, moved, written, looks_up};

    /// The cursor at the start of a stream.
    pub fn new() -> Cursor
        ensures { result ≡ start }
    {
        Cursor {
            segment: None,
            offset: 0,
            name: None,
            is_new: false,
        }
    }

    /// Does what the step says.
    pub fn follow(&mut self, step: Step)
        ensures { self.new ≡ moved self.old step }
    {
        match step {
            Step::Done => *self = Cursor::new(),
            Step::SetLibrary(_) | Step::SetSpecial(_) => self.is_new = true,
            Step::SetSymbol { name, .. } => {
                self.name = Some(name);
                self.is_new = true;
            }
            Step::SetSegment { segment, offset } => {
                self.segment = Some(segment);
                self.offset = offset;
            }
            Step::AddOffset(distance) => self.advance(distance),
            Step::Write { count, skip } => self.write(count, skip),
            Step::SetPointer | Step::SetAddend(_) => {}
        }
    }

    /// How many bytes of a name the step looks up: the bytes of a new one, if it writes.
    pub fn looks_up(self, step: Step) -> u64
        ensures { result ≡ looks_up self step }
    {
        if step.writes() == 0 || !self.is_new {
            return 0;
        }
        match self.name {
            Some(name) => name.len,
            None => 0,
        }
    }

    // Passes so many pointers, which look the name up if it is new.
    fn write(&mut self, count: u64, skip: u64)
        ensures { self.new ≡ written self.old count skip }
    {
        self.advance(count.wrapping_mul(skip.wrapping_add(POINTER_SIZE)));
        if count > 0 {
            self.is_new = false;
        }
    }

    // Grows the offset by so much, modulo 2^64.
    fn advance(&mut self, distance: u64)
        ensures { self.new ≡ advanced self.old distance }
    {
        self.offset = self.offset.wrapping_add(distance);
    }
}
