//! What the opcodes of a stream have set, and the next of them that writes pointers. (`mach-o/loader.h`:
//! `REBASE_OPCODE_..` and `BIND_OPCODE_..`)

ghost use Rattle.std.specs.Prelude.{◌≡◌, ◌<◌, MatchOption, IfSome, [], ◌∷◌};
ghost use Rattle.macho_fields.specs.Bytes.{bytes_of};
ghost use Rattle.macho_fixups.specs.Walks.{ordinal as ordinal_of, offset_past as offset_past_of, step_of, writes_from, followed};

use macho_fields::Bytes;
use macho_opcodes::cursor::Cursor;
use macho_opcodes::step::{Opcodes, Step, step_at};
use macho_tables::limits::POINTER_SIZE;

/// What the opcodes up to a place have set.
#[derive(Clone, Copy)]
pub struct Walk {
    /// The segment, the offset in it and the name.
    pub cursor: Cursor,
    /// The library in which the name is looked up, as a row of an import has it.
    pub library: i64,
    /// How much is added to what is found.
    pub addend: i64,
    /// The flags of the look-up.
    pub flags: u32,
}

/// An opcode that writes pointers.
#[derive(Clone, Copy)]
pub struct Write {
    /// What the opcodes before it have set.
    pub walk: Walk,
    /// How many pointers it writes: one or more.
    pub count: u64,
    /// How many bytes are between two of them.
    pub skip: u64,
}

/// An opcode that writes pointers, and the first place past it.
#[derive(Clone, Copy)]
pub struct Reached {
    pub write: Write,
    pub next: u64,
}

impl Walk {
    ghost use Rattle.std.specs.Prelude.{◌≡◌};
    ghost use Rattle.std.specs.Prelude.{◌<◌, IfSome};
    ghost use Rattle.macho_fixups.specs.Walks.{no_walk, followed, write_from};

    /// At the start of a stream.
    pub fn new() -> Walk
        ensures { result ≡ no_walk }
    {
        Walk {
            cursor: Cursor::new(),
            library: 0,
            addend: 0,
            flags: 0,
        }
    }

    /// Does what the step says.
    pub fn follow(&mut self, step: Step)
        ensures { self.new ≡ followed self.old step }
    {
        match step {
            Step::Done => *self = Walk::new(),
            Step::SetLibrary(number) => self.library = ordinal(number),
            Step::SetSpecial(below) => self.library = -i64::from(below),
            Step::SetSymbol { flags, .. } => self.flags = u32::from(flags),
            Step::SetAddend(addend) => self.addend = addend,
            Step::SetPointer | Step::SetSegment { .. } | Step::AddOffset(_) | Step::Write { .. } =>
                {}
        }
        self.cursor.follow(step);
    }

    // The step as one that writes, if it writes a pointer.
    fn write(self, step: Step) -> Option<Write>
        ensures write { result ≡ write_from self step }
        ensures count { IfSome result (λ write. 0 < write.count) }
    {
        match step {
            Step::Write { count, skip } if count > 0 => {
                Some(Write {
                    walk: self,
                    count,
                    skip,
                })
            }
            _ => None,
        }
    }
}

impl Write {
    ghost use Rattle.std.specs.Prelude.{◌≡◌};
    ghost use Rattle.macho_fixups.specs.Walks.{begun, step_of};

    /// What the opcode says.
    pub fn step(self) -> Step
        ensures { result ≡ step_of self }
    {
        Step::Write {
            count: self.count,
            skip: self.skip,
        }
    }

    /// What is set while its pointers are written.
    pub fn begun(self) -> Walk
        ensures { result ≡ begun self }
    {
        let mut walk = self.walk;
        walk.cursor.is_new = false;
        walk
    }
}

// The library with this ordinal, as a row of an import has it.
fn ordinal(number: u64) -> i64
    ensures { result ≡ ordinal_of number }
{
    i64::try_from(number).unwrap_or(i64::MAX)
}

/// The offset past so many pointers, modulo 2^64: each has `skip` bytes after it.
pub fn offset_past(offset: u64, count: u64, skip: u64) -> u64
    ensures { result ≡ offset_past_of offset count skip }
{
    offset.wrapping_add(count.wrapping_mul(skip.wrapping_add(POINTER_SIZE)))
}

/// The next opcode from a place on that writes pointers, if there is one before the first that says nothing.
pub fn next_write(opcodes: Opcodes, stream: Bytes, start: u64, before: Walk) -> Option<Reached>
    ensures first { MatchOption result (writes_from opcodes (bytes_of stream.entry) start before ≡ []) (λ reached.
        writes_from opcodes (bytes_of stream.entry) start before
        ≡ reached.write ∷ writes_from opcodes (bytes_of stream.entry) reached.next
        (followed reached.write.walk (step_of reached.write))) }
    ensures count { IfSome result (λ reached. 0 < reached.write.count) }
{
    let mut walk = before;
    let mut place = start;
    while let Some((step, next)) = step_at(opcodes, stream, place) {
        if let Some(write) = walk.write(step) {
            return Some(Reached { write, next });
        }
        walk.follow(step);
        place = next;
    }
    None
}
