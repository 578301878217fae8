//! The rules of one stream of opcodes, in one pass over it.

ghost use Rattle.std.specs.Prelude.{◌≡◌, ◌-◌, ◌^◌, ◌<◌, min};
ghost use Rattle.macho_fields.specs.Bytes.{bytes_of};
ghost use Rattle.macho_opcodes.specs.Streams.{reach as reach_of, IsStreamSurvey};

use crate::cursor::{Cursor, Totals};
use crate::step::{Opcodes, Step, step_at};
use macho_fields::Bytes;
use macho_image::Image;
use macho_tables::limits::{
    POINTER_SIZE, Rooms, SEGMENTS, SPECIAL_ORDINALS, library_count, rooms_of,
};
use macho_tables::place::note_if;

/// What the rules of a stream compare its steps with.
#[derive(Clone, Copy)]
pub struct Limits {
    /// How many bytes of each of the first segments can be written, from its start on.
    pub rooms: [u64; SEGMENTS],
    /// How many libraries there are.
    pub libraries: u64,
    /// How many pointers a stream may write.
    pub budget: u128,
}

/// Where a stream first breaks each of its rules, as an offset in the stream.
#[derive(Clone, Copy)]
pub struct StreamSurvey {
    /// The first opcode that says nothing.
    pub opcode: Option<u64>,
    /// The first one with an ordinal of no library.
    pub library: Option<u64>,
    /// The first one that writes while no name is set.
    pub symbol: Option<u64>,
    /// The first one that writes where it may not.
    pub slot: Option<u64>,
    /// The first one with which more is written than the stream may write.
    pub total: Option<u64>,
    /// The first one that writes with which the names that were looked up have more bytes than the stream.
    pub names: Option<u64>,
}

/// Goes over the steps of a stream, once.
pub fn survey(opcodes: Opcodes, stream: Bytes, limits: &Limits) -> StreamSurvey
    ensures { IsStreamSurvey opcodes (bytes_of stream.entry) limits.now result }
{
    let mut survey = StreamSurvey::unbroken();
    let mut cursor = Cursor::new();
    let mut totals = Totals::new();
    let mut place = 0;
    while place < stream.len() {
        let Some((step, next)) = step_at(opcodes, stream, place) else {
            survey.opcode = Some(place);
            return survey;
        };
        totals = survey.note(place, cursor, totals, step, limits, stream.len());
        cursor.follow(step);
        place = next;
    }
    survey
}

impl StreamSurvey {
    ghost use Rattle.std.specs.Prelude.{◌≡◌, ◌+◌, ◌^◌, ◌≤◌, ◌<◌};
    ghost use Rattle.macho_fields.specs.FirstPlace.{IsNoted};
    ghost use Rattle.macho_opcodes.specs.Cursor.{with_step, writes, looks_up};
    ghost use Rattle.macho_opcodes.specs.Streams.{unbroken, NamesNoLibrary, LacksName, WritesOutside, PassesBudget, PassesNames};

    // No rule is broken.
    pub(crate) fn unbroken() -> StreamSurvey
        ensures { result ≡ unbroken }
    {
        StreamSurvey {
            opcode: None,
            library: None,
            symbol: None,
            slot: None,
            total: None,
            names: None,
        }
    }

    // Notes which rules the step at `place` breaks. The steps before it have the totals `before`, and those
    // with it are returned. The stream may look up so many bytes of names.
    fn note(
        &mut self,
        place: u64,
        cursor: Cursor,
        before: Totals,
        step: Step,
        limits: &Limits,
        most: u64,
    ) -> Totals
        requires pointers { before.pointers + 2 ^ 64 ≤ 2 ^ 128 }
        requires names { before.names + 2 ^ 64 ≤ 2 ^ 128 }
        ensures opcode { self.new.opcode ≡ self.old.opcode }
        ensures library { IsNoted (NamesNoLibrary limits.now.libraries cursor before.pointers step)
            place self.old.library self.new.library }
        ensures symbol { IsNoted (LacksName cursor before.pointers step) place
            self.old.symbol self.new.symbol }
        ensures slot { IsNoted (WritesOutside limits.now.rooms cursor before.pointers step) place
            self.old.slot self.new.slot }
        ensures total { IsNoted (PassesBudget limits.now.budget cursor before.pointers step) place
            self.old.total self.new.total }
        ensures names { IsNoted (PassesNames most cursor before.names step) place
            self.old.names self.new.names }
        ensures totals { result ≡ with_step before cursor step }
        ensures few { writes step < 2 ^ 64 }
        ensures short { looks_up cursor step < 2 ^ 64 }
    {
        let with = before.with(cursor, step);
        match step {
            Step::SetLibrary(ordinal) => note_if(
                &mut self.library,
                ordinal > limits.libraries,
                place,
            ),
            Step::SetSpecial(below) => note_if(&mut self.library, below > SPECIAL_ORDINALS, place),
            Step::Write { count, skip } if count > 0 => {
                note_if(&mut self.symbol, cursor.name.is_none(), place);
                note_if(&mut self.slot, !limits.has_room(cursor, count, skip), place);
                note_if(&mut self.total, with.pointers > limits.budget, place);
                note_if(&mut self.names, with.names > u128::from(most), place);
            }
            _ => {}
        }
        with
    }
}

impl Limits {
    ghost use Rattle.std.specs.Prelude.{◌≡◌, ◌↔◌, ◌<◌, IsTrue};
    ghost use Rattle.macho_tables.specs.Limits.{AreRooms, rooms_of, budget_of, library_count};
    ghost use Rattle.macho_opcodes.specs.Streams.{EndsInRoom, reach};

    /// The limits of the streams of the image.
    pub fn of(image: &Image) -> Limits
        ensures rooms { AreRooms (rooms_of image.now) result.rooms }
        ensures libraries { result.libraries ≡ library_count image.now }
        ensures budget { result.budget ≡ budget_of image.now }
    {
        let Rooms { sizes, budget } = rooms_of(image);
        Limits {
            rooms: sizes,
            libraries: library_count(image),
            budget,
        }
    }

    // Whether so many pointers from the cursor on all end in the room of the segment that is set.
    #[tactic(auto, using(crate::proofs::Reaches::capped_reach))]
    fn has_room(&self, cursor: Cursor, count: u64, skip: u64) -> bool
        requires { 0 < count }
        ensures { IsTrue result
            ↔ EndsInRoom self.now.rooms cursor.segment (reach cursor.offset count skip) }
    {
        let Some(segment) = cursor.segment else {
            return false;
        };
        match self.rooms.get(usize::from(segment)) {
            Some(room) => reach(cursor.offset, count, skip) <= u128::from(*room),
            None => false,
        }
    }
}

// The offset past the last of so many pointers. No segment has room for two with a stride of 2^64 - 1 or
// more, so a greater one is taken for that.
fn reach(offset: u64, count: u64, skip: u64) -> u128
    requires { 0 < count }
    ensures { result ≡ reach_of offset count (min skip (2 ^ 64 - 1 - POINTER_SIZE)) }
{
    let stride = POINTER_SIZE.saturating_add(skip);
    let first_end = u128::from(offset) + u128::from(POINTER_SIZE);
    u128::from(count - 1) * u128::from(stride) + first_end
}
