//! What one walk over the load commands of an image finds. (`mach-o/loader.h`: `load_command`)

ghost use Rattle.std.specs.Prelude.{◌≡◌, ◌+◌, ◌^◌, ◌<◌, OnOk};
ghost use Rattle.macho_fields.specs.First.{rank};
ghost use Rattle.macho_fields.specs.Layers.{KeptBelow, Continues, StopsAt};
ghost use Rattle.macho_fields.specs.declared.rule.Rule.{Rule};
ghost use Rattle.macho_image.specs.Walk.{breaks_of, CanPass, HasPassed, HasPassedAll};

use crate::command::{command_from, word_at};
use crate::landmarks::Landmarks;
use crate::rules::{has_bad_name, is_short};
use crate::walk::{Candidate, end_of_commands, next_command};
use macho_fields::header::loader::MACH_HEADER_64_SIZE;
use macho_fields::header::loader::mach_header_64::NCMDS;
use macho_fields::{Break, FirstPlace, Rule, structure_of};

// What the walk has found of the commands that it has passed: the first that breaks each rule of
// listed commands, and where those are that views look for.
#[derive(Clone, Copy)]
pub(crate) struct CommandSurvey<'a> {
    candidate: Candidate<'a>,
    pub(crate) landmarks: Landmarks,
    command_short: FirstPlace,
    command_repeated: FirstPlace,
    // Of the commands that are not short.
    name: FirstPlace,
}

impl<'a> CommandSurvey<'a> {
    // No command is passed.
    pub(crate) fn new(candidate: Candidate<'a>) -> CommandSurvey<'a>
        ensures candidate { result.candidate ≡ candidate.entry }
        ensures passed { HasPassed result 0 }
    {
        CommandSurvey {
            candidate,
            landmarks: Landmarks::new(),
            command_short: FirstPlace::none(),
            command_repeated: FirstPlace::none(),
            name: FirstPlace::none(),
        }
    }

    // The rule `command-walk`: `ncmds` commands follow one another within the `sizeofcmds` bytes.
    // Each of them is passed.
    pub(crate) fn command_walk(&mut self) -> Result<(), Break>
        requires passed { HasPassed self.old 0 }
        requires kept { KeptBelow (breaks_of self.old.candidate) (rank Rule.CommandWalk) }
        ensures decides { Continues (breaks_of self.old.candidate) Rule.CommandWalk result }
        ensures stops { StopsAt Rule.CommandWalk result }
        ensures candidate { self.new.candidate ≡ self.old.candidate }
        ensures passed { OnOk result (HasPassedAll self.new) }
    {
        let image = self.candidate.bytes;
        let end = end_of_commands(image);
        let mut place = MACH_HEADER_64_SIZE;
        for index in 0..word_at(image, NCMDS) {
            let Some(next) = next_command(image, place, end) else {
                return Err(Break::at(Rule::CommandWalk, place));
            };
            self.pass(place, index);
            place = next;
        }
        Ok(())
    }

    // Passes the command at `place`, which has this index, from 0 on.
    fn pass(&mut self, place: u64, index: u32)
        requires next { CanPass self.old index place }
        requires fits { index + 1 < 2 ^ 32 }
        requires passed { HasPassed self.old index }
        ensures candidate { self.new.candidate ≡ self.old.candidate }
        ensures passed { HasPassed self.new (index + 1) }
    {
        let command = command_from(self.candidate.bytes, place);
        let Some(structure) = structure_of(command.cmd) else {
            return;
        };
        if is_short(command, structure) {
            self.command_short.note(place);
        } else if has_bad_name(command, structure) {
            self.name.note(place);
        }
        if self.landmarks.note(command, structure, index) {
            self.command_repeated.note(place);
        }
    }

    // The rule `command-short`: no listed command is shorter than its structure and the records
    // after it.
    pub(crate) fn command_short(&self) -> Result<(), Break>
        requires passed { HasPassedAll self.now }
        requires kept { KeptBelow (breaks_of self.now.candidate) (rank Rule.CommandShort) }
        ensures decides { Continues (breaks_of self.now.candidate) Rule.CommandShort result }
        ensures stops { StopsAt Rule.CommandShort result }
    {
        self.command_short.judge(Rule::CommandShort)
    }

    // The rule `command-repeated`: a command that an image has at most once does not come twice.
    pub(crate) fn command_repeated(&self) -> Result<(), Break>
        requires passed { HasPassedAll self.now }
        requires kept { KeptBelow (breaks_of self.now.candidate) (rank Rule.CommandRepeated) }
        ensures decides { Continues (breaks_of self.now.candidate) Rule.CommandRepeated result }
        ensures stops { StopsAt Rule.CommandRepeated result }
    {
        self.command_repeated.judge(Rule::CommandRepeated)
    }

    // The rule `name`: each name begins after the structure of its command, and ends in the command.
    pub(crate) fn name(&self) -> Result<(), Break>
        requires passed { HasPassedAll self.now }
        requires kept { KeptBelow (breaks_of self.now.candidate) (rank Rule.Name) }
        ensures decides { Continues (breaks_of self.now.candidate) Rule.Name result }
        ensures stops { StopsAt Rule.Name result }
    {
        self.name.judge(Rule::Name)
    }
}
