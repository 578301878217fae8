//! What one walk over the load commands of an image notes for its rules. (`mach-o/loader.h`:
//! `load_command`)

ghost use Rattle.std.specs.Prelude.{◌≡◌, Some, MatchOption};
ghost use Rattle.macho_fields.specs.Bytes.{bytes_of};
ghost use Rattle.macho_fields.specs.FirstPlace.{IsLeastPlace};
ghost use Rattle.macho_fields.specs.LoadCommands.{structure_of};
ghost use Rattle.macho_image.specs.Command.{command_of};
ghost use Rattle.macho_image.specs.Opened.{IsCommandOf};
ghost use Rattle.macho_strict.specs.Commands.{NotesOne, IsNotedOf};
ghost use Rattle.macho_strict.specs.Slack.{IsNonZeroSlack};

use crate::claims::Noted;
use crate::encrypted::encrypted;
use crate::slack::first_slack;
use macho_fields::header::loader::MACH_HEADER_64_SIZE;
use macho_fields::{Bytes, Structure, structure_of};
use macho_image::{Command, Image};
use std::alloc::Global;

// What is noted of the load commands.
#[derive(Drop)]
pub(crate) struct NotedCommands<'a> {
    // Where the last one ends.
    pub(crate) end: u64,
    // The least place of a byte of one that is not zero, and that nothing in the command describes.
    pub(crate) slack: Option<u64>,
    // Whether one has an encrypted range.
    pub(crate) encrypted: bool,
    // What the headers and the commands describe.
    pub(crate) elements: Noted<'a>,
}

impl<'a> NotedCommands<'a> {
    // Goes over the load commands of the image. It is not made part of the verdict, so that the loop has
    // the registers to itself.
    #[inline(never)]
    pub(crate) fn of(alloc: Global, image: &Image<'a>) -> NotedCommands<'a>
        ensures { IsNotedOf image.now result }
    {
        let bytes = image.bytes();
        let mut noted = NotedCommands {
            end: MACH_HEADER_64_SIZE,
            slack: None,
            encrypted: false,
            elements: Noted::of_headers(alloc, image),
        };
        for command in image.commands() {
            noted.note(bytes, &command);
        }
        noted
    }

    // Notes one more command of an image that has these bytes.
    fn note(&mut self, bytes: Bytes<'a>, command: &Command)
        requires { IsCommandOf (bytes_of bytes) (command_of command.now) }
        ensures { NotesOne (bytes_of bytes.entry) (command_of command.now) self.old self.new }
    {
        let structure = structure_of(command.cmd);
        self.end = command.place + u64::from(command.size);
        self.slack = slack_with(self.slack, bytes, command, structure);
        self.encrypted = self.encrypted || encrypted(bytes, command).is_some();
        self.elements.note_command(bytes, command, structure);
    }
}

// The least place of slack of some commands, with one more, which comes after them.
fn slack_with(
    slack: Option<u64>,
    bytes: Bytes,
    command: &Command,
    structure: Option<Structure>,
) -> Option<u64>
    requires structure { structure ≡ structure_of command.now.cmd }
    requires listed { IsCommandOf (bytes_of bytes) (command_of command.now) }
    ensures { MatchOption slack
        (IsLeastPlace (IsNonZeroSlack (bytes_of bytes.entry) command.now.place) result)
        (λ place. result ≡ Some place) }
{
    if slack.is_some() {
        return slack;
    }
    first_slack(bytes, command, structure)
}
