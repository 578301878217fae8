//! What one walk over the load commands of an image finds. (`mach-o/loader.h`: `load_command`)

ghost use Rattle.std.specs.Prelude.{◌≡◌, IsTrue};
ghost use Rattle.macho_fields.specs.FirstPlace.{IsNoted};

use crate::held::{is_bad_command, is_routine};
use crate::thread::{is_bad_thread, is_thread};
use macho_fields::Bytes;
use macho_image::{Command, Image};

/// Where the commands of an image first break each of their rules: the place of the command.
#[derive(Clone, Copy)]
pub struct CommandSurvey {
    /// A thread that comes after another, or names no entry.
    pub thread: Option<u64>,
    /// A foreign command, or a held one whose content is bad.
    pub content: Option<u64>,
}

impl CommandSurvey {
    ghost use Rattle.macho_commands.specs.Survey.{IsCommandSurveyOf};

    /// Goes over the commands of the image once. It takes no memory.
    pub fn of(image: &Image) -> CommandSurvey
        ensures { IsCommandSurveyOf image.now result }
    {
        let mut walk = Walk::new();
        for command in image.commands() {
            walk.note_thread(image, &command);
            walk.note_content(image, &command);
        }
        CommandSurvey {
            thread: walk.thread,
            content: walk.content,
        }
    }
}

// What the commands that were passed have.
#[derive(Clone, Copy)]
struct Walk {
    // Whether one is a thread.
    has_thread: bool,
    // Whether one names a routine.
    has_routine: bool,
    // The first bad thread.
    thread: Option<u64>,
    // The first command with bad content.
    content: Option<u64>,
}

impl Walk {
    ghost use Rattle.std.specs.Prelude.{◌≡◌, false, None};
    ghost use Rattle.macho_image.specs.Command.{command_of};
    ghost use Rattle.macho_image.specs.Opened.{IsCommandOf};
    ghost use Rattle.macho_commands.specs.Survey.{NotesThread, NotesContent};

    // None was passed.
    const fn new() -> Walk
        ensures { result ≡ record {
          has_thread = false;
          has_routine = false;
          thread = None;
          content = None;
        } }
    {
        Walk {
            has_thread: false,
            has_routine: false,
            thread: None,
            content: None,
        }
    }

    // Notes the command if it is a thread.
    fn note_thread(&mut self, image: &Image, command: &Command)
        requires { IsCommandOf image.now (command_of command.now) }
        ensures notes { NotesThread image.now (command_of command.now) self.old self.new }
        ensures routine { self.new.has_routine ≡ self.old.has_routine }
        ensures content { self.new.content ≡ self.old.content }
    {
        if !is_thread(command.cmd) {
            return;
        }
        let is_bad = is_bad_thread(image, Bytes::new(command.bytes), self.has_thread);
        self.has_thread = true;
        self.thread = noted(self.thread, is_bad, command.place);
    }

    // Notes the command if its content is judged.
    fn note_content(&mut self, image: &Image, command: &Command)
        ensures notes { NotesContent image.now (command_of command.now) self.old self.new }
        ensures has_thread { self.new.has_thread ≡ self.old.has_thread }
        ensures thread { self.new.thread ≡ self.old.thread }
    {
        let bytes = Bytes::new(command.bytes);
        let is_bad = is_bad_command(image, command.cmd, bytes, self.has_routine);
        self.has_routine = self.has_routine || is_routine(command.cmd);
        self.content = noted(self.content, is_bad, command.place);
    }
}

// The first place that is noted, with one more that comes after it, if the rule is broken there.
fn noted(first: Option<u64>, is_broken: bool, place: u64) -> Option<u64>
    ensures { IsNoted (IsTrue is_broken) place first result }
{
    if is_broken {
        first.or(Some(place))
    } else {
        first
    }
}
