//! Where an image has the commands that its views look for. (`mach-o/loader.h`: `load_command`)

ghost use Rattle.std.specs.Prelude.{◌≡◌, ◌+◌, ◌-◌, ◌≤◌, ◌<◌, ◌^◌, ◌↔◌, ℕ, List, Bool, Some, IsTrue};
ghost use Rattle.macho_fields.specs.Bytes.{bytes_of};
ghost use Rattle.macho_fields.specs.Image.{command_cmd, command_count};
ghost use Rattle.macho_fields.specs.LoadCommands.{structure_of};
ghost use Rattle.macho_image.specs.Opened.{IsOpened};
ghost use Rattle.macho_image.specs.Walk.{AreLandmarks, IsAt, IsRange, Repeats};

use crate::command::{Command, command_from, word_at};
use crate::unique::UniquePlaces;
use macho_fields::header::loader::mach_header_64::NCMDS;
use macho_fields::header::loader::{LC_BUILD_VERSION, LC_SEGMENT_64, MACH_HEADER_64_SIZE};
use macho_fields::{Bytes, Structure, structure_of};

// The commands from the first that is noted to the last.
#[derive(Clone, Copy)]
pub(crate) struct CommandRange {
    // Where the first is.
    pub(crate) place: u64,
    // How many commands come before it.
    pub(crate) before: u32,
    // How many commands there are from it to the last, both included. None where none is noted.
    pub(crate) count: u32,
}

impl CommandRange {
    // The range where no command is noted.
    fn new() -> CommandRange
        ensures { (image : List ℕ) (test : ℕ → Bool) → IsRange image test 0 result }
    {
        CommandRange {
            place: MACH_HEADER_64_SIZE,
            before: 0,
            count: 0,
        }
    }

    // Notes a command that comes after those noted before: the one with this index, from 0 on.
    fn note(&mut self, place: u64, index: u32)
        requires later { self.old.before + self.old.count ≤ index }
        requires fits { index + 1 < 2 ^ 32 }
        ensures first { self.old.count ≡ 0
            → self.new ≡ record { place = place; before = index; count = 1 } }
        ensures more { 0 < self.old.count
            → self.new ≡ record self.old { count = index + 1 - self.old.before } }
    {
        if self.count == 0 {
            self.place = place;
            self.before = index;
        }
        self.count = index + 1 - self.before;
    }
}

/// Where an image has the commands that it has at most once, its segments, builds and libraries, and the
/// commands that name a table. With them an image is opened again without another scan.
#[derive(Clone, Copy)]
pub struct Landmarks {
    pub(crate) unique: UniquePlaces,
    pub(crate) segments: CommandRange,
    pub(crate) builds: CommandRange,
    pub(crate) libraries: CommandRange,
    pub(crate) tables: CommandRange,
}

impl Landmarks {
    // The landmarks of no commands.
    pub(crate) fn new() -> Landmarks
        ensures { (image : List ℕ) → AreLandmarks image 0 result }
    {
        Landmarks {
            unique: UniquePlaces::new(),
            segments: CommandRange::new(),
            builds: CommandRange::new(),
            libraries: CommandRange::new(),
            tables: CommandRange::new(),
        }
    }

    // The landmarks of an opened image.
    pub(crate) fn of(image: Bytes) -> Landmarks
        requires { IsOpened (bytes_of image) }
        ensures { AreLandmarks (bytes_of image.entry) (command_count (bytes_of image.entry)) result }
    {
        let mut landmarks = Landmarks::new();
        let mut place = MACH_HEADER_64_SIZE;
        for index in 0..word_at(image, NCMDS) {
            let command = command_from(image, place);
            if let Some(structure) = structure_of(command.cmd) {
                landmarks.note(command, structure, index);
            }
            place += u64::from(command.size);
        }
        landmarks
    }

    // Notes the command of this structure and with this index, from 0 on, after those before it.
    // Returns whether it is a second one of a kind that an image has at most once.
    pub(crate) fn note(&mut self, command: Command, structure: Structure, index: u32) -> bool
        requires listed { structure_of command.cmd ≡ Some structure }
        requires segments { self.old.segments.before + self.old.segments.count ≤ index }
        requires builds { self.old.builds.before + self.old.builds.count ≤ index }
        requires libraries { self.old.libraries.before + self.old.libraries.count ≤ index }
        requires tables { self.old.tables.before + self.old.tables.count ≤ index }
        requires fits { index + 1 < 2 ^ 32 }
        ensures landmarks { (image : List ℕ) → IsAt image index command.entry.place
            → command.entry.cmd ≡ command_cmd image command.entry.place
            → AreLandmarks image index self.old → AreLandmarks image (index + 1) self.new }
        ensures repeats { (image : List ℕ) → IsAt image index command.entry.place
            → command.entry.cmd ≡ command_cmd image command.entry.place
            → AreLandmarks image index self.old
            → (IsTrue result ↔ Repeats image index command.entry.place) }
    {
        if command.cmd == LC_SEGMENT_64 {
            self.segments.note(command.place, index);
            return false;
        }
        if command.cmd == LC_BUILD_VERSION {
            self.builds.note(command.place, index);
            return false;
        }
        if let Structure::DylibCommand = structure {
            self.libraries.note(command.place, index);
        } else if !structure.tables().is_empty() {
            self.tables.note(command.place, index);
        }
        self.unique.note(command)
    }
}
