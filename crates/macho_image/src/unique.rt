//! The commands that an image has at most once. (`mach-o/loader.h`: `load_command`)

ghost use Rattle.std.specs.Prelude.{◌≡◌, ◌<◌, ◌∷◌, ◌++◌, ◌↔◌, [], ℕ, List, None, IsTrue, IsSome};
ghost use Rattle.macho_fields.specs.Image.{command_cmd};
ghost use Rattle.macho_fields.specs.LoadCommands.{IsUnique};
ghost use Rattle.macho_image.specs.Command.{first_with_cmd};
ghost use Rattle.macho_image.specs.Walk.{AreFirst};

use crate::command::Command;
use macho_fields::{UNIQUE_COUNT, unique_index};

// For each unique command, at its `macho_fields::unique_index`, the place of the first one, or 0 if
// the image does not have it: the header is at 0.
#[derive(Clone, Copy)]
pub(crate) struct UniquePlaces {
    places: [u64; UNIQUE_COUNT],
}

impl UniquePlaces {
    // The places where no command was noted.
    pub(crate) fn new() -> UniquePlaces
        ensures { (image : List ℕ) → AreFirst image [] result }
    {
        UniquePlaces {
            places: [0; UNIQUE_COUNT],
        }
    }

    // The place of the first command with this `cmd` that was noted.
    pub(crate) fn of(&self, cmd: u32) -> Option<u64>
        ensures unique { (image commands : List ℕ) → AreFirst image commands self.now
            → IsUnique cmd → result ≡ first_with_cmd image cmd commands }
        ensures other { ¬ IsUnique cmd → result ≡ None }
    {
        let index = unique_index(cmd)?;
        let place = self.places[index];
        if place == 0 {
            return None;
        }
        Some(place)
    }

    // Notes a command that comes after those noted before. Returns whether it is a second one of
    // which an image has at most one.
    pub(crate) fn note(&mut self, command: Command) -> bool
        ensures first { (image commands : List ℕ)
            → command.entry.cmd ≡ command_cmd image command.entry.place
            → 0 < command.entry.place → AreFirst image commands self.old
            → AreFirst image (commands ++ command.entry.place ∷ []) self.new }
        ensures second { (image commands : List ℕ) → AreFirst image commands self.old
            → (IsTrue result ↔ IsUnique command.entry.cmd
            × IsSome (first_with_cmd image command.entry.cmd commands)) }
    {
        let Some(index) = unique_index(command.cmd) else {
            return false;
        };
        if self.places[index] != 0 {
            return true;
        }
        self.places[index] = command.place;
        false
    }
}
