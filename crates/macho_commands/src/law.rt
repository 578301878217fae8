//! What follows from the definitions alone. Each law is the contract of a function that does
//! nothing when it is called: the premises are its `requires`, the conclusion its `ensures`.

ghost use Rattle.std.specs.Prelude.{ℕ};
ghost use Rattle.macho_commands.specs.Commands.{BreaksThread, BreaksCommandContent};
ghost use Rattle.macho_commands.specs.Sound.{HasSoundCommands};

/// An image that breaks neither the rule of threads nor the rule of the content of commands has at most one thread and
/// one routine, and what its commands hold and name is there.
pub fn unbroken_commands_are_sound(image: &[u8])
    requires thread { (place : ℕ) → ¬ BreaksThread image.now place }
    requires content { (place : ℕ) → ¬ BreaksCommandContent image.now place }
    ensures { HasSoundCommands image.now }
{}
