//! The files that the words name.

ghost use Rattle.std.specs.Prelude.{◌≡◌, ℕ, List, Option, Some, None, IfOk, IfSome};

use macho_text::Failed;
use std::fs::File;
use std::io::Read;
use std::rt::Files;

/// Opens files by their names.
pub trait Open {
    type File: Read + Drop;

    /// The bytes of the file with a name, where they are known.
    ghost bytes: { Self → List ℕ → Option (List ℕ) };

    /// Opens the file with this name, to be read from its start.
    fn open(&self, name: &str) -> Result<Self::File, Failed>
        ensures { IfOk result (λ file. IfSome (bytes self.now name.now)
            (λ all. Self.File.remaining file ≡ Some all)) };
}

/// The files of the system. What they hold is not known.
#[derive(Drop)]
pub struct SystemFiles<'a, R: Files> {
    /// Opens them.
    pub system: &'a R,
}

impl<R: Files> Open for SystemFiles<'_, R> {
    type File = R::File;

    ghost bytes = { λ _ _. None };

    fn open(&self, name: &str) -> Result<R::File, Failed> {
        File::open(self.system, name).map_err(|_| Failed)
    }
}
