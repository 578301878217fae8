//! The filetypes of the images that are judged. (`mach-o/loader.h`: `mach_header_64.filetype`)

ghost use Rattle.std.specs.Prelude.{◌≡◌, ◌==◌, find};
ghost use Rattle.std.specs.Option.{option_map};
ghost use Rattle.macho_fields.specs.FileTypes.{file_type_of, file_type_view};

use crate::header::loader;

/// What an image is.
#[derive(Clone, Copy)]
pub enum Kind {
    // registry: kinds
    /// `MH_EXECUTE`: an executable, which is run as a program.
    Execute,
    /// `MH_DYLIB`: a library, which programs are linked with.
    Dylib,
    /// `MH_BUNDLE`: a bundle, which a running program loads.
    Bundle,
    // registry: end
}

/// A filetype that is judged.
#[derive(Clone, Copy)]
pub struct FileType {
    /// The `filetype` in the header.
    pub number: u32,
    /// What an image of this type is.
    pub kind: Kind,
    /// The word for it in the report.
    pub word: &'static str,
    /// Whether the image names itself by an `LC_ID_DYLIB`; otherwise it has none.
    pub names_itself: bool,
}

// A line of the list: the number, the kind, the word, and whether the image names itself.
macro_rules! file_type {
    ($number:ident, $kind:ident, $word:expr, $names_itself:expr) => {
        FileType {
            number: loader::$number,
            kind: Kind::$kind,
            word: $word,
            names_itself: $names_itself,
        }
    };
}

// The filetypes that are judged.
const FILE_TYPES: &[FileType] = &[
    // registry: filetypes
    file_type!(MH_EXECUTE, Execute, "execute", false),
    file_type!(MH_DYLIB, Dylib, "dylib", true),
    file_type!(MH_BUNDLE, Bundle, "bundle", false),
    // registry: end
];

/// The filetype with this number, or `None` if images of it are not judged.
pub fn file_type_of(number: u32) -> Option<FileType>
    ensures { option_map file_type_view result ≡ file_type_of number }
{
    first_of(number, FILE_TYPES).copied()
}

// The first of the filetypes with this number.
fn first_of(number: u32, file_types: &[FileType]) -> Option<&FileType>
    ensures { option_map (λ found. found.now) result
        ≡ find (λ file_type. file_type.number == number) file_types.now }
{
    file_types
        .iter()
        .find(|file_type| file_type.number == number)
}
