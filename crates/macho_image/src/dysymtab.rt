//! The groups of the symbol table and the tables for the dynamic linker. (`mach-o/loader.h`:
//! `dysymtab_command`)

ghost use Rattle.std.specs.Prelude.{◌≡◌, ◌+◌, ◌≤◌, length};
ghost use Rattle.std.specs.Option.{option_map};
ghost use Rattle.macho_fields.specs.Bytes.{bytes_of};
ghost use Rattle.macho_fields.specs.Image.{word, commands_of};
ghost use Rattle.macho_fields.specs.LoadCommands.{structure_size};
ghost use Rattle.macho_fields.specs.declared.load_command.Structure.TheVariants.{DysymtabCommand};
ghost use Rattle.macho_image.specs.Command.{first_with_cmd};
ghost use Rattle.macho_image.specs.Symbol.{dysymtab_at};

use crate::command::word_in;
use crate::image::Image;
use macho_fields::Bytes;
use macho_fields::header::loader::LC_DYSYMTAB;
use macho_fields::header::loader::dysymtab_command::{
    EXTREFSYMOFF, EXTRELOFF, IEXTDEFSYM, ILOCALSYM, INDIRECTSYMOFF, IUNDEFSYM, LOCRELOFF,
    MODTABOFF, NEXTDEFSYM, NEXTREFSYMS, NEXTREL, NINDIRECTSYMS, NLOCALSYM, NLOCREL, NMODTAB, NTOC,
    NUNDEFSYM, TOCOFF,
};

/// The `LC_DYSYMTAB` command: three groups of symbols, each a first index in the symbol table and a
/// number of symbols, and six tables, each an offset in bytes and a number of entries.
/// (`dysymtab_command`)
#[derive(Clone, Copy, Debug, PartialEq, Eq)]
pub struct Dysymtab {
    /// Where its command begins in the image.
    pub place: u64,
    /// The index of the first local symbol.
    pub ilocalsym: u64,
    /// The number of local symbols.
    pub nlocalsym: u64,
    /// The index of the first defined external symbol.
    pub iextdefsym: u64,
    /// The number of defined external symbols.
    pub nextdefsym: u64,
    /// The index of the first undefined symbol.
    pub iundefsym: u64,
    /// The number of undefined symbols.
    pub nundefsym: u64,
    /// Where the table of contents begins in the image.
    pub tocoff: u64,
    /// The number of entries of the table of contents.
    pub ntoc: u64,
    /// Where the table of modules begins in the image.
    pub modtaboff: u64,
    /// The number of modules.
    pub nmodtab: u64,
    /// Where the table of referenced symbols begins in the image.
    pub extrefsymoff: u64,
    /// The number of referenced symbols.
    pub nextrefsyms: u64,
    /// Where the indirect entries begin in the image.
    pub indirectsymoff: u64,
    /// The number of indirect entries.
    pub nindirectsyms: u64,
    /// Where the external relocations begin in the image.
    pub extreloff: u64,
    /// The number of external relocations.
    pub nextrel: u64,
    /// Where the local relocations begin in the image.
    pub locreloff: u64,
    /// The number of local relocations.
    pub nlocrel: u64,
}

impl<'a> Image<'a> {
    /// The `LC_DYSYMTAB` command, or `None` if the image has none.
    pub fn dysymtab(&self) -> Option<Dysymtab>
        ensures { result ≡ option_map (dysymtab_at self.now)
            (first_with_cmd self.now LC_DYSYMTAB (commands_of self.now)) }
    {
        let place = self.place_of(LC_DYSYMTAB)?;
        Some(dysymtab_from(self.bytes(), place))
    }
}

// The `dysymtab_command` at `place`.
fn dysymtab_from(image: Bytes, place: u64) -> Dysymtab
    requires { place + structure_size DysymtabCommand ≤ length (bytes_of image) }
    ensures { result ≡ dysymtab_at (bytes_of image.entry) place }
{
    Dysymtab {
        place,
        ilocalsym: field_in(image, place, ILOCALSYM),
        nlocalsym: field_in(image, place, NLOCALSYM),
        iextdefsym: field_in(image, place, IEXTDEFSYM),
        nextdefsym: field_in(image, place, NEXTDEFSYM),
        iundefsym: field_in(image, place, IUNDEFSYM),
        nundefsym: field_in(image, place, NUNDEFSYM),
        tocoff: field_in(image, place, TOCOFF),
        ntoc: field_in(image, place, NTOC),
        modtaboff: field_in(image, place, MODTABOFF),
        nmodtab: field_in(image, place, NMODTAB),
        extrefsymoff: field_in(image, place, EXTREFSYMOFF),
        nextrefsyms: field_in(image, place, NEXTREFSYMS),
        indirectsymoff: field_in(image, place, INDIRECTSYMOFF),
        nindirectsyms: field_in(image, place, NINDIRECTSYMS),
        extreloff: field_in(image, place, EXTRELOFF),
        nextrel: field_in(image, place, NEXTREL),
        locreloff: field_in(image, place, LOCRELOFF),
        nlocrel: field_in(image, place, NLOCREL),
    }
}

// The 32-bit field at `offset` in the structure that begins at `place`, as a 64-bit number.
fn field_in(image: Bytes, place: u64, offset: u64) -> u64
    requires { place + offset + 4 ≤ length (bytes_of image) }
    ensures { result ≡ word (bytes_of image.entry) (place + offset) }
{
    u64::from(word_in(image, place, offset))
}
