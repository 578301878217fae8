//! The symbol table of an opened image. (`mach-o/loader.h`: `symtab_command`)

ghost use Rattle.std.specs.Prelude.{◌≡◌, ◌+◌, ◌≤◌, ◌↔◌, length, IsSome, IfSome};
ghost use Rattle.std.specs.Option.{option_map};
ghost use Rattle.macho_fields.specs.Bytes.{bytes_of};
ghost use Rattle.macho_fields.specs.Field.{string_from};
ghost use Rattle.macho_fields.specs.Image.{commands_of};
ghost use Rattle.macho_fields.specs.LoadCommands.{structure_size};
ghost use Rattle.macho_fields.specs.declared.load_command.Structure.TheVariants.{SymtabCommand};
ghost use Rattle.macho_image.specs.Command.{first_with_cmd};
ghost use Rattle.macho_image.specs.Symbol.{symtab_at, EndsInStrings, HasName, IsNameAt};

use crate::command::word_in;
use crate::image::Image;
use macho_fields::header::loader::LC_SYMTAB;
use macho_fields::header::loader::symtab_command::{NSYMS, STROFF, STRSIZE, SYMOFF};
use macho_fields::{Bytes, Span};

/// The `LC_SYMTAB` command: the tables of the symbols and of their names. (`symtab_command`)
#[derive(Clone, Copy)]
pub struct Symtab {
    /// Where its command begins in the image.
    pub place: u64,
    /// Where the symbols begin in the image.
    pub symoff: u64,
    /// The number of symbols.
    pub nsyms: u64,
    /// Where the strings begin in the image.
    pub stroff: u64,
    /// The size of the strings, in bytes.
    pub strsize: u64,
}

impl<'a> Image<'a> {
    /// The `LC_SYMTAB` command, or `None` if the image has none.
    pub fn symtab(&self) -> Option<Symtab>
        ensures { result ≡ option_map (symtab_at self.now)
            (first_with_cmd self.now LC_SYMTAB (commands_of self.now)) }
    {
        let place = self.place_of(LC_SYMTAB)?;
        Some(symtab_from(self.bytes(), place))
    }

    /// The name at `strx`, an offset in bytes in the strings, without the zero byte that ends it.
    /// It is borrowed from the image. `None` if `strx` is 0, the image has no `LC_SYMTAB`, the
    /// strings do not lie inside the image, or none of their bytes ends the name.
    pub fn symbol_name(&self, strx: u32) -> Option<&'a [u8]>
        ensures named { IsSome result ↔ HasName self.now (commands_of self.now) strx }
        ensures name { IfSome result (λ name. IsNameAt self.now (commands_of self.now) strx name.now) }
    {
        if strx == 0 {
            return None;
        }
        let symtab = self.symtab()?;
        name_in(self.bytes(), symtab, u64::from(strx))
    }
}

// The name at the offset `strx` in the strings.
fn name_in<'a>(image: Bytes<'a>, symtab: Symtab, strx: u64) -> Option<&'a [u8]>
    ensures named { IsSome result ↔
        EndsInStrings (bytes_of image.entry) symtab.stroff symtab.strsize strx }
    ensures name { IfSome result (λ name.
        name.now ≡ string_from (symtab.stroff + strx) (bytes_of image.entry)) }
{
    let strings = Span {
        start: symtab.stroff,
        len: symtab.strsize,
    };
    if !image.contains(strings) {
        return None;
    }
    let len = symtab.strsize.checked_sub(strx)?;
    let start = symtab.stroff + strx;
    image.string_in(Span { start, len })
}

// The `symtab_command` at `place`.
fn symtab_from(image: Bytes, place: u64) -> Symtab
    requires { place + structure_size SymtabCommand ≤ length (bytes_of image) }
    ensures { result ≡ symtab_at (bytes_of image.entry) place }
{
    Symtab {
        place,
        symoff: u64::from(word_in(image, place, SYMOFF)),
        nsyms: u64::from(word_in(image, place, NSYMS)),
        stroff: u64::from(word_in(image, place, STROFF)),
        strsize: u64::from(word_in(image, place, STRSIZE)),
    }
}
