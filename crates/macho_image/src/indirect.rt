//! The indirect symbol table of an opened image. (`mach-o/loader.h`: `dysymtab_command`)

ghost use Rattle.std.specs.Prelude.{◌↔◌, IsTrue, ◌≡◌, map, take, drop, slice_get};
ghost use Rattle.macho_fields.specs.Bytes.{bytes_of};
ghost use Rattle.macho_fields.specs.Image.{commands_of};
ghost use Rattle.macho_fields.specs.Symbol.{IsSymbolIndex};
ghost use Rattle.macho_image.specs.Symbol.{indirect_at, indirects_of};

use crate::command::word_at;
use crate::image::Image;
use crate::table::{TableEntries, TableEntry};
use macho_fields::Bytes;
use macho_fields::header::loader::{
    INDIRECT_ENTRY_SIZE, INDIRECT_SYMBOL_ABS, INDIRECT_SYMBOL_LOCAL,
};

/// An entry of the indirect symbol table: 32 bits. (`indirectsymoff` of `dysymtab_command`)
#[derive(Clone, Copy)]
pub struct Indirect {
    /// Where it begins in the image.
    pub place: u64,
    /// The index of a symbol, or a value with the bit `INDIRECT_SYMBOL_LOCAL` or
    /// `INDIRECT_SYMBOL_ABS`.
    pub value: u32,
}

impl Indirect {
    /// Whether the entry is the index of a symbol: it is marked neither local nor absolute.
    pub fn is_symbol_index(self) -> bool
        ensures { IsTrue result ↔ IsSymbolIndex self.value }
    {
        self.value & INDIRECT_SYMBOL_LOCAL == 0 && self.value & INDIRECT_SYMBOL_ABS == 0
    }
}

impl TableEntry for Indirect {
    ghost use Rattle.macho_fields.specs.declared.header.loader.TheConstants.{INDIRECT_ENTRY_SIZE};
    ghost use Rattle.macho_image.specs.Symbol.{indirect_at};

    ghost SIZE = { INDIRECT_ENTRY_SIZE };

    ghost entry_at = { indirect_at };

    const SIZE: u64 = INDIRECT_ENTRY_SIZE;

    #[inline]
    fn read(image: Bytes, place: u64) -> Indirect {
        let value = word_at(image, place);
        Indirect { place, value }
    }
}

/// The indirect entries of an image that remain, in the order of the table.
pub type Indirects<'a> = TableEntries<'a, Indirect>;

impl<'a> Image<'a> {
    /// The `nindirectsyms` entries of the indirect symbol table, in its order. Empty if the table
    /// does not lie inside the image, or the image has no `LC_DYSYMTAB`.
    pub fn indirects(&self) -> Indirects<'a>
        ensures { result ≡ map (indirect_at self.now)
            (indirects_of self.now (commands_of self.now)) }
    {
        match self.dysymtab() {
            Some(table) => {
                Indirects::in_table(self.bytes(), table.indirectsymoff, table.nindirectsyms)
            }
            None => Indirects::none(self.bytes()),
        }
    }

    /// The indirect entry with this index in the table, or `None` past its end. It does not
    /// scan the entries before it.
    pub fn indirect(&self, index: u64) -> Option<Indirect>
        ensures { result ≡ slice_get (map (indirect_at self.now)
            (indirects_of self.now (commands_of self.now))) index }
    {
        self.indirects().get(index)
    }
}
