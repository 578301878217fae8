//! The symbols of an opened image. (`mach-o/nlist.h`: `nlist_64`)

ghost use Rattle.std.specs.Prelude.{◌≡◌, ◌+◌, ◌≤◌, length, ◌↔◌, IsTrue, map, take, drop, slice_get};
ghost use Rattle.macho_fields.specs.Bytes.{bytes_of};
ghost use Rattle.macho_fields.specs.Image.{commands_of};
ghost use Rattle.macho_fields.specs.Symbol.{IsSectionType};
ghost use Rattle.macho_image.specs.Symbol.{symbol_at, symbols_of};

use crate::command::{long_at, word_at};
use crate::image::Image;
use crate::table::{TableEntries, TableEntry};
use macho_fields::header::nlist::{N_SECT, N_STAB, N_TYPE, NLIST_64_SIZE};
use macho_fields::{Bytes, Order};

/// An entry of the symbol table. (`nlist_64`)
#[derive(Clone, Copy)]
pub struct Symbol {
    /// Where it begins in the image.
    pub place: u64,
    /// `n_strx`: the offset of its name in the strings, in bytes, or 0 if it has none.
    pub strx: u32,
    /// `n_type`: the bits of `N_STAB`, `N_PEXT`, `N_TYPE` and `N_EXT`.
    pub kind: u8,
    /// `n_sect`: the number of its section, from 1 over all segments, or 0 if it has none.
    pub sect: u8,
    /// `n_desc`: flags, or data of a debugging entry.
    pub desc: u16,
    /// `n_value`: its address, where it is defined in a section.
    pub value: u64,
}

impl Symbol {
    /// Whether `sect` must be the number of a section: the symbol is defined in one, and is not a
    /// debugging entry.
    pub fn names_section(&self) -> bool
        ensures { IsTrue result ↔ IsSectionType self.now.kind }
    {
        self.kind & N_STAB == 0 && self.kind & N_TYPE == N_SECT
    }
}

impl TableEntry for Symbol {
    ghost use Rattle.macho_fields.specs.declared.header.nlist.TheConstants.{NLIST_64_SIZE};
    ghost use Rattle.macho_image.specs.Symbol.{symbol_at};

    ghost SIZE = { NLIST_64_SIZE };

    ghost entry_at = { symbol_at };

    const SIZE: u64 = NLIST_64_SIZE;

    #[inline]
    fn read(image: Bytes, place: u64) -> Symbol {
        Symbol {
            place,
            strx: word_at(image, place),
            kind: image.read_u8(place + TYPE_OFFSET),
            sect: image.read_u8(place + SECT_OFFSET),
            desc: image.read_u16(Order::Little, place + DESC_OFFSET),
            value: long_at(image, place + VALUE_OFFSET),
        }
    }
}

/// The symbols of an image that remain, in the order of the table.
pub type Symbols<'a> = TableEntries<'a, Symbol>;

impl<'a> Image<'a> {
    /// The `nsyms` symbols of `LC_SYMTAB`, in the order of the table. Empty if the table does not
    /// lie inside the image, or the image has no `LC_SYMTAB`.
    pub fn symbols(&self) -> Symbols<'a>
        ensures { result ≡ map (symbol_at self.now) (symbols_of self.now (commands_of self.now)) }
    {
        match self.symtab() {
            Some(table) => Symbols::in_table(self.bytes(), table.symoff, table.nsyms),
            None => Symbols::none(self.bytes()),
        }
    }

    /// Up to `count` symbols, starting at index `first` of the table. It does not scan the symbols
    /// before them.
    pub fn symbol_range(&self, first: u64, count: u64) -> Symbols<'a>
        ensures { result ≡ map (symbol_at self.now)
            (take count (drop first (symbols_of self.now (commands_of self.now)))) }
    {
        self.symbols().range(first, count)
    }

    /// The symbol with this index in the table, or `None` past its end. It does not scan the
    /// symbols before it.
    pub fn symbol(&self, index: u64) -> Option<Symbol>
        ensures { result ≡ slice_get (map (symbol_at self.now)
            (symbols_of self.now (commands_of self.now))) index }
    {
        self.symbols().get(index)
    }
}

// The offsets of `n_type`, `n_sect`, `n_desc` and `n_value` in `nlist_64`.
const TYPE_OFFSET: u64 = 4;

const SECT_OFFSET: u64 = 5;

const DESC_OFFSET: u64 = 6;

const VALUE_OFFSET: u64 = 8;
