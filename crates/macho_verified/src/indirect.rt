//! The indirect entries of an accepted image, with their symbols. (`mach-o/loader.h`:
//! `dysymtab_command`)

use crate::image::VerifiedImage;
use crate::symbol::VerifiedSymbol;
use macho_fields::header::loader::LC_DYSYMTAB;
use macho_image::{Indirect, Indirects};
use std::marker::Model;

/// An indirect entry of an accepted image.
#[derive(Drop)]
pub struct VerifiedIndirect<'i, 'a> {
    image: &'i VerifiedImage<'a>,
    entry: Indirect,
}

impl<'i, 'a> Model for VerifiedIndirect<'i, 'a> {
    ghost use Rattle.macho_verified.specs.Image.{IndirectView, indirect_view};
    ghost use Rattle.macho_verified.specs.Accepted.{IsVerifiedIndirect};

    ghost Value = { IndirectView };

    ghost view = { λ verified. indirect_view verified.image.now verified.entry.place };

    ghost invariant = { λ verified. IsVerifiedIndirect verified.image.now verified.entry };
}

impl<'i, 'a> VerifiedIndirect<'i, 'a> {
    ghost use Rattle.std.specs.Prelude.{◌≡◌, ◌↔◌, Some, map, slice_get, IsSome, IfSome};
    ghost use Rattle.macho_fields.specs.Image.{word, commands_of};
    ghost use Rattle.macho_fields.specs.Symbol.{IsSymbolIndex};
    ghost use Rattle.macho_image.specs.Symbol.{symbols_of, indirect_at};
    ghost use Rattle.macho_verified.specs.Image.{symbol_view};

    /// The entry, with its value.
    pub fn indirect(&self) -> Indirect
        ensures { result ≡ indirect_at self.now.image self.now.place }
    {
        self.entry
    }

    /// The symbol that it names: that with this index in the symbol table. `None` exactly if it is
    /// marked as local (`INDIRECT_SYMBOL_LOCAL`) or absolute (`INDIRECT_SYMBOL_ABS`).
    pub fn symbol(&self) -> Option<VerifiedSymbol<'a>>
        ensures named { IsSome result ↔ IsSymbolIndex (word self.now.image self.now.place) }
        ensures symbol { IfSome result (λ symbol. slice_get (map (symbol_view self.now.image)
            (symbols_of self.now.image (commands_of self.now.image)))
            (word self.now.image self.now.place) ≡ Some symbol) }
    {
        if !self.entry.is_symbol_index() {
            return None;
        }
        self.image.symbol(u64::from(self.entry.value))
    }
}

/// The indirect entries of an accepted image that remain, in the order of the table.
#[derive(Drop)]
pub struct VerifiedIndirects<'i, 'a> {
    image: &'i VerifiedImage<'a>,
    entries: Indirects<'a>,
}

impl<'i, 'a> Model for VerifiedIndirects<'i, 'a> {
    ghost use Rattle.std.specs.Prelude.{List, All, map};
    ghost use Rattle.macho_verified.specs.Image.{IndirectView, indirect_view};
    ghost use Rattle.macho_verified.specs.Accepted.{IsVerifiedIndirect};

    ghost Value = { List IndirectView };

    ghost view = { λ verified.
        map (λ entry. indirect_view verified.image.now entry.place) verified.entries };

    ghost invariant = { λ verified. All (IsVerifiedIndirect verified.image.now) verified.entries };
}

impl<'i, 'a> Iterator for VerifiedIndirects<'i, 'a> {
    ghost use Rattle.std.specs.Iterator.{YieldsFirst, item_count};

    type Item = VerifiedIndirect<'i, 'a>;

    ghost next_gives = { YieldsFirst (λ left. left) };

    ghost remaining = { item_count (λ left. left) };

    fn next(&mut self) -> Option<VerifiedIndirect<'i, 'a>> {
        let entry = self.entries.next()?;
        Some(VerifiedIndirect {
            image: self.image,
            entry,
        })
    }
}

impl<'a> VerifiedImage<'a> {
    ghost use Rattle.std.specs.Prelude.{◌≡◌, map, length, IfSome};
    ghost use Rattle.macho_fields.specs.Image.{commands_of};
    ghost use Rattle.macho_fields.specs.Symbol.{nindirectsyms};
    ghost use Rattle.macho_image.specs.Command.{first_with_cmd};
    ghost use Rattle.macho_image.specs.Symbol.{indirects_of};
    ghost use Rattle.macho_verified.specs.Image.{indirect_view};

    /// All entries of the indirect symbol table, in its order. Empty if the image has no
    /// `LC_DYSYMTAB`. (`indirectsymoff` and `nindirectsyms` of `dysymtab_command`)
    pub fn indirects<'i>(&'i self) -> VerifiedIndirects<'i, 'a>
        ensures indirects { result ≡ map (indirect_view self.now)
            (indirects_of self.now (commands_of self.now)) }
        ensures whole { IfSome (first_with_cmd self.now LC_DYSYMTAB (commands_of self.now))
            (λ dysymtab. length result ≡ nindirectsyms self.now dysymtab) }
    {
        let entries = self.image.indirects();
        VerifiedIndirects {
            image: self,
            entries,
        }
    }
}
