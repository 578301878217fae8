//! The groups of symbols of an accepted image. (`mach-o/loader.h`: `dysymtab_command`)

use crate::image::VerifiedImage;
use crate::symbol::{VerifiedSymbols, strings_of};
use macho_fields::header::loader::LC_DYSYMTAB;
use macho_image::Dysymtab;

impl<'a> VerifiedImage<'a> {
    ghost use Rattle.std.specs.Prelude.{◌≡◌, ℕ, List, map, take, drop, length, IfSome};
    ghost use Rattle.macho_fields.specs.Image.{commands_of};
    ghost use Rattle.macho_fields.specs.Symbol.{ilocalsym, nlocalsym, iextdefsym, nextdefsym};
    ghost use Rattle.macho_fields.specs.Symbol.{iundefsym, nundefsym};
    ghost use Rattle.macho_image.specs.Command.{first_with_cmd};
    ghost use Rattle.macho_image.specs.Symbol.{symbols_of, dysymtab_at};
    ghost use Rattle.macho_verified.specs.Image.{symbol_view, symbol_group};
    ghost use Rattle.macho_verified.specs.Accepted.{IsAccepted};

    /// The local symbols: the `nlocalsym` symbols from the index `ilocalsym` on. Empty if the image
    /// has no `LC_DYSYMTAB`.
    pub fn local_symbols(&self) -> VerifiedSymbols<'a>
        ensures symbols { result
            ≡ map (symbol_view self.now) (symbol_group ilocalsym nlocalsym self.now) }
        ensures whole { IfSome (first_with_cmd self.now LC_DYSYMTAB (commands_of self.now))
            (λ dysymtab. length result ≡ nlocalsym self.now dysymtab) }
    {
        self.group_of(|groups| (groups.ilocalsym, groups.nlocalsym))
    }

    /// The defined external symbols: the `nextdefsym` symbols from the index `iextdefsym` on. Empty
    /// if the image has no `LC_DYSYMTAB`.
    pub fn defined_symbols(&self) -> VerifiedSymbols<'a>
        ensures symbols { result
            ≡ map (symbol_view self.now) (symbol_group iextdefsym nextdefsym self.now) }
        ensures whole { IfSome (first_with_cmd self.now LC_DYSYMTAB (commands_of self.now))
            (λ dysymtab. length result ≡ nextdefsym self.now dysymtab) }
    {
        self.group_of(|groups| (groups.iextdefsym, groups.nextdefsym))
    }

    /// The undefined symbols: the `nundefsym` symbols from the index `iundefsym` on. Empty if the
    /// image has no `LC_DYSYMTAB`.
    pub fn undefined_symbols(&self) -> VerifiedSymbols<'a>
        ensures symbols { result
            ≡ map (symbol_view self.now) (symbol_group iundefsym nundefsym self.now) }
        ensures whole { IfSome (first_with_cmd self.now LC_DYSYMTAB (commands_of self.now))
            (λ dysymtab. length result ≡ nundefsym self.now dysymtab) }
    {
        self.group_of(|groups| (groups.iundefsym, groups.nundefsym))
    }

    // The symbols of the group whose first index and number `LC_DYSYMTAB` has in these fields.
    // Empty if the image has no `LC_DYSYMTAB`.
    fn group_of<F: Fn(Dysymtab) -> (u64, u64)>(&self, fields: F) -> VerifiedSymbols<'a>
        requires { F.IsAlwaysCallable fields }
        ensures symbols { (first count : List ℕ → ℕ → ℕ)
            → ((groups : ℕ) (bounds : ℕ × ℕ) → F.post fields (dysymtab_at self.now groups) bounds
            → bounds ≡ (first self.now groups, count self.now groups))
            → result ≡ map (symbol_view self.now) (symbol_group first count self.now) }
        ensures accepted { IsAccepted self.now }
    {
        let dysymtab = self.image.dysymtab();
        self.symbol_group(dysymtab.map_or((0, 0), fields))
    }

    // The symbols of a group: up to as many as it has, starting at its first index.
    pub(crate) fn symbol_group(&self, group: (u64, u64)) -> VerifiedSymbols<'a>
        ensures symbols { result ≡ map (symbol_view self.now)
            (take group.1 (drop group.0 (symbols_of self.now (commands_of self.now)))) }
        ensures accepted { IsAccepted self.now }
    {
        VerifiedSymbols {
            image: self.image.bytes(),
            strings: strings_of(&self.image),
            symbols: self.image.symbol_range(group.0, group.1),
        }
    }
}
