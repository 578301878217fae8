//! The symbols of an accepted image, with their names. (`mach-o/nlist.h`: `nlist_64`)

ghost use Rattle.std.specs.Prelude.{◌≡◌, ◌+◌};
ghost use Rattle.macho_fields.specs.Bytes.{bytes_of};
ghost use Rattle.macho_fields.specs.Field.{string_from, HasZero};
ghost use Rattle.macho_spans.specs.Span.{end_of};
ghost use Rattle.macho_verified.specs.Accepted.{strings};

use macho_fields::{Bytes, Span};
use macho_image::{Image, Symbol, Symbols};
use std::marker::Model;

/// A symbol of an accepted image.
#[derive(Drop)]
pub struct VerifiedSymbol<'a> {
    pub(crate) image: Bytes<'a>,
    pub(crate) strings: Span,
    pub(crate) symbol: Symbol,
}

impl<'a> Model for VerifiedSymbol<'a> {
    ghost use Rattle.macho_fields.specs.Bytes.{bytes_of};
    ghost use Rattle.macho_verified.specs.Image.{SymbolView, symbol_view};
    ghost use Rattle.macho_verified.specs.Accepted.{IsVerifiedSymbol};

    ghost Value = { SymbolView };

    ghost view = { λ verified. symbol_view (bytes_of verified.image) verified.symbol.place };

    ghost invariant = { λ verified.
        IsVerifiedSymbol (bytes_of verified.image) verified.strings verified.symbol };
}

impl<'a> VerifiedSymbol<'a> {
    ghost use Rattle.std.specs.Prelude.{◌≡◌, ◌≢◌, ◌↔◌, IsSome, IfSome};
    ghost use Rattle.macho_fields.specs.Image.{commands_of};
    ghost use Rattle.macho_fields.specs.Symbol.{n_strx};
    ghost use Rattle.macho_image.specs.Symbol.{symbol_at, IsNameAt};

    /// The symbol, with the fields of its `nlist_64`.
    pub fn symbol(&self) -> Symbol
        ensures { result ≡ symbol_at self.now.image self.now.place }
    {
        self.symbol
    }

    /// Its name, borrowed from the image, without the zero byte that ends it. `None` exactly if its
    /// `n_strx` is 0.
    pub fn name(&self) -> Option<&'a [u8]>
        ensures named { IsSome result ↔ (n_strx self.now.image self.now.place ≢ 0) }
        ensures name { IfSome result (λ name. IsNameAt self.now.image
            (commands_of self.now.image) (n_strx self.now.image self.now.place) name.now) }
    {
        let strx = u64::from(self.symbol.strx);
        if strx == 0 {
            return None;
        }
        Some(string_at(self.image, self.strings, strx))
    }
}

// The string that begins `offset` bytes into `strings`, and ends in them.
fn string_at<'a>(image: Bytes<'a>, strings: Span, offset: u64) -> &'a [u8]
    requires { HasZero (bytes_of image) (strings.start + offset) (end_of strings) }
    ensures { result.now ≡ string_from (strings.start + offset) (bytes_of image.entry) }
{
    let rest = Span {
        start: strings.start + offset,
        len: strings.len - offset,
    };
    image.read_string(rest)
}

/// The symbols of an accepted image that remain, in the order of the table.
#[derive(Drop)]
pub struct VerifiedSymbols<'a> {
    pub(crate) image: Bytes<'a>,
    pub(crate) strings: Span,
    pub(crate) symbols: Symbols<'a>,
}

impl<'a> Model for VerifiedSymbols<'a> {
    ghost use Rattle.std.specs.Prelude.{List, All, map};
    ghost use Rattle.macho_fields.specs.Bytes.{bytes_of};
    ghost use Rattle.macho_verified.specs.Image.{SymbolView, symbol_view};
    ghost use Rattle.macho_verified.specs.Accepted.{IsVerifiedSymbol};

    ghost Value = { List SymbolView };

    ghost view = { λ verified.
        map (λ symbol. symbol_view (bytes_of verified.image) symbol.place) verified.symbols };

    ghost invariant = { λ verified.
        All (IsVerifiedSymbol (bytes_of verified.image) verified.strings) verified.symbols };
}

impl<'a> Iterator for VerifiedSymbols<'a> {
    ghost use Rattle.std.specs.Iterator.{YieldsFirst, item_count};

    type Item = VerifiedSymbol<'a>;

    ghost next_gives = { YieldsFirst (λ left. left) };

    ghost remaining = { item_count (λ left. left) };

    fn next(&mut self) -> Option<VerifiedSymbol<'a>> {
        let symbol = self.symbols.next()?;
        Some(VerifiedSymbol {
            image: self.image,
            strings: self.strings,
            symbol,
        })
    }
}

// The strings of `LC_SYMTAB`, which is the empty span if the image has none.
pub(crate) fn strings_of(image: &Image) -> Span
    ensures { result ≡ strings image.now }
{
    match image.symtab() {
        Some(symtab) => Span {
            start: symtab.stroff,
            len: symtab.strsize,
        },
        None => Span { start: 0, len: 0 },
    }
}
