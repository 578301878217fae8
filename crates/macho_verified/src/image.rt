//! An image of an accepted file.

use crate::section::VerifiedSection;
use crate::segment::VerifiedSegments;
use crate::symbol::{VerifiedSymbol, VerifiedSymbols};
use macho_fields::header::loader::LC_SYMTAB;
use macho_image::Image;
use macho_rules::Verified;
use std::marker::Model;

/// An image that breaks no rule. Only a verdict makes one.
#[derive(Drop)]
pub struct VerifiedImage<'a> {
    pub(crate) image: Image<'a>,
}

impl<'a> Model for VerifiedImage<'a> {
    ghost use Rattle.std.specs.Prelude.{List, ℕ};
    ghost use Rattle.macho_verified.specs.Accepted.{IsAccepted};

    ghost Value = { List ℕ };

    ghost view = { λ verified. verified.image };

    ghost invariant = { λ verified. IsAccepted verified.image };
}

impl<'a> VerifiedImage<'a> {
    ghost use Rattle.std.specs.Prelude.{◌≡◌, ◌↔◌, ◌-◌, ◌<◌, None, map, length, slice_get, Any, IsSome, IfSome, IsSomeAnd};
    ghost use Rattle.macho_fields.specs.Image.{commands_of};
    ghost use Rattle.macho_fields.specs.Layers.{NothingBreaks};
    ghost use Rattle.macho_fields.specs.Loader.{IsSoundImage};
    ghost use Rattle.macho_fields.specs.Rules.{BreaksImage};
    ghost use Rattle.macho_fields.specs.Segment.{segments_of};
    ghost use Rattle.macho_fields.specs.Symbol.{nsyms};
    ghost use Rattle.macho_fields.specs.Universal.{slices_of, slice_bytes, HasImage};
    ghost use Rattle.macho_image.specs.Command.{first_with_cmd};
    ghost use Rattle.macho_image.specs.Segment.{segment_at, section_at, sections_of};
    ghost use Rattle.macho_image.specs.Symbol.{symbols_of};
    ghost use Rattle.macho_verified.specs.Image.{symbol_view, HasBytesAt, bytes_in_segment};

    /// The image in the slice with this index, or `None` if the slice is of another kind, or the file
    /// has none. It rescans the commands of the image, and judges nothing.
    pub fn of(verified: &Verified<'a>, index: u64) -> Option<VerifiedImage<'a>>
        ensures is_image { IsSome result ↔ HasImage verified.now index }
        ensures image { IfSome result (λ image.
            IsSomeAnd (slice_get (slices_of verified.now) index)
            (λ slice. image ≡ slice_bytes verified.now slice)) }
    {
        let image = verified.image(index)?;
        Some(VerifiedImage { image })
    }

    /// The image, with all its views. Its clauses `unbroken` and `sound` are the verdict.
    pub fn image(&self) -> &Image<'a>
        ensures image { result.now ≡ self.now }
        ensures unbroken { NothingBreaks (BreaksImage self.now None) }
        ensures sound { IsSoundImage self.now (commands_of self.now) }
    {
        &self.image
    }

    /// The segments, one for each `LC_SEGMENT_64`, in the order of the commands.
    pub fn segments(&self) -> VerifiedSegments<'a>
        ensures { result ≡ map (segment_at self.now)
            (segments_of self.now (commands_of self.now)) }
    {
        VerifiedSegments {
            segments: self.image.segments(),
        }
    }

    /// The section with this number, or `None` without one. Sections are numbered from 1 on
    /// over all segments, as `n_sect` of a symbol numbers them. (`mach-o/nlist.h`: `nlist_64`)
    pub fn section(&self, number: u8) -> Option<VerifiedSection<'a>>
        ensures none { number ≡ 0 → result ≡ None }
        ensures section { 0 < number → result ≡ slice_get (map (section_at self.now)
            (sections_of self.now (commands_of self.now))) (number - 1) }
    {
        let index = usize::from(number).checked_sub(1)?;
        let section = self.image.sections().nth(index)?;
        Some(VerifiedSection { section })
    }

    /// The bytes at `len` addresses from `address` on, borrowed from the image. `None` if no one
    /// mapped segment has bytes of the file for all of them. With `len` 0 the address must be in
    /// the file part of a mapped segment, or at its end.
    pub fn bytes_at(&self, address: u64, len: u64) -> Option<&'a [u8]>
        ensures held { IsSome result ↔ Any (HasBytesAt self.now address len)
            (segments_of self.now (commands_of self.now)) }
        ensures bytes { IfSome result (λ bytes. Any
            (λ segment. HasBytesAt self.now address len segment
            × (bytes.now ≡ bytes_in_segment self.now address len segment))
            (segments_of self.now (commands_of self.now))) }
        ensures whole { IfSome result (λ bytes. length bytes.now ≡ len) }
    {
        for segment in self.segments() {
            if let Some(bytes) = segment.bytes_at(address, len) {
                return Some(bytes);
            }
        }
        None
    }

    /// All symbols of `LC_SYMTAB`, in the order of the table. Empty if the image has no
    /// `LC_SYMTAB`.
    pub fn symbols(&self) -> VerifiedSymbols<'a>
        ensures symbols { result ≡ map (symbol_view self.now)
            (symbols_of self.now (commands_of self.now)) }
        ensures whole { IfSome (first_with_cmd self.now LC_SYMTAB (commands_of self.now))
            (λ symtab. length result ≡ nsyms self.now symtab) }
    {
        let count = self.image.symtab().map_or(0, |symtab| symtab.nsyms);
        self.symbol_group((0, count))
    }

    /// The symbol with this index in the table of `LC_SYMTAB`, or `None` past its end. It does
    /// not scan the symbols before it.
    pub fn symbol(&self, index: u64) -> Option<VerifiedSymbol<'a>>
        ensures { result ≡ slice_get (map (symbol_view self.now)
            (symbols_of self.now (commands_of self.now))) index }
    {
        self.symbol_group((index, 1)).next()
    }
}
