//! The sections of an accepted image, with their bytes. (`mach-o/loader.h`: `section_64`)

use crate::data::data_in;
use macho_image::{Section, Sections};
use std::marker::Model;

/// A section of an accepted image.
#[derive(Drop)]
pub struct VerifiedSection<'a> {
    pub(crate) section: Section<'a>,
}

impl<'a> Model for VerifiedSection<'a> {
    ghost use Rattle.macho_image.specs.Segment.{SectionView};
    ghost use Rattle.macho_verified.specs.Accepted.{IsVerifiedSection};

    ghost Value = { SectionView };

    ghost view = { λ verified. verified.section };

    ghost invariant = { λ verified. IsVerifiedSection verified.section };
}

impl<'a> VerifiedSection<'a> {
    ghost use Rattle.std.specs.Prelude.{◌≡◌, ◌↔◌, false, length, IsSome, IfSome};
    ghost use Rattle.macho_fields.specs.Field.{part};
    ghost use Rattle.macho_fields.specs.Segment.{section_offset, section_size, is_zero_fill};

    /// The section, with the fields of its `section_64`.
    pub fn section(&self) -> &Section<'a>
        ensures { result.now ≡ self.now }
    {
        &self.section
    }

    /// Its bytes, borrowed from the image: the `size` bytes from `offset` on. `None` exactly if it
    /// is zero-fill.
    pub fn bytes(&self) -> Option<&'a [u8]>
        ensures in_file { IsSome result ↔ (is_zero_fill self.now.image self.now.place ≡ false) }
        ensures bytes { IfSome result (λ bytes.
            bytes.now ≡ part (section_offset self.now.image self.now.place)
            (section_size self.now.image self.now.place) self.now.image) }
        ensures whole { IfSome result (λ bytes.
            length bytes.now ≡ section_size self.now.image self.now.place) }
    {
        if self.section.is_zero_fill() {
            return None;
        }
        Some(data_in(self.section.segment().image(), self.section.file_part()))
    }
}

/// The sections of a segment of an accepted image that remain, in the order of the file.
#[derive(Drop)]
pub struct VerifiedSections<'a> {
    pub(crate) sections: Sections<'a>,
}

impl<'a> Model for VerifiedSections<'a> {
    ghost use Rattle.std.specs.Prelude.{List, All};
    ghost use Rattle.macho_image.specs.Segment.{SectionView};
    ghost use Rattle.macho_verified.specs.Accepted.{IsVerifiedSection};

    ghost Value = { List SectionView };

    ghost view = { λ verified. verified.sections };

    ghost invariant = { λ verified. All IsVerifiedSection verified.sections };
}

impl<'a> Iterator for VerifiedSections<'a> {
    ghost use Rattle.std.specs.Iterator.{YieldsFirst, item_count};

    type Item = VerifiedSection<'a>;

    ghost next_gives = { YieldsFirst (λ left. left) };

    ghost remaining = { item_count (λ left. left) };

    fn next(&mut self) -> Option<VerifiedSection<'a>> {
        let section = self.sections.next()?;
        Some(VerifiedSection { section })
    }
}
