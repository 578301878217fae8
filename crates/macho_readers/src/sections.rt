//! The rules of sections: what readers see of their names. (`mach-o/loader.h`: `section_64`)

ghost use Rattle.std.specs.Prelude.{◌≡◌, ◌+◌, ◌≤◌, ◌<◌, ◌↔◌, IsTrue, IfOk, OnErr, map, length, Any};
ghost use Rattle.macho_fields.specs.FirstPlace.{IsLeastPlace};
ghost use Rattle.macho_fields.specs.Image.{commands_of};
ghost use Rattle.macho_image.specs.Segment.{sections_of, section_name as section_name_of};
ghost use Rattle.macho_readers.specs.Names.{number_of, names_of};
ghost use Rattle.macho_readers.specs.Sections.{segment_name_of, LieInside, HasOtherSegment, IsMisnamed, HasEarlierNames, AtSection, BreaksSectionName};

use crate::names::{
    FEW_NAMES, Named, has_tail, least_repeated, name_field, name_number, note_bytes,
};
use macho_fields::Span;
use macho_fields::header::loader::{
    SECTION_64_SIZE, SHORT_NAME_SIZE, section_64, segment_command_64,
};
use macho_image::{Image, Section};
use macho_tables::place::{lesser, place_of_section};
use std::alloc::{AllocError, Global};

/// The place of the first section with a byte past its name, with another `segname` than its segment, or with both
/// names of an earlier section. For n sections it takes time in the order of n log n, and memory only if there are more
/// than [`FEW_NAMES`].
pub fn section_name(alloc: Global, image: &Image) -> Result<Option<u64>, AllocError>
    ensures least { IfOk result (IsLeastPlace (BreaksSectionName image.now)) }
    ensures memory { OnErr result
        (FEW_NAMES < length (sections_of image.now (commands_of image.now))) }
{
    let misnamed = first_misnamed(image);
    let repeated = repeated_names(alloc, image)?;
    Ok(lesser(misnamed, repeated))
}

// The place of the first section whose names are seen in two ways, whatever the other names are.
fn first_misnamed(image: &Image) -> Option<u64>
    ensures { IsLeastPlace (AtSection image.now (IsMisnamed image.now)) result }
{
    place_of_section(image.sections().find(|section| is_misnamed(section)))
}

// Whether the names of the section are seen in two ways.
#[tactic(auto, unfolding(crate::specs::Sections::IsMisnamed))]
fn is_misnamed(section: &Section) -> bool
    requires { LieInside section.now.image (section.now.segment, section.now.place) }
    ensures { IsTrue result ↔ IsMisnamed section.now.image (section.now.segment, section.now.place) }
{
    has_tail(section.segment().image(), section.place()) || has_other_segment(section)
}

// Whether the 16 bytes of `segname` are not those that name the segment.
fn has_other_segment(section: &Section) -> bool
    requires { LieInside section.now.image (section.now.segment, section.now.place) }
    ensures { IsTrue result
        ↔ HasOtherSegment section.now.image (section.now.segment, section.now.place) }
{
    let segment = section.segment();
    let image = segment.image();
    let own = name_field(image, section.place() + section_64::SEGNAME);
    own != name_field(image, segment.place() + segment_command_64::SEGNAME)
}

/// The name of the segment that the section says it is in.
pub fn segment_name<'a>(section: &Section<'a>) -> &'a [u8]
    requires { section.now.place + SECTION_64_SIZE ≤ length section.now.image }
    ensures { result.now ≡ segment_name_of section.now.image section.now.place }
{
    let image = section.segment().image();
    let whole = Span {
        start: section.place() + section_64::SEGNAME,
        len: SHORT_NAME_SIZE,
    };
    match image.string_in(whole) {
        Some(string) => string,
        None => image.read_part(whole),
    }
}

// The place of the first section with both names of an earlier one.
fn repeated_names(alloc: Global, image: &Image) -> Result<Option<u64>, AllocError>
    ensures least { IfOk result (IsLeastPlace (AtSection image.now (HasEarlierNames image.now))) }
    ensures memory { OnErr result
        (FEW_NAMES < length (sections_of image.now (commands_of image.now))) }
{
    if has_few_sections(image) {
        return Ok(first_repeated(image));
    }
    let mut names = section_names(alloc, image)?;
    note_bytes(image.bytes());
    Ok(least_repeated(&mut names))
}

// Whether there are no more sections than are compared in pairs.
pub(crate) fn has_few_sections(image: &Image) -> bool
    ensures { IsTrue result
        ↔ (length (sections_of image.now (commands_of image.now)) ≤ FEW_NAMES) }
{
    image.sections().nth(FEW_NAMES).is_none()
}

// The place of the first section with both names of an earlier one. It compares all pairs.
fn first_repeated(image: &Image) -> Option<u64>
    ensures { IsLeastPlace (AtSection image.now (HasEarlierNames image.now)) result }
{
    place_of_section(
        image
            .sections()
            .find(|section| has_earlier_names(image, section)),
    )
}

// Whether a section of the image at a lesser place has both names of this one.
fn has_earlier_names(image: &Image, section: &Section) -> bool
    requires { section.now.place + SECTION_64_SIZE ≤ length section.now.image }
    ensures { IsTrue result ↔ Any (λ earlier. (earlier.1 < section.now.place)
        × (section_name_of image.now earlier.1 ≡ section_name_of section.now.image section.now.place)
        × (segment_name_of image.now earlier.1 ≡ segment_name_of section.now.image section.now.place))
        (sections_of image.now (commands_of image.now)) }
{
    let segment = segment_name(section);
    image.sections().any(|earlier| {
        earlier.place() < section.place()
            && earlier.name() == section.name()
            && segment_name(&earlier) == segment
    })
}

// The names of the sections.
fn section_names(alloc: Global, image: &Image) -> Result<Vec<Named>, AllocError>
    ensures names { IfOk result (λ names. map names_of names.items
        ≡ map (λ section. (
          number_of (segment_name_of image.now section.1),
          number_of (section_name_of image.now section.1),
          section.1,
        ))
        (sections_of image.now (commands_of image.now))) }
{
    let mut names = Vec::new(alloc);
    for section in image.sections() {
        names.push(named(&section))?;
    }
    Ok(names)
}

// The names of the section.
fn named(section: &Section) -> Named
    requires { section.now.place + SECTION_64_SIZE ≤ length section.now.image }
    ensures { result ≡ record {
      segment = number_of (segment_name_of section.now.image section.now.place);
      section = number_of (section_name_of section.now.image section.now.place);
      place = section.now.place;
    } }
{
    let image = section.segment().image();
    Named {
        segment: name_number(image, section.place() + section_64::SEGNAME),
        section: name_number(image, section.place()),
        place: section.place(),
    }
}
