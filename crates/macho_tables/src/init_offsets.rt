//! The functions that a loader calls before the program begins, as sections name them by offsets from the base.
//! (`mach-o/loader.h`: `section_64`)

ghost use Rattle.std.specs.Prelude.{◌≡◌, ◌+◌, ◌*◌, ◌≤◌, ◌<◌, ◌↔◌, length, IfOk, OnErr, IsTrue, None};
ghost use Rattle.macho_fields.specs.FirstPlace.{IsLeastPlace};
ghost use Rattle.macho_fields.specs.Image.{commands_of};
ghost use Rattle.macho_fields.specs.Layers.{NothingBreaks};
ghost use Rattle.macho_fields.specs.Rules.{BreaksImage as Breaks};
ghost use Rattle.macho_fields.specs.Segment.{base_of, section_offset, section_size};
ghost use Rattle.macho_strict.specs.Rules.{BreaksStrictImage};
ghost use Rattle.macho_tables.specs.InitOffsets.{HasOffsets, HasInitOffsets, IsCalled, BadOffset, BreaksInitOffset};
ghost use Rattle.macho_tables.specs.RunBytes.{AreRunBytes};

use crate::fields::word_at;
use crate::place::lesser;
use crate::run_bytes::RunBytes;
use macho_fields::header::loader::{INIT_OFFSET_SIZE, S_INIT_FUNC_OFFSETS};
use macho_image::{Image, Section};
use std::alloc::{AllocError, Global};

/// The place of the first offset that is cut, or that is not from the base to an executable byte of the file. The
/// image breaks no rule of the layout and no strict rule. It takes memory only if a section has such offsets.
pub fn init_offset(alloc: Global, image: &Image) -> Result<Option<u64>, AllocError>
    requires unbroken { NothingBreaks (Breaks image.now None) }
    requires strictly { NothingBreaks (BreaksStrictImage image.now) }
    ensures least { IfOk result (IsLeastPlace (BreaksInitOffset image.now)) }
    ensures memory { OnErr result (HasInitOffsets image.now) }
{
    if !has_init_offsets(image) {
        return Ok(None);
    }
    let mut runs = RunBytes::of(alloc, image)?;
    Ok(least_bad(image, &mut runs))
}

// Whether some section has such offsets.
fn has_init_offsets(image: &Image) -> bool
    ensures { IsTrue result ↔ HasInitOffsets image.now }
{
    for section in image.sections() {
        if has_offsets(&section) {
            return true;
        }
    }
    false
}

/// Whether the section has such offsets, and its segment is mapped.
pub fn has_offsets(section: &Section) -> bool
    ensures { IsTrue result ↔ HasOffsets section.now.image section.now.segment section.now.place }
{
    section.section_type() == S_INIT_FUNC_OFFSETS && section.segment().vmsize() > 0
}

// The place of the first bad offset of all sections.
fn least_bad(image: &Image, runs: &mut RunBytes) -> Option<u64>
    requires unbroken { NothingBreaks (Breaks image.now None) }
    requires strictly { NothingBreaks (BreaksStrictImage image.now) }
    requires runs { AreRunBytes image.now runs.old }
    ensures { IsLeastPlace (BreaksInitOffset image.now) result }
{
    let base = image.base();
    let mut least = None;
    for section in image.sections() {
        if has_offsets(&section) {
            least = lesser(least, first_bad(image, base, runs, &section));
        }
    }
    least
}

// The place of the first bad offset of a section, whose bytes lie in the image.
fn first_bad(
    image: &Image,
    base: Option<u64>,
    runs: &mut RunBytes,
    section: &Section,
) -> Option<u64>
    requires unbroken { NothingBreaks (Breaks image.now None) }
    requires strictly { NothingBreaks (BreaksStrictImage image.now) }
    requires base { base ≡ base_of image.now (commands_of image.now) }
    requires runs { AreRunBytes image.now runs.old }
    requires of { section.now.image ≡ image.now }
    requires inside { 0 < section_size image.now section.now.place
        → section_offset image.now section.now.place + section_size image.now section.now.place
        ≤ length image.now }
    ensures least { IsLeastPlace (BadOffset image.now section.now.place) result }
    ensures same { AreRunBytes image.now runs.new }
{
    // The section lies in the image, so the places of its offsets are below 2^64.
    prove!(image.bytes().len() <= u64::MAX);
    let start = section.offset();
    let size = section.size();
    for index in 0..size.div_ceil(INIT_OFFSET_SIZE) {
        let past = index * INIT_OFFSET_SIZE;
        let place = start + past;
        if size - past < INIT_OFFSET_SIZE || !is_called(image, base, runs, place) {
            return Some(place);
        }
    }
    None
}

// Whether the offset at the place leads to an executable byte of the file, from the base on.
fn is_called(image: &Image, base: Option<u64>, runs: &mut RunBytes, place: u64) -> bool
    requires unbroken { NothingBreaks (Breaks image.now None) }
    requires strictly { NothingBreaks (BreaksStrictImage image.now) }
    requires base { base ≡ base_of image.now (commands_of image.now) }
    requires runs { AreRunBytes image.now runs.old }
    requires inside { place + INIT_OFFSET_SIZE ≤ length image.now }
    ensures called { IsTrue result ↔ IsCalled image.now place }
    ensures same { AreRunBytes image.now runs.new }
{
    let Some(base) = base else {
        return false;
    };
    match base.checked_add(u64::from(word_at(image.bytes(), place))) {
        Some(address) => runs.has(address),
        None => false,
    }
}
