//! Which addresses of an image have a byte of the file. (`mach-o/loader.h`: `segment_command_64`)

ghost use Rattle.std.specs.Prelude.{◌↔◌, IsTrue};
ghost use Rattle.macho_tables.specs.FileBytes.{HasManySegments};
ghost use Rattle.macho_tables.specs.StartNumbers.{HasByteAt};

use crate::segment_memory::{Extent, file_memory, memory_of};
use macho_fields::Span;
use macho_image::{Image, Segment};
use macho_strict::Disjoint;
use std::alloc::{AllocError, Global};

/// How many mapped segments are looked at one after the other. More are sorted by their addresses.
pub const FEW_SEGMENTS: usize = 16;

// Which addresses of an image have a byte of the file.
#[derive(Drop)]
pub(crate) struct FileBytes {
    // Some that have: the file bytes of the segment that had the last address.
    held: Span,
    // All addresses that have one, if there are many segments.
    many: Option<Disjoint>,
}

impl FileBytes {
    ghost use Rattle.std.specs.Prelude.{◌↔◌, IsTrue, IfOk, OnErr, None};
    ghost use Rattle.macho_fields.specs.Layers.{NothingBreaks};
    ghost use Rattle.macho_fields.specs.Rules.{BreaksImage as Breaks};
    ghost use Rattle.macho_tables.specs.FileBytes.{AreFileBytes, HasManySegments};
    ghost use Rattle.macho_tables.specs.StartNumbers.{IsFileAddress};

    // Those of an image that breaks no rule of the layout. They take memory only if it has many segments.
    pub(crate) fn of(alloc: Global, image: &Image) -> Result<FileBytes, AllocError>
        requires { NothingBreaks (Breaks image.now None) }
        ensures bytes { IfOk result (AreFileBytes image.now) }
        ensures memory { OnErr result (HasManySegments image.now) }
    {
        let mut many = None;
        if has_many_segments(image) {
            many = Some(memory_of(alloc, image, Extent::File)?);
        }
        let held = Span { start: 0, len: 0 };
        Ok(FileBytes { held, many })
    }

    // Whether the address has one. Those that are asked for mostly ascend.
    pub(crate) fn has(&mut self, image: &Image, address: u64) -> bool
        requires { AreFileBytes image.now self.old }
        ensures found { IsTrue result ↔ IsFileAddress image.now address }
        ensures same { AreFileBytes image.now self.new }
    {
        if self.held.holds(address) {
            return true;
        }
        if let Some(parts) = &self.many {
            return parts.holding_next(address).is_some();
        }
        self.find(image, address)
    }

    // The same, by the segments one after the other.
    fn find(&mut self, image: &Image, address: u64) -> bool
        requires { AreFileBytes image.now self.old }
        ensures found { IsTrue result ↔ IsFileAddress image.now address }
        ensures same { AreFileBytes image.now self.new }
    {
        let found = image
            .segments()
            .find(|segment| has_byte_at(segment, address));
        let Some(segment) = found else {
            return false;
        };
        self.held = file_memory(&segment);
        true
    }
}

// Whether the image has more mapped segments than are looked at one after the other.
fn has_many_segments(image: &Image) -> bool
    ensures { IsTrue result ↔ HasManySegments image.now }
{
    image.mapped_segments().nth(FEW_SEGMENTS).is_some()
}

// Whether the segment has a byte of the file at the address.
fn has_byte_at(segment: &Segment, address: u64) -> bool
    ensures { IsTrue result ↔ HasByteAt segment.now.image address segment.now.place }
{
    file_memory(segment).holds(address)
}
