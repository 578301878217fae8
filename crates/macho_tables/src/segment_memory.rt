//! The addresses of the segments of an image, sorted. (`mach-o/loader.h`: `segment_command_64`)

ghost use Rattle.std.specs.Prelude.{◌≡◌, ◌↔◌, ℕ, map, IfOk, None};
ghost use Rattle.macho_fields.specs.Layers.{NothingBreaks};
ghost use Rattle.macho_fields.specs.Rules.{BreaksImage as Breaks};
ghost use Rattle.macho_fields.specs.Segment.{all_segments};
ghost use Rattle.macho_spans.specs.Span.{Holds};
ghost use Rattle.macho_strict.specs.Passed.{occupied};
ghost use Rattle.macho_tables.specs.SegmentMemory.{memory_of as addresses_of, HoldMemory};
ghost use Rattle.macho_tables.specs.StartNumbers.{HasByteAt};
ghost use Rattle.macho_tables.specs.declared.segment_memory.Extent.TheVariants as extents;

use macho_fields::{Span, SpanList};
use macho_image::{Image, Segment};
use macho_strict::Disjoint;
use std::alloc::{AllocError, Global};

// Which addresses of a segment are meant.
#[derive(Clone, Copy)]
pub(crate) enum Extent {
    // All to which it is mapped.
    Memory,
    // Those that have bytes of the file.
    File,
}

impl Extent {
    ghost use Rattle.std.specs.Prelude.{◌≡◌};
    ghost use Rattle.macho_tables.specs.SegmentMemory.{memory_of};

    // These addresses of the segment.
    fn of(self, segment: &Segment) -> Span
        ensures { result ≡ memory_of self segment.now.image segment.now.place }
    {
        match self {
            Extent::Memory => segment.memory(),
            Extent::File => file_memory(segment),
        }
    }
}

// The addresses of the segment that have bytes of the file.
pub(crate) fn file_memory(segment: &Segment) -> Span
    ensures span { result ≡ addresses_of extents.File segment.now.image segment.now.place }
    ensures bytes { (address : ℕ) → Holds result address
        ↔ HasByteAt segment.now.image address segment.now.place }
{
    Span {
        start: segment.vmaddr(),
        len: segment.vmsize().min(segment.filesize()),
    }
}

// These addresses of all segments of an image that breaks no rule of the layout. They take 24 bytes for each segment.
pub(crate) fn memory_of(
    alloc: Global,
    image: &Image,
    extent: Extent,
) -> Result<Disjoint, AllocError>
    requires { NothingBreaks (Breaks image.now None) }
    ensures { IfOk result (HoldMemory extent image.now) }
{
    let list = memory_list(alloc, image, extent)?;
    Ok(Disjoint::new(list.sorted()))
}

// The same in the order of the commands, of each segment that has some.
fn memory_list(alloc: Global, image: &Image, extent: Extent) -> Result<SpanList, AllocError>
    ensures { IfOk result (λ list. list.spans
        ≡ occupied (map (addresses_of extent image.now) (all_segments image.now))) }
{
    let mut list = SpanList::with_capacity(alloc, image.segments().count())?;
    for segment in image.segments() {
        let addresses = extent.of(&segment);
        if addresses.len > 0 {
            list.push(addresses)?;
        }
    }
    Ok(list)
}
