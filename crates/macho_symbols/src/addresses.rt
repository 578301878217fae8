//! Which addresses lie in a mapped segment of an image, or at its end. (`mach-o/loader.h`:
//! `segment_command_64`)

ghost use Rattle.std.specs.Prelude.{◌↔◌, ℕ, List, IsTrue};
ghost use Rattle.macho_symbols.specs.Addresses.{IsNear, IsNearMapped};
ghost use Rattle.macho_tables.specs.MappedAddresses.{AreMappedAddresses};

use crate::few_spans::FewSpans;
use macho_fields::Span;
use macho_image::Image;
use macho_tables::mapped_addresses::MappedAddresses;
use std::alloc::{AllocError, Global};

// The addresses of the mapped segments of an image.
#[derive(Drop)]
pub(crate) enum NearAddresses {
    // Those of a few.
    Few(FewSpans),
    // Those of many.
    Many(MappedAddresses),
}

impl NearAddresses {
    ghost use Rattle.std.specs.Prelude.{◌↔◌, ℕ, List, None, IsTrue, IfOk, OnErr};
    ghost use Rattle.macho_fields.specs.Layers.{NothingBreaks};
    ghost use Rattle.macho_fields.specs.Rules.{BreaksImage as Breaks};
    ghost use Rattle.macho_symbols.specs.Addresses.{AreNearAddresses, IsNearSegment};
    ghost use Rattle.macho_tables.specs.FileBytes.{HasManySegments};

    // Those of an image that breaks no rule of the layout. They take memory only if it has many segments.
    pub(crate) fn of(alloc: Global, image: &Image) -> Result<NearAddresses, AllocError>
        requires { NothingBreaks (Breaks image.now None) }
        ensures addresses { IfOk result (AreNearAddresses image.now) }
        ensures memory { OnErr result (HasManySegments image.now) }
    {
        match FewSpans::of(image) {
            Some(few) => Ok(NearAddresses::Few(few)),
            None => Ok(NearAddresses::Many(MappedAddresses::of(alloc, image)?)),
        }
    }

    // Whether the address lies in a mapped segment, or is the first one past it.
    pub(crate) fn has(&mut self, address: u64) -> bool
        ensures near { (image : List ℕ) → AreNearAddresses image self.old
            → IsTrue result ↔ IsNearSegment image address }
        ensures same { (image : List ℕ) → AreNearAddresses image self.old
            → AreNearAddresses image self.new }
    {
        match self {
            NearAddresses::Few(few) => few.have_near(address),
            NearAddresses::Many(mapped) => is_near_mapped(mapped, address),
        }
    }
}

// Whether the address is one of the span, or the first one past it.
pub(crate) fn is_near(memory: Span, address: u64) -> bool
    ensures { IsTrue result ↔ IsNear address memory }
{
    memory.start <= address && u128::from(address) <= memory.end()
}

// Whether a segment is mapped to the address, or to the one before it.
fn is_near_mapped(mapped: &mut MappedAddresses, address: u64) -> bool
    ensures near { (image : List ℕ) → AreMappedAddresses image mapped.old
        → IsTrue result ↔ IsNearMapped image address }
    ensures same { (image : List ℕ) → AreMappedAddresses image mapped.old
        → AreMappedAddresses image mapped.new }
{
    if mapped.has(address) {
        return true;
    }
    match address.checked_sub(1) {
        Some(last) => mapped.has(last),
        None => false,
    }
}
