//! The addresses of a few mapped segments, without memory of their own.

ghost use Rattle.std.specs.Prelude.{◌≤◌};
ghost use Rattle.macho_tables.specs.declared.file_bytes.TheConstants.{FEW_SEGMENTS};

use crate::addresses::is_near;
use macho_fields::Span;
use macho_image::Image;
use macho_tables::file_bytes::FEW_SEGMENTS;

// The addresses of a few mapped segments, in the order of the commands.
#[derive(Clone, Copy)]
pub(crate) struct FewSpans {
    // The first `count` belong to segments.
    pub(crate) spans: [Span; FEW_SEGMENTS],
    pub(crate) count: usize,

    ghost inside: { count ≤ FEW_SEGMENTS },
}

impl FewSpans {
    ghost use Rattle.std.specs.Prelude.{◌↔◌, IsTrue, Any, MatchOption};
    ghost use Rattle.macho_tables.specs.FileBytes.{HasManySegments};
    ghost use Rattle.macho_symbols.specs.Addresses.{few_memory, IsNear, AreFewSpans};

    // Those of the image, unless it has many.
    pub(crate) fn of(image: &Image) -> Option<FewSpans>
        ensures { MatchOption result (HasManySegments image.now) (AreFewSpans image.now) }
    {
        let mut spans = [Span { start: 0, len: 0 }; FEW_SEGMENTS];
        let mut count = 0;
        for segment in image.mapped_segments() {
            if count == FEW_SEGMENTS {
                return None;
            }
            spans[count] = segment.memory();
            count += 1;
        }
        Some(FewSpans { spans, count })
    }

    // Whether the address lies in one of them, or is the first one past it.
    pub(crate) fn have_near(&self, address: u64) -> bool
        ensures { IsTrue result ↔ Any (IsNear address) (few_memory self.now) }
    {
        for memory in &self.spans[..self.count] {
            if is_near(*memory, address) {
                return true;
            }
        }
        false
    }
}
