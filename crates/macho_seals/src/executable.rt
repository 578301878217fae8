//! Whether a byte of the code signature may be executed. (`mach-o/loader.h`: `segment_command_64`)

ghost use Rattle.std.specs.Prelude.{◌↔◌, IsTrue};
ghost use Rattle.macho_fields.specs.FirstPlace.{IsLeastPlace};
ghost use Rattle.macho_seals.specs.Executable.{RunsBytes, IsExecutableIn};

use macho_fields::Span;
use macho_image::{Image, Segment};
use macho_strict::is_code;

/// The place of the first segment that may be executed, and has a byte of the signature.
pub fn first_executable(image: &Image, signature: Span) -> Option<u64>
    ensures { IsLeastPlace (IsExecutableIn signature image.now) result }
{
    for segment in image.segments() {
        if runs_bytes(&segment, signature) {
            return Some(segment.place());
        }
    }
    None
}

// Whether the segment is mapped and may be executed, and shares a byte of the file with the span.
fn runs_bytes(segment: &Segment, bytes: Span) -> bool
    ensures { IsTrue result ↔ RunsBytes bytes segment.now.image segment.now.place }
{
    segment.vmsize() > 0 && is_code(segment) && segment.file_part().shares(&bytes)
}
