//! The lines of code directories.

ghost use Rattle.std.specs.Prelude.{◌≡◌, ◌++◌, None};
ghost use Rattle.macho_fields.specs.Layers.{NothingBreaks};
ghost use Rattle.macho_fields.specs.Rules.{BreaksImage};
ghost use Rattle.macho_text.specs.Writer.{HoldsText};
ghost use Rattle.macho_verify.specs.Cdhashes.{cdhashes_text, type_word};

use macho_image::Image;
use macho_lines::write_cdhash;
use macho_seals::{Cdhashes, Digest};
use macho_text::{Line, Output, WriteFault};

/// Writes a line for each code directory of an image that breaks no rule of the layout, in the order of the
/// index of its signature. The line holds the last ones.
pub fn write_cdhashes<W: Output>(
    image: &Image,
    line: &mut Line,
    writer: &mut W,
) -> Result<(), WriteFault>
    requires { NothingBreaks (BreaksImage image.now None) }
    ensures { HoldsText W.Output writer.old writer.new result line.new
        (line.old ++ cdhashes_text image.now) }
{
    for digest in Cdhashes::of(image) {
        write_cdhash(type_word(&digest), &digest.cdhash(), line, writer)?;
    }
    Ok(())
}

// The word of a type of hashes.
fn type_word(digest: &Digest) -> &'static str
    ensures { result.now ≡ type_word digest.now }
{
    match digest {
        Digest::Sha1(_) => "sha1",
        Digest::Sha256(_) => "sha256",
        Digest::Sha256Truncated(_) => "sha256-truncated",
        Digest::Sha384(_) => "sha384",
    }
}
