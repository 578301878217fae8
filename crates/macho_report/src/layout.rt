//! The layout of an accepted file.

ghost use Rattle.std.specs.Prelude.{◌<◌, ◌++◌, length, map, slice_get, IsErr, IsSomeAnd, IsTrue, None};
ghost use Rattle.std.specs.List.{enumerate_from};
ghost use Rattle.macho_fat.specs.Slices.{slice_of};
ghost use Rattle.macho_fields.specs.Layers.{NothingBreaks};
ghost use Rattle.macho_fields.specs.Rules.{BreaksImage};
ghost use Rattle.macho_fields.specs.Universal.{slices_of};
ghost use Rattle.macho_text.specs.Stream.{joined};
ghost use Rattle.macho_text.specs.Writer.{PutsText, HoldsText};
ghost use Rattle.macho_lines.specs.Layout.{layout_text, layout_with, slice_text, image_slice_text};

use crate::judge::Judge;
use macho_fat::Slice;
use macho_fields::LayoutRules;
use macho_image::Image;
use macho_lines::{write_count, write_image, write_slice};
use macho_rules::Verified;
use macho_text::{Line, Output, WriteFault};

/// Writes the layout of an accepted file as text: how many slices it has, a line for each, and the
/// parts of each slice that is read. It takes no memory, and does not flush.
pub fn write_layout<W: Output>(verified: &Verified, writer: &mut W) -> Result<(), WriteFault>
    ensures text { PutsText W.Output writer.old writer.new result (layout_text verified.now) }
    ensures stays_failed { IsTrue (W.has_failed writer.old) → IsErr result }
{
    write_layout_with(&LayoutRules, verified, writer)
}

// Writes the layout of an accepted file, and what the judge says of each image after the lines of it.
pub(crate) fn write_layout_with<J: Judge, W: Output>(
    judge: &J,
    verified: &Verified,
    writer: &mut W,
) -> Result<(), WriteFault>
    ensures text { PutsText W.Output writer.old writer.new result (layout_with (J.says judge.now) verified.now) }
    ensures stays_failed { IsTrue (W.has_failed writer.old) → IsErr result }
{
    write_count(verified.slice_count(), writer)?;
    write_slices(judge, verified, writer)
}

// Writes the lines of all slices.
fn write_slices<J: Judge, W: Output>(
    judge: &J,
    verified: &Verified,
    writer: &mut W,
) -> Result<(), WriteFault>
    ensures { PutsText W.Output writer.old writer.new result
        (joined (map (slice_text (J.says judge.now) verified.now) (enumerate_from 0 (slices_of verified.now)))) }
{
    let mut line = Line::new();
    for index in 0..verified.slice_count() {
        write_slice_lines(judge, verified, index, &mut line, writer)?;
    }
    line.hand_on(writer)
}

// Writes the lines of one slice.
fn write_slice_lines<J: Judge, W: Output>(
    judge: &J,
    verified: &Verified,
    index: u64,
    line: &mut Line,
    writer: &mut W,
) -> Result<(), WriteFault>
    requires { index < length (slices_of verified.now) }
    ensures { IsSomeAnd (slice_get (slices_of verified.now) index) (λ slice.
        HoldsText W.Output writer.old writer.new result line.new
        (line.old ++ slice_text (J.says judge.now) verified.now (index, slice))) }
{
    // The index is below the number of slices.
    let slice = verified.slice(index).unwrap();
    match verified.image(index) {
        Some(image) => write_image_slice(judge, index, slice, &image, line, writer),
        None => write_slice(index, slice.arch, slice.span, "not read", line, writer),
    }
}

// Writes the lines of a slice that is read, and what the judge says of its image after them.
fn write_image_slice<J: Judge, W: Output>(
    judge: &J,
    index: u64,
    slice: &Slice,
    image: &Image,
    line: &mut Line,
    writer: &mut W,
) -> Result<(), WriteFault>
    requires { NothingBreaks (BreaksImage image.now None) }
    ensures { HoldsText W.Output writer.old writer.new result line.new
        (line.old ++ image_slice_text (J.says judge.now) image.now index (slice_of slice.now)) }
{
    write_slice(
        index,
        Some(image.arch()),
        slice.span,
        image.file_type().word,
        line,
        writer,
    )?;
    write_image(image, line, writer)?;
    judge.write_more(image, line, writer)
}
