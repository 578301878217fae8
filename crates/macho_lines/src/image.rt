//! The lines of an image.

ghost use Rattle.std.specs.Prelude.{◌≡◌, ◌++◌, map};
ghost use Rattle.macho_fields.specs.Image.{commands_of};
ghost use Rattle.macho_fields.specs.Segment.{sections_in};
ghost use Rattle.macho_image.specs.Library.{dylib_of};
ghost use Rattle.macho_text.specs.Stream.{joined};
ghost use Rattle.macho_text.specs.Writer.{HoldsText};
ghost use Rattle.macho_lines.specs.LineParts.{linked_text};
ghost use Rattle.macho_lines.specs.Layout.{image_text, id_text, uuid_text, builds_text, segments_text, segment_text, libraries_text, symbols_text};
ghost use Rattle.macho_lines.specs.Line.{section_line};

use crate::lines::{
    write_build, write_entry, write_library, write_section, write_segment, write_symbols,
    write_uuid,
};
use macho_fields::header::loader::LC_ID_DYLIB;
use macho_image::{Dylib, Image, Segment};
use macho_text::{Line, Output, WriteFault};

/// Writes the lines of an image, after those before them. The line holds the last of them.
pub fn write_image<W: Output>(
    image: &Image,
    line: &mut Line,
    writer: &mut W,
) -> Result<(), WriteFault>
    ensures { HoldsText W.Output writer.old writer.new result line.new
        (line.old ++ image_text image.now) }
{
    write_id(image, line, writer)?;
    write_image_uuid(image, line, writer)?;
    write_builds(image, line, writer)?;
    write_segments(image, line, writer)?;
    write_libraries(image, line, writer)?;
    write_symbol_count(image, line, writer)?;
    write_entry(image.entry(), line, writer)
}

// Writes what the image is as a library, where it is one.
fn write_id<W: Output>(image: &Image, line: &mut Line, writer: &mut W) -> Result<(), WriteFault>
    ensures { HoldsText W.Output writer.old writer.new result line.new
        (line.old ++ id_text image.now (commands_of image.now)) }
{
    match image.id() {
        Some(library) => write_library(&library, line, writer),
        None => Ok(()),
    }
}

// Writes the UUID, where there is one.
fn write_image_uuid<W: Output>(
    image: &Image,
    line: &mut Line,
    writer: &mut W,
) -> Result<(), WriteFault>
    ensures { HoldsText W.Output writer.old writer.new result line.new
        (line.old ++ uuid_text image.now (commands_of image.now)) }
{
    match image.uuid() {
        Some(uuid) => write_uuid(&uuid, line, writer),
        None => Ok(()),
    }
}

// Writes the builds.
fn write_builds<W: Output>(image: &Image, line: &mut Line, writer: &mut W) -> Result<(), WriteFault>
    ensures { HoldsText W.Output writer.old writer.new result line.new
        (line.old ++ builds_text image.now (commands_of image.now)) }
{
    for build in image.builds() {
        write_build(&build, line, writer)?;
    }
    Ok(())
}

// Writes the segments, each with its sections.
fn write_segments<W: Output>(
    image: &Image,
    line: &mut Line,
    writer: &mut W,
) -> Result<(), WriteFault>
    ensures { HoldsText W.Output writer.old writer.new result line.new
        (line.old ++ segments_text image.now (commands_of image.now)) }
{
    for segment in image.segments() {
        write_segment_lines(&segment, line, writer)?;
    }
    Ok(())
}

// Writes a segment, and its sections.
fn write_segment_lines<W: Output>(
    segment: &Segment,
    line: &mut Line,
    writer: &mut W,
) -> Result<(), WriteFault>
    ensures { HoldsText W.Output writer.old writer.new result line.new
        (line.old ++ segment_text segment.now.image segment.now.place) }
{
    write_segment(segment, line, writer)?;
    write_sections(segment, line, writer)
}

// Writes the sections of a segment.
fn write_sections<W: Output>(
    segment: &Segment,
    line: &mut Line,
    writer: &mut W,
) -> Result<(), WriteFault>
    ensures { HoldsText W.Output writer.old writer.new result line.new
        (line.old ++ joined (map (section_line segment.now.image) (sections_in segment.now.image segment.now.place))) }
{
    for section in segment.sections() {
        write_section(&section, line, writer)?;
    }
    Ok(())
}

// Writes the libraries that the image is linked with.
fn write_libraries<W: Output>(
    image: &Image,
    line: &mut Line,
    writer: &mut W,
) -> Result<(), WriteFault>
    ensures { HoldsText W.Output writer.old writer.new result line.new
        (line.old ++ libraries_text image.now (commands_of image.now)) }
{
    for library in image.dylibs() {
        write_linked_library(&library, line, writer)?;
    }
    Ok(())
}

// Writes the line of a library, but none for `LC_ID_DYLIB`, whose line stands first.
fn write_linked_library<W: Output>(
    library: &Dylib,
    line: &mut Line,
    writer: &mut W,
) -> Result<(), WriteFault>
    ensures { HoldsText W.Output writer.old writer.new result line.new
        (line.old ++ linked_text (dylib_of library.now)) }
{
    if library.cmd == LC_ID_DYLIB {
        return Ok(());
    }
    write_library(library, line, writer)
}

// Writes how many symbols there are, where there is a symbol table.
fn write_symbol_count<W: Output>(
    image: &Image,
    line: &mut Line,
    writer: &mut W,
) -> Result<(), WriteFault>
    ensures { HoldsText W.Output writer.old writer.new result line.new
        (line.old ++ symbols_text image.now (commands_of image.now)) }
{
    match image.symtab() {
        Some(symtab) => write_symbols(symtab.nsyms, line, writer),
        None => Ok(()),
    }
}
