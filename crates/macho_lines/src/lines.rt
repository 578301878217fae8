//! The lines of the report. Each ends with one line feed. The lines of a layout are held after those before them.

ghost use Rattle.std.specs.Prelude.{◌≡◌, [], ◌++◌, IsErr, IsTrue};
ghost use Rattle.std.specs.Option.{option_map_or};
ghost use Rattle.macho_text.specs.Writer.{PutsText, HoldsText};
ghost use Rattle.macho_lines.specs.Arch.{arch_text};
ghost use Rattle.macho_lines.specs.Line.{cdhash_line, contents_of, count_line, slice_line, uuid_line, build_line, segment_line, section_line, library_line, symbols_line, entry_line};
ghost use Rattle.macho_lines.specs.Text.{break_text, words_line};
ghost use Rattle.macho_lines.specs.LineParts.{library_start};

use crate::arch::put_arch;
use crate::fields::{put_contents, put_extent, put_protection, put_uuid};
use macho_fields::header::loader::{
    LC_ID_DYLIB, LC_LAZY_LOAD_DYLIB, LC_LOAD_DYLIB, LC_LOAD_UPWARD_DYLIB, LC_LOAD_WEAK_DYLIB,
    LC_REEXPORT_DYLIB,
};
use macho_fields::{Break, Span};
use macho_image::{Build, Dylib, Section, Segment};
use macho_text::{Line, Output, WriteFault};

/// Writes the line of a broken rule, as `refused: segment-file at 0x1e8`.
pub fn write_break<W: Output>(broken: &Break, writer: &mut W) -> Result<(), WriteFault>
    ensures text { PutsText W.Output writer.old writer.new result (break_text broken.now) }
    ensures stays_failed { IsTrue (W.has_failed writer.old) → IsErr result }
{
    let mut line = Line::new();
    line.text(b"refused: ");
    line.word(broken.rule.name().as_bytes(), writer)?;
    line.text(b" at ");
    line.hex(broken.place);
    line.write(writer)
}

/// Writes a line of three words.
pub fn write_words<W: Output>(
    first: &str,
    second: &str,
    third: &str,
    writer: &mut W,
) -> Result<(), WriteFault>
    ensures { PutsText W.Output writer.old writer.new result
        (words_line first.now second.now third.now) }
{
    let mut line = Line::new();
    line.word(first.as_bytes(), writer)?;
    line.word(second.as_bytes(), writer)?;
    line.word(third.as_bytes(), writer)?;
    line.write(writer)
}

/// Writes the first line of a layout: how many slices there are.
pub fn write_count<W: Output>(slices: u64, writer: &mut W) -> Result<(), WriteFault>
    ensures text { PutsText W.Output writer.old writer.new result (count_line slices) }
    ensures stays_failed { IsTrue (W.has_failed writer.old) → IsErr result }
{
    let mut line = Line::new();
    line.text(b"accepted, slices ");
    line.decimal(slices);
    line.write(writer)
}

/// Writes the line of a slice: its index, its architecture, its part of the file, and its kind. The line holds it.
pub fn write_slice<W: Output>(
    index: u64,
    arch: Option<(u32, u32)>,
    span: Span,
    kind: &str,
    line: &mut Line,
    writer: &mut W,
) -> Result<(), WriteFault>
    ensures { HoldsText W.Output writer.old writer.new result line.new
        (line.old ++ slice_line index (option_map_or arch_text arch []) span.start span.len kind.now) }
{
    line.begin(writer)?;
    line.text(b"slice ");
    line.decimal(index);
    line.text(b" ");
    put_arch(arch, line);
    put_extent(b" at 0x", span.start, span.len, line);
    line.text(b" ");
    line.word(kind.as_bytes(), writer)?;
    line.text(b"\n");
    Ok(())
}

// Writes the line of a UUID.
pub(crate) fn write_uuid<W: Output>(
    uuid: &[u8; 16],
    line: &mut Line,
    writer: &mut W,
) -> Result<(), WriteFault>
    ensures { HoldsText W.Output writer.old writer.new result line.new
        (line.old ++ uuid_line uuid.now) }
{
    line.begin(writer)?;
    line.text(b"  uuid ");
    put_uuid(uuid, line);
    line.text(b"\n");
    Ok(())
}

// Writes the line of a build: its platform and two versions.
pub(crate) fn write_build<W: Output>(
    build: &Build,
    line: &mut Line,
    writer: &mut W,
) -> Result<(), WriteFault>
    ensures { HoldsText W.Output writer.old writer.new result line.new
        (line.old ++ build_line build.now.platform build.now.minos build.now.sdk) }
{
    line.begin(writer)?;
    line.text(b"  build platform ");
    line.decimal(u64::from(build.platform));
    line.text(b" min ");
    line.version(build.minos);
    line.text(b" sdk ");
    line.version(build.sdk);
    line.text(b"\n");
    Ok(())
}

// Writes the line of a segment: its name, its memory, its bytes in the image, and its protection.
pub(crate) fn write_segment<W: Output>(
    segment: &Segment,
    line: &mut Line,
    writer: &mut W,
) -> Result<(), WriteFault>
    ensures { HoldsText W.Output writer.old writer.new result line.new
        (line.old ++ segment_line segment.now.image segment.now.place) }
{
    line.begin(writer)?;
    line.text(b"  segment ");
    line.name(segment.name(), writer)?;
    put_extent(b" addr 0x", segment.vmaddr(), segment.vmsize(), line);
    put_extent(b" file 0x", segment.fileoff(), segment.filesize(), line);
    line.text(b" ");
    put_protection(segment.initprot(), line);
    line.text(b"\n");
    Ok(())
}

// Writes the line of a section: its name, its memory, and where its bytes begin in the image.
pub(crate) fn write_section<W: Output>(
    section: &Section,
    line: &mut Line,
    writer: &mut W,
) -> Result<(), WriteFault>
    ensures { HoldsText W.Output writer.old writer.new result line.new
        (line.old ++ section_line section.now.image section.now.place) }
{
    line.begin(writer)?;
    line.text(b"    section ");
    line.name(section.name(), writer)?;
    put_extent(b" addr 0x", section.addr(), section.size(), line);
    line.text(b" ");
    put_contents(contents_of(section), line);
    line.text(b"\n");
    Ok(())
}

// Where the bytes of a section begin in the image, if it has any there.
fn contents_of(section: &Section) -> Option<u64>
    ensures { result ≡ contents_of section.now.image section.now.place }
{
    if section.is_zero_fill() {
        None
    } else {
        Some(section.offset())
    }
}

// Writes the line of a library: the word of its command, its name, and two versions.
pub(crate) fn write_library<W: Output>(
    library: &Dylib,
    line: &mut Line,
    writer: &mut W,
) -> Result<(), WriteFault>
    ensures { HoldsText W.Output writer.old writer.new result line.new
        (line.old ++ library_line library.now.cmd library.now.name.now library.now.current
        library.now.compatible) }
{
    line.begin(writer)?;
    line.bytes(library_start(library.cmd).as_bytes());
    line.name(library.name, writer)?;
    line.text(b" current ");
    line.version(library.current);
    line.text(b" compatible ");
    line.version(library.compatible);
    line.text(b"\n");
    Ok(())
}

// How the line of a library begins: the word of its command, with the blanks around it.
fn library_start(cmd: u32) -> &'static str
    ensures { result.now ≡ library_start cmd }
{
    match cmd {
        LC_ID_DYLIB => "  id ",
        LC_LOAD_DYLIB => "  load ",
        LC_LOAD_WEAK_DYLIB => "  weak ",
        LC_REEXPORT_DYLIB => "  reexport ",
        LC_LAZY_LOAD_DYLIB => "  lazy ",
        LC_LOAD_UPWARD_DYLIB => "  upward ",
        _ => "  dylib ",
    }
}

// Writes the line that counts the symbols.
pub(crate) fn write_symbols<W: Output>(
    nsyms: u64,
    line: &mut Line,
    writer: &mut W,
) -> Result<(), WriteFault>
    ensures { HoldsText W.Output writer.old writer.new result line.new
        (line.old ++ symbols_line nsyms) }
{
    line.begin(writer)?;
    line.text(b"  symbols ");
    line.decimal(nsyms);
    line.text(b"\n");
    Ok(())
}

// Writes the line of the entry point: its address, or `none`.
pub(crate) fn write_entry<W: Output>(
    entry: Option<u64>,
    line: &mut Line,
    writer: &mut W,
) -> Result<(), WriteFault>
    ensures { HoldsText W.Output writer.old writer.new result line.new
        (line.old ++ entry_line entry) }
{
    line.begin(writer)?;
    let Some(address) = entry else {
        line.text(b"  entry none\n");
        return Ok(());
    };
    line.text(b"  entry ");
    line.hex(address);
    line.text(b"\n");
    Ok(())
}

/// Writes the line of a code directory: the word of its hash type, and its cdhash, which is the first
/// 20 bytes of the hash of the directory (`cs_blobs.h`: `CS_CDHASH_LEN`). The line holds it.
pub fn write_cdhash<W: Output>(
    hash_type: &str,
    cdhash: &[u8; 20],
    line: &mut Line,
    writer: &mut W,
) -> Result<(), WriteFault>
    ensures { HoldsText W.Output writer.old writer.new result line.new
        (line.old ++ cdhash_line hash_type.now cdhash.now) }
{
    line.begin(writer)?;
    line.text(b"  cdhash ");
    line.word(hash_type.as_bytes(), writer)?;
    line.text(b" ");
    line.hex_bytes(cdhash, false);
    line.text(b"\n");
    Ok(())
}
