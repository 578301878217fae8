//! From an input to what is at an address of it.

ghost use Rattle.std.specs.Prelude.{◌≡◌, ◌≢◌, ◌⊎◌, List, ℕ, Ok, IfOk, IfErr, IsErrOf, IsTrue, Some};
ghost use Rattle.std.specs.Option.{option_map};
ghost use Rattle.macho_fields.specs.Segment.{File};
ghost use Rattle.macho_rules.specs.Source.{source_of};
ghost use Rattle.macho_text.specs.Stream.{Wrote, WrotePrefix};
ghost use Rattle.macho_text.specs.Writer.{PutsText};
ghost use Rattle.macho_report.specs.Run.{FailsRight, ReadsRight};
ghost use Rattle.macho_report.specs.Where.{IsWhere, WroteWhere, WroteWherePrefix, where_text};
ghost use Rattle.macho_report.specs.declared.address.WhereOutcome.{WhereOutcome};

use crate::outcome::{RunFault, accept};
use macho_fields::LayoutRules;
use macho_rules::{Mapping, Source};
use macho_text::transfer::read_all;
use macho_text::{Input, Line, Output, WriteFault, write_all};
use std::alloc::Global;

/// What a run found of an address.
#[derive(Clone, Copy, Debug, PartialEq, Eq)]
pub enum WhereOutcome {
    /// The line of what is at the address was written.
    Told,
    /// The file breaks a rule, and the line of the first was written.
    Refused,
    /// The slice is not read, or the file has none with its index. Nothing was written.
    NoImage,
}

/// Reads all of the input, decides its rules, and writes what is at an address of the image in the
/// slice with this index: `file ` and the place in the slice, `zero` or `unmapped`. Of a file that
/// breaks a rule it writes what `run` does. It does not flush. Of the input it reads at most
/// `limit + 1` bytes, in at most `limit + 1` reads.
pub fn run_where<R: Input, W: Output>(
    alloc: Global,
    limit: u64,
    slice: u64,
    addr: u64,
    reader: &mut R,
    writer: &mut W,
) -> Result<WhereOutcome, RunFault>
    // All of the input was read, or a fault says why not. The outcome is right for it, and exactly its
    // text was written.
    ensures verdict { IfOk result (λ outcome. WroteWhere (R.remaining reader.old) limit slice addr
        outcome (W.contents writer.old) (W.contents writer.new)) }
    ensures input { ReadsRight R.Input limit reader.old reader.new result }
    ensures no_image { result ≡ Ok WhereOutcome.NoImage → writer.new ≡ writer.old }

    // Nothing was written, unless a write failed.
    ensures write { IsErrOf result RunFault.Write → IsTrue (W.has_failed writer.new) }
    ensures prefix { IsErrOf result RunFault.Write
        → WroteWherePrefix (R.remaining reader.old) limit slice addr
        (W.contents writer.old) (W.contents writer.new) }
    ensures unwritten { IfErr result (λ fault. (fault ≡ RunFault.Write) ⊎ (writer.new ≡ writer.old)) }
{
    let file = read_all(alloc, limit, reader)?;
    write_where(alloc, &file, slice, addr, writer)
}

// Decides the rules of a file, and writes what is at an address of the image in one of its slices.
fn write_where<W: Output>(
    alloc: Global,
    file: &[u8],
    slice: u64,
    addr: u64,
    writer: &mut W,
) -> Result<WhereOutcome, RunFault>
    ensures verdict { IfOk result (λ outcome. (text : List ℕ)
        × IsWhere file.now slice addr outcome text
        × Wrote (W.contents writer.old) (W.contents writer.new) text) }
    ensures no_image { result ≡ Ok WhereOutcome.NoImage → writer.new ≡ writer.old }
    ensures fails { FailsRight result (W.has_failed writer.new)
        ((outcome : WhereOutcome) × (text : List ℕ)
        × IsWhere file.now slice addr outcome text × (outcome ≢ WhereOutcome.NoImage)
        × WrotePrefix (W.contents writer.old) (W.contents writer.new) text)
        (writer.new ≡ writer.old) }
{
    let Some(verified) = accept(alloc, &LayoutRules, file, writer)? else {
        return Ok(WhereOutcome::Refused);
    };
    let Some(mut mapping) = Mapping::of(alloc, &verified, slice)? else {
        return Ok(WhereOutcome::NoImage);
    };
    write_source(mapping.source(addr), writer)?;
    Ok(WhereOutcome::Told)
}

// Writes the line of what is at an address: a place of the slice, a zero, or nothing.
fn write_source<W: Output>(source: Option<Source>, writer: &mut W) -> Result<(), WriteFault>
    ensures { PutsText W.Output writer.old writer.new result
        (where_text (option_map source_of source)) }
{
    match source {
        Some(Source::File(place)) => write_place(place, writer),
        Some(Source::Zero) => write_all(b"zero\n", writer),
        None => write_all(b"unmapped\n", writer),
    }
}

// Writes the line of a place of the slice.
fn write_place<W: Output>(place: u64, writer: &mut W) -> Result<(), WriteFault>
    ensures { PutsText W.Output writer.old writer.new result
        (where_text (Some (File place))) }
{
    let mut line = Line::new();
    line.text(b"file ");
    line.hex(place);
    line.write(writer)
}
