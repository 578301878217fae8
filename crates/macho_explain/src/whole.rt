//! The tables of linked data, and their bytes. (`mach-o/loader.h`: `linkedit_data_command`)

ghost use Rattle.std.specs.Prelude.{◌≡◌, ◌≤◌, ◌<◌, ℕ, List, length, MatchOption, None, Some};
ghost use Rattle.macho_fields.specs.Bytes.{bytes_of};
ghost use Rattle.macho_fields.specs.Field.{part};
ghost use Rattle.macho_fields.specs.LoadCommands.{structure_of};
ghost use Rattle.macho_fields.specs.declared.load_command.Structure.TheVariants.{LinkeditDataCommand};
ghost use Rattle.macho_spans.specs.Span.{end_of};
ghost use Rattle.macho_spans.specs.declared.span.Span.{Span};
ghost use Rattle.macho_explain.specs.Wholes.{named_table, IsWhole, Opens};

use crate::part::{PartKind, index_of};
use crate::sliced::Sliced;
use crate::table::Bounded;
use macho_fields::header::loader::linkedit_data_command::DATAOFF;
use macho_fields::{Bytes, Span, table_end};
use macho_tables::homes::span_of;
use macho_tables::place::{bounded_at, first_place};

// A table of bytes that lies in the image.
#[derive(Clone, Copy)]
pub(crate) struct Whole<'a> {
    pub(crate) table: Bounded,
    pub(crate) bytes: Bytes<'a>,
}

// The table of bytes that the first command with this `cmd` names.
pub(crate) fn data_table(sliced: &Sliced, cmd: u32) -> Option<Bounded>
    requires { structure_of cmd ≡ Some LinkeditDataCommand }
    ensures { MatchOption result
        (Opens (bytes_of sliced.now.held.bytes) → named_table (bytes_of sliced.now.held.bytes) cmd ≡ None)
        (λ found. named_table (bytes_of sliced.now.held.bytes) cmd ≡ Some found.span) }
{
    let image = sliced.held.open()?;
    let command = first_place(&image, cmd)?;
    let span = span_of(&image, command, bounded_at(DATAOFF));
    Some(bounded(sliced, command, span, 0))
}

// The table with this index, of the command at a place, as it bounds it by its bytes.
pub(crate) fn bounded(sliced: &Sliced, command: u64, span: Span, index: u64) -> Bounded
    ensures span { result.span ≡ span }
    ensures command { result.command ≡ command }
{
    Bounded {
        command,
        part: sliced.described(PartKind::Table, span, command, index_of(index)),
        span,
        count: span.len,
        end: table_end(span.start, span.len, 1),
    }
}

// A table with its bytes, if it lies in the image.
pub(crate) fn read_whole<'a>(sliced: &Sliced<'a>, table: Bounded) -> Option<Whole<'a>>
    ensures { MatchOption result (length (bytes_of sliced.now.held.bytes) < end_of table.span)
        (λ found. (found.table ≡ table) × (end_of table.span ≤ length (bytes_of sliced.now.held.bytes))
        × (bytes_of found.bytes ≡ part table.span.start table.span.len (bytes_of sliced.now.held.bytes))) }
{
    let bytes = Bytes::new(sliced.held.bytes.part(table.span)?);
    Some(Whole { table, bytes })
}

// The table of the first command with this `cmd`, if it lies in the image.
pub(crate) fn whole_table<'a>(sliced: &Sliced<'a>, cmd: u32) -> Option<Whole<'a>>
    requires { structure_of cmd ≡ Some LinkeditDataCommand }
    ensures { MatchOption result
        (Opens (bytes_of sliced.now.held.bytes) → (table : Span) (bytes : List ℕ)
        → ¬ IsWhole (bytes_of sliced.now.held.bytes) (named_table (bytes_of sliced.now.held.bytes) cmd) table bytes)
        (λ found. IsWhole (bytes_of sliced.now.held.bytes) (named_table (bytes_of sliced.now.held.bytes) cmd)
        found.table.span (bytes_of found.bytes)) }
{
    read_whole(sliced, data_table(sliced, cmd)?)
}
