//! The tables that load commands bound. (`mach-o/loader.h`)

ghost use Rattle.std.specs.Prelude.{◌≡◌, ◌+◌, ◌^◌, ◌<◌, ◌≤◌, length, IfNone, []};
ghost use Rattle.std.specs.Option.{option_map_or};
ghost use Rattle.macho_fields.specs.Bytes.{bytes_of};
ghost use Rattle.macho_fields.specs.LoadCommands.{structure_of, table_fields};
ghost use Rattle.macho_fields.specs.declared.load_command.Width.TheVariants.{Uint32};
ghost use Rattle.macho_explain.specs.Commanded.{field_shown};
ghost use Rattle.macho_explain.specs.Compared.{size_shown, span_shown, start_shown};
ghost use Rattle.macho_explain.specs.Explain.{IsOfBytes, word_at, written};
ghost use Rattle.macho_explain.specs.Parts.{IsPartOf};

use crate::part::{Part, PartKind, index_of};
use crate::sliced::Sliced;
use crate::walk::{Sought, walk_to};
use macho_fields::header::loader::{LC_DYSYMTAB, LC_SYMTAB};
use macho_fields::{Span, TableFields, Width, structure_of, table_end};
use macho_rows::load::Load;

// A table that the command at a place bounds, how many items it has, and where it ends.
#[derive(Clone, Copy)]
pub(crate) struct Bounded {
    pub(crate) command: u64,
    pub(crate) part: Part,
    pub(crate) span: Span,
    pub(crate) count: u64,
    pub(crate) end: u128,
}

// The table of the command at a place that these fields bound, which is the one with the index.
pub(crate) fn table_by(sliced: &Sliced, command: u64, fields: TableFields, index: u64) -> Bounded
    ensures start { IsOfBytes fields → command + fields.place < 2 ^ 64
        → result.span.start ≡ word_at (bytes_of sliced.now.held.bytes) (command + fields.place) }
    ensures size { IsOfBytes fields → command + fields.count < 2 ^ 64
        → result.span.len ≡ word_at (bytes_of sliced.now.held.bytes) (command + fields.count) }
    ensures span { result.span ≡ span_shown (bytes_of sliced.now.held.bytes) command fields }
    ensures part { IsPartOf sliced.now.held.place result.span result.part }
    ensures some { 0 < size_shown (bytes_of sliced.now.held.bytes) command fields → 0 < result.span.len }
    ensures end { result.end ≡ start_shown (bytes_of sliced.now.held.bytes) command fields
        + size_shown (bytes_of sliced.now.held.bytes) command fields }
{
    let start = field(sliced, command, fields.place, fields.width);
    let count = field(sliced, command, fields.count, fields.width);
    let span = Span {
        start,
        len: count.saturating_mul(fields.item_size),
    };
    Bounded {
        command,
        part: sliced.described(PartKind::Table, span, command, index_of(index)),
        span,
        count,
        end: table_end(start, count, fields.item_size),
    }
}

// The field of a command, by its offset and its width.
fn field(sliced: &Sliced, command: u64, offset: u64, width: Width) -> u64
    ensures word { width ≡ Uint32 → command + offset < 2 ^ 64
        → result ≡ word_at (bytes_of sliced.now.held.bytes) (command + offset) }
    ensures field { result ≡ field_shown (bytes_of sliced.now.held.bytes) width (written (command + offset)) }
{
    let place = command.saturating_add(offset);
    match width {
        Width::Uint32 => u64::from(sliced.word(place)),
        Width::Uint64 => sliced.long(place),
    }
}

// The tables that a command with this `cmd` bounds.
pub(crate) fn tables_of(cmd: u32) -> &'static [TableFields]
    ensures { result.now ≡ option_map_or table_fields (structure_of cmd) [] }
{
    match structure_of(cmd) {
        Some(structure) => structure.tables(),
        None => &[],
    }
}

// The table with this index of a command.
pub(crate) fn table_with(sliced: &Sliced, load: Load, index: u64) -> Option<Bounded>
    ensures { IfNone result (length (option_map_or table_fields (structure_of load.cmd) []) ≤ index) }
{
    let fields = tables_of(load.cmd).get(index as usize)?;
    Some(table_by(sliced, load.place, *fields, index))
}

// The indirect entries of `LC_DYSYMTAB`.
pub(crate) fn indirects(sliced: &Sliced) -> Option<Part> {
    let walked = walk_to(sliced.held.bytes, Sought::First(LC_DYSYMTAB))?;
    let table = table_with(sliced, walked.load, INDIRECTS)?;
    Some(table.part)
}

// The index of the indirect entries among the tables of `LC_DYSYMTAB`.
const INDIRECTS: u64 = 3;

// The table with this index of `LC_SYMTAB`, and how many items it has: the symbols or the strings.
pub(crate) fn symtab_table(sliced: &Sliced, index: u64) -> (Option<Part>, u64) {
    let Some(walked) = walk_to(sliced.held.bytes, Sought::First(LC_SYMTAB)) else {
        return (None, 0);
    };
    match table_with(sliced, walked.load, index) {
        Some(table) => (Some(table.part), table.count),
        None => (None, 0),
    }
}
