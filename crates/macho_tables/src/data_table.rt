//! The table that the first `linkedit_data_command` with a `cmd` names. (`mach-o/loader.h`)

ghost use Rattle.std.specs.Prelude.{◌≡◌, ◌≤◌, length, None, Some, IfSome, MatchOption};
ghost use Rattle.macho_fields.specs.Layers.{NothingBreaks};
ghost use Rattle.macho_fields.specs.LoadCommands.{structure_of};
ghost use Rattle.macho_fields.specs.Rules.{BreaksImage as Breaks};
ghost use Rattle.macho_fields.specs.declared.load_command.Structure.TheVariants.{LinkeditDataCommand};
ghost use Rattle.macho_tables.specs.DataTables.{IsDataTable};
ghost use Rattle.macho_spans.specs.Span.{end_of};

use crate::homes::span_of;
use crate::place::{bounded_at, first_place};
use macho_fields::Span;
use macho_fields::header::loader::linkedit_data_command::DATAOFF;
use macho_image::Image;

/// Where this table is in an image that breaks no rule of the layout. It is `None` if no command names it, or it
/// has no bytes.
pub fn data_table(image: &Image, cmd: u32) -> Option<Span>
    requires unbroken { NothingBreaks (Breaks image.now None) }
    requires cmd { structure_of cmd ≡ Some LinkeditDataCommand }
    ensures table { MatchOption result
        ((table : Span) → ¬ IsDataTable image.now cmd table) (IsDataTable image.now cmd) }
    ensures inside { IfSome result (λ table. end_of table ≤ length image.now) }
{
    let command = first_place(image, cmd)?;
    let table = span_of(image, command, bounded_at(DATAOFF));
    if table.len > 0 { Some(table) } else { None }
}
