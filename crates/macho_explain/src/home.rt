//! The rule of the home of a table that loaders look for. (docs/rules/linked.md)

ghost use Rattle.std.specs.Prelude.{◌≡◌, ◌↔◌, Any, IfSome, IsTrue, MatchOption};
ghost use Rattle.macho_fields.specs.Bytes.{bytes_of};
ghost use Rattle.macho_fields.specs.Image.{commands_of};
ghost use Rattle.macho_fields.specs.Segment.{all_segments};
ghost use Rattle.macho_fields.specs.declared.rule.Rule.{Rule};
ghost use Rattle.macho_explain.specs.Compared.{HasLostTable, IsFileEnd, IsHomelessShown, IsLookedFor};
ghost use Rattle.macho_explain.specs.Explained.{ExplainsIn};
ghost use Rattle.macho_explain.specs.Parts.{IsPartOf, Share};
ghost use Rattle.macho_tables.specs.Homes.{Encrypts, HasHome, IsAstray};

use crate::command::command_here;
use crate::conflict::{Conflict, shared};
use crate::explanation::Explanation;
use crate::part::clamped;
use crate::segment::segment_at;
use crate::sliced::Sliced;
use crate::table::{Bounded, table_by, tables_of};
use macho_fields::TableFields;
use macho_fields::header::loader::dysymtab_command::INDIRECTSYMOFF;
use macho_fields::header::loader::{LC_DYSYMTAB, LC_ENCRYPTION_INFO_64};
use macho_image::Image;
use macho_tables::homes::{encrypts, has_linkedit, is_home};
use macho_tables::segment::is_linkedit;

// The first table of a command that has no home, and why.
#[inline(never)]
pub(crate) fn table_home(sliced: &Sliced) -> Option<Explanation>
    ensures { ExplainsIn Rule.TableHome sliced.now result }
{
    let (at, walked) = command_here(sliced)?;
    let conflict = first_homeless(sliced, &sliced.held.open()?, walked.load.cmd)?;
    Some(at.shows(conflict))
}

// Why the first table without a home, among the tables that the command at the place bounds, has no home.
fn first_homeless(sliced: &Sliced, image: &Image, cmd: u32) -> Option<Conflict>
    requires { image.now ≡ bytes_of sliced.now.held.bytes }
    ensures { MatchOption result (¬ HasLostTable (bytes_of sliced.now.held.bytes) sliced.now.place cmd)
        (IsHomelessShown (bytes_of sliced.now.held.bytes)) }
{
    let mut index: u64 = 0;
    for fields in tables_of(cmd) {
        let table = table_by(sliced, sliced.place, *fields, index);
        if is_looked_for(cmd, *fields)
            && table.span.len > 0
            && let Some(conflict) = homeless(sliced, image, &table)
        {
            return Some(conflict);
        }
        index = index.saturating_add(1);
    }
    None
}

// Whether loaders look for the table of a command. Of `LC_DYSYMTAB` they look for the indirect entries alone.
fn is_looked_for(cmd: u32, fields: TableFields) -> bool
    ensures { IsTrue result ↔ IsLookedFor cmd fields }
{
    cmd != LC_DYSYMTAB || fields.place == INDIRECTSYMOFF
}

// Why a table has no home: loaders look for it in no segment, they look in a segment that is not its home, or a
// kernel decrypts a byte of it.
fn homeless(sliced: &Sliced, image: &Image, table: &Bounded) -> Option<Conflict>
    requires image { image.now ≡ bytes_of sliced.now.held.bytes }
    requires part { IsPartOf sliced.now.held.place table.now.span table.now.part }
    ensures { MatchOption result (HasHome table.now.span image.now)
        (IsHomelessShown (bytes_of sliced.now.held.bytes)) }
{
    if !has_linkedit(image) {
        return Some(Conflict::alone(table.part, clamped(table.end), 0));
    }
    match astray(sliced, image, table) {
        Some(conflict) => Some(conflict),
        None => encrypted(sliced, image, table),
    }
}

// The first segment in which loaders look for the table, and which is not its home.
fn astray(sliced: &Sliced, image: &Image, table: &Bounded) -> Option<Conflict>
    requires { image.now ≡ bytes_of sliced.now.held.bytes }
    ensures { MatchOption result (¬ Any (IsAstray table.now.span image.now) (all_segments image.now))
        (λ c. IsFileEnd (bytes_of sliced.now.held.bytes) c.limit) }
{
    let span = table.span;
    let segment = image
        .segments()
        .find(|segment| is_linkedit(segment) && !is_home(segment, span))?;
    let end = clamped(segment.file_part().end());
    Some(Conflict {
        second: segment_at(sliced, segment.place()),
        ..Conflict::alone(table.part, clamped(table.end), end)
    })
}

// The first encrypted range that shares a byte with the table.
fn encrypted(sliced: &Sliced, image: &Image, table: &Bounded) -> Option<Conflict>
    requires { IsPartOf sliced.now.held.place table.now.span table.now.part }
    ensures { MatchOption result (¬ Any (Encrypts table.now.span image.now) (commands_of image.now))
        (IsHomelessShown (bytes_of sliced.now.held.bytes)) }
{
    let span = table.span;
    let command = image
        .commands()
        .find(|command| encrypts(image, command, span))?;
    match sharing_range(sliced, table, command.place) {
        Some(conflict) => Some(conflict),
        None => Some(Conflict::alone(table.part, clamped(table.end), 0)),
    }
}

// The encrypted range of the command at a place, if it shares a byte with the table.
fn sharing_range(sliced: &Sliced, table: &Bounded, command: u64) -> Option<Conflict>
    requires { IsPartOf sliced.now.held.place table.now.span table.now.part }
    ensures { IfSome result Share }
{
    let fields = tables_of(LC_ENCRYPTION_INFO_64).first()?;
    let range = table_by(sliced, command, *fields, 0);
    let (first, last) = shared(table.span, range.span)?;
    Some(sliced.sharing(table.part, range.part, first, last))
}
