//! The load commands of an image.

ghost use Rattle.std.specs.Prelude.{◌≡◌, false};
ghost use Rattle.std.specs.Option.{option_map_or};
ghost use Rattle.macho_fields.specs.Bytes.{bytes_of};
ghost use Rattle.macho_fields.specs.LoadCommands.{has_name, structure_of};
ghost use Rattle.macho_rows.specs.Commands.{command_row, command_rows_left, name_span};
ghost use Rattle.macho_rows.specs.Loads.{IsLoad};

use crate::cursor::KesvuotCursor;
use crate::load::{Load, Wanted, next_wanted};
use crate::parts::{ended_string, rest};
use crate::span::{Held, KesvuotSpan, NO_SPAN};
use crate::table::Table;
use macho_fields::header::loader::LC_STR_OFFSET;
use macho_fields::{Bytes, Order, Span, structure_of};

/// A load command. (`load_command`)
#[repr(C)]
#[derive(Clone, Copy)]
pub struct KesvuotCommand {
    /// Its bytes, `cmd` and `cmdsize` included.
    pub bytes: KesvuotSpan,
    /// Its name, of a `dylib_command`, `dylinker_command` or `rpath_command`, otherwise none.
    pub name: KesvuotSpan,
    pub cmd: u32,
    /// Reserved: 0.
    pub reserved: u32,
}

/// The load commands of an image.
#[derive(Clone, Copy)]
pub struct Commands<'a> {
    pub image: Held<'a>,
}

impl<'a> Table for Commands<'a> {
    ghost use Rattle.macho_fields.specs.Bytes.{bytes_of};
    ghost use Rattle.macho_rows.specs.Commands.{command_rows_left};

    type Row = KesvuotCommand;

    ghost left = { λ t. command_rows_left t.image.place (bytes_of t.image.bytes) };

    fn next(&self, cursor: &mut KesvuotCursor) -> Option<KesvuotCommand> {
        let load = next_wanted(self.image.bytes, cursor, Wanted::All)?;
        Some(row_of(&self.image, load))
    }
}

// The row of a load command.
fn row_of(image: &Held, load: Load) -> KesvuotCommand
    requires { IsLoad (bytes_of image.now.bytes) load }
    ensures { result ≡ command_row image.now.place (bytes_of image.now.bytes) load.place }
{
    KesvuotCommand {
        bytes: image.part(load.place, load.size),
        name: if has_name(load.cmd) {
            name_span(image, load)
        } else {
            NO_SPAN
        },
        cmd: load.cmd,
        reserved: 0,
    }
}

// Whether a command with this `cmd` is listed, and its structure has a name.
fn has_name(cmd: u32) -> bool
    ensures { result ≡ option_map_or has_name (structure_of cmd) false }
{
    match structure_of(cmd) {
        Some(structure) => structure.has_name(),
        None => false,
    }
}

/// Where the name of a load command lies in the file.
pub fn name_span(image: &Held, load: Load) -> KesvuotSpan
    requires { IsLoad (bytes_of image.now.bytes) load }
    ensures { result ≡ name_span image.now.place (bytes_of image.now.bytes) load.place }
{
    let whole = Span {
        start: load.place,
        len: load.size,
    };
    let bytes = image.bytes.read_part(whole);
    match Bytes::new(bytes).u32_at(Order::Little, LC_STR_OFFSET) {
        Some(offset) => {
            let offset = u64::from(offset);
            image.span_of(load.place + offset, ended_string(rest(bytes, offset)))
        }
        None => NO_SPAN,
    }
}
