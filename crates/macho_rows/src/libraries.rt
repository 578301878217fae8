//! The libraries that an image loads, and what it is as one.

ghost use Rattle.std.specs.Prelude.{◌≡◌, ◌≤◌};
ghost use Rattle.macho_fields.specs.Bytes.{bytes_of};
ghost use Rattle.macho_rows.specs.Libraries.{library_row, libraries_left};
ghost use Rattle.macho_rows.specs.Loads.{IsLoad};

use crate::commands::name_span;
use crate::cursor::KesvuotCursor;
use crate::load::{Load, Wanted, next_wanted};
use crate::span::{Held, KesvuotSpan, NO_SPAN};
use crate::table::Table;
use macho_fields::Order;
use macho_fields::header::loader::dylib_command::{COMPATIBILITY_VERSION, CURRENT_VERSION};

/// A library: one that the image loads, or the image itself. (`dylib_command`)
#[repr(C)]
#[derive(Clone, Copy)]
pub struct KesvuotLibrary {
    pub name: KesvuotSpan,
    /// The `cmd` of its command: `LC_ID_DYLIB` for the image itself.
    pub cmd: u32,
    pub current: u32,
    pub compatible: u32,
    /// Reserved: 0.
    pub reserved: u32,
}

/// No library.
pub const NO_LIBRARY: KesvuotLibrary = KesvuotLibrary {
    name: NO_SPAN,
    cmd: 0,
    current: 0,
    compatible: 0,
    reserved: 0,
};

/// The libraries that an image loads.
#[derive(Clone, Copy)]
pub struct Libraries<'a> {
    pub image: Held<'a>,
}

impl<'a> Table for Libraries<'a> {
    ghost use Rattle.macho_fields.specs.Bytes.{bytes_of};
    ghost use Rattle.macho_rows.specs.Libraries.{libraries_left};

    type Row = KesvuotLibrary;

    ghost left = { λ t. libraries_left t.image.place (bytes_of t.image.bytes) };

    fn next(&self, cursor: &mut KesvuotCursor) -> Option<KesvuotLibrary> {
        let load = next_wanted(self.image.bytes, cursor, Wanted::Libraries)?;
        Some(library_row(&self.image, load))
    }
}

// The row of a `dylib_command`.
pub(crate) fn library_row(image: &Held, load: Load) -> KesvuotLibrary
    requires load { IsLoad (bytes_of image.now.bytes) load }
    requires size { 24 ≤ load.size }
    ensures { result ≡ library_row image.now.place (bytes_of image.now.bytes) load.place }
{
    KesvuotLibrary {
        name: name_span(image, load),
        cmd: load.cmd,
        current: image
            .bytes
            .read_u32(Order::Little, load.place + CURRENT_VERSION),
        compatible: image
            .bytes
            .read_u32(Order::Little, load.place + COMPATIBILITY_VERSION),
        reserved: 0,
    }
}
