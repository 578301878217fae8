//! The platforms that an image is built for.

ghost use Rattle.std.specs.Prelude.{◌≡◌, IsTrue};
ghost use Rattle.macho_fields.specs.Bytes.{bytes_of};
ghost use Rattle.macho_rows.specs.Builds.{build_row, builds_left};
ghost use Rattle.macho_rows.specs.Loads.{IsLoad, is_build};

use crate::cursor::KesvuotCursor;
use crate::load::{Load, Wanted, next_wanted, version_min_platform};
use crate::table::Table;
use macho_fields::header::loader::build_version_command::{MINOS, PLATFORM, SDK};
use macho_fields::header::loader::version_min_command;
use macho_fields::{Bytes, Order};

/// A platform and its versions. (`build_version_command`, `version_min_command`)
#[repr(C)]
#[derive(Clone, Copy)]
pub struct KesvuotBuild {
    pub platform: u32,
    pub minos: u32,
    pub sdk: u32,
    /// The `cmd` of its command, which is the platform of a `version_min_command`.
    pub cmd: u32,
}

/// The builds of an image.
#[derive(Clone, Copy)]
pub struct Builds<'a> {
    pub image: Bytes<'a>,
}

impl<'a> Table for Builds<'a> {
    ghost use Rattle.macho_fields.specs.Bytes.{bytes_of};
    ghost use Rattle.macho_rows.specs.Builds.{builds_left};

    type Row = KesvuotBuild;

    ghost left = { λ t. builds_left (bytes_of t.image) };

    fn next(&self, cursor: &mut KesvuotCursor) -> Option<KesvuotBuild> {
        let load = next_wanted(self.image, cursor, Wanted::Builds)?;
        Some(row_of(self.image, load))
    }
}

// The row of a command that has the platform of a build.
fn row_of(image: Bytes, load: Load) -> KesvuotBuild
    requires load { IsLoad (bytes_of image) load }
    requires build { IsTrue (is_build (bytes_of image) load.place) }
    ensures { result ≡ build_row (bytes_of image.entry) load.place }
{
    match version_min_platform(load.cmd) {
        Some(platform) => KesvuotBuild {
            platform,
            minos: image.read_u32(Order::Little, load.place + version_min_command::VERSION),
            sdk: image.read_u32(Order::Little, load.place + version_min_command::SDK),
            cmd: load.cmd,
        },
        None => KesvuotBuild {
            platform: image.read_u32(Order::Little, load.place + PLATFORM),
            minos: image.read_u32(Order::Little, load.place + MINOS),
            sdk: image.read_u32(Order::Little, load.place + SDK),
            cmd: load.cmd,
        },
    }
}
