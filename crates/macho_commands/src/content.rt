//! What the load commands hold that no rule of the layout judges. (`mach-o/loader.h`)

ghost use Rattle.std.specs.Prelude.{◌≡◌, IfSome};
ghost use Rattle.macho_commands.specs.Content.{content_of, is_foreign, HasFields};

use macho_fields::header::loader::linkedit_data_command::{DATAOFF, DATASIZE};
use macho_fields::header::loader::twolevel_hints_command::{NHINTS, OFFSET};
use macho_fields::header::loader::{
    LC_ATOM_INFO, LC_ENCRYPTION_INFO, LC_FILESET_ENTRY, LC_FUNCTION_VARIANT_FIXUPS,
    LC_FUNCTION_VARIANTS, LC_FVMFILE, LC_IDENT, LC_IDFVMLIB, LC_LINKER_OPTION, LC_LOADFVMLIB,
    LC_PREBIND_CKSUM, LC_PREBOUND_DYLIB, LC_PREPAGE, LC_ROUTINES, LC_ROUTINES_64, LC_SEGMENT,
    LC_SOURCE_VERSION, LC_SUB_CLIENT, LC_SUB_FRAMEWORK, LC_SUB_LIBRARY, LC_SUB_UMBRELLA, LC_SYMSEG,
    LC_TARGET_TRIPLE, LC_TWOLEVEL_HINTS, LC_VERSION_MIN_IPHONEOS, LC_VERSION_MIN_MACOSX,
    LC_VERSION_MIN_TVOS, LC_VERSION_MIN_WATCHOS, LINKEDIT_DATA_COMMAND_SIZE, LOAD_COMMAND_SIZE,
    TWOLEVEL_HINT_SIZE, symseg_command,
};
use macho_fields::{TableFields, Width};

/// What a command holds besides the fields of its structure, or names by them.
#[derive(Clone, Copy)]
pub enum Holding {
    /// Nothing.
    Nothing,
    /// A name, whose `lc_str` is at `LC_STR_OFFSET`.
    Name,
    /// Such a name, and a bit for each module of a library.
    NameAndModules,
    /// Strings up to the end of the command, each with a zero byte: any number.
    Strings,
    /// As many strings as a field of the structure has it, each with a zero byte.
    CountedStrings,
    /// A range of bytes of the image.
    Range(TableFields),
    /// The address of a routine, in a field of this width.
    Routine(Width),
}

/// What a held command has: one that `mach-o/loader.h` defines, and that no other rule judges.
#[derive(Clone, Copy)]
pub struct Content {
    /// The size in bytes of its structure.
    pub size: u64,
    /// What it holds besides.
    pub holding: Holding,
}

// The range of `symseg_command`.
const SYMBOL_SEGMENT: TableFields = TableFields {
    place: symseg_command::OFFSET,
    count: symseg_command::SIZE_OFFSET,
    width: Width::Uint32,
    item_size: 1,
};

// The range of `twolevel_hints_command`.
const HINTS: TableFields = TableFields {
    place: OFFSET,
    count: NHINTS,
    width: Width::Uint32,
    item_size: TWOLEVEL_HINT_SIZE,
};

// The range of `linkedit_data_command`.
const LINKEDIT_DATA: TableFields = TableFields {
    place: DATAOFF,
    count: DATASIZE,
    width: Width::Uint32,
    item_size: 1,
};

// A held command, by the size of its structure and what it holds.
macro_rules! held {
    ($size:expr, $holding:expr) => {
        Some(Content {
            size: $size,
            holding: $holding,
        })
    };
}

/// What a held command with this `cmd` has, or `None` if it is not a held command.
pub fn content_of(cmd: u32) -> Option<Content>
    ensures content { result ≡ content_of cmd }
    ensures fields { IfSome result HasFields }
{
    match cmd {
        LC_SYMSEG => held!(16, Holding::Range(SYMBOL_SEGMENT)),
        LC_LOADFVMLIB | LC_IDFVMLIB => held!(20, Holding::Name),
        LC_IDENT => held!(LOAD_COMMAND_SIZE, Holding::Strings),
        LC_FVMFILE => held!(16, Holding::Name),
        LC_PREPAGE => held!(LOAD_COMMAND_SIZE, Holding::Nothing),
        LC_PREBOUND_DYLIB => held!(20, Holding::NameAndModules),
        LC_ROUTINES => held!(40, Holding::Routine(Width::Uint32)),
        LC_SUB_FRAMEWORK | LC_SUB_UMBRELLA | LC_SUB_CLIENT | LC_SUB_LIBRARY => {
            held!(12, Holding::Name)
        }
        LC_TWOLEVEL_HINTS => held!(16, Holding::Range(HINTS)),
        LC_PREBIND_CKSUM => held!(12, Holding::Nothing),
        LC_ROUTINES_64 => held!(72, Holding::Routine(Width::Uint64)),
        LC_VERSION_MIN_MACOSX
        | LC_VERSION_MIN_IPHONEOS
        | LC_VERSION_MIN_TVOS
        | LC_VERSION_MIN_WATCHOS
        | LC_SOURCE_VERSION => held!(16, Holding::Nothing),
        LC_LINKER_OPTION => held!(12, Holding::CountedStrings),
        LC_ATOM_INFO | LC_FUNCTION_VARIANTS | LC_FUNCTION_VARIANT_FIXUPS => {
            held!(LINKEDIT_DATA_COMMAND_SIZE, Holding::Range(LINKEDIT_DATA))
        }
        LC_TARGET_TRIPLE => held!(12, Holding::Name),
        _ => None,
    }
}

/// Whether a command with this `cmd` is foreign: one for 32-bit images, or for an image of a set.
pub fn is_foreign(cmd: u32) -> bool
    ensures { result ≡ is_foreign cmd }
{
    matches!(cmd, LC_SEGMENT | LC_ENCRYPTION_INFO | LC_FILESET_ENTRY)
}
