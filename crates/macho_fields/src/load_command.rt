//! The load commands that are judged: the structure of each, and what the structure has.
//! (`mach-o/loader.h`)

ghost use Rattle.std.specs.Prelude.{◌≡◌, ◌<◌, All, IfSome};
ghost use Rattle.macho_fields.specs.LoadCommands.{structure_of};
ghost use Rattle.macho_fields.specs.LoadCommands.{names_library, unique_index};
ghost use Rattle.macho_fields.specs.LoadCommands.{unlisted_tables, AreFieldsInside};

use crate::bytes::{Bytes, Order};
use crate::header::loader::*;
use crate::header::{loader, nlist, reloc};

/// The structure of a load command, named as `mach-o/loader.h` names it.
#[derive(Clone, Copy, PartialEq, Eq)]
pub enum Structure {
    // registry: structures
    /// `symtab_command`
    SymtabCommand,
    /// `dysymtab_command`
    DysymtabCommand,
    /// `dylib_command`
    DylibCommand,
    /// `dylinker_command`
    DylinkerCommand,
    /// `rpath_command`
    RpathCommand,
    /// `segment_command_64`
    SegmentCommand64,
    /// `uuid_command`
    UuidCommand,
    /// `linkedit_data_command`
    LinkeditDataCommand,
    /// `dyld_info_command`
    DyldInfoCommand,
    /// `encryption_info_command_64`
    EncryptionInfoCommand64,
    /// `note_command`
    NoteCommand,
    /// `build_version_command`
    BuildVersionCommand,
    /// `entry_point_command`
    EntryPointCommand,
    // registry: end
}

/// The records that follow a structure.
#[derive(Clone, Copy)]
pub struct Records {
    /// The offset in the command of the 32-bit field with their number.
    pub count: u64,
    /// The size in bytes of one.
    pub size: u64,
}

/// How wide a field is.
#[derive(Clone, Copy)]
pub enum Width {
    /// 32 bits, a `uint32_t`.
    Uint32,
    /// 64 bits, a `uint64_t`.
    Uint64,
}

impl Width {
    ghost use Rattle.std.specs.Prelude.{◌≡◌, ◌+◌, ◌*◌, ◌^◌, ◌≤◌, ◌<◌, length};
    ghost use Rattle.macho_fields.specs.Bytes.{bytes_of};
    ghost use Rattle.macho_fields.specs.LoadCommands.{width_size};
    ghost use Rattle.macho_fields.specs.Symbol.{number_of};

    /// The size in bytes of a field of this width.
    pub const fn size(self) -> u64
        ensures { result ≡ width_size self }
    {
        match self {
            Width::Uint32 => 4,
            Width::Uint64 => 8,
        }
    }

    /// The number in the field of this width at `place`, which lies inside the image.
    pub fn read(self, image: Bytes, place: u64) -> u64
        requires { place + width_size self ≤ length (bytes_of image) }
        ensures number { result ≡ number_of self (bytes_of image.entry) place }
        ensures near { result < 2 ^ (8 * width_size self) }
    {
        match self {
            Width::Uint32 => u64::from(image.read_u32(Order::Little, place)),
            Width::Uint64 => image.read_u64(Order::Little, place),
        }
    }
}

/// The two fields of a structure that bound a table of the image, and the size of its items.
#[derive(Clone, Copy)]
pub struct TableFields {
    /// The offset in the command of the field with the place of the table.
    pub place: u64,
    /// The offset in the command of the field with the number of its items.
    pub count: u64,
    /// The width of both fields.
    pub width: Width,
    /// The size in bytes of an item.
    pub item_size: u64,
}

impl TableFields {
    ghost use Rattle.std.specs.Prelude.{◌≡◌, ◌+◌, ◌*◌, ◌^◌, ◌≤◌, ◌<◌, length};
    ghost use Rattle.macho_fields.specs.Bytes.{bytes_of};
    ghost use Rattle.macho_fields.specs.LoadCommands.{width_size};
    ghost use Rattle.macho_fields.specs.Symbol.{table_place, item_count};

    /// Where the table begins that the command at the place `command` bounds.
    pub fn table_place(self, image: Bytes, command: u64) -> u64
        requires { command + self.place + width_size self.width ≤ length (bytes_of image) }
        ensures { result ≡ table_place (bytes_of image.entry) command self }
    {
        self.width.read(image, command + self.place)
    }

    /// How many items the table has that the command at the place `command` bounds.
    pub fn item_count(self, image: Bytes, command: u64) -> u64
        requires { command + self.count + width_size self.width ≤ length (bytes_of image) }
        ensures count { result ≡ item_count (bytes_of image.entry) command self }
        ensures near { result < 2 ^ (8 * width_size self.width) }
    {
        self.width.read(image, command + self.count)
    }
}

// The tables of a structure, each by the names of the two fields that bound it, their width, and the size of an item.
macro_rules! tables {
    ($structure:ident: $($place:ident, $count:ident, $width:ident, $item_size:expr;)+) => {
        [$(TableFields {
            place: loader::$structure::$place,
            count: loader::$structure::$count,
            width: Width::$width,
            item_size: $item_size,
        }),+]
    };
}

// The tables of each structure that has any, in the order of its fields.

// registry: tables
const SYMTAB_COMMAND_TABLES: &[TableFields] = &tables! { symtab_command:
    SYMOFF, NSYMS, Uint32, nlist::NLIST_64_SIZE;
    STROFF, STRSIZE, Uint32, 1;
};

const DYSYMTAB_COMMAND_TABLES: &[TableFields] = &tables! { dysymtab_command:
    TOCOFF, NTOC, Uint32, loader::DYLIB_TABLE_OF_CONTENTS_SIZE;
    MODTABOFF, NMODTAB, Uint32, loader::DYLIB_MODULE_64_SIZE;
    EXTREFSYMOFF, NEXTREFSYMS, Uint32, loader::DYLIB_REFERENCE_SIZE;
    INDIRECTSYMOFF, NINDIRECTSYMS, Uint32, loader::INDIRECT_ENTRY_SIZE;
    EXTRELOFF, NEXTREL, Uint32, reloc::RELOCATION_INFO_SIZE;
    LOCRELOFF, NLOCREL, Uint32, reloc::RELOCATION_INFO_SIZE;
};

const LINKEDIT_DATA_COMMAND_TABLES: &[TableFields] = &tables! { linkedit_data_command:
    DATAOFF, DATASIZE, Uint32, 1;
};

const DYLD_INFO_COMMAND_TABLES: &[TableFields] = &tables! { dyld_info_command:
    REBASE_OFF, REBASE_SIZE_OFFSET, Uint32, 1;
    BIND_OFF, BIND_SIZE_OFFSET, Uint32, 1;
    WEAK_BIND_OFF, WEAK_BIND_SIZE_OFFSET, Uint32, 1;
    LAZY_BIND_OFF, LAZY_BIND_SIZE_OFFSET, Uint32, 1;
    EXPORT_OFF, EXPORT_SIZE_OFFSET, Uint32, 1;
};

const ENCRYPTION_INFO_COMMAND_64_TABLES: &[TableFields] = &tables! { encryption_info_command_64:
    CRYPTOFF, CRYPTSIZE, Uint32, 1;
};

const NOTE_COMMAND_TABLES: &[TableFields] = &tables! { note_command:
    OFFSET, SIZE_OFFSET, Uint64, 1;
};

const TWOLEVEL_HINTS_COMMAND_TABLES: &[TableFields] = &tables! { twolevel_hints_command:
    OFFSET, NHINTS, Uint32, loader::TWOLEVEL_HINT_SIZE;
};
// registry: end

// What a structure has.
#[derive(Clone, Copy)]
struct Layout {
    // Its size in bytes.
    size: u64,
    // Whether a name follows it.
    has_name: bool,
    // The records that follow it.
    records: Option<Records>,
    // The tables that its fields bound.
    tables: &'static [TableFields],
}

// A layout by its size, and by what it has besides: a name, records (the offset of their number, and
// the size of one), or tables.
macro_rules! layout {
    ($size:expr) => {
        layout!($size, tables &[])
    };
    ($size:expr, name) => {
        Layout {
            size: $size,
            has_name: true,
            records: None,
            tables: &[],
        }
    };
    ($size:expr, records $count:expr, $record_size:expr) => {
        Layout {
            size: $size,
            has_name: false,
            records: Some(Records {
                count: $count,
                size: $record_size,
            }),
            tables: &[],
        }
    };
    ($size:expr, tables $tables:expr) => {
        Layout {
            size: $size,
            has_name: false,
            records: None,
            tables: $tables,
        }
    };
}

impl Structure {
    ghost use Rattle.std.specs.Prelude.{◌≡◌, ◌+◌, ◌≤◌, All, IsTrue, IfSome};
    ghost use Rattle.macho_fields.specs.LoadCommands.{structure_size, has_name, records_of};
    ghost use Rattle.macho_fields.specs.LoadCommands.{table_fields, AreFieldsInside, IsLayoutOf};

    // What the structure has, a line for each.
    const fn layout(self) -> Layout
        ensures { IsLayoutOf self result }
    {
        match self {
            // registry: layouts
            Structure::SymtabCommand => layout!(24, tables SYMTAB_COMMAND_TABLES),
            Structure::DysymtabCommand => layout!(80, tables DYSYMTAB_COMMAND_TABLES),
            Structure::DylibCommand => layout!(24, name),
            Structure::DylinkerCommand => layout!(12, name),
            Structure::RpathCommand => layout!(12, name),
            Structure::SegmentCommand64 => {
                layout!(72, records segment_command_64::NSECTS, loader::SECTION_64_SIZE)
            }
            Structure::UuidCommand => layout!(24),
            Structure::LinkeditDataCommand => layout!(16, tables LINKEDIT_DATA_COMMAND_TABLES),
            Structure::DyldInfoCommand => layout!(48, tables DYLD_INFO_COMMAND_TABLES),
            Structure::EncryptionInfoCommand64 => {
                layout!(24, tables ENCRYPTION_INFO_COMMAND_64_TABLES)
            }
            Structure::NoteCommand => layout!(40, tables NOTE_COMMAND_TABLES),
            Structure::BuildVersionCommand => {
                layout!(24, records build_version_command::NTOOLS, loader::BUILD_TOOL_VERSION_SIZE)
            }
            Structure::EntryPointCommand => layout!(24),
            // registry: end
        }
    }

    /// The size in bytes of the structure, which is the least offset of a name that follows it.
    pub const fn size(self) -> u64
        ensures size { result ≡ structure_size self }
        ensures near { result ≤ 80 }
    {
        self.layout().size
    }

    /// Whether a name ends the command. The `lc_str` at `LC_STR_OFFSET` is the offset of the name.
    pub const fn has_name(self) -> bool
        ensures name { result ≡ has_name self }
        ensures inside { IsTrue result → LC_STR_OFFSET + 4 ≤ structure_size self }
    {
        self.layout().has_name
    }

    /// The records that follow the structure, or `None` where it has none.
    pub const fn records(self) -> Option<Records>
        ensures records { result ≡ records_of self }
        ensures inside { IfSome result (λ records. records.count + 4 ≤ structure_size self) }
        ensures near { IfSome result (λ records. records.size ≤ 80) }
    {
        self.layout().records
    }

    /// The tables that the fields of the structure bound.
    pub const fn tables(self) -> &'static [TableFields]
        ensures tables { result.now ≡ table_fields self }
        ensures inside { All (AreFieldsInside (structure_size self)) result.now }
    {
        self.layout().tables
    }
}

// The judged command with the greatest number without the bit `LC_REQ_DYLD`.
// registry: last command
const LAST_WITHOUT_BIT: u32 = LC_BUILD_VERSION;
// registry: end

/// How many load commands an image has at most once.
// registry: unique count
pub const UNIQUE_COUNT: usize = 5;
// registry: end

/// The structure of a command with this `cmd`, or `None` where it is not judged.
pub fn structure_of(cmd: u32) -> Option<Structure>
    ensures { result ≡ structure_of cmd }
{
    // No judged command has a number in this range, which the match would look through.
    if cmd > LAST_WITHOUT_BIT && cmd < LC_REQ_DYLD {
        return None;
    }
    match cmd {
        // registry: structures of commands
        LC_SYMTAB => Some(Structure::SymtabCommand),
        LC_DYSYMTAB => Some(Structure::DysymtabCommand),
        LC_LOAD_DYLIB
        | LC_ID_DYLIB
        | LC_LAZY_LOAD_DYLIB
        | LC_LOAD_WEAK_DYLIB
        | LC_REEXPORT_DYLIB
        | LC_LOAD_UPWARD_DYLIB => Some(Structure::DylibCommand),
        LC_LOAD_DYLINKER | LC_ID_DYLINKER | LC_DYLD_ENVIRONMENT => Some(Structure::DylinkerCommand),
        LC_RPATH => Some(Structure::RpathCommand),
        LC_SEGMENT_64 => Some(Structure::SegmentCommand64),
        LC_UUID => Some(Structure::UuidCommand),
        LC_CODE_SIGNATURE
        | LC_SEGMENT_SPLIT_INFO
        | LC_FUNCTION_STARTS
        | LC_DATA_IN_CODE
        | LC_DYLIB_CODE_SIGN_DRS
        | LC_LINKER_OPTIMIZATION_HINT
        | LC_DYLD_EXPORTS_TRIE
        | LC_DYLD_CHAINED_FIXUPS => Some(Structure::LinkeditDataCommand),
        LC_DYLD_INFO | LC_DYLD_INFO_ONLY => Some(Structure::DyldInfoCommand),
        LC_ENCRYPTION_INFO_64 => Some(Structure::EncryptionInfoCommand64),
        LC_NOTE => Some(Structure::NoteCommand),
        LC_BUILD_VERSION => Some(Structure::BuildVersionCommand),
        LC_MAIN => Some(Structure::EntryPointCommand),
        // registry: end
        _ => None,
    }
}

/// The tables of a command with this `cmd` that is not judged, if `loader.h` gives it any. The fields
/// that bound them lie in the first `LINKEDIT_DATA_COMMAND_SIZE` bytes of the command, if it has so many.
pub fn unlisted_tables(cmd: u32) -> &'static [TableFields]
    ensures tables { result.now ≡ unlisted_tables cmd }
    ensures inside { All (AreFieldsInside LINKEDIT_DATA_COMMAND_SIZE) result.now }
{
    match cmd {
        // registry: tables of other commands
        LC_ATOM_INFO | LC_FUNCTION_VARIANTS | LC_FUNCTION_VARIANT_FIXUPS => {
            LINKEDIT_DATA_COMMAND_TABLES
        }
        LC_TWOLEVEL_HINTS => TWOLEVEL_HINTS_COMMAND_TABLES,
        // registry: end
        _ => &[],
    }
}

/// Where a command with this `cmd` stands among the commands that an image has at most once, from 0 on, or
/// `None` where an image may have it more than once, or it is not judged.
pub fn unique_index(cmd: u32) -> Option<usize>
    ensures index { result ≡ unique_index cmd }
    ensures inside { IfSome result (λ index. index < UNIQUE_COUNT) }
{
    match cmd {
        // registry: unique commands
        LC_SYMTAB => Some(0),
        LC_DYSYMTAB => Some(1),
        LC_ID_DYLIB => Some(2),
        LC_UUID => Some(3),
        LC_MAIN => Some(4),
        // registry: end
        _ => None,
    }
}

/// Whether a command with this `cmd` names a library.
pub fn names_library(cmd: u32) -> bool
    ensures { result ≡ names_library cmd }
{
    structure_of(cmd) == Some(Structure::DylibCommand)
}
