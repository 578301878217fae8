//! The load commands of any bytes, one after another: each is tested before it is read.

ghost use Rattle.std.specs.Prelude.{◌≡◌, ◌+◌, ◌≤◌, length, if◌then◌else◌, Some, None, IfSome, IsTrue, true, false};
ghost use Rattle.std.specs.Option.{option_map, option_map_or};
ghost use Rattle.std.specs.Iterator.{YieldsFirstBy};
ghost use Rattle.macho_fields.specs.Bytes.{bytes_of};
ghost use Rattle.macho_fields.specs.Image.{command_cmd, command_size};
ghost use Rattle.macho_rows.specs.Loads.{is_command, is_wanted, next_place, loads_library, commands_left, wanted_left, IsLoad};
ghost use Rattle.macho_rows.specs.Loads.{is_segment, is_library, is_build, is_dyld_info, first_wanted, version_min_platform};

use crate::cursor::{KesvuotCursor, START};
use macho_fields::header::loader::load_command::CMDSIZE;
use macho_fields::header::loader::mach_header_64::{NCMDS, SIZEOFCMDS};
use macho_fields::header::loader::segment_command_64::NSECTS;
use macho_fields::header::loader::{
    LC_BUILD_VERSION, LC_DYLD_INFO, LC_DYLD_INFO_ONLY, LC_DYSYMTAB, LC_ENCRYPTION_INFO_64,
    LC_ID_DYLIB, LC_SEGMENT_64, LC_SOURCE_VERSION, LC_SYMTAB, LC_VERSION_MIN_IPHONEOS,
    LC_VERSION_MIN_MACOSX, LC_VERSION_MIN_TVOS, LC_VERSION_MIN_WATCHOS, LINKEDIT_DATA_COMMAND_SIZE,
    LOAD_COMMAND_SIZE, MACH_HEADER_64_SIZE, PLATFORM_IOS, PLATFORM_MACOS, PLATFORM_TVOS,
    PLATFORM_WATCHOS, SECTION_64_SIZE, SEGMENT_COMMAND_64_SIZE, SOURCE_VERSION_COMMAND_SIZE,
    VERSION_MIN_COMMAND_SIZE,
};
use macho_fields::{Bytes, Order, Structure, names_library};

/// A load command: it lies among the commands of the image. (`load_command`)
#[derive(Clone, Copy)]
pub struct Load {
    /// Where it begins in the image.
    pub place: u64,
    pub cmd: u32,
    pub size: u64,
}

/// Which load commands are wanted: those that hold their structure, and of a segment its sections.
#[derive(Clone, Copy)]
pub enum Wanted {
    All,
    Segments,
    /// Those that the image loads: not what it is itself.
    Libraries,
    /// `LC_BUILD_VERSION`, and those that name the least version of one platform.
    Builds,
    SourceVersions,
    Symtabs,
    Dysymtabs,
    DyldInfos,
    EncryptionInfos,
    /// Those with this `cmd`, which a `linkedit_data_command` has.
    LinkeditData(u32),
}

/// The first load command that is wanted.
pub fn first_wanted(image: Bytes, wanted: Wanted) -> Option<Load>
    ensures first { option_map (λ load. load.place) result ≡ first_wanted wanted (bytes_of image.entry) }
    ensures load { IfSome result (λ load. IsLoad (bytes_of image.entry) load
        × IsTrue (is_wanted wanted (bytes_of image.entry) load.place)) }
{
    let mut cursor = START;
    next_wanted(image, &mut cursor, wanted)
}

/// The next load command that is wanted. The others before it are skipped.
pub fn next_wanted(image: Bytes, cursor: &mut KesvuotCursor, wanted: Wanted) -> Option<Load>
    ensures first { YieldsFirstBy (λ load. load.place) (wanted_left wanted (bytes_of image.entry))
        cursor.old result cursor.new }
    ensures load { IfSome result (λ load. IsLoad (bytes_of image.entry) load
        × IsTrue (is_wanted wanted (bytes_of image.entry) load.place)) }
    ensures past { IfSome result (λ load. MACH_HEADER_64_SIZE ≤ load.place) }
    ensures segment { cursor.new.segment ≡ cursor.old.segment }
    ensures items { cursor.new.items ≡ cursor.old.items }
{
    while let Some(load) = next_load(image, cursor) {
        if is_wanted(image, load, wanted) {
            return Some(load);
        }
    }
    None
}

// The next load command, or `None` past the last, or where no command can be.
fn next_load(image: Bytes, cursor: &mut KesvuotCursor) -> Option<Load>
    ensures first { YieldsFirstBy (λ load. load.place) (commands_left (bytes_of image.entry))
        cursor.old result cursor.new }
    ensures load { IfSome result (IsLoad (bytes_of image.entry)) }
    ensures past { IfSome result (λ load. MACH_HEADER_64_SIZE ≤ load.place) }
    ensures segment { cursor.new.segment ≡ cursor.old.segment }
    ensures items { cursor.new.items ≡ cursor.old.items }
{
    let load = load_at(image, place_of(cursor))?;
    if cursor.commands >= u64::from(image.read_u32(Order::Little, NCMDS)) {
        return None;
    }
    cursor.place = load.place + load.size;
    cursor.commands += 1;
    Some(load)
}

// Where the next load command of a cursor begins: the first one past the header.
fn place_of(cursor: &KesvuotCursor) -> u64
    ensures { result ≡ next_place cursor.now }
{
    if cursor.place < MACH_HEADER_64_SIZE {
        MACH_HEADER_64_SIZE
    } else {
        cursor.place
    }
}

/// The load command at a place past the header, if one can be there.
pub fn load_at(image: Bytes, place: u64) -> Option<Load>
    ensures some { IfSome result (λ load. (load.place ≡ place) × IsLoad (bytes_of image.entry) load) }
    ensures found { option_map_or (λ load. true) result false ≡ is_command (bytes_of image.entry) place }
{
    if image.len() < MACH_HEADER_64_SIZE {
        return None;
    }
    let end = MACH_HEADER_64_SIZE + u64::from(image.read_u32(Order::Little, SIZEOFCMDS));
    if image.len() < end || end - LOAD_COMMAND_SIZE < place {
        return None;
    }
    let size = u64::from(image.read_u32(Order::Little, place + CMDSIZE));
    if size % 8 != 0 || size < LOAD_COMMAND_SIZE || end - place < size {
        return None;
    }
    let cmd = image.read_u32(Order::Little, place);
    Some(Load { place, cmd, size })
}

// Whether a load command is wanted.
fn is_wanted(image: Bytes, load: Load, wanted: Wanted) -> bool
    requires { IsLoad (bytes_of image) load }
    ensures { result ≡ is_wanted wanted (bytes_of image.entry) load.place }
{
    match wanted {
        Wanted::All => true,
        Wanted::Segments => is_segment(image, load),
        Wanted::Libraries => loads_library(load.cmd) && load.size >= Structure::DylibCommand.size(),
        Wanted::Builds => is_build(image, load),
        Wanted::SourceVersions => {
            load.cmd == LC_SOURCE_VERSION && load.size >= SOURCE_VERSION_COMMAND_SIZE
        }
        Wanted::Symtabs => load.cmd == LC_SYMTAB && load.size >= Structure::SymtabCommand.size(),
        Wanted::Dysymtabs => load.cmd == LC_DYSYMTAB
            && load.size >= Structure::DysymtabCommand.size(),
        Wanted::DyldInfos => is_dyld_info(load.cmd)
            && load.size >= Structure::DyldInfoCommand.size(),
        Wanted::EncryptionInfos => {
            load.cmd == LC_ENCRYPTION_INFO_64
                && load.size >= Structure::EncryptionInfoCommand64.size()
        }
        Wanted::LinkeditData(cmd) => load.cmd == cmd && load.size >= LINKEDIT_DATA_COMMAND_SIZE,
    }
}

// Whether a load command is a segment that holds its sections.
pub(crate) fn is_segment(image: Bytes, load: Load) -> bool
    requires { IsLoad (bytes_of image) load }
    ensures { result ≡ is_segment (bytes_of image.entry) load.place }
{
    if load.cmd != LC_SEGMENT_64 || load.size < SEGMENT_COMMAND_64_SIZE {
        return false;
    }
    let nsects = u64::from(image.read_u32(Order::Little, load.place + NSECTS));
    SEGMENT_COMMAND_64_SIZE + SECTION_64_SIZE * nsects <= load.size
}

/// Whether a command with this `cmd` names a library that the image loads.
pub fn loads_library(cmd: u32) -> bool
    ensures { result ≡ loads_library cmd }
{
    names_library(cmd) && cmd != LC_ID_DYLIB
}

// Whether a load command has the platform of a build.
fn is_build(image: Bytes, load: Load) -> bool
    requires { IsLoad (bytes_of image) load }
    ensures { result ≡ is_build (bytes_of image.entry) load.place }
{
    match version_min_platform(load.cmd) {
        Some(_) => load.size >= VERSION_MIN_COMMAND_SIZE,
        None => load.cmd == LC_BUILD_VERSION && load.size >= Structure::BuildVersionCommand.size(),
    }
}

/// The platform of the `version_min_command` with this `cmd`.
pub fn version_min_platform(cmd: u32) -> Option<u32>
    ensures { result ≡ version_min_platform cmd }
{
    match cmd {
        LC_VERSION_MIN_MACOSX => Some(PLATFORM_MACOS),
        LC_VERSION_MIN_IPHONEOS => Some(PLATFORM_IOS),
        LC_VERSION_MIN_TVOS => Some(PLATFORM_TVOS),
        LC_VERSION_MIN_WATCHOS => Some(PLATFORM_WATCHOS),
        _ => None,
    }
}

// Whether a command with this `cmd` names the tables for the dynamic linker.
fn is_dyld_info(cmd: u32) -> bool
    ensures { result ≡ is_dyld_info cmd }
{
    cmd == LC_DYLD_INFO || cmd == LC_DYLD_INFO_ONLY
}
