//! The image of a slice: what is there once, how many rows its tables have, and where they begin.

ghost use Rattle.std.specs.Prelude.{◌≡◌, ◌+◌, ◌/◌, ◌^◌, ◌≤◌, ◌<◌, length, if◌then◌else◌, MatchOption};
ghost use Rattle.std.specs.Option.{option_map, option_map_or, unwrap_or};
ghost use Rattle.macho_fields.specs.Bytes.{bytes_of};
ghost use Rattle.macho_fields.specs.Image.{word, cpu_subtype, commands_of};
ghost use Rattle.macho_fields.specs.Segment.{base_of};
ghost use Rattle.macho_fields.specs.declared.header.loader.TheConstants.{LC_DYSYMTAB};
ghost use Rattle.macho_image.specs.Entry.{entry_of};
ghost use Rattle.macho_image.specs.Opened.{IsOpened};
ghost use Rattle.macho_fat.specs.Slices.{slice_of, MarksReadInside};
ghost use Rattle.macho_rows.specs.Builds.{builds_in};
ghost use Rattle.macho_rows.specs.Commands.{commands_in};
ghost use Rattle.macho_rows.specs.Libraries.{loaded_by, library_row, no_library};
ghost use Rattle.macho_rows.specs.Segments.{segments_seen};
ghost use Rattle.macho_rows.specs.Image.{IsSliceImage, Shows, ShowsNothing};
ghost use Rattle.macho_rows.specs.Image.{image_in, only, uuid_in, symtab_in, dysymtab_in, id_in, field_of};
ghost use Rattle.macho_rows.specs.Image.{bit as bit_of, groups_at as groups_in, no_groups};
ghost use Rattle.macho_rows.specs.Rows.{IsBrokenImage, HasUnbrokenHeaders};

use crate::builds::Builds;
use crate::libraries::{KesvuotLibrary, Libraries, NO_LIBRARY, library_row};
use crate::load::Load;
use crate::span::{Held, KesvuotSpan, NO_SPAN, held_at};
use crate::table::count;
use macho_fat::{Slice, is_unread_image};
use macho_fields::header::loader::LC_ID_DYLIB;
use macho_fields::header::loader::dysymtab_command::{
    IEXTDEFSYM, ILOCALSYM, IUNDEFSYM, NEXTDEFSYM, NLOCALSYM, NUNDEFSYM,
};
use macho_fields::header::loader::mach_header_64::{CPUSUBTYPE, FLAGS, NCMDS};
use macho_fields::{Bytes, Order};
use macho_image::{Image, Symtab};

/// `LC_UUID` is there.
const HAS_UUID: u32 = 1;
/// A segment shows the start of the image.
pub const HAS_BASE: u32 = 2;
/// `LC_MAIN` and a base are there, and the address of the entry is below 2^64.
const HAS_ENTRY: u32 = 4;
/// `LC_SYMTAB` is there.
const HAS_SYMTAB: u32 = 8;
/// `LC_DYSYMTAB` is there.
const HAS_DYSYMTAB: u32 = 16;
/// `LC_ID_DYLIB` is there.
const HAS_ID: u32 = 32;

/// An image. (`struct kesvuot_image`) C may keep it for as long as the bytes stay, and may change it:
/// no export trusts it.
#[repr(C)]
#[derive(Clone, Copy)]
pub struct KesvuotImage {
    /// The slice of the file.
    pub slice: KesvuotSpan,
    /// The address of the first segment that shows the start of the image, otherwise 0.
    pub base: u64,
    /// The address of the entry point, otherwise 0.
    pub entry: u64,
    /// Where the symbols begin, and how many there are.
    pub symbols: u64,
    pub symbol_count: u64,
    /// Where the strings of the symbols begin, and how many bytes they have.
    pub strings: u64,
    pub strings_size: u64,
    /// Where the indirect entries begin, and how many there are.
    pub indirects: u64,
    pub indirect_count: u64,
    /// How many rows each table has.
    pub command_count: u64,
    pub segment_count: u64,
    pub section_count: u64,
    pub library_count: u64,
    pub build_count: u64,
    /// What the image is as a library.
    pub id: KesvuotLibrary,
    /// The fields of the header. The `cpusubtype` is without its high byte, the capabilities.
    pub cputype: u32,
    pub cpusubtype: u32,
    pub capabilities: u32,
    pub filetype: u32,
    pub flags: u32,
    /// Which of the parts above are there.
    pub has: u32,
    /// The first index and the number of symbols of each of the three groups of `LC_DYSYMTAB`.
    pub groups: [u32; 6],
    pub uuid: [u8; 16],
    /// Reserved: 0.
    pub reserved: [u32; 4],
}

impl KesvuotImage {
    /// The bytes of the slice in a file: none where it ends past the file.
    pub fn held<'a>(&self, file: &'a [u8]) -> Held<'a>
        ensures bytes { bytes_of result.bytes ≡ image_in file.now self.now }
        ensures place { result.place ≡ self.now.slice.offset }
    {
        held_at(file, self.slice.offset, self.slice.size)
    }
}

/// The image of a slice.
#[derive(Clone, Copy)]
pub enum SliceImage {
    /// A 64-bit little-endian one.
    Read(KesvuotImage),
    /// One of 32 bits, or a big-endian one, of which only the slice and its architecture are shown.
    Unread(KesvuotImage),
}

/// The image of a slice. It is `None` if no accepted file has these bytes.
pub fn read_slice(file: Bytes, slice: &Slice) -> Option<SliceImage>
    requires { MarksReadInside (bytes_of file) slice.now }
    ensures { IsSliceImage (bytes_of file.entry) (slice_of slice.now) result }
{
    let bytes = file.part(slice.span)?;
    if slice.read {
        let image = read_image(bytes, slice)?;
        return Some(SliceImage::Read(image));
    }
    if !is_unread_image(Bytes::new(bytes)) {
        return None;
    }
    let (cputype, cpusubtype) = slice.arch.unwrap_or((0, 0));
    let mut image = no_image();
    image.slice = KesvuotSpan {
        offset: slice.span.start,
        size: slice.span.len,
    };
    image.cputype = cputype;
    image.cpusubtype = cpusubtype;
    Some(SliceImage::Unread(image))
}

// A 64-bit little-endian image, which the bytes of the slice are: none where its headers break a rule.
fn read_image(bytes: &[u8], slice: &Slice) -> Option<KesvuotImage>
    requires { slice.now.span.start + length bytes.now < 2 ^ 64 }
    ensures { MatchOption result (IsBrokenImage bytes.now slice.now.arch)
        (λ row. HasUnbrokenHeaders bytes.now slice.now.arch × Shows bytes.now slice.now.span.start row) }
{
    match Image::open(Bytes::new(bytes), slice.arch) {
        Ok(opened) => Some(row_of(&opened, slice.span.start)),
        Err(_) => None,
    }
}

/// No image: all fields are 0.
pub fn no_image() -> KesvuotImage
    ensures { ShowsNothing result }
{
    KesvuotImage {
        slice: NO_SPAN,
        base: 0,
        entry: 0,
        symbols: 0,
        symbol_count: 0,
        strings: 0,
        strings_size: 0,
        indirects: 0,
        indirect_count: 0,
        command_count: 0,
        segment_count: 0,
        section_count: 0,
        library_count: 0,
        build_count: 0,
        id: NO_LIBRARY,
        cputype: 0,
        cpusubtype: 0,
        capabilities: 0,
        filetype: 0,
        flags: 0,
        has: 0,
        groups: [0; 6],
        uuid: [0; 16],
        reserved: [0; 4],
    }
}

// The struct of the image in the bytes, which begin at `place` in the file.
fn row_of(image: &Image, place: u64) -> KesvuotImage
    requires { place + length image.now < 2 ^ 64 }
    ensures { Shows image.now place result }
{
    let (cputype, cpusubtype) = image.arch();
    let symtab = symtab(image);
    let (indirects, indirect_count) = indirects(image);
    let held = Held {
        bytes: image.bytes(),
        place,
    };
    KesvuotImage {
        slice: KesvuotSpan {
            offset: place,
            size: image.bytes().len(),
        },
        base: image.base().unwrap_or(0),
        entry: image.entry().unwrap_or(0),
        symbols: symtab.symoff,
        symbol_count: symtab.nsyms,
        strings: symtab.stroff,
        strings_size: symtab.strsize,
        indirects,
        indirect_count,
        command_count: u64::from(command_count(image)),
        segment_count: segment_count(image),
        section_count: image.section_count(),
        library_count: library_count(&held, image),
        build_count: build_count(&held, image),
        id: id(&held, image),
        cputype,
        cpusubtype,
        capabilities: capabilities(image),
        filetype: image.file_type().number,
        flags: flags(image),
        has: has(image),
        groups: groups(image),
        uuid: image.uuid().unwrap_or([0; 16]),
        reserved: [0; 4],
    }
}

// The fields of `LC_SYMTAB`, which are 0 if it is missing.
fn symtab(image: &Image) -> Symtab
    ensures symoff { result.symoff ≡ field_of (λ t. t.symoff) (symtab_in image.now) }
    ensures nsyms { result.nsyms ≡ field_of (λ t. t.nsyms) (symtab_in image.now) }
    ensures stroff { result.stroff ≡ field_of (λ t. t.stroff) (symtab_in image.now) }
    ensures strsize { result.strsize ≡ field_of (λ t. t.strsize) (symtab_in image.now) }
{
    match image.symtab() {
        Some(symtab) => symtab,
        None => Symtab {
            place: 0,
            symoff: 0,
            nsyms: 0,
            stroff: 0,
            strsize: 0,
        },
    }
}

// Where the indirect entries begin, and how many there are: 0 without an `LC_DYSYMTAB`.
fn indirects(image: &Image) -> (u64, u64)
    ensures place { result.0 ≡ field_of (λ t. t.indirectsymoff) (dysymtab_in image.now) }
    ensures count { result.1 ≡ field_of (λ t. t.nindirectsyms) (dysymtab_in image.now) }
{
    match image.dysymtab() {
        Some(dysymtab) => (dysymtab.indirectsymoff, dysymtab.nindirectsyms),
        None => (0, 0),
    }
}

// The flags. (`mach_header_64`)
fn flags(image: &Image) -> u32
    ensures { result ≡ word image.now 24 }
{
    image.bytes().read_u32(Order::Little, FLAGS)
}

// How many commands there are. (`mach_header_64.ncmds`)
fn command_count(image: &Image) -> u32
    ensures { result ≡ length (commands_in image.now) }
{
    image.bytes().read_u32(Order::Little, NCMDS)
}

// How many segments there are. No image has more of anything that a command names than commands.
fn segment_count(image: &Image) -> u64
    ensures { result ≡ length (segments_seen image.now) }
{
    prove!(command_count(image) <= u32::MAX);
    image.segments().count() as u64
}

// How many libraries the image loads.
fn library_count(held: &Held, image: &Image) -> u64
    requires bytes { bytes_of held.now.bytes ≡ image.now }
    requires opened { IsOpened image.now }
    ensures { result ≡ length (loaded_by image.now) }
{
    prove!(command_count(image) <= u32::MAX);
    let libraries = Libraries { image: *held };
    count(&libraries)
}

// What the image is as a library, by its `LC_ID_DYLIB`.
fn id(held: &Held, image: &Image) -> KesvuotLibrary
    requires bytes { bytes_of held.now.bytes ≡ image.now }
    requires opened { IsOpened image.now }
    ensures { result ≡ option_map_or (library_row held.now.place image.now) (id_in image.now) no_library }
{
    prove!(image.commands_end() <= u64::MAX);
    match image.first_command(LC_ID_DYLIB) {
        Some(command) => {
            let load = Load {
                place: command.place,
                cmd: command.cmd,
                size: u64::from(command.size),
            };
            library_row(held, load)
        }
        None => NO_LIBRARY,
    }
}

// The high byte of the `cpusubtype`. (`mach_header_64`)
fn capabilities(image: &Image) -> u32
    ensures { result ≡ cpu_subtype image.now / 2 ^ 24 }
{
    image.bytes().read_u32(Order::Little, CPUSUBTYPE) >> 24
}

// How many builds there are.
fn build_count(held: &Held, image: &Image) -> u64
    requires bytes { bytes_of held.now.bytes ≡ image.now }
    requires opened { IsOpened image.now }
    ensures { result ≡ length (builds_in image.now) }
{
    prove!(command_count(image) <= u32::MAX);
    let builds = Builds { image: held.bytes };
    count(&builds)
}

// Which parts the image has.
fn has(image: &Image) -> u32
    ensures { result ≡ bit_of 1 (uuid_in image.now) + bit_of 2 (base_of image.now (commands_of image.now))
        + bit_of 4 (entry_of image.now (commands_of image.now)) + bit_of 8 (symtab_in image.now)
        + bit_of 16 (dysymtab_in image.now)
        + bit_of 32 (id_in image.now) }
{
    bit(image.uuid().is_some(), HAS_UUID)
        + bit(image.base().is_some(), HAS_BASE)
        + bit(image.entry().is_some(), HAS_ENTRY)
        + bit(image.symtab().is_some(), HAS_SYMTAB)
        + bit(image.dysymtab().is_some(), HAS_DYSYMTAB)
        + id_bit(image)
}

// The bit of `LC_ID_DYLIB`, if it is there.
fn id_bit(image: &Image) -> u32
    ensures { result ≡ bit_of 32 (id_in image.now) }
{
    match image.first_command(LC_ID_DYLIB) {
        Some(_) => HAS_ID,
        None => 0,
    }
}

// The bit of a part that is there.
fn bit(there: bool, bit: u32) -> u32
    ensures { result ≡ (if there then bit else 0) }
{
    if there { bit } else { 0 }
}

// The groups of symbols of `LC_DYSYMTAB`.
fn groups(image: &Image) -> [u32; 6]
    ensures { result ≡ unwrap_or (option_map (groups_in image.now) (only image.now LC_DYSYMTAB))
        no_groups }
{
    match image.dysymtab() {
        Some(dysymtab) => groups_at(image.bytes(), dysymtab.place),
        None => [0; 6],
    }
}

// The groups of the `dysymtab_command` at `place`.
fn groups_at(image: Bytes, place: u64) -> [u32; 6]
    requires { place + 80 ≤ length (bytes_of image) }
    ensures { result ≡ groups_in (bytes_of image.entry) place }
{
    [
        image.read_u32(Order::Little, place + ILOCALSYM),
        image.read_u32(Order::Little, place + NLOCALSYM),
        image.read_u32(Order::Little, place + IEXTDEFSYM),
        image.read_u32(Order::Little, place + NEXTDEFSYM),
        image.read_u32(Order::Little, place + IUNDEFSYM),
        image.read_u32(Order::Little, place + NUNDEFSYM),
    ]
}
