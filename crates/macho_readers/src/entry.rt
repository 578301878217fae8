//! The rule of where a program begins. (`mach-o/loader.h`: `entry_point_command`, `thread_command`)

ghost use Rattle.std.specs.Prelude.{◌≡◌, ◌+◌, ◌≤◌, ◌↔◌, ℕ, length, Contains, IsTrue, None, Some};
ghost use Rattle.std.specs.Option.{option_map};
ghost use Rattle.macho_fields.specs.Bytes.{bytes_of};
ghost use Rattle.macho_fields.specs.FirstPlace.{IsLeastPlace};
ghost use Rattle.macho_fields.specs.Layers.{NothingBreaks};
ghost use Rattle.macho_fields.specs.Image.{commands_of};
ghost use Rattle.macho_fields.specs.LoadCommands.{structure_size};
ghost use Rattle.macho_fields.specs.Rules.{BreaksImage as Breaks};
ghost use Rattle.macho_fields.specs.Segment.{base_of, entryoff as entryoff_of};
ghost use Rattle.macho_fields.specs.declared.file_type.Kind.TheVariants as kind;
ghost use Rattle.macho_fields.specs.declared.load_command.Structure.TheVariants.{EntryPointCommand};
ghost use Rattle.macho_commands.specs.Commands.{HasEarlier};
ghost use Rattle.macho_image.specs.Command.{command_of};
ghost use Rattle.macho_image.specs.Header.{IsKind};
ghost use Rattle.macho_image.specs.Opened.{IsCommandOf};
ghost use Rattle.macho_spans.specs.Span.{Holds};
ghost use Rattle.macho_tables.specs.DataInCode.{bytes_of_entry};
ghost use Rattle.macho_readers.specs.Entry.{is_entry as is_entry_of, HasByteOf, IsFilePlace, BeginsAtOffset, BeginsElsewhere, SaysEntry, data_entries as data_entries_of, SaysData, IsDataAt, HasDataAt, BeginsAtData, IsExtraEntry, IsOtherEntry, IsBadEntry, HasBadEntry, BreaksEntryOne};

use macho_commands::{is_thread, thread_entry};
use macho_fields::header::loader::entry_point_command::ENTRYOFF;
use macho_fields::header::loader::{DATA_IN_CODE_ENTRY_SIZE, LC_DATA_IN_CODE, LC_MAIN};
use macho_fields::{Bytes, Order};
use macho_image::{Command, Image, Kind, Segment};
use macho_tables::data_in_code::DataInCodeEntry;
use macho_tables::data_table::data_table;
use macho_tables::place::place_of;

/// The place of the first command that says where a program begins, if an earlier command says it too, if the image is
/// not a program, or if readers find other bytes there: bytes at another offset of the file, or data.
pub fn entry_one(image: &Image) -> Option<u64>
    requires { NothingBreaks (Breaks image.now None) }
    ensures { IsLeastPlace (BreaksEntryOne image.now) result }
{
    first_bad_entry(image, data_entries(image))
}

// The place of the first command that says where a program begins, and must not.
fn first_bad_entry(image: &Image, entries: Bytes) -> Option<u64>
    ensures { IsLeastPlace (λ place.
        Contains (commands_of image.now) place × HasBadEntry (bytes_of entries.entry) image.now place)
        result }
{
    place_of(
        image
            .commands()
            .find(|command| has_bad_entry(image, command, entries)),
    )
}

// Whether the command says where a program begins, and must not.
fn has_bad_entry(image: &Image, command: &Command, entries: Bytes) -> bool
    requires { IsCommandOf image.now (command_of command.now) }
    ensures { IsTrue result ↔ HasBadEntry (bytes_of entries.entry) image.now command.now.place }
{
    is_entry(command.cmd) && is_bad_entry(image, command, entries)
}

/// Whether a command with this `cmd` says where a program begins.
pub fn is_entry(cmd: u32) -> bool
    ensures { result ≡ is_entry_of cmd }
{
    cmd == LC_MAIN || is_thread(cmd)
}

// Whether an earlier command says where the program begins, the image is not a program, or readers find another entry.
fn is_bad_entry(image: &Image, command: &Command, entries: Bytes) -> bool
    requires { IsCommandOf image.now (command_of command.now) }
    ensures { IsTrue result ↔ IsBadEntry (bytes_of entries.entry) image.now command.now.place }
{
    is_extra_entry(image, command) || is_other_entry(image, command, entries)
}

// Whether an earlier command says where the program begins, or the image is not a program.
fn is_extra_entry(image: &Image, command: &Command) -> bool
    ensures { IsTrue result ↔ IsExtraEntry image.now command.now.place }
{
    has_earlier_entry(image, command) || !is_program(image)
}

// Whether a reader finds another entry.
fn is_other_entry(image: &Image, command: &Command, entries: Bytes) -> bool
    requires { IsCommandOf image.now (command_of command.now) }
    ensures { IsTrue result ↔ IsOtherEntry (bytes_of entries.entry) image.now command.now.place }
{
    begins_elsewhere(image, command) || begins_at_data(image, command, entries)
}

// Whether an earlier command says where the program begins.
fn has_earlier_entry(image: &Image, command: &Command) -> bool
    ensures { IsTrue result ↔ HasEarlier image.now is_entry_of command.now.place }
{
    image.commands().any(|earlier| earlier.place < command.place && is_entry(earlier.cmd))
}

// Whether the image is a program.
fn is_program(image: &Image) -> bool
    ensures { IsTrue result ↔ IsKind image.now kind.Execute }
{
    image.kind() == Kind::Execute
}

// Whether the command is an `LC_MAIN`, and the byte at its offset in the file is not the entry.
fn begins_elsewhere(image: &Image, command: &Command) -> bool
    requires { IsCommandOf image.now (command_of command.now) }
    ensures { IsTrue result ↔ BeginsElsewhere image.now command.now.place }
{
    command.cmd == LC_MAIN && !begins_at_offset(image, command.place)
}

// Whether the byte at the offset of the `entry_point_command` in the file is the entry.
fn begins_at_offset(image: &Image, main: u64) -> bool
    requires { main + structure_size EntryPointCommand ≤ length image.now }
    ensures { IsTrue result ↔ BeginsAtOffset image.now main }
{
    let offset = entryoff(image, main);
    match image.base() {
        Some(base) => is_file_place(image, u128::from(base) + u128::from(offset), offset),
        None => false,
    }
}

// The `entryoff` of the `entry_point_command`.
fn entryoff(image: &Image, main: u64) -> u64
    requires { main + structure_size EntryPointCommand ≤ length image.now }
    ensures { result ≡ entryoff_of image.now main }
{
    image.bytes().read_u64(Order::Little, main + ENTRYOFF)
}

// Whether some segment has the byte at this place of the file at the address.
fn is_file_place(image: &Image, address: u128, place: u64) -> bool
    ensures { IsTrue result ↔ IsFilePlace image.now address place }
{
    image
        .segments()
        .any(|segment| has_byte_of(&segment, address, place))
}

// Whether the segment has the byte at this place of the file at the address.
fn has_byte_of(segment: &Segment, address: u128, place: u64) -> bool
    ensures { IsTrue result ↔ HasByteOf segment.now.image address place segment.now.place }
{
    match file_place(segment, address) {
        Some(found) => found == u128::from(place),
        None => false,
    }
}

// The place in the file of the byte that the segment has at the address, if it has one.
fn file_place(segment: &Segment, address: u128) -> Option<u128>
    ensures { (place : ℕ) → (result ≡ Some place)
        ↔ HasByteOf segment.now.image address place segment.now.place }
{
    let memory = segment.memory();
    if address < u128::from(memory.start) || address >= memory.end() {
        return None;
    }
    let past = address - u128::from(memory.start);
    if past < u128::from(segment.filesize()) {
        Some(u128::from(segment.fileoff()) + past)
    } else {
        None
    }
}

// The bytes of the entries of `LC_DATA_IN_CODE`, none if the image has no such command.
fn data_entries<'a>(image: &Image<'a>) -> Bytes<'a>
    requires { NothingBreaks (Breaks image.now None) }
    ensures { bytes_of result ≡ data_entries_of image.now }
{
    match data_table(image, LC_DATA_IN_CODE) {
        Some(table) => image.bytes().slice(table),
        None => Bytes::new(&[]),
    }
}

// Whether the program begins at a byte of the file that an entry says is data.
fn begins_at_data(image: &Image, command: &Command, entries: Bytes) -> bool
    requires { IsCommandOf image.now (command_of command.now) }
    ensures { IsTrue result ↔ BeginsAtData (bytes_of entries.entry) image.now command.now.place }
{
    match entry_address(image, command) {
        Some(address) => is_data_at(image, entries, address),
        None => false,
    }
}

// The address at which the command says that a program begins, if it does.
fn entry_address(image: &Image, command: &Command) -> Option<u128>
    requires { IsCommandOf image.now (command_of command.now) }
    ensures { (address : ℕ) → (result ≡ Some address) ↔ SaysEntry image.now command.now.place address }
{
    if command.cmd == LC_MAIN {
        return main_address(image, command.place);
    }
    if is_thread(command.cmd) {
        return wide(thread_entry(image));
    }
    None
}

// The address at which the `entry_point_command` says that a program begins.
fn main_address(image: &Image, main: u64) -> Option<u128>
    requires { main + structure_size EntryPointCommand ≤ length image.now }
    ensures { result ≡ option_map (λ base. base + entryoff_of image.now main) (base_of image.now (commands_of image.now)) }
{
    match image.base() {
        Some(base) => Some(u128::from(base) + u128::from(entryoff(image, main))),
        None => None,
    }
}

// The number in more bits.
fn wide(number: Option<u64>) -> Option<u128>
    ensures { result ≡ number }
{
    match number {
        Some(number) => Some(u128::from(number)),
        None => None,
    }
}

// Whether some segment has a byte of the file at the address, and an entry says that the byte is data.
fn is_data_at(image: &Image, entries: Bytes, address: u128) -> bool
    ensures { IsTrue result ↔ IsDataAt image.now (bytes_of entries.entry) address }
{
    image
        .segments()
        .any(|segment| has_data_at(&segment, entries, address))
}

// Whether an entry says that the byte of the segment there is data.
fn has_data_at(segment: &Segment, entries: Bytes, address: u128) -> bool
    ensures { IsTrue result ↔ HasDataAt (bytes_of entries.entry) address segment.now.image segment.now.place }
{
    match file_place(segment, address) {
        Some(place) => says_data(entries, place),
        None => false,
    }
}

// Whether an entry says that the byte at this place of the file is data.
fn says_data(entries: Bytes, place: u128) -> bool
    ensures { IsTrue result ↔ SaysData (bytes_of entries.entry) place }
{
    for index in 0..entries.len() / DATA_IN_CODE_ENTRY_SIZE {
        let entry = DataInCodeEntry::read(entries, index * DATA_IN_CODE_ENTRY_SIZE);
        if is_within(entry, place) {
            return true;
        }
    }
    false
}

// Whether the entry describes the byte at this place of the file.
fn is_within(entry: DataInCodeEntry, place: u128) -> bool
    ensures { IsTrue result ↔ Holds (bytes_of_entry entry) place }
{
    let bytes = entry.bytes();
    u128::from(bytes.start) <= place && place < bytes.end()
}
