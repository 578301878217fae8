//! The places of commands, segments and sections, and those at which rules are first broken.

ghost use Rattle.std.specs.Prelude.{◌≡◌, ◌+◌, ◌^◌, ◌<◌, [], unwrap_or, IfSome, IsTrue, Some};
ghost use Rattle.std.specs.Option.{option_map, option_map_or};
ghost use Rattle.macho_fields.specs.FirstPlace.{IsNoted};
ghost use Rattle.macho_fields.specs.Image.{commands_of};
ghost use Rattle.macho_fields.specs.LoadCommands.{structure_of, table_fields as fields_of};
ghost use Rattle.macho_image.specs.Command.{first_with_cmd};
ghost use Rattle.macho_tables.specs.Places.{dyld_info as dyld_info_of, lesser as lesser_of, bounded_at as bounded_at_of};

use macho_fields::header::loader::{LC_DYLD_INFO, LC_DYLD_INFO_ONLY};
use macho_fields::{TableFields, Width, structure_of};
use macho_image::{Command, Image, Section, Segment};

/// The place of a command, if there is one.
pub fn place_of(command: Option<Command>) -> Option<u64>
    ensures { result ≡ option_map (λ found. found.place) command.entry }
{
    match command {
        Some(found) => Some(found.place),
        None => None,
    }
}

/// The place of a segment, if there is one.
pub fn place_of_segment(segment: Option<Segment>) -> Option<u64>
    ensures { result ≡ option_map (λ found. found.place) segment.entry }
{
    match segment {
        Some(found) => Some(found.place()),
        None => None,
    }
}

/// The place of a section, if there is one.
pub fn place_of_section(section: Option<Section>) -> Option<u64>
    ensures { result ≡ option_map (λ found. found.place) section.entry }
{
    match section {
        Some(found) => Some(found.place()),
        None => None,
    }
}

/// The place of the command that names the streams of opcodes, if there is one.
pub fn dyld_info(image: &Image) -> Option<u64>
    ensures { result ≡ dyld_info_of image.now }
{
    match first_place(image, LC_DYLD_INFO_ONLY) {
        Some(command) => Some(command),
        None => first_place(image, LC_DYLD_INFO),
    }
}

/// The place of the first command with this `cmd`, if there is one. One that names a table is looked for from the first
/// command that names one to the last.
pub fn first_place(image: &Image, cmd: u32) -> Option<u64>
    ensures { result ≡ first_with_cmd image.now cmd (commands_of image.now) }
{
    if table_fields(cmd).is_empty() {
        return place_of(image.first_command(cmd));
    }
    let mut commands = image.commands_with_tables();
    place_of(commands.find(|command| command.cmd == cmd))
}

// The fields that bound the tables of a command with this `cmd`.
pub(crate) fn table_fields(cmd: u32) -> &'static [TableFields]
    ensures { result.now ≡ option_map_or fields_of (structure_of cmd) [] }
{
    match structure_of(cmd) {
        Some(structure) => structure.tables(),
        None => &[],
    }
}

/// The fields that bound a table of bytes: that at `place` with its start, and its size just past it.
pub fn bounded_at(place: u64) -> TableFields
    requires { place < 2 ^ 32 }
    ensures { result ≡ bounded_at_of place }
{
    TableFields {
        place,
        count: place + 4,
        width: Width::Uint32,
        item_size: 1,
    }
}

/// The place that is so far from `start`.
pub fn place_from(start: u64, offset: Option<u64>) -> Option<u64>
    requires { IfSome offset (λ found. start + found < 2 ^ 64) }
    ensures { result ≡ option_map (λ found. start + found) offset }
{
    match offset {
        Some(found) => Some(start + found),
        None => None,
    }
}

/// The lesser of two places.
pub fn lesser(one: Option<u64>, other: Option<u64>) -> Option<u64>
    ensures { result ≡ lesser_of one other }
{
    match (one, other) {
        (Some(one), Some(other)) => Some(one.min(other)),
        (Some(one), None) => Some(one),
        (None, other) => other,
    }
}

/// Notes the place if the rule is broken there, and none was noted before.
#[inline(always)]
pub fn note_if(found: &mut Option<u64>, is_broken: bool, place: u64)
    ensures { IsNoted (IsTrue is_broken) place found.old found.new }
{
    if is_broken {
        note_broken(found, place);
    }
}

// Notes a place outside the loop that looks for it: a rule is seldom broken.
#[cold]
#[inline(never)]
fn note_broken(found: &mut Option<u64>, place: u64)
    ensures { found.new ≡ Some (unwrap_or found.old place) }
{
    if found.is_none() {
        *found = Some(place);
    }
}
