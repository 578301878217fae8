//! The data that load commands name.

ghost use Rattle.std.specs.Prelude.{◌≡◌, ◌↔◌, ◌+◌, ◌≤◌, Some, IsTrue, MatchOption, length};
ghost use Rattle.macho_fields.specs.Bytes.{bytes_of};
ghost use Rattle.macho_fields.specs.LoadCommands.{structure_of, structure_size};
ghost use Rattle.macho_fields.specs.declared.load_command.Structure.TheVariants.{LinkeditDataCommand};
ghost use Rattle.macho_image.specs.Opened.{IsOpened};
ghost use Rattle.macho_rows.specs.Linkedit.{HasData, IsData, PassesImage, named_data};
ghost use Rattle.macho_rows.specs.Rows.{IsOfImage};

use crate::load::{Wanted, first_wanted};
use crate::span::{Held, KesvuotSpan, NO_SPAN};
use macho_fields::header::loader::linkedit_data_command::{DATAOFF, DATASIZE};
use macho_fields::{Bytes, Order, Span, Structure, structure_of};
use macho_image::Image;

/// Where the data lies in the file that the first `linkedit_data_command` with this `cmd` names. It is `None`
/// without such a command, if its data ends past the image, or if the headers of the image break a rule.
pub fn data_of(held: &Held, cmd: u32) -> Option<KesvuotSpan>
    ensures { IsOfImage (bytes_of held.now.bytes) (HasData (bytes_of held.now.bytes) held.now.place cmd) result }
{
    match held.open() {
        Some(image) => data_in(held, &image, cmd),
        None => None,
    }
}

// The same in an opened image.
fn data_in(held: &Held, image: &Image, cmd: u32) -> Option<KesvuotSpan>
    requires image { bytes_of held.now.bytes ≡ image.now }
    requires opened { IsOpened image.now }
    ensures { HasData image.now held.now.place cmd result }
{
    if !names_data(cmd) {
        return None;
    }
    let command = image.first_command(cmd)?;
    data_at(held, command.place)
}

// Whether a command with this `cmd` is a `linkedit_data_command`.
fn names_data(cmd: u32) -> bool
    ensures { IsTrue result ↔ (structure_of cmd ≡ Some LinkeditDataCommand) }
{
    structure_of(cmd) == Some(Structure::LinkeditDataCommand)
}

// Where the data of the `linkedit_data_command` at the place `command` lies in the file, or `None` if it
// ends past the image. With `datasize` 0 it is empty, wherever `dataoff` is.
fn data_at(held: &Held, command: u64) -> Option<KesvuotSpan>
    requires { command + structure_size LinkeditDataCommand ≤ length (bytes_of held.now.bytes) }
    ensures { MatchOption result (PassesImage (bytes_of held.now.bytes) command)
        (IsData (bytes_of held.now.bytes) held.now.place command) }
{
    let data = Span {
        start: u64::from(held.bytes.read_u32(Order::Little, command + DATAOFF)),
        len: u64::from(held.bytes.read_u32(Order::Little, command + DATASIZE)),
    };
    if data.len == 0 {
        return Some(NO_SPAN);
    }
    let bytes = held.bytes.part(data)?;
    Some(held.span_of(data.start, bytes))
}

/// The data in an image that the first `linkedit_data_command` with this `cmd` names that holds its structure,
/// by its place in the image. It is empty without such a command, or if it ends past the image.
pub fn named_data(image: Bytes, cmd: u32) -> Span
    ensures start { result.start ≡ (named_data cmd (bytes_of image.entry)).0 }
    ensures len { result.len ≡ (named_data cmd (bytes_of image.entry)).1 }
{
    let Some(command) = first_wanted(image, Wanted::LinkeditData(cmd)) else {
        return NO_DATA;
    };
    let data = Span {
        start: u64::from(image.read_u32(Order::Little, command.place + DATAOFF)),
        len: u64::from(image.read_u32(Order::Little, command.place + DATASIZE)),
    };
    if image.contains(data) { data } else { NO_DATA }
}

// No data.
const NO_DATA: Span = Span { start: 0, len: 0 };
