//! The bytes of load commands that nothing in them describes. (`mach-o/loader.h`)

ghost use Rattle.std.specs.Prelude.{◌≡◌, ◌+◌, ◌^◌, ◌≤◌, ◌<◌, length};
ghost use Rattle.macho_fields.specs.Bytes.{bytes_of};
ghost use Rattle.macho_fields.specs.Command.{least_size, name_start};
ghost use Rattle.macho_fields.specs.Field.{HasZero};
ghost use Rattle.macho_fields.specs.FirstPlace.{IsLeastPlace};
ghost use Rattle.macho_fields.specs.LoadCommands.{structure_of};
ghost use Rattle.macho_image.specs.Command.{command_of};
ghost use Rattle.macho_image.specs.Opened.{IsCommandOf};
ghost use Rattle.macho_strict.specs.Slack.{IsNonZeroSlack, IsNonZeroWithin, IsNonZeroAround, IsCounted};

use macho_fields::header::loader::LC_STR_OFFSET;
use macho_fields::{Bytes, Order, Span, Structure};
use macho_image::Command;

// The least place of a byte of the command that is not zero, and lies in none of its structure, its records
// and its name, if it has a listed structure.
pub(crate) fn first_slack(
    image: Bytes,
    command: &Command,
    structure: Option<Structure>,
) -> Option<u64>
    requires structure { structure ≡ structure_of command.now.cmd }
    requires judged { IsCommandOf (bytes_of image) (command_of command.now) }
    requires fits { length (bytes_of image) < 2 ^ 64 }
    ensures { IsLeastPlace (IsNonZeroSlack (bytes_of image.entry) command.now.place) result }
{
    let structure = structure?;
    let end = command.place + u64::from(command.size);
    if structure.has_name() {
        // No records follow a structure with a name.
        let fields_end = command.place + structure.size();
        return nonzero_around_name(image, command.place, fields_end, end);
    }
    let described = described_end(image, command.place, structure);
    nonzero_within(image, described, end)
}

// The first place past the structure and the records of the command at `place`.
fn described_end(image: Bytes, place: u64, structure: Structure) -> u64
    requires inside { place + least_size (bytes_of image) place structure ≤ length (bytes_of image) }
    requires fits { length (bytes_of image) < 2 ^ 64 }
    requires counted { IsCounted (bytes_of image) place structure }
    ensures { result ≡ place + least_size (bytes_of image.entry) place structure }
{
    let fields_end = place + structure.size();
    let Some(records) = structure.records() else {
        return fields_end;
    };
    let count = image.read_u32(Order::Little, place + records.count);
    fields_end + records.size * u64::from(count)
}

// The least place from `start` up to `end` of a byte that is not zero, and is not in the name of the
// command at `place`. The name ends before `end`.
fn nonzero_around_name(image: Bytes, place: u64, start: u64, end: u64) -> Option<u64>
    requires head { place + LC_STR_OFFSET + 4 ≤ start }
    requires name { HasZero (bytes_of image) (name_start (bytes_of image) place) end }
    requires after { start ≤ name_start (bytes_of image) place }
    requires inside { end ≤ length (bytes_of image) }
    requires fits { length (bytes_of image) < 2 ^ 64 }
    ensures { IsLeastPlace (IsNonZeroAround (bytes_of image.entry) place start end) result }
{
    let name = place + u64::from(image.read_u32(Order::Little, place + LC_STR_OFFSET));
    let before = nonzero_within(image, start, name);
    if before.is_some() {
        return before;
    }
    let zero = image.first_zero(Span {
        start: name,
        len: end - name,
    })?;
    nonzero_within(image, zero + 1, end)
}

/// The least place from `start` up to `end` of a byte that is not zero.
pub fn nonzero_within(image: Bytes, start: u64, end: u64) -> Option<u64>
    requires { start ≤ end }
    ensures { IsLeastPlace (IsNonZeroWithin (bytes_of image.entry) start end) result }
{
    // Most commands have no such bytes.
    if start == end {
        return None;
    }
    image.first_nonzero(Span {
        start,
        len: end - start,
    })
}
