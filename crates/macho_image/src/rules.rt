//! The rules of the load commands of an image. (`mach-o/loader.h`)

ghost use Rattle.std.specs.Prelude.{◌≡◌, ◌≤◌, ◌<◌, ◌⊎◌, ◌↔◌, length, true, IsTrue, Some};
ghost use Rattle.macho_fields.specs.Bytes.{bytes_of};
ghost use Rattle.macho_fields.specs.Command.{record_count, least_size, name_offset};
ghost use Rattle.macho_fields.specs.Command.{IsShort, HasBadName};
ghost use Rattle.macho_fields.specs.Field.{HasZero};
ghost use Rattle.macho_fields.specs.First.{rank};
ghost use Rattle.macho_fields.specs.Image.{commands_of};
ghost use Rattle.macho_fields.specs.LoadCommands.{has_name, structure_of, structure_size};
ghost use Rattle.macho_fields.specs.Layers.{KeptBelow, Continues, StopsAt};
ghost use Rattle.macho_fields.specs.declared.rule.Rule.{Rule};
ghost use Rattle.macho_image.specs.Command.{command_of};
ghost use Rattle.macho_image.specs.Walk.{breaks_of, AreFirst, IsAlone};

use crate::command::{Command, word_at};
use crate::unique::UniquePlaces;
use crate::walk::{Candidate, listed_file_type};
use macho_fields::header::loader::mach_header_64::FILETYPE;
use macho_fields::header::loader::{LC_ID_DYLIB, LC_STR_OFFSET};
use macho_fields::{Break, Bytes, Order, Rule, Span, Structure};

// Whether the command, which has this structure, is shorter than the structure and the records after
// it.
pub(crate) fn is_short(command: Command, structure: Structure) -> bool
    requires alone { IsAlone (command_of command) }
    requires listed { structure_of command.cmd ≡ Some structure }
    ensures { IsTrue result ↔ IsShort command.entry.bytes.now 0 }
{
    u64::from(command.size) < least_size(command, structure)
}

// The size in bytes of the structure, with the records that follow it.
fn least_size(command: Command, structure: Structure) -> u64
    requires { IsAlone (command_of command) }
    ensures { result ≡ least_size command.entry.bytes.now 0 structure }
{
    let Some(records) = structure.records() else {
        return structure.size();
    };
    structure.size() + records.size * u64::from(record_count(command, records.count))
}

// The number of records, read at `offset` in the command, or 0 if that is past its end.
fn record_count(command: Command, offset: u64) -> u32
    requires { IsAlone (command_of command) }
    ensures { result ≡ record_count command.entry.bytes.now 0 offset }
{
    let bytes = Bytes::new(command.bytes);
    bytes.u32_at(Order::Little, offset).unwrap_or(0)
}

// The rule `dylib-id`: an image that names itself has an `LC_ID_DYLIB`, and no other has one.
pub(crate) fn dylib_id(candidate: Candidate, unique: UniquePlaces) -> Result<(), Break>
    requires before { KeptBelow (breaks_of candidate) (rank Rule.DylibId) }
    requires first { AreFirst (bytes_of candidate.bytes) (commands_of (bytes_of candidate.bytes))
        unique }
    ensures decides { Continues (breaks_of candidate.entry) Rule.DylibId result }
    ensures stops { StopsAt Rule.DylibId result }
{
    let listed = listed_file_type(candidate.bytes);
    if listed.names_itself != unique.of(LC_ID_DYLIB).is_some() {
        return Err(Break::at(Rule::DylibId, FILETYPE));
    }
    Ok(())
}

// Whether the command, which has this structure, has a name that begins in its structure, or does
// not end in the command.
pub(crate) fn has_bad_name(command: Command, structure: Structure) -> bool
    requires alone { IsAlone (command_of command) }
    requires listed { structure_of command.cmd ≡ Some structure }
    requires whole { ¬ IsShort command.bytes.now 0 }
    ensures { IsTrue result ↔ HasBadName command.entry.bytes.now 0 }
{
    structure.has_name() && is_bad_name(Bytes::new(command.bytes), structure)
}

// Whether the name of a command of this structure, all of whose bytes are given, begins in the
// structure, or does not end in the command.
fn is_bad_name(command: Bytes, structure: Structure) -> bool
    requires named { has_name structure ≡ true }
    requires whole { structure_size structure ≤ length (bytes_of command) }
    ensures { IsTrue result ↔ (name_offset (bytes_of command.entry) 0 < structure_size structure)
        ⊎ ¬ HasZero (bytes_of command.entry) (name_offset (bytes_of command.entry) 0)
        (length (bytes_of command.entry)) }
{
    let offset = u64::from(word_at(command, LC_STR_OFFSET));
    offset < structure.size() || !has_zero_from(command, offset)
}

// Whether one of the bytes from `start` on is zero. The last one is looked at first: most names are
// padded with zeros.
fn has_zero_from(bytes: Bytes, start: u64) -> bool
    ensures { IsTrue result ↔ HasZero (bytes_of bytes.entry) start (length (bytes_of bytes.entry)) }
{
    let end = bytes.len();
    if end <= start {
        return false;
    }
    if bytes.read_u8(end - 1) == 0 {
        return true;
    }
    let rest = Span {
        start,
        len: end - start,
    };
    bytes.first_zero(rest).is_some()
}
