//! The rules of the header of an image, and a step of the walk over its load commands.
//! (`mach-o/loader.h`: `mach_header_64`, `load_command`)

ghost use Rattle.std.specs.Prelude.{◌≡◌, ◌+◌, ◌^◌, ◌≤◌, ◌<◌, ◌↔◌, length, IsTrue, Some, IsSome, IfSome, map};
ghost use Rattle.macho_fields.specs.Bytes.{bytes_of};
ghost use Rattle.macho_fields.specs.FileTypes.{file_type_of, file_type_view};
ghost use Rattle.macho_fields.specs.First.{rank};
ghost use Rattle.macho_fields.specs.Image.{file_type as header_file_type, cpu_type, cpu_subtype, commands_end, command_size, IsGood, commands_of};
ghost use Rattle.macho_fields.specs.Layers.{KeptBelow, Continues, StopsAt};
ghost use Rattle.macho_fields.specs.Universal.{masked};
ghost use Rattle.macho_fields.specs.declared.rule.Rule.{Rule};
ghost use Rattle.macho_image.specs.Command.{command_at};
ghost use Rattle.macho_image.specs.Walk.{breaks_of};

use crate::command::{Commands, word_at};
use macho_fields::header::loader::load_command::CMDSIZE;
use macho_fields::header::loader::mach_header_64::{
    CPUSUBTYPE, CPUTYPE, FILETYPE, NCMDS, SIZEOFCMDS,
};
use macho_fields::header::loader::{LOAD_COMMAND_SIZE, MACH_HEADER_64_SIZE};
use macho_fields::header::machine::CPU_SUBTYPE_MASK;
use macho_fields::{Break, Bytes, FileType, Rule, file_type_of};

// What may be opened: the bytes of an image, and the `cputype` and the `cpusubtype` that a universal
// file gives for it.
#[derive(Clone, Copy)]
pub(crate) struct Candidate<'a> {
    pub(crate) bytes: Bytes<'a>,
    pub(crate) arch: Option<(u32, u32)>,
}

impl<'a> Candidate<'a> {
    // The load commands, in the order of the file.
    pub(crate) fn commands(self) -> Commands<'a>
        requires { KeptBelow (breaks_of self) (rank Rule.CommandShort) }
        ensures { result ≡ map (command_at (bytes_of self.entry.bytes))
            (commands_of (bytes_of self.entry.bytes)) }
    {
        Commands {
            image: self.bytes,
            place: MACH_HEADER_64_SIZE,
            left: word_at(self.bytes, NCMDS),
        }
    }
}

// The rule `header-truncated`: the bytes hold a `mach_header_64`.
pub(crate) fn header_truncated(candidate: Candidate) -> Result<(), Break>
    ensures decides { Continues (breaks_of candidate.entry) Rule.HeaderTruncated result }
    ensures stops { StopsAt Rule.HeaderTruncated result }
{
    if candidate.bytes.len() < MACH_HEADER_64_SIZE {
        return Err(Break::at(Rule::HeaderTruncated, 0));
    }
    Ok(())
}

// The rule `arch-mismatch`: the header has the `cputype` and the masked `cpusubtype` of the
// universal file, where there is one.
pub(crate) fn arch_mismatch(candidate: Candidate) -> Result<(), Break>
    requires { KeptBelow (breaks_of candidate) (rank Rule.ArchMismatch) }
    ensures decides { Continues (breaks_of candidate.entry) Rule.ArchMismatch result }
    ensures stops { StopsAt Rule.ArchMismatch result }
{
    let Some((cputype, cpusubtype)) = candidate.arch else {
        return Ok(());
    };
    if !has_arch(candidate.bytes, cputype, cpusubtype) {
        return Err(Break::at(Rule::ArchMismatch, CPUTYPE));
    }
    Ok(())
}

// Whether the header has this `cputype` and this `cpusubtype`, without the capability bits.
fn has_arch(image: Bytes, cputype: u32, cpusubtype: u32) -> bool
    requires { MACH_HEADER_64_SIZE ≤ length (bytes_of image) }
    ensures { IsTrue result ↔ (cputype ≡ cpu_type (bytes_of image.entry))
        × (masked cpusubtype ≡ masked (cpu_subtype (bytes_of image.entry))) }
{
    (cputype, cpusubtype & !CPU_SUBTYPE_MASK) == arch_of(image)
}

// The `cputype` of the header, and its `cpusubtype` without the capability bits.
pub(crate) fn arch_of(image: Bytes) -> (u32, u32)
    requires { MACH_HEADER_64_SIZE ≤ length (bytes_of image) }
    ensures cpu_type { result.0 ≡ cpu_type (bytes_of image.entry) }
    ensures cpu_subtype { result.1 ≡ masked (cpu_subtype (bytes_of image.entry)) }
{
    (
        word_at(image, CPUTYPE),
        word_at(image, CPUSUBTYPE) & !CPU_SUBTYPE_MASK,
    )
}

// The rule `file-type`: the image is of a type that is judged.
pub(crate) fn file_type(candidate: Candidate) -> Result<(), Break>
    requires { KeptBelow (breaks_of candidate) (rank Rule.FileType) }
    ensures decides { Continues (breaks_of candidate.entry) Rule.FileType result }
    ensures stops { StopsAt Rule.FileType result }
{
    match file_type_of(word_at(candidate.bytes, FILETYPE)) {
        Some(_) => Ok(()),
        None => Err(Break::at(Rule::FileType, FILETYPE)),
    }
}

// The type of an image whose type is listed.
pub(crate) fn listed_file_type(image: Bytes) -> FileType
    requires header { MACH_HEADER_64_SIZE ≤ length (bytes_of image) }
    requires listed { IsSome (file_type_of (header_file_type (bytes_of image))) }
    ensures { file_type_of (header_file_type (bytes_of image.entry)) ≡ Some (file_type_view result) }
{
    file_type_of(word_at(image, FILETYPE)).unwrap()
}

// The rule `commands-outside`: the commands end inside the image.
pub(crate) fn commands_outside(candidate: Candidate) -> Result<(), Break>
    requires { KeptBelow (breaks_of candidate) (rank Rule.CommandsOutside) }
    ensures decides { Continues (breaks_of candidate.entry) Rule.CommandsOutside result }
    ensures stops { StopsAt Rule.CommandsOutside result }
{
    if end_of_commands(candidate.bytes) > candidate.bytes.len() {
        return Err(Break::at(Rule::CommandsOutside, SIZEOFCMDS));
    }
    Ok(())
}

// The offset just past the `sizeofcmds` bytes of the commands.
pub(crate) fn end_of_commands(image: Bytes) -> u64
    requires { MACH_HEADER_64_SIZE ≤ length (bytes_of image) }
    ensures end { result ≡ commands_end (bytes_of image.entry) }
    ensures near { result < 2 ^ 33 }
{
    MACH_HEADER_64_SIZE + u64::from(word_at(image, SIZEOFCMDS))
}

// The offset just past the command at `place`, or `None` if no command can be there.
pub(crate) fn next_command(image: Bytes, place: u64, end: u64) -> Option<u64>
    requires end { end ≡ commands_end (bytes_of image) }
    requires inside { end ≤ length (bytes_of image) }
    requires place { place ≤ end }
    ensures good { IsSome result ↔ IsGood (bytes_of image.entry) place }
    ensures next { IfSome result (λ next. next ≡ place + command_size (bytes_of image.entry) place) }
{
    let room = end - place;
    if room < LOAD_COMMAND_SIZE {
        return None;
    }
    let size = u64::from(word_at(image, place + CMDSIZE));
    if size % 8 != 0 || size < LOAD_COMMAND_SIZE || size > room {
        return None;
    }
    Some(place + size)
}
