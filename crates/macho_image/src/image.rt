//! An opened image. (`mach-o/loader.h`: `mach_header_64`)

ghost use Rattle.std.specs.Prelude.{◌≡◌, ◌+◌, ◌^◌, ◌≤◌, ◌<◌, length, IfOk, IfSome, Some, map};
ghost use Rattle.std.specs.Option.{option_map, option_map_or};
ghost use Rattle.macho_fields.specs.Bytes.{bytes_of};
ghost use Rattle.macho_fields.specs.FileTypes.{file_type_of, file_type_view};
ghost use Rattle.macho_fields.specs.Image.{cpu_type, cpu_subtype, file_type, commands_end, commands_of};
ghost use Rattle.macho_fields.specs.Layers.{Continues, StopsAt};
ghost use Rattle.macho_fields.specs.LoadCommands.{structure_of, structure_size, IsUnique};
ghost use Rattle.macho_fields.specs.Rules.{BreaksImage};
ghost use Rattle.macho_fields.specs.Universal.{masked};
ghost use Rattle.macho_fields.specs.declared.header.loader.TheConstants.{LC_BUILD_VERSION, LC_SEGMENT_64};
ghost use Rattle.macho_fields.specs.declared.rule.Rule.{Rule};
ghost use Rattle.macho_image.specs.Command.{command_of, command_at, commands_left, first_with_cmd};
ghost use Rattle.macho_image.specs.Header.{IsKind};
ghost use Rattle.macho_image.specs.Opened.{IsOpened};
ghost use Rattle.macho_image.specs.Table.{HaveTables};
ghost use Rattle.macho_image.specs.Views.{HaveAll, HaveLibraries};
ghost use Rattle.macho_image.specs.Walk.{CanWalk, HasLandmarks};

use crate::command::{Command, Commands};
use crate::landmarks::{CommandRange, Landmarks};
use crate::rules::dylib_id;
use crate::survey::CommandSurvey;
use crate::walk::{
    Candidate, arch_mismatch, arch_of, commands_outside, end_of_commands, file_type,
    header_truncated, listed_file_type,
};
use macho_fields::{Break, Bytes};
pub use macho_fields::{FileType, Kind};
use std::marker::Model;

/// The bytes of a 64-bit image that breaks no rule of `Image::open`.
#[derive(Drop)]
pub struct Image<'a> {
    bytes: Bytes<'a>,
    landmarks: Landmarks,
}

impl<'a> Model for Image<'a> {
    ghost use Rattle.std.specs.Prelude.{List, ℕ};
    ghost use Rattle.macho_fields.specs.Bytes.{bytes_of};
    ghost use Rattle.macho_image.specs.Walk.{HasLandmarks};

    ghost Value = { List ℕ };

    ghost view = { λ image. bytes_of image.bytes };

    ghost invariant = { λ image. HasLandmarks (bytes_of image.bytes) image.landmarks };
}

impl<'a> Image<'a> {
    /// Opens `bytes` as a 64-bit image. `arch` is the `cputype` and the `cpusubtype` that a
    /// universal file gives for it, or `None` if the image is a separate file. The magic number is
    /// not checked: any bytes are judged as a 64-bit image.
    ///
    /// The error is the first broken rule, of `header-truncated` to `name`, and the least offset at
    /// which it is broken.
    pub fn open(bytes: Bytes<'a>, arch: Option<(u32, u32)>) -> Result<Image<'a>, Break>
        ensures decides { Continues (BreaksImage (bytes_of bytes.entry) arch) Rule.Name result }
        ensures stops { StopsAt Rule.Name result }
        ensures image { IfOk result (λ image. image ≡ bytes_of bytes.entry) }
    {
        let candidate = Candidate { bytes, arch };
        header_truncated(candidate)?;
        arch_mismatch(candidate)?;
        file_type(candidate)?;
        commands_outside(candidate)?;
        let mut survey = CommandSurvey::new(candidate);
        survey.command_walk()?;
        survey.command_short()?;
        survey.command_repeated()?;
        dylib_id(candidate, survey.landmarks.unique)?;
        survey.name()?;
        Ok(Image {
            bytes,
            landmarks: survey.landmarks,
        })
    }

    /// The image of bytes that break no rule of [`Image::open`], as it found before. They are not
    /// judged again.
    pub fn reopen(bytes: Bytes<'a>) -> Image<'a>
        requires { IsOpened (bytes_of bytes) }
        ensures { result ≡ bytes_of bytes.entry }
    {
        Image {
            bytes,
            landmarks: Landmarks::of(bytes),
        }
    }

    /// The image of bytes with these landmarks, which were found before. The bytes are not scanned.
    pub fn with_landmarks(bytes: Bytes<'a>, landmarks: Landmarks) -> Image<'a>
        requires { HasLandmarks (bytes_of bytes) landmarks }
        ensures { result ≡ bytes_of bytes.entry }
    {
        Image { bytes, landmarks }
    }

    /// Where the image has the commands that its views look for.
    pub fn landmarks(&self) -> Landmarks
        ensures { HasLandmarks self.now result }
    {
        self.landmarks
    }

    /// All bytes of the image.
    pub fn bytes(&self) -> Bytes<'a>
        ensures bytes { bytes_of result ≡ self.now }
        ensures opened { IsOpened self.now }
        ensures fits { length self.now < 2 ^ 64 }
    {
        prove!(self.bytes.len() <= u64::MAX);
        self.bytes
    }

    /// The type of the image, as the list of filetypes has it. (`mach_header_64.filetype`)
    pub fn file_type(&self) -> FileType
        ensures { file_type_of (file_type self.now) ≡ Some (file_type_view result) }
    {
        listed_file_type(self.bytes)
    }

    /// What the image is.
    pub fn kind(&self) -> Kind
        ensures { IsKind self.now result }
    {
        self.file_type().kind
    }

    /// The `cputype` of the image, and its `cpusubtype` without the capability bits.
    /// (`mach_header_64`)
    pub fn arch(&self) -> (u32, u32)
        ensures cpu_type { result.0 ≡ cpu_type self.now }
        ensures cpu_subtype { result.1 ≡ masked (cpu_subtype self.now) }
    {
        arch_of(self.bytes)
    }

    /// The offset just past the bytes that the header reserves for the load commands.
    /// (`mach_header_64.sizeofcmds`)
    pub fn commands_end(&self) -> u64
        ensures end { result ≡ commands_end self.now }
        ensures near { result < 2 ^ 33 }
    {
        end_of_commands(self.bytes)
    }

    /// The `ncmds` load commands, in the order of the file.
    pub fn commands(&self) -> Commands<'a>
        ensures commands { result ≡ map (command_at self.now) (commands_of self.now) }
        ensures opened { IsOpened self.now }
    {
        let candidate = Candidate {
            bytes: self.bytes,
            arch: None,
        };
        candidate.commands()
    }

    /// The first command with this `cmd`, or `None` if the image has none. It may have several, because the
    /// rules forbid a second command for some kinds only.
    pub fn first_command(&self, cmd: u32) -> Option<Command<'a>>
        ensures { option_map command_of result ≡ option_map (command_at self.now)
            (first_with_cmd self.now cmd (commands_of self.now)) }
    {
        self.commands().next_with_cmd(cmd)
    }

    /// The commands from the first that names a table to the last. No command before or after these
    /// names a table.
    pub fn commands_with_tables(&self) -> Commands<'a>
        ensures tables { HaveTables self.now result }
        ensures opened { IsOpened self.now }
    {
        self.commands_in(self.landmarks.tables)
    }

    // The commands from the first segment to the last. Searches for segments are limited to these.
    pub(crate) fn commands_with_segments(&self) -> Commands<'a>
        ensures segments { HaveAll LC_SEGMENT_64 self.now result }
        ensures opened { IsOpened self.now }
    {
        self.commands_in(self.landmarks.segments)
    }

    // The commands from the first build to the last. Searches for builds are limited to these.
    pub(crate) fn commands_with_builds(&self) -> Commands<'a>
        ensures builds { HaveAll LC_BUILD_VERSION self.now result }
        ensures opened { IsOpened self.now }
    {
        self.commands_in(self.landmarks.builds)
    }

    // The commands from the first that names a library to the last. Searches for libraries are limited to
    // these.
    pub(crate) fn commands_with_libraries(&self) -> Commands<'a>
        ensures libraries { HaveLibraries self.now result }
        ensures opened { IsOpened self.now }
    {
        self.commands_in(self.landmarks.libraries)
    }

    // The commands of a range, which follow one another in the image.
    fn commands_in(&self, range: CommandRange) -> Commands<'a>
        requires { CanWalk self.now range.place range.count }
        ensures commands { result ≡ commands_left self.now range.place range.count }
        ensures opened { IsOpened self.now }
    {
        Commands {
            image: self.bytes,
            place: range.place,
            left: range.count,
        }
    }

    // The place of the command with this `cmd`, which an image has at most once. Its structure lies
    // inside the image.
    pub(crate) fn place_of(&self, cmd: u32) -> Option<u64>
        requires { IsUnique cmd }
        ensures first { result ≡ first_with_cmd self.now cmd (commands_of self.now) }
        ensures inside { IfSome result (λ place.
            place + option_map_or structure_size (structure_of cmd) 0 ≤ length self.now) }
    {
        self.landmarks.unique.of(cmd)
    }
}
