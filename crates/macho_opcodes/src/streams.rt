//! The streams of an image, and where they first break each of their rules. (`mach-o/loader.h`:
//! `dyld_info_command`)

ghost use Rattle.std.specs.Prelude.{◌≡◌, Some};
ghost use Rattle.macho_fields.specs.Layers.{NothingBreaks};
ghost use Rattle.macho_fields.specs.Rules.{BreaksImage as Breaks};
ghost use Rattle.macho_opcodes.specs.Images.{AreLeast, InStream};
ghost use Rattle.macho_tables.specs.Places.{dyld_info as dyld_info_of};
ghost use Rattle.macho_tables.specs.Limits.{AreRooms, rooms_of, budget_of, library_count};

use crate::step::Opcodes;
use crate::stream::{Limits, StreamSurvey, survey};
use macho_fields::TableFields;
use macho_fields::header::loader::dyld_info_command::{
    BIND_OFF, LAZY_BIND_OFF, REBASE_OFF, WEAK_BIND_OFF,
};
use macho_image::Image;
use macho_tables::homes::span_of;
use macho_tables::place::{bounded_at, dyld_info, lesser, place_from};

/// Where the streams of an image first break each of their rules, as places in the image.
#[derive(Clone, Copy)]
pub struct StreamSurveys {
    /// Of the rebase stream.
    pub rebases: StreamSurvey,
    /// Of the bind, the weak and the lazy stream: the least places in all three.
    pub binds: StreamSurvey,
}

impl StreamSurveys {
    ghost use Rattle.std.specs.Prelude.{None};
    ghost use Rattle.macho_fields.specs.Layers.{NothingBreaks};
    ghost use Rattle.macho_fields.specs.Rules.{BreaksImage as Breaks};
    ghost use Rattle.macho_opcodes.specs.Images.{AreLeast, InRebases, InBinds};

    /// Goes over the opcodes of an image that breaks no rule of the layout, once.
    pub fn of(image: &Image) -> StreamSurveys
        requires { NothingBreaks (Breaks image.now None) }
        ensures rebases { AreLeast (InRebases image.now) result.rebases }
        ensures binds { AreLeast (InBinds image.now) result.binds }
    {
        let Some(command) = dyld_info(image) else {
            return StreamSurveys {
                rebases: StreamSurvey::unbroken(),
                binds: StreamSurvey::unbroken(),
            };
        };
        let limits = Limits::of(image);
        let rebases = survey_of(image, command, Stream::Rebase, &limits);
        let binds = survey_of(image, command, Stream::Bind, &limits);
        let weak = survey_of(image, command, Stream::WeakBind, &limits);
        let lazy = survey_of(image, command, Stream::LazyBind, &limits);
        StreamSurveys {
            rebases,
            binds: binds.joined(weak).joined(lazy),
        }
    }
}

impl StreamSurvey {
    ghost use Rattle.std.specs.Prelude.{◌≡◌};
    ghost use Rattle.macho_opcodes.specs.Images.{joined, moved, FitsAt};

    // The same with places that are counted from another start.
    fn moved(self, start: u64) -> StreamSurvey
        requires { FitsAt start self }
        ensures { result ≡ moved start self }
    {
        StreamSurvey {
            opcode: place_from(start, self.opcode),
            library: place_from(start, self.library),
            symbol: place_from(start, self.symbol),
            slot: place_from(start, self.slot),
            total: place_from(start, self.total),
            names: place_from(start, self.names),
        }
    }

    // The lesser places of two streams.
    fn joined(self, other: StreamSurvey) -> StreamSurvey
        ensures { result ≡ joined self other }
    {
        StreamSurvey {
            opcode: lesser(self.opcode, other.opcode),
            library: lesser(self.library, other.library),
            symbol: lesser(self.symbol, other.symbol),
            slot: lesser(self.slot, other.slot),
            total: lesser(self.total, other.total),
            names: lesser(self.names, other.names),
        }
    }
}

// Goes over one stream of the command at `command`.
fn survey_of(image: &Image, command: u64, stream: Stream, limits: &Limits) -> StreamSurvey
    requires unbroken { NothingBreaks (Breaks image.now None) }
    requires info { dyld_info_of image.now ≡ Some command }
    requires rooms { AreRooms (rooms_of image.now) limits.now.rooms }
    requires libraries { limits.now.libraries ≡ library_count image.now }
    requires budget { limits.now.budget ≡ budget_of image.now }
    ensures { AreLeast (InStream stream image.now command) result }
{
    let table = span_of(image, command, stream.fields());
    if table.len == 0 {
        return StreamSurvey::unbroken();
    }
    let bytes = image.bytes().slice(table);
    survey(stream.opcodes(), bytes, limits).moved(table.start)
}

/// A stream, by the fields of its command that bound it.
#[derive(Clone, Copy)]
pub enum Stream {
    /// `rebase_off` and `rebase_size`.
    Rebase,
    /// `bind_off` and `bind_size`.
    Bind,
    /// `weak_bind_off` and `weak_bind_size`.
    WeakBind,
    /// `lazy_bind_off` and `lazy_bind_size`.
    LazyBind,
}

impl Stream {
    ghost use Rattle.std.specs.Prelude.{◌≡◌};
    ghost use Rattle.macho_opcodes.specs.Images.{opcodes_of, fields_of};

    /// What its opcodes are.
    pub fn opcodes(self) -> Opcodes
        ensures { result ≡ opcodes_of self }
    {
        match self {
            Stream::Rebase => Opcodes::Rebase,
            Stream::Bind | Stream::WeakBind => Opcodes::Bind,
            Stream::LazyBind => Opcodes::LazyBind,
        }
    }

    /// The fields that bound it.
    pub fn fields(self) -> TableFields
        ensures { result ≡ fields_of self }
    {
        match self {
            Stream::Rebase => bounded_at(REBASE_OFF),
            Stream::Bind => bounded_at(BIND_OFF),
            Stream::WeakBind => bounded_at(WEAK_BIND_OFF),
            Stream::LazyBind => bounded_at(LAZY_BIND_OFF),
        }
    }
}
