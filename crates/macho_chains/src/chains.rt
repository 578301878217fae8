//! The chained fixups of an image, and where they first break each of their rules. (`mach-o/loader.h`:
//! `linkedit_data_command`)

ghost use Rattle.std.specs.Prelude.{◌≡◌};
ghost use Rattle.macho_fields.specs.Bytes.{bytes_of};
ghost use Rattle.macho_chains.specs.ChainHeader.{chain_header};
ghost use Rattle.macho_chains.specs.Chains.{AreLeastInTable};

use crate::chain_header::ChainHeader;
use crate::chain_imports::ImportSurvey;
use crate::chain_starts::chain_starts;
use macho_fields::Bytes;
use macho_fields::header::loader::LC_DYLD_CHAINED_FIXUPS;
use macho_fields::header::loader::linkedit_data_command::DATAOFF;
use macho_image::Image;
use macho_tables::homes::span_of;
use macho_tables::limits::library_count;
use macho_tables::place::{bounded_at, first_place, place_from};

/// The chained fixups of an image.
#[derive(Clone, Copy)]
pub struct ChainedFixups<'a> {
    /// Where the command begins that names them, if there is one.
    pub command: Option<u64>,
    /// The table that it names, if this has bytes.
    pub table: Option<ChainTable<'a>>,
}

/// A table of chained fixups whose header is known.
#[derive(Clone, Copy)]
pub struct Chains<'a> {
    /// Where it begins in the image.
    pub start: u64,
    /// Its bytes.
    pub bytes: Bytes<'a>,
    /// Its header.
    pub header: ChainHeader,
}

/// A table of chained fixups.
#[derive(Clone, Copy)]
pub struct ChainTable<'a> {
    /// Where it begins in the image.
    pub start: u64,
    /// Its bytes.
    pub bytes: Bytes<'a>,
    /// Its header, if this is known.
    pub header: Option<ChainHeader>,
}

impl<'a> ChainedFixups<'a> {
    ghost use Rattle.std.specs.Prelude.{None};
    ghost use Rattle.macho_fields.specs.Layers.{NothingBreaks};
    ghost use Rattle.macho_fields.specs.Rules.{BreaksImage as Breaks};
    ghost use Rattle.macho_chains.specs.Chains.{AreChainedFixups};

    /// Those of an image that breaks no rule of the layout.
    pub fn of(image: &Image<'a>) -> ChainedFixups<'a>
        requires { NothingBreaks (Breaks image.now None) }
        ensures { AreChainedFixups image.now result }
    {
        match first_place(image, LC_DYLD_CHAINED_FIXUPS) {
            Some(command) => ChainedFixups {
                command: Some(command),
                table: ChainTable::read(image, command),
            },
            None => ChainedFixups {
                command: None,
                table: None,
            },
        }
    }
}

impl<'a> ChainTable<'a> {
    ghost use Rattle.std.specs.Prelude.{◌≡◌, None, Some, MatchOption};
    ghost use Rattle.macho_fields.specs.Layers.{NothingBreaks};
    ghost use Rattle.macho_fields.specs.Rules.{BreaksImage as Breaks};
    ghost use Rattle.macho_chains.specs.Chains.{chained_fixups, IsChainTable, IsTableOf};
    ghost use Rattle.macho_spans.specs.declared.span.Span.{Span};

    // The table that the command names. It is `None` if it has no bytes.
    fn read(image: &Image<'a>, command: u64) -> Option<ChainTable<'a>>
        requires unbroken { NothingBreaks (Breaks image.now None) }
        requires named { chained_fixups image.now ≡ Some command }
        ensures { MatchOption result
            ((table : Span) → ¬ IsChainTable image.now table) (IsTableOf image.now) }
    {
        let span = span_of(image, command, bounded_at(DATAOFF));
        if span.len == 0 {
            return None;
        }
        let bytes = image.bytes().slice(span);
        Some(ChainTable {
            start: span.start,
            bytes,
            header: ChainHeader::read(bytes),
        })
    }
}

/// Where the chained fixups first break each of their rules.
#[derive(Clone, Copy)]
pub struct ChainSurvey {
    /// The start of the table, if it has no header, or the command that names it, if it has no bytes.
    pub header: Option<u64>,
    /// The first entry with bad starts, or the number of entries if this is wrong, or the start of the table if
    /// it has no such number.
    pub starts: Option<u64>,
    /// The first import whose name does not end, or the start of the table if the imports end past it.
    pub imports: Option<u64>,
    /// The first import with which the names have more bytes than the table.
    pub total: Option<u64>,
    /// The first import that is from no library.
    pub library: Option<u64>,
}

impl ChainSurvey {
    ghost use Rattle.std.specs.Prelude.{◌≡◌};
    ghost use Rattle.macho_chains.specs.Chains.{unbroken_chains, moved_chains, AreChainedFixups, AreLeastInImage, ChainsFitAt};

    /// Goes over the table of the image. The places are those in the image.
    pub fn of(image: &Image, fixups: &ChainedFixups) -> ChainSurvey
        requires { AreChainedFixups image.now fixups.now }
        ensures { AreLeastInImage image.now result }
    {
        match fixups.table {
            Some(table) => survey(image, table).moved(table.start),
            None => ChainSurvey {
                header: fixups.command,
                ..ChainSurvey::unbroken()
            },
        }
    }

    // No rule is broken.
    fn unbroken() -> ChainSurvey
        ensures { result ≡ unbroken_chains }
    {
        ChainSurvey {
            header: None,
            starts: None,
            imports: None,
            total: None,
            library: None,
        }
    }

    // The same with places that are counted from another start.
    fn moved(self, start: u64) -> ChainSurvey
        requires { ChainsFitAt start self }
        ensures { result ≡ moved_chains start self }
    {
        ChainSurvey {
            header: place_from(start, self.header),
            starts: place_from(start, self.starts),
            imports: place_from(start, self.imports),
            total: place_from(start, self.total),
            library: place_from(start, self.library),
        }
    }
}

// Goes over the bytes of a table. The places are offsets in it.
fn survey(image: &Image, table: ChainTable) -> ChainSurvey
    requires { table.header ≡ chain_header (bytes_of table.bytes) }
    ensures { AreLeastInTable image.now (bytes_of table.entry.bytes) result }
{
    let Some(header) = table.header else {
        return ChainSurvey {
            header: Some(0),
            ..ChainSurvey::unbroken()
        };
    };
    let chains = Chains {
        start: table.start,
        bytes: table.bytes,
        header,
    };
    let ImportSurvey {
        imports,
        total,
        library,
    } = ImportSurvey::of(chains, library_count(image));
    ChainSurvey {
        header: None,
        starts: chain_starts(image, chains),
        imports,
        total,
        library,
    }
}
