//! The header of chained fixups. (`mach-o/fixup-chains.h`: `dyld_chained_fixups_header`)

ghost use Rattle.std.specs.Prelude.{◌≡◌, ◌≤◌, length};
ghost use Rattle.macho_fields.specs.Bytes.{bytes_of};
ghost use Rattle.macho_chains.specs.ChainHeader.{is_known as is_known_of};

use macho_fields::Bytes;
use macho_fields::header::fixup_chains::{
    DYLD_CHAINED_FIXUPS_HEADER_SIZE, DYLD_CHAINED_IMPORT, DYLD_CHAINED_IMPORT_ADDEND,
    DYLD_CHAINED_IMPORT_ADDEND64,
};
use macho_tables::fields::word_at;

// The version of the format.
const VERSION: u32 = 0;

// The format of names that are not compressed.
const UNCOMPRESSED: u32 = 0;

// The offsets of the fields in `dyld_chained_fixups_header`.
const FIXUPS_VERSION: u64 = 0;

const STARTS_OFFSET: u64 = 4;

const IMPORTS_OFFSET: u64 = 8;

const SYMBOLS_OFFSET: u64 = 12;

const IMPORTS_COUNT: u64 = 16;

const IMPORTS_FORMAT: u64 = 20;

const SYMBOLS_FORMAT: u64 = 24;

/// What the imports of chained fixups are.
#[derive(Clone, Copy)]
pub enum ImportFormat {
    /// `dyld_chained_import`.
    Import,
    /// `dyld_chained_import_addend`, with an addend of 32 bits.
    ImportAddend,
    /// `dyld_chained_import_addend64`, with an addend of 64 bits.
    ImportAddend64,
}

impl ImportFormat {
    ghost use Rattle.std.specs.Prelude.{◌≡◌};
    ghost use Rattle.macho_chains.specs.ChainHeader.{import_format as import_format_of};

    /// The format with this number, or `None` if it is not known.
    pub fn of(number: u32) -> Option<ImportFormat>
        ensures { result ≡ import_format_of number }
    {
        match number {
            DYLD_CHAINED_IMPORT => Some(ImportFormat::Import),
            DYLD_CHAINED_IMPORT_ADDEND => Some(ImportFormat::ImportAddend),
            DYLD_CHAINED_IMPORT_ADDEND64 => Some(ImportFormat::ImportAddend64),
            _ => None,
        }
    }
}

/// What the header says. An offset is one in the table.
#[derive(Clone, Copy)]
pub struct ChainHeader {
    /// Where the `dyld_chained_starts_in_image` begins.
    pub starts_offset: u32,
    /// Where the imports begin.
    pub imports_offset: u32,
    /// Where the names of the imports begin.
    pub symbols_offset: u32,
    /// How many imports there are.
    pub imports_count: u32,
    /// What they are.
    pub imports_format: ImportFormat,
}

impl ChainHeader {
    ghost use Rattle.std.specs.Prelude.{◌≡◌};
    ghost use Rattle.macho_fields.specs.Bytes.{bytes_of};
    ghost use Rattle.macho_chains.specs.ChainHeader.{chain_header};

    /// The header with which the table begins. It is `None` if the table is shorter, or the version, the
    /// format of the imports or of the names is not known.
    #[tactic(auto, unfolding(crate::specs::ChainHeader::chain_header))]
    pub fn read(chains: Bytes) -> Option<ChainHeader>
        ensures { result ≡ chain_header (bytes_of chains.entry) }
    {
        if chains.len() < DYLD_CHAINED_FIXUPS_HEADER_SIZE || !is_known(chains) {
            return None;
        }
        let imports_format = ImportFormat::of(word_at(chains, IMPORTS_FORMAT))?;
        Some(ChainHeader {
            starts_offset: word_at(chains, STARTS_OFFSET),
            imports_offset: word_at(chains, IMPORTS_OFFSET),
            symbols_offset: word_at(chains, SYMBOLS_OFFSET),
            imports_count: word_at(chains, IMPORTS_COUNT),
            imports_format,
        })
    }
}

// Whether the version is known, and the names are not compressed.
fn is_known(chains: Bytes) -> bool
    requires { DYLD_CHAINED_FIXUPS_HEADER_SIZE ≤ length (bytes_of chains) }
    ensures { result ≡ is_known_of (bytes_of chains.entry) }
{
    word_at(chains, FIXUPS_VERSION) == VERSION && word_at(chains, SYMBOLS_FORMAT) == UNCOMPRESSED
}
