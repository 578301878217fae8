//! The imports of chained fixups, and the rules about them. An offset is one in the table.
//! (`mach-o/fixup-chains.h`: `dyld_chained_import`, `dyld_chained_import_addend`,
//! `dyld_chained_import_addend64`)

ghost use Rattle.std.specs.Prelude.{◌≡◌, ◌↔◌, ◌+◌, ◌^◌, ◌≤◌, ◌<◌, ℕ, length, IsTrue};
ghost use Rattle.macho_fields.specs.Bytes.{bytes_of};
ghost use Rattle.macho_fields.specs.Field.{string_from, HasZero};
ghost use Rattle.macho_fields.specs.FirstPlace.{IsLeastPlace};
ghost use Rattle.macho_chains.specs.ChainImports.{ImportsEndPast, MayShare, BreaksChainTotal, AreLeastImports};

use crate::chain_header::{ChainHeader, ImportFormat};
use crate::chains::Chains;
use macho_fields::{Bytes, Order, Span, Width};
use macho_tables::fields::word_at;
use macho_tables::limits::SPECIAL_ORDINALS;
use macho_tables::place::note_if;

// How many of the greatest values of an ordinal are below 0.
const SPECIAL_VALUES: u64 = 15;

/// How an import is written: in the first bits of its structure.
#[derive(Clone, Copy)]
pub struct ImportBits {
    /// The size in bytes of the structure.
    pub size: u64,
    /// How wide the bits are.
    pub width: Width,
    /// Which of them are the ordinal of the library.
    pub ordinal_mask: u64,
    /// From which bit on they are the offset of the name.
    pub name_shift: u32,
}

impl ImportFormat {
    ghost use Rattle.std.specs.Prelude.{◌≡◌};
    ghost use Rattle.macho_chains.specs.ChainImports.{import_bits};

    /// How its imports are written.
    pub fn bits(self) -> ImportBits
        ensures { result ≡ import_bits self }
    {
        match self {
            ImportFormat::Import => ImportBits {
                size: 4,
                width: Width::Uint32,
                ordinal_mask: 0xff,
                name_shift: 9,
            },
            ImportFormat::ImportAddend => ImportBits {
                size: 8,
                width: Width::Uint32,
                ordinal_mask: 0xff,
                name_shift: 9,
            },
            ImportFormat::ImportAddend64 => ImportBits {
                size: 16,
                width: Width::Uint64,
                ordinal_mask: 0xffff,
                name_shift: 32,
            },
        }
    }
}

/// The library that an import is from.
#[derive(Clone, Copy)]
pub enum Ordinal {
    /// The one with this ordinal, from 1 on. 0 is the image itself.
    Library(u64),
    /// The one that a special ordinal says, which is so far below 0.
    Special(u64),
}

impl Ordinal {
    ghost use Rattle.std.specs.Prelude.{◌≡◌, ◌↔◌, ◌≤◌, ◌<◌, ◌^◌, IsTrue};
    ghost use Rattle.macho_chains.specs.ChainImports.{ordinal_of, IsNoLibrary};

    // The ordinal in the bits of a mask, whose greatest values are below 0.
    fn of(bits: u64, mask: u64) -> Ordinal
        requires bits { bits ≤ mask }
        requires least { SPECIAL_VALUES ≤ mask }
        requires most { mask < 2 ^ 16 }
        ensures { result ≡ ordinal_of mask bits }
    {
        let below = mask + 1 - bits;
        if below <= SPECIAL_VALUES {
            Ordinal::Special(below)
        } else {
            Ordinal::Library(bits)
        }
    }

    // Whether it is above the number of libraries, or so far below 0 that it has no meaning.
    fn is_no_library(self, libraries: u64) -> bool
        ensures { IsTrue result ↔ IsNoLibrary libraries self }
    {
        match self {
            Ordinal::Library(number) => number > libraries,
            Ordinal::Special(below) => below > u64::from(SPECIAL_ORDINALS),
        }
    }
}

/// An import.
#[derive(Clone, Copy)]
pub struct Import {
    /// The library in which its name is looked up.
    pub ordinal: Ordinal,
    /// Where its name begins, as an offset from where the names begin.
    pub name_offset: u32,
}

impl Import {
    ghost use Rattle.std.specs.Prelude.{◌≡◌, ◌+◌, ◌≤◌, length};
    ghost use Rattle.macho_fields.specs.Bytes.{bytes_of};
    ghost use Rattle.macho_chains.specs.ChainImports.{import_at, import_bits};

    // The import at an offset, which is inside.
    #[tactic(auto, unfolding(crate::specs::ChainImports::import_at))]
    fn read(chains: Bytes, format: ImportFormat, offset: u64) -> Import
        requires { offset + (import_bits format).size ≤ length (bytes_of chains) }
        ensures { result ≡ import_at (bytes_of chains.entry) format offset }
    {
        let ImportBits {
            width,
            ordinal_mask,
            name_shift,
            ..
        } = format.bits();
        let bits = match width {
            Width::Uint32 => u64::from(word_at(chains, offset)),
            Width::Uint64 => chains.read_u64(Order::Little, offset),
        };
        Import {
            ordinal: Ordinal::of(bits & ordinal_mask, ordinal_mask),
            name_offset: (bits >> name_shift) as u32,
        }
    }
}

/// Where the imports first break each of their rules, as offsets in the table.
#[derive(Clone, Copy)]
pub struct ImportSurvey {
    /// The first import whose name does not end in the table, or 0 if the imports end past it.
    pub imports: Option<u64>,
    /// The first import with which the names have more bytes than the table.
    pub total: Option<u64>,
    /// The first import that is from no library.
    pub library: Option<u64>,
}

impl ImportSurvey {
    ghost use Rattle.std.specs.Prelude.{◌≡◌};
    ghost use Rattle.macho_fields.specs.Bytes.{bytes_of};
    ghost use Rattle.macho_chains.specs.ChainImports.{AreLeastImports, unbroken_imports};

    /// Goes over the imports, once. The image loads so many libraries.
    pub fn of(chains: Chains, libraries: u64) -> ImportSurvey
        ensures { AreLeastImports libraries (bytes_of chains.entry.bytes) chains.entry.header result }
    {
        if chains.header.imports_end_past(chains.bytes) {
            return ImportSurvey {
                imports: Some(0),
                ..ImportSurvey::unbroken()
            };
        }
        survey(chains, libraries)
    }

    // No rule is broken.
    fn unbroken() -> ImportSurvey
        ensures { result ≡ unbroken_imports }
    {
        ImportSurvey {
            imports: None,
            total: None,
            library: None,
        }
    }
}

// Goes over the imports, which end in the table.
fn survey(chains: Chains, libraries: u64) -> ImportSurvey
    requires { ¬ ImportsEndPast (bytes_of chains.bytes) chains.header }
    ensures { AreLeastImports libraries (bytes_of chains.entry.bytes) chains.entry.header result }
{
    let Chains { bytes, header, .. } = chains;
    let end = zeros_end(bytes);
    let mut found = ImportSurvey::unbroken();
    let mut shared = None;
    let mut before = None;
    for index in 0..header.imports_count {
        let offset = header.import_offset(index);
        let import = Import::read(bytes, header.imports_format, offset);
        let name = header.name_of(import);
        let is_shared = may_share(bytes, before, name);
        note_if(&mut shared, is_shared, offset);
        before = Some(name);
        note_if(&mut found.imports, name >= end, offset);
        let is_unknown = import.ordinal.is_no_library(libraries);
        note_if(&mut found.library, is_unknown, offset);
    }
    match (shared, found.imports) {
        // The names share no byte, and end in the table, so they have no more bytes than it.
        (None, None) => found,
        _ => ImportSurvey {
            total: first_past_total(chains),
            ..found
        },
    }
}

// Whether a name may share bytes with the one before it: it does not begin past that, right past a zero byte.
fn may_share(chains: Bytes, before: Option<u64>, name: u64) -> bool
    ensures { IsTrue result ↔ MayShare (bytes_of chains.entry) before name }
{
    let Some(start) = before else {
        return false;
    };
    if name <= start {
        return true;
    }
    match chains.u8_at(name - 1) {
        Some(byte) => byte != 0,
        None => true,
    }
}

// The first import with which the names have more bytes than the table, where the imports end in it. No name
// is read past it.
fn first_past_total(chains: Chains) -> Option<u64>
    requires { ¬ ImportsEndPast (bytes_of chains.bytes) chains.header }
    ensures { IsLeastPlace (BreaksChainTotal (bytes_of chains.entry.bytes) chains.entry.header) result }
{
    let Chains { bytes, header, .. } = chains;
    let mut total: u128 = 0;
    for index in 0..header.imports_count {
        total += name_size(bytes, header.name_start(bytes, index));
        if total > u128::from(bytes.len()) {
            return Some(header.import_offset(index));
        }
    }
    None
}

impl ChainHeader {
    ghost use Rattle.std.specs.Prelude.{◌≡◌, ◌↔◌, ◌+◌, ◌<◌, IsTrue};
    ghost use Rattle.macho_fields.specs.Bytes.{bytes_of};
    ghost use Rattle.macho_chains.specs.ChainImports.{import_of, import_offset, import_name_start, ImportsEndPast};

    /// Whether there are imports, and they end past the table.
    pub fn imports_end_past(self, chains: Bytes) -> bool
        ensures { IsTrue result ↔ ImportsEndPast (bytes_of chains.entry) self }
    {
        self.imports_count > 0 && self.import_offset(self.imports_count) > chains.len()
    }

    /// The import with this index.
    pub fn import(self, chains: Bytes, index: u32) -> Import
        requires inside { ¬ ImportsEndPast (bytes_of chains) self }
        requires listed { index < self.imports_count }
        ensures { result ≡ import_of (bytes_of chains.entry) self index }
    {
        Import::read(chains, self.imports_format, self.import_offset(index))
    }

    /// Where its name begins.
    pub fn name_start(self, chains: Bytes, index: u32) -> u64
        requires inside { ¬ ImportsEndPast (bytes_of chains) self }
        requires listed { index < self.imports_count }
        ensures { result ≡ import_name_start (bytes_of chains.entry) self index }
    {
        self.name_of(self.import(chains, index))
    }

    // Where the name of an import begins.
    fn name_of(self, import: Import) -> u64
        ensures { result ≡ self.symbols_offset + import.name_offset }
    {
        u64::from(self.symbols_offset) + u64::from(import.name_offset)
    }

    /// Where the import with this index begins.
    pub fn import_offset(self, index: u32) -> u64
        ensures { result ≡ import_offset self index }
    {
        let size = self.imports_format.bits().size;
        u64::from(self.imports_offset) + u64::from(index) * size
    }
}

// The offset past the last zero byte of the table, or 0 without one.
fn zeros_end(chains: Bytes) -> u64
    ensures { (start : ℕ) → (start < result)
        ↔ HasZero (bytes_of chains.entry) start (length (bytes_of chains.entry)) }
{
    let whole = Span {
        start: 0,
        len: chains.len(),
    };
    match chains.last_zero(whole) {
        Some(place) => place + 1,
        None => 0,
    }
}

/// How many bytes the name has that begins at `start`, with its zero byte. One that does not end has those up
/// to the end of the table, and one more.
pub fn name_size(chains: Bytes, start: u64) -> u128
    ensures size { result ≡ length (string_from start (bytes_of chains.entry)) + 1 }
    ensures near { result ≤ 2 ^ 64 }
{
    let rest = Span {
        start,
        len: chains.len(),
    };
    match chains.first_zero(rest) {
        Some(zero) => u128::from(zero - start) + 1,
        None => u128::from(chains.len().saturating_sub(start)) + 1,
    }
}
