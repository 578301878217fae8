//! The symbols of an image, and where they first break each of their rules. (`mach-o/nlist.h`: `nlist_64`)

use crate::addresses::NearAddresses;
use crate::header::is_two_level;
use crate::nlist::{has_type, names_no_library};
use crate::sections::MappedSections;
use macho_fields::header::nlist::N_INDR;
use macho_image::{Image, Symbol};
use macho_rules::{name_limit, symbol_count};
use macho_tables::limits::library_count;
use macho_tables::place::note_if;
use std::alloc::{AllocError, Global};

/// Where the symbols of an image first break each of their rules.
#[derive(Clone, Copy)]
pub struct SymbolSurvey {
    /// The first undefined symbol of an image with `MH_TWOLEVEL` that is from no library.
    pub library: Option<u64>,
    /// The first symbol of a section of a mapped segment whose value is not an address of a mapped segment, and not the
    /// end of one.
    pub value: Option<u64>,
    /// The first symbol that is another name, where no zero byte of the strings ends that name.
    pub indirect: Option<u64>,
}

impl SymbolSurvey {
    ghost use Rattle.std.specs.Prelude.{◌≡◌, ℕ, List, None, IfOk, OnErr};
    ghost use Rattle.macho_fields.specs.FirstPlace.{IsNoted};
    ghost use Rattle.macho_fields.specs.Layers.{NothingBreaks};
    ghost use Rattle.macho_fields.specs.Rules.{BreaksImage as Breaks};
    ghost use Rattle.macho_tables.specs.FileBytes.{HasManySegments};
    ghost use Rattle.macho_symbols.specs.SymbolLimits.{AreLimits, NamesPast};
    ghost use Rattle.macho_symbols.specs.Symbols.{LacksLibrary, IsAstraySymbol, IsLeastOfImage, HasSymbols};

    /// Goes over the symbols of an image that breaks no rule of the layout, once. It takes memory only if the
    /// image has symbols, and more than [`FEW_SEGMENTS`] mapped segments.
    ///
    /// [`FEW_SEGMENTS`]: macho_tables::file_bytes::FEW_SEGMENTS
    pub fn of(alloc: Global, image: &Image) -> Result<SymbolSurvey, AllocError>
        requires { NothingBreaks (Breaks image.now None) }
        ensures least { IfOk result (IsLeastOfImage image.now) }
        ensures memory { OnErr result (HasManySegments image.now × HasSymbols image.now) }
    {
        let mut survey = SymbolSurvey {
            library: None,
            value: None,
            indirect: None,
        };
        if symbol_count(image) == 0 {
            return Ok(survey);
        }
        let mut limits = Limits::of(alloc, image)?;
        for symbol in image.symbols() {
            survey.note(&mut limits, symbol);
        }
        Ok(survey)
    }

    // Notes which rules the symbol breaks. It comes after those noted before.
    fn note(&mut self, limits: &mut Limits, symbol: Symbol)
        ensures library { (image : List ℕ) → AreLimits image limits.old
            → IsNoted (LacksLibrary image symbol) symbol.place self.old.library self.new.library }
        ensures value { (image : List ℕ) → AreLimits image limits.old
            → IsNoted (IsAstraySymbol image symbol) symbol.place self.old.value self.new.value }
        ensures indirect { IsNoted (NamesPast limits.old.names_end symbol) symbol.place
            self.old.indirect self.new.indirect }
        ensures same { (image : List ℕ) → AreLimits image limits.old → AreLimits image limits.new }
        ensures end { limits.new.names_end ≡ limits.old.names_end }
    {
        note_if(
            &mut self.library,
            limits.lacks_library(symbol),
            symbol.place,
        );
        note_if(&mut self.indirect, limits.is_endless(symbol), symbol.place);
        note_if(&mut self.value, limits.is_astray(symbol), symbol.place);
    }
}

// What the symbols of an image are compared with.
#[derive(Drop)]
pub(crate) struct Limits {
    // Whether undefined symbols name libraries, and how many there are.
    is_two_level: bool,
    libraries: u64,
    // Which sections lie in mapped segments, and their addresses.
    sections: MappedSections,
    addresses: NearAddresses,
    // The first offset in the strings from which on no name ends.
    names_end: u64,
}

impl Limits {
    ghost use Rattle.std.specs.Prelude.{◌≡◌, ◌↔◌, ℕ, List, None, IsTrue, IfOk, OnErr};
    ghost use Rattle.macho_fields.specs.Layers.{NothingBreaks};
    ghost use Rattle.macho_fields.specs.Rules.{BreaksImage as Breaks};
    ghost use Rattle.macho_tables.specs.FileBytes.{HasManySegments};
    ghost use Rattle.macho_fields.specs.Symbol.{IsSectionType};
    ghost use Rattle.macho_symbols.specs.Sections.{IsMappedSection};
    ghost use Rattle.macho_symbols.specs.SymbolLimits.{AreLimits, NamesPast};
    ghost use Rattle.macho_symbols.specs.Symbols.{LacksLibrary, IsAstraySymbol};

    // Those of an image that breaks no rule of the layout. They take memory only if it has many mapped segments.
    fn of(alloc: Global, image: &Image) -> Result<Limits, AllocError>
        requires { NothingBreaks (Breaks image.now None) }
        ensures limits { IfOk result (AreLimits image.now) }
        ensures memory { OnErr result (HasManySegments image.now) }
    {
        let addresses = NearAddresses::of(alloc, image)?;
        Ok(Limits {
            is_two_level: is_two_level(image),
            libraries: library_count(image),
            sections: MappedSections::of(image),
            addresses,
            names_end: name_limit(image),
        })
    }

    // Whether undefined symbols name libraries, and this one names none.
    fn lacks_library(&self, symbol: Symbol) -> bool
        ensures { (image : List ℕ) → AreLimits image self.now
            → IsTrue result ↔ LacksLibrary image symbol }
    {
        self.is_two_level && names_no_library(symbol, self.libraries)
    }

    // Whether a section of a mapped segment defines the symbol, and its value is by no mapped segment.
    fn is_astray(&mut self, symbol: Symbol) -> bool
        ensures astray { (image : List ℕ) → AreLimits image self.old
            → IsTrue result ↔ IsAstraySymbol image symbol }
        ensures same { (image : List ℕ) → AreLimits image self.old → AreLimits image self.new }
        ensures end { self.new.names_end ≡ self.old.names_end }
    {
        self.is_of_mapped_section(symbol) && !self.addresses.has(symbol.value)
    }

    // Whether a section of a mapped segment defines the symbol.
    fn is_of_mapped_section(&self, symbol: Symbol) -> bool
        ensures { (image : List ℕ) → AreLimits image self.now
            → IsTrue result ↔ (IsSectionType symbol.kind × IsMappedSection image symbol.sect) }
    {
        symbol.names_section() && self.sections.has(symbol.sect)
    }

    // Whether the symbol is another name, and no zero byte of the strings ends that.
    fn is_endless(&self, symbol: Symbol) -> bool
        ensures { IsTrue result ↔ NamesPast self.now.names_end symbol }
    {
        has_type(symbol, N_INDR) && symbol.value >= self.names_end
    }
}
