//! The rules of the symbols of an image, and of its indirect entries. (`mach-o/nlist.h`:
//! `nlist_64`)

ghost use Rattle.std.specs.Prelude.{◌≡◌, ◌+◌, ◌↔◌, Some, slice_get, IsTrue, IsSome, IfSome};
ghost use Rattle.macho_fields.specs.Bytes.{bytes_of};
ghost use Rattle.macho_fields.specs.Field.{HasZero};
ghost use Rattle.macho_spans.specs.Span.{Covers};
ghost use Rattle.macho_fields.specs.Image.{commands_of};
ghost use Rattle.macho_fields.specs.Symbol.{symbol_count, NamesNoSymbol};
ghost use Rattle.macho_fields.specs.declared.rule.Rule.{Rule};
ghost use Rattle.macho_rules.specs.Check.{KeptBefore, JudgesUpTo};
ghost use Rattle.macho_rules.specs.Survey.{IsNameLimit, BeginsPast, LacksSection};

use macho_fields::{Break, Bytes, FirstPlace, Rule, Span};
use macho_image::{Image, Indirect, Symbol, Symtab};
use std::marker::Model;

// What one walk over the symbols of an image finds: where each of their rules is first broken.
#[derive(Drop)]
pub(crate) struct SymbolSurvey<'a> {
    // The image that was scanned.
    image: Bytes<'a>,
    name: FirstPlace,
    section: FirstPlace,
}

impl<'a> Model for SymbolSurvey<'a> {
    ghost use Rattle.std.specs.Prelude.{List, ℕ, None};
    ghost use Rattle.macho_fields.specs.Bytes.{bytes_of};
    ghost use Rattle.macho_fields.specs.FirstPlace.{IsLeastPlace};
    ghost use Rattle.macho_fields.specs.Rules.{BreaksImage};
    ghost use Rattle.macho_fields.specs.declared.rule.Rule.TheVariants as rule;

    ghost Value = { List ℕ };

    ghost view = { λ survey. bytes_of survey.image };

    ghost invariant = { λ survey. IsLeastPlace (BreaksImage (bytes_of survey.image) None rule.SymbolName) survey.name
        × IsLeastPlace (BreaksImage (bytes_of survey.image) None rule.SymbolSection) survey.section };
}

#[tactic(auto, using(crate::proofs::Judged::judged_first))]
impl<'a> SymbolSurvey<'a> {
    ghost use Rattle.std.specs.Prelude.{◌≡◌};
    ghost use Rattle.macho_fields.specs.Image.{commands_of};
    ghost use Rattle.macho_fields.specs.Segment.{section_count};
    ghost use Rattle.macho_fields.specs.declared.rule.Rule.{Rule};
    ghost use Rattle.macho_rules.specs.Check.{KeptBefore, JudgesUpTo};

    // Scans the symbols of the image, whose segments have `sections` sections in all.
    pub(crate) fn of(image: &Image<'a>, sections: u64) -> SymbolSurvey<'a>
        requires kept { KeptBefore image.now Rule.SymbolName }
        requires sections { sections ≡ section_count image.now (commands_of image.now) }
        ensures { result ≡ image.now }
    {
        let limit = name_limit(image);
        let mut name = FirstPlace::none();
        let mut section = FirstPlace::none();
        for symbol in image.symbols() {
            name.note_if(has_endless_name(symbol, limit), symbol.place);
            section.note_if(is_in_no_section(symbol, sections), symbol.place);
        }
        SymbolSurvey {
            image: image.bytes(),
            name,
            section,
        }
    }

    // Decides the rules of symbols, in their order.
    pub(crate) fn judge(&self) -> Result<(), Break>
        requires { KeptBefore self.now Rule.SymbolName }
        ensures { JudgesUpTo self.now Rule.SymbolSection result }
    {
        self.symbol_name()?;
        self.symbol_section()
    }

    // The name of each symbol that has one ends in the strings.
    fn symbol_name(&self) -> Result<(), Break>
        requires { KeptBefore self.now Rule.SymbolName }
        ensures { JudgesUpTo self.now Rule.SymbolName result }
    {
        self.name.judge(Rule::SymbolName)
    }

    // Each symbol that is defined in a section has the number of an existing section.
    fn symbol_section(&self) -> Result<(), Break>
        requires { KeptBefore self.now Rule.SymbolSection }
        ensures { JudgesUpTo self.now Rule.SymbolSection result }
    {
        self.section.judge(Rule::SymbolSection)
    }
}

/// The first offset in the strings of the symbol table from which on no name ends: the one past their last zero
/// byte, and 0 if they have none, or the image has no symbol table.
pub fn name_limit(image: &Image) -> u64
    ensures { IsNameLimit image.now result }
{
    let Some(symtab) = image.symtab() else {
        return 0;
    };
    match last_end(image.bytes(), symtab) {
        Some(place) => place - symtab.stroff + 1,
        None => 0,
    }
}

// Where the last string ends: the place of the last zero byte of the strings of `symtab`.
fn last_end(image: Bytes, symtab: Symtab) -> Option<u64>
    ensures found { IsSome result ↔ HasZero (bytes_of image.entry) symtab.stroff
        (symtab.stroff + symtab.strsize) }
    ensures zero { IfSome result (λ place. Covers symtab.stroff symtab.strsize place
        × (slice_get (bytes_of image.entry) place ≡ Some 0)) }
    ensures last { IfSome result (λ place. ¬ HasZero (bytes_of image.entry) (place + 1)
        (symtab.stroff + symtab.strsize)) }
{
    image.last_zero(Span {
        start: symtab.stroff,
        len: symtab.strsize,
    })
}

// Whether the symbol has a name, and it begins at `limit` or past it.
fn has_endless_name(symbol: Symbol, limit: u64) -> bool
    ensures { IsTrue result ↔ BeginsPast limit symbol }
{
    symbol.strx != 0 && u64::from(symbol.strx) >= limit
}

/// Whether the symbol is defined in a section, and none of `count` sections has its number.
pub fn is_in_no_section(symbol: Symbol, count: u64) -> bool
    ensures { IsTrue result ↔ LacksSection count symbol }
{
    symbol.names_section() && (symbol.sect == 0 || u64::from(symbol.sect) > count)
}

/// Each indirect entry that is not marked is the index of an existing symbol.
pub fn indirect_index(image: &Image) -> Result<(), Break>
    requires { KeptBefore image.now Rule.IndirectIndex }
    ensures { JudgesUpTo image.now Rule.IndirectIndex result }
{
    let count = symbol_count(image);
    for entry in image.indirects() {
        if names_no_symbol(entry, count) {
            return Err(Break::at(Rule::IndirectIndex, entry.place));
        }
    }
    Ok(())
}

// Whether the entry is an index that none of `count` symbols has.
fn names_no_symbol(entry: Indirect, count: u64) -> bool
    ensures { IsTrue result ↔ NamesNoSymbol count entry.value }
{
    entry.is_symbol_index() && u64::from(entry.value) >= count
}

/// How many symbols the image has: none where it has no symbol table.
pub fn symbol_count(image: &Image) -> u64
    ensures { result ≡ symbol_count image.now (commands_of image.now) }
{
    image.symtab().map_or(0, |symtab| symtab.nsyms)
}
