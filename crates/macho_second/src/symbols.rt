//! The rules of the symbols of an image, each with its own loop. The strings are searched for each
//! name.

ghost use Rattle.std.specs.Prelude.{◌≡◌, ◌+◌, ◌≤◌, ◌<◌, ◌↔◌, length, IsTrue};
ghost use Rattle.macho_fields.specs.Bytes.{bytes_of};
ghost use Rattle.macho_fields.specs.Symbol.{HasEndlessName};
ghost use Rattle.macho_fields.specs.declared.rule.Rule.{Rule};
ghost use Rattle.macho_image.specs.Symbol.{symtab_at, symbol_at};
ghost use Rattle.macho_rules.specs.Check.{KeptBefore, JudgesUpTo};

use macho_fields::{Break, Bytes, Rule, Span};
use macho_image::{Image, Symbol, Symtab};
use macho_rules::symbols::is_in_no_section;

// Decides the rules of symbols, in their order.
pub(crate) fn judge_symbols(image: &Image) -> Result<(), Break>
    requires { KeptBefore image.now Rule.SymbolName }
    ensures { JudgesUpTo image.now Rule.SymbolSection result }
{
    symbol_name(image)?;
    symbol_section(image)
}

// The name of each symbol that has one ends in the strings. The rule searches for the end of each
// name, which takes time in proportion to the symbols times the strings.
fn symbol_name(image: &Image) -> Result<(), Break>
    requires { KeptBefore image.now Rule.SymbolName }
    ensures { JudgesUpTo image.now Rule.SymbolName result }
{
    let bytes = image.bytes();
    let Some(symtab) = image.symtab() else {
        return Ok(());
    };
    for symbol in image.symbols() {
        if has_endless_name(bytes, symtab, symbol) {
            return Err(Break::at(Rule::SymbolName, symbol.place));
        }
    }
    Ok(())
}

// Whether the symbol has a name, and no zero byte ends it in the strings of `symtab`.
fn has_endless_name(image: Bytes, symtab: Symtab, symbol: Symbol) -> bool
    requires symtab { symtab ≡ symtab_at (bytes_of image) symtab.place }
    requires symbol { symbol ≡ symbol_at (bytes_of image) symbol.place }
    requires inside { 0 < symtab.strsize
        → symtab.stroff + symtab.strsize ≤ length (bytes_of image) }
    ensures { IsTrue result ↔ HasEndlessName (bytes_of image.entry) symtab.place symbol.place }
{
    let strx = u64::from(symbol.strx);
    if strx == 0 {
        return false;
    }
    if strx >= symtab.strsize {
        return true;
    }
    let rest = Span {
        start: symtab.stroff + strx,
        len: symtab.strsize - strx,
    };
    image.first_zero(rest).is_none()
}

// Each symbol that is defined in a section has the number of an existing section.
fn symbol_section(image: &Image) -> Result<(), Break>
    requires { KeptBefore image.now Rule.SymbolSection }
    ensures { JudgesUpTo image.now Rule.SymbolSection result }
{
    let count = image.section_count();
    for symbol in image.symbols() {
        if is_in_no_section(symbol, count) {
            return Err(Break::at(Rule::SymbolSection, symbol.place));
        }
    }
    Ok(())
}
