//! The rule of the libraries that undefined symbols are from. (`mach-o/nlist.h`: `nlist_64`; `mach-o/loader.h`:
//! `BIND_OPCODE_..`, `LC_DYLD_CHAINED_FIXUPS`)

ghost use Rattle.std.specs.Prelude.{◌≡◌, ◌+◌, ◌≤◌, ◌<◌, ◌^◌, ◌↔◌, ℕ, List, length, IsTrue, IsSome, None, Some, IfOk, OnErr, IfSome, IsSomeAnd, MatchOption, Contains};
ghost use Rattle.macho_fields.specs.Bytes.{bytes_of};
ghost use Rattle.macho_fields.specs.Field.{string_from};
ghost use Rattle.macho_fields.specs.FirstPlace.{IsLeastPlace};
ghost use Rattle.macho_fields.specs.Layers.{NothingBreaks};
ghost use Rattle.macho_fields.specs.Rules.{BreaksImage as Breaks};
ghost use Rattle.macho_fields.specs.Symbol.{stroff as stroff_of};
ghost use Rattle.macho_spans.specs.Span.{end_of};
ghost use Rattle.macho_tables.specs.Places.{dyld_info as dyld_info_of};
ghost use Rattle.macho_chains.specs.ChainImports.{ImportsEndPast};
ghost use Rattle.macho_alike.specs.Binds.{StreamBinds, BindsOf};
ghost use Rattle.macho_alike.specs.Imports.{ImportsName, library_of as library_of_symbol, library_by as library_by_ordinal, IsFrom, IsOpcodeLookUp, TableLooksUp, IsChainLookUp, IsLookUp, HasLookUp, IsFromOther, NoneIsFromOther, BreaksImportLibrary};
ghost use Rattle.macho_alike.specs.Claims.{ordinal_of as ordinal_of_library, AreAmong, NoneIsUnclaimed};
ghost use Rattle.macho_alike.specs.Definitions.{name_of};
ghost use Rattle.macho_alike.specs.LookUps.{WereNoted, HasAny, IsLookedUpIn, SomeLooksUp, IsNextNoted, BindsNothing, IsLookUpOf, IsNear};
ghost use Rattle.macho_alike.specs.NotedLibraries.{by_name, IsWith, AreNoted, HasOther};
ghost use Rattle.macho_alike.specs.declared.binds.Library.{Library};
ghost use Rattle.macho_symbols.specs.Header.{IsTwoLevel};

use crate::binds::{Aim, Library};
use crate::claims::{Claim, agree};
use crate::notes::Notes;
use crate::symbols::is_undefined_kind;
use macho_chains::chain_header::ChainHeader;
use macho_chains::chain_imports::Ordinal;
use macho_chains::chains::ChainedFixups;
use macho_fields::header::nlist::{DYNAMIC_LOOKUP_ORDINAL, EXECUTABLE_ORDINAL};
use macho_fields::{Bytes, Span};
use macho_image::{Image, Symbol};
use macho_opcodes::cursor::Cursor;
use macho_opcodes::step::{Step, step_at};
use macho_opcodes::streams::Stream;
use macho_symbols::header::is_two_level;
use macho_symbols::nlist::library_ordinal;
use macho_tables::homes::span_of;
use macho_tables::place::dyld_info;
use std::alloc::{AllocError, Global};
use std::collections::BTreeMap;

// How far below 0 the special ordinals are: `BIND_SPECIAL_DYLIB_MAIN_EXECUTABLE`, `BIND_SPECIAL_DYLIB_FLAT_LOOKUP` and
// `BIND_SPECIAL_DYLIB_WEAK_LOOKUP`.
const MAIN_EXECUTABLE: u8 = 1;

const FLAT_LOOKUP: u8 = 2;

const WEAK_LOOKUP: u8 = 3;

// The libraries in which a name is looked up.
#[derive(Clone, Copy)]
struct Libraries {
    // The first of them.
    first: Library,
    // Whether there is another one.
    has_other: bool,
}

// The libraries that are known, by the names.
type Known<'a> = BTreeMap<&'a [u8], Libraries>;

// A look-up by an opcode.
#[derive(Clone, Copy, PartialEq, Eq)]
struct LookUp {
    // The bytes of the name in the image, without the zero byte that ends it.
    name: Span,
    // The library, unless it is weak.
    library: Option<Library>,
}

/// The place of the first undefined symbol with a name whose `n_desc` says another library than one in which fixups
/// look this name up. An image without `MH_TWOLEVEL` has none, since its symbols say no library. The image breaks no
/// rule of the layout.
///
/// The hashes of the names are compared first, of look-ups and of undefined symbols. A look-up that is the same as the one
/// before it is noted once. For n look-ups and symbols it takes the time to read their names and to sort n hashes, besides
/// the streams and the symbols, and 16 bytes of memory for each. Two libraries for one hash mostly break the rule. Then
/// the look-ups are noted in an ordered map by their names. For names of b bytes this takes time in the order of b log n,
/// and some 100 bytes of memory for each name that is looked up. The rules `bind-names` and `chain-total` keep the names
/// of look-ups below the bytes of the linked data.
pub fn import_library(alloc: Global, image: &Image) -> Result<Option<u64>, AllocError>
    requires { NothingBreaks (Breaks image.now None) }
    ensures least { IfOk result (IsLeastPlace (BreaksImportLibrary image.now)) }
    ensures memory { OnErr result (HasLookUp image.now) }
{
    if !is_two_level(image) {
        return Ok(None);
    }
    let agreed = libraries_agree(alloc, image)?;
    if agreed {
        return Ok(None);
    }
    let mut known = Known::new(alloc);
    note_look_ups(image, &mut known)?;
    Ok(first_from_other(image, &known))
}

// Whether hashes of names show that no symbol is from another library than fixups look its name up in. Names with the same
// bytes have the same hash. It answers no too where two names with one hash are of two libraries.
fn libraries_agree(alloc: Global, image: &Image) -> Result<bool, AllocError>
    requires { NothingBreaks (Breaks image.now None) }
    ensures agree { IfOk result (λ agree. IsTrue agree → NoneIsFromOther image.now) }
    ensures memory { OnErr result (HasLookUp image.now) }
{
    let mut claims = Vec::new(alloc);
    note_look_ups(image, &mut claims)?;
    if claims.is_empty() {
        return Ok(true);
    }
    claim_symbols(image, &mut claims)?;
    claims.sort_unstable_by_key(|claim| claim.hash);
    Ok(agree(&claims))
}

// Adds what the undefined symbols with names say.
fn claim_symbols(image: &Image, claims: &mut Vec<Claim>) -> Result<(), AllocError>
    requires { NothingBreaks (Breaks image.now None) }
    ensures kept { IfOk result (λ _. AreAmong claims.old.items claims.new.items) }
    ensures claimed { IfOk result (λ _. NoneIsUnclaimed image.now claims.new.items) }
{
    let Some(symtab) = image.symtab() else {
        return Ok(());
    };
    let mut next = 0;
    for symbol in image.symbols() {
        if let Some(name) = imported_name(image.bytes(), symtab.stroff, symbol) {
            let claim = Claim::new(name, Some(library_ordinal(symbol)));
            next = claim_next(claims, next, claim)?;
        }
    }
    Ok(())
}

// Adds the claim, unless it is the next one, since symbols and look-ups may have the same order. Returns the index of the
// claim that is next then.
fn claim_next(claims: &mut Vec<Claim>, next: usize, claim: Claim) -> Result<usize, AllocError>
    ensures kept { IfOk result (λ _. AreAmong claims.old.items claims.new.items) }
    ensures claimed { IfOk result (λ _. Contains claims.new.items claim) }
{
    if next < claims.len() && claims[next].is_same(claim) {
        return Ok(next + 1);
    }
    claims.push(claim)?;
    Ok(next)
}

// The place of the first symbol whose name is known to be looked up in another library than the symbol says.
fn first_from_other(image: &Image, known: &Known) -> Option<u64>
    requires unbroken { NothingBreaks (Breaks image.now None) }
    requires two_level { IsTwoLevel image.now }
    requires noted { AreNoted (IsLookUp image.now) (by_name known.now) }
    ensures { IsLeastPlace (BreaksImportLibrary image.now) result }
{
    let symtab = image.symtab()?;
    for symbol in image.symbols() {
        if is_from_other(image.bytes(), symtab.stroff, known, symbol) {
            return Some(symbol.place);
        }
    }
    None
}

// Whether the symbol is undefined, and its name is known to be looked up in another library.
fn is_from_other(image: Bytes, stroff: u64, known: &Known, symbol: Symbol) -> bool
    requires { length (bytes_of image) < 2 ^ 64 }
    ensures { (symtab : ℕ) → stroff ≡ stroff_of (bytes_of image.entry) symtab
        → AreNoted (IsLookUp (bytes_of image.entry)) (by_name known.now)
        → IsTrue result ↔ IsFromOther (bytes_of image.entry) symtab symbol }
{
    match imported_name(image, stroff, symbol) {
        Some(name) => has_other(known, name, library_of(symbol)),
        None => false,
    }
}

// The name of the symbol, if it is external and undefined, and has one.
fn imported_name<'a>(image: Bytes<'a>, stroff: u64, symbol: Symbol) -> Option<&'a [u8]>
    requires { length (bytes_of image) < 2 ^ 64 }
    ensures named { IsSome result ↔ ImportsName symbol }
    ensures name { (symtab : ℕ) → stroff ≡ stroff_of (bytes_of image.entry) symtab
        → IfSome result (λ name. name.now ≡ name_of (bytes_of image.entry) symtab symbol) }
{
    if !imports_name(symbol) {
        return None;
    }
    Some(string_at(image, stroff.saturating_add(u64::from(symbol.strx))))
}

// Whether the symbol is external and undefined, and has a name.
fn imports_name(symbol: Symbol) -> bool
    ensures { IsTrue result ↔ ImportsName symbol }
{
    is_undefined_kind(symbol.kind) && symbol.strx != 0
}

// The library that an undefined symbol is from.
fn library_of(symbol: Symbol) -> Library
    ensures { result ≡ library_of_symbol symbol }
{
    match library_ordinal(symbol) {
        EXECUTABLE_ORDINAL => Library::Special(MAIN_EXECUTABLE),
        DYNAMIC_LOOKUP_ORDINAL => Library::Special(FLAT_LOOKUP),
        number => Library::Ordinal(u64::from(number)),
    }
}

// What `n_desc` says of a symbol from the library, if it can say that.
pub(crate) fn ordinal_of(library: Library) -> Option<u16>
    ensures { result ≡ ordinal_of_library library }
{
    match library {
        Library::Special(MAIN_EXECUTABLE) => Some(EXECUTABLE_ORDINAL),
        Library::Special(FLAT_LOOKUP) => Some(DYNAMIC_LOOKUP_ORDINAL),
        Library::Ordinal(number) if number < u64::from(DYNAMIC_LOOKUP_ORDINAL) => {
            Some(number as u16)
        }
        _ => None,
    }
}

// Whether it is known that the name is looked up in another library than this one.
fn has_other(known: &Known, name: &[u8], library: Library) -> bool
    ensures { IsTrue result ↔ HasOther (by_name known.now) name.now library }
{
    match known.get(name) {
        Some(libraries) => libraries.has_other || libraries.first != library,
        None => false,
    }
}

// The string that begins at a place, up to the first zero byte, or to the end if no byte is zero.
fn string_at<'a>(bytes: Bytes<'a>, place: u64) -> &'a [u8]
    ensures { result.now ≡ string_from place (bytes_of bytes.entry) }
{
    let start = place.min(bytes.len());
    let rest = Span {
        start,
        len: bytes.len() - start,
    };
    match bytes.string_in(rest) {
        Some(string) => string,
        None => bytes.read_part(rest),
    }
}

// Notes the look-ups of an image.
fn note_look_ups<'a, N: Notes<'a>>(image: &Image<'a>, notes: &mut N) -> Result<(), AllocError>
    requires { NothingBreaks (Breaks image.now None) }
    ensures noted { IfOk result (λ _. WereNoted N.are_of (IsLookUp image.now) notes.old notes.new) }
    ensures memory { OnErr result (HasLookUp image.now) }
{
    note_opcodes(image, notes)?;
    note_chains(image, notes)
}

// Notes the look-ups by opcodes. Those of the weak stream name no library.
fn note_opcodes<'a, N: Notes<'a>>(image: &Image<'a>, notes: &mut N) -> Result<(), AllocError>
    requires { NothingBreaks (Breaks image.now None) }
    ensures noted { IfOk result (λ _. WereNoted N.are_of (IsOpcodeLookUp image.now) notes.old notes.new) }
    ensures memory { OnErr result (HasLookUp image.now) }
{
    let Some(command) = dyld_info(image) else {
        return Ok(());
    };
    note_stream(image, command, Stream::Bind, notes)?;
    note_stream(image, command, Stream::LazyBind, notes)
}

// Notes the look-ups of one stream of the command at `command`.
fn note_stream<'a, N: Notes<'a>>(
    image: &Image<'a>,
    command: u64,
    stream: Stream,
    notes: &mut N,
) -> Result<(), AllocError>
    requires unbroken { NothingBreaks (Breaks image.now None) }
    requires info { dyld_info_of image.now ≡ Some command }
    ensures noted { IfOk result (λ _.
        WereNoted N.are_of (SomeLooksUp image.now (BindsOf stream image.now command)) notes.old notes.new) }
    ensures memory { OnErr result (HasAny (SomeLooksUp image.now (BindsOf stream image.now command))) }
{
    let table = span_of(image, command, stream.fields());
    if table.len == 0 {
        return Ok(());
    }
    let bytes = image.bytes();
    note_steps(bytes, stream, table.start, bytes.slice(table), notes)
}

// Notes the look-ups of a stream that begins at `start`.
fn note_steps<'a, N: Notes<'a>>(
    image: Bytes<'a>,
    one: Stream,
    start: u64,
    stream: Bytes<'a>,
    notes: &mut N,
) -> Result<(), AllocError>
    requires inside { start + length (bytes_of stream) ≤ length (bytes_of image) }
    requires near { start + length (bytes_of stream) < 2 ^ 64 }
    ensures noted { IfOk result (λ _. WereNoted N.are_of
        (SomeLooksUp (bytes_of image.entry) (StreamBinds one start (bytes_of stream.entry))) notes.old notes.new) }
    ensures memory { OnErr result
        (HasAny (SomeLooksUp (bytes_of image.entry) (StreamBinds one start (bytes_of stream.entry)))) }
{
    let mut cursor = Cursor::new();
    let mut aim = Aim::new();
    let mut last = None;
    let mut place = 0;
    while place < stream.len() {
        let Some((step, next)) = step_at(one.opcodes(), stream, place) else {
            return Ok(());
        };
        let look_up = look_up_of(one, start, cursor, aim, step);
        last = note_next(image, notes, last, look_up)?;
        cursor.follow(step);
        aim.follow(step);
        place = next;
    }
    Ok(())
}

// What a step looks up, if it binds a pointer.
fn look_up_of(stream: Stream, start: u64, cursor: Cursor, aim: Aim, step: Step) -> Option<LookUp>
    requires { IfSome cursor.name (λ name. start + end_of name < 2 ^ 64) }
    ensures { MatchOption result (BindsNothing cursor step) (IsLookUpOf stream start cursor aim step) }
{
    if step.writes() == 0 {
        return None;
    }
    let _segment = cursor.segment?;
    let name = cursor.name?;
    Some(LookUp {
        name: Span {
            start: start + name.start,
            len: name.len.saturating_sub(1),
        },
        library: aim.looked_in(stream),
    })
}

// Notes the next look-up, unless it is the last one. It gives what is the last then.
fn note_next<'a, N: Notes<'a>>(
    image: Bytes<'a>,
    notes: &mut N,
    last: Option<LookUp>,
    next: Option<LookUp>,
) -> Result<Option<LookUp>, AllocError>
    requires { IfSome next (λ look_up. end_of look_up.name ≤ length (bytes_of image)) }
    ensures noted { IfOk result (IsNextNoted N.are_of (bytes_of image.entry) notes.old notes.new last next) }
    ensures memory { OnErr result (IsSomeAnd next (λ look_up. (from : Library) × IsFrom look_up.library from)) }
{
    let Some(look_up) = next else {
        return Ok(last);
    };
    if next == last {
        return Ok(last);
    }
    let name = image.read_part(look_up.name);
    note_look_up(notes, name, look_up.library)?;
    Ok(next)
}

// Notes the look-ups by imports.
fn note_chains<'a, N: Notes<'a>>(image: &Image<'a>, notes: &mut N) -> Result<(), AllocError>
    requires { NothingBreaks (Breaks image.now None) }
    ensures noted { IfOk result (λ _. WereNoted N.are_of (IsChainLookUp image.now) notes.old notes.new) }
    ensures memory { OnErr result (HasLookUp image.now) }
{
    let Some(table) = ChainedFixups::of(image).table else {
        return Ok(());
    };
    let Some(header) = table.header else {
        return Ok(());
    };
    if header.imports_end_past(table.bytes) {
        return Ok(());
    }
    note_imports(table.bytes, header, notes)
}

// Notes the look-ups by the imports of a table, which lie in it.
fn note_imports<'a, N: Notes<'a>>(
    chains: Bytes<'a>,
    header: ChainHeader,
    notes: &mut N,
) -> Result<(), AllocError>
    requires { ¬ ImportsEndPast (bytes_of chains) header }
    ensures noted { IfOk result (λ _.
        WereNoted N.are_of (TableLooksUp (bytes_of chains.entry) header) notes.old notes.new) }
    ensures memory { OnErr result (HasAny (TableLooksUp (bytes_of chains.entry) header)) }
{
    for index in 0..header.imports_count {
        let import = header.import(chains, index);
        let name = string_at(chains, header.name_start(chains, index));
        note_look_up(notes, name, Some(library_by(import.ordinal)))?;
    }
    Ok(())
}

// The library of an import.
fn library_by(ordinal: Ordinal) -> Library
    requires { IsNear ordinal }
    ensures { result ≡ library_by_ordinal ordinal }
{
    match ordinal {
        Ordinal::Library(number) => Library::Ordinal(number),
        Ordinal::Special(below) => Library::Special(below as u8),
    }
}

// Notes that a name is looked up in a library, unless it is looked up by weakness.
fn note_look_up<'a, N: Notes<'a>>(
    notes: &mut N,
    name: &'a [u8],
    library: Option<Library>,
) -> Result<(), AllocError>
    ensures noted { IfOk result (λ _.
        WereNoted N.are_of (IsLookedUpIn name.now library) notes.old notes.new) }
    ensures memory { OnErr result ((from : Library) × IsFrom library from) }
{
    match library {
        Some(library) if library != Library::Special(WEAK_LOOKUP) => notes.note(name, library),
        _ => Ok(()),
    }
}

impl<'a> Notes<'a> for Known<'a> {
    ghost use Rattle.macho_alike.specs.NotedLibraries.{AreKnown};

    ghost are_of = { AreKnown };

    fn note(&mut self, name: &'a [u8], library: Library) -> Result<(), AllocError> {
        let libraries = with_library(self.get(name).copied(), library);
        self.insert(name, libraries)?;
        Ok(())
    }
}

// What is known of a name, with one library more.
fn with_library(known: Option<Libraries>, library: Library) -> Libraries
    ensures { IsWith known library result }
{
    match known {
        Some(known) => Libraries {
            first: known.first,
            has_other: known.has_other || library != known.first,
        },
        None => Libraries {
            first: library,
            has_other: false,
        },
    }
}
