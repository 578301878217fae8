//! The rule of the names of indirect entries. (`mach-o/loader.h`: `section_64`, `dysymtab_command`)

ghost use Rattle.std.specs.Prelude.{◌≡◌, ◌↔◌, ◌+◌, ◌*◌, ◌^◌, ◌≤◌, ◌<◌, ℕ, length, map, None, Some, IsTrue, IsSome, IfOk, IfSome, OnErr, Any, Contains};
ghost use Rattle.std.specs.List.Sorted.{IsNonDecreasingBy};
ghost use Rattle.macho_fields.specs.Bytes.{bytes_of};
ghost use Rattle.macho_fields.specs.FirstPlace.{IsLeastPlace};
ghost use Rattle.macho_fields.specs.Image.{commands_of};
ghost use Rattle.macho_fields.specs.Layers.{NothingBreaks};
ghost use Rattle.macho_fields.specs.Rules.{BreaksImage as Breaks};
ghost use Rattle.macho_image.specs.Segment.{sections_of};
ghost use Rattle.macho_chains.specs.ChainPointers.{BreaksChainSlot};
ghost use Rattle.macho_chains.specs.Chains.{BadStarts, InChains, InPointers};
ghost use Rattle.macho_alike.specs.Bounds.{WereGathered, location, IsBetween, IsSaidAt, IsSaidFor, IsSaidBy, bind_of, span_of, SaysOtherwise, IsOneName, AgreesWith};
ghost use Rattle.macho_alike.specs.Indirects.{HasPointers, IsPointerOf, name_offset, StandsForName, BeginsName, IsNameStart, BreaksIndirectName, HasDysymtab};
ghost use Rattle.macho_alike.specs.declared.bounds.Bound.{Bound};
ghost use Rattle.macho_alike.specs.declared.indirects.Said.{Said};

use crate::binds::{Bind, is_same_name, least_shared};
use crate::bounds::{Bound, bound_pointers};
use crate::symbols::is_external;
use macho_chains::chain_imports::name_size;
use macho_fields::header::loader::{
    S_LAZY_DYLIB_SYMBOL_POINTERS, S_LAZY_SYMBOL_POINTERS, S_NON_LAZY_SYMBOL_POINTERS,
    S_THREAD_LOCAL_VARIABLE_POINTERS,
};
use macho_fields::header::nlist::{N_INDR, N_TYPE};
use macho_fields::{Bytes, Span};
use macho_image::{Image, Section, Symbol};
use macho_tables::limits::POINTER_SIZE;
use std::alloc::{AllocError, Global};

/// The least place of an indirect entry of a bound pointer that is the index of a symbol with another name than the bind,
/// or of a symbol that is not external or has no name. An alias (`N_INDR`) has the name at its `n_value`, if a string
/// begins there. The image breaks no rule of the layout, and its chains neither `chain-starts` nor `chain-slot`.
///
/// Each bound pointer with an entry says a name of the entry, and the symbol of the entry says one. They are compared by
/// their bytes, up to as many bytes as the image has. Past that, they are compared like names of two binds of one slot:
/// those with the same bytes are looked for once. For n bound pointers and b bytes of names, each at one place, it takes
/// time in the order of (n + b) log n. It takes memory if the image has an `LC_DYSYMTAB`: 24 bytes for each bound
/// pointer, besides its bind, and 64 for each with an entry. Names that are looked for take about 200 more for each.
pub fn indirect_name(alloc: Global, image: &Image) -> Result<Option<u64>, AllocError>
    requires unbroken { NothingBreaks (Breaks image.now None) }
    requires starts { (place : ℕ) → ¬ InChains image.now BadStarts place }
    requires slots { (place : ℕ) → ¬ InPointers image.now BreaksChainSlot place }
    ensures least { IfOk result (IsLeastPlace (BreaksIndirectName image.now)) }
    ensures memory { OnErr result (HasDysymtab image.now) }
{
    if image.dysymtab().is_none() {
        return Ok(None);
    }
    let mut bounds = bound_pointers(alloc, image)?;
    bounds.sort_unstable_by_key(|bound| bound.location());
    let mut said = names_of_entries(alloc, image, &bounds)?;
    least_otherwise(alloc, image, &mut said)
}

impl Bound {
    ghost use Rattle.std.specs.Prelude.{◌≡◌};
    ghost use Rattle.macho_alike.specs.Bounds.{location};

    // The number by which bound pointers are sorted: by segment, then by offset.
    fn location(&self) -> u128
        ensures { result ≡ location self.now }
    {
        (u128::from(self.segment) << 64) + u128::from(self.offset)
    }
}

// What is said of an indirect entry: by the bind of a pointer, or by the symbol of the entry.
#[derive(Clone, Copy)]
struct Said {
    // Where the entry begins in the image.
    place: u64,
    // The index of the entry.
    index: u32,
    // Where the name begins in the image. It is `None` if the symbol stands for no name that others see.
    name: Option<u64>,
}

// What is said of the entries of bound pointers, which are sorted by their locations.
fn names_of_entries(alloc: Global, image: &Image, bounds: &[Bound]) -> Result<Vec<Said>, AllocError>
    requires unbroken { NothingBreaks (Breaks image.now None) }
    requires sorted { IsNonDecreasingBy (λ bound. location bound) bounds.now }
    ensures { IfOk result (λ said. (one : Said) → Contains said.items one
        ↔ Any (λ section. IsSaidBy image.now bounds.now section one) (sections_of image.now (commands_of image.now))) }
{
    let mut said = Vec::new(alloc);
    for section in image.sections() {
        add_section(image, &section, bounds, &mut said)?;
    }
    Ok(said)
}

// Adds what is said of the entries of the section.
fn add_section(
    image: &Image,
    section: &Section,
    bounds: &[Bound],
    said: &mut Vec<Said>,
) -> Result<(), AllocError>
    requires unbroken { NothingBreaks (Breaks image.now None) }
    requires image { section.now.image ≡ image.now }
    requires sorted { IsNonDecreasingBy (λ bound. location bound) bounds.now }
    ensures { IfOk result (λ _. WereGathered
        (IsSaidBy image.now bounds.now (section.now.segment, section.now.place)) said.old.items said.new.items) }
{
    if !has_pointers(section) {
        return Ok(());
    }
    let near = bounds_near(section, bounds);
    for bound in near {
        add_bound(image, section, bound, said)?;
    }
    Ok(())
}

// Whether the section is one of pointers to symbols.
fn has_pointers(section: &Section) -> bool
    ensures { IsTrue result ↔ HasPointers section.now.image section.now.place }
{
    matches!(
        section.section_type(),
        S_NON_LAZY_SYMBOL_POINTERS
            | S_LAZY_SYMBOL_POINTERS
            | S_LAZY_DYLIB_SYMBOL_POINTERS
            | S_THREAD_LOCAL_VARIABLE_POINTERS
    )
}

// Those of the bound pointers whose locations may be in the section.
fn bounds_near<'b>(section: &Section, bounds: &'b [Bound]) -> &'b [Bound]
    requires { IsNonDecreasingBy (λ bound. location bound) bounds.now }
    ensures inside { (bound : Bound) → Contains result.now bound → Contains bounds.now bound }
    ensures all { (bound : Bound) (index : ℕ) → Contains bounds.now bound
        → IsPointerOf section.now.image (section.now.segment, section.now.place) bound index → Contains result.now bound }
{
    let segment = section.segment();
    let start = u128::from(segment.place()) << 64;
    let past = section.addr().saturating_sub(segment.vmaddr());
    let low = start + u128::from(past);
    bounds_between(bounds, low, low + u128::from(section.size()))
}

// Those of the bound pointers with a location from `low` on, below `high`.
fn bounds_between(bounds: &[Bound], low: u128, high: u128) -> &[Bound]
    requires sorted { IsNonDecreasingBy (λ bound. location bound) bounds.now }
    requires order { low ≤ high }
    ensures inside { (bound : Bound) → Contains result.now bound → Contains bounds.now bound }
    ensures all { (bound : Bound) → Contains bounds.now bound → IsBetween low high bound → Contains result.now bound }
{
    let first = bounds.partition_point(|bound| bound.location() < low);
    let rest = &bounds[first..];
    let count = rest.partition_point(|bound| bound.location() < high);
    &rest[..count]
}

// Adds what is said of the entry of the bound pointer, if it is one of the section.
fn add_bound(
    image: &Image,
    section: &Section,
    bound: &Bound,
    said: &mut Vec<Said>,
) -> Result<(), AllocError>
    requires unbroken { NothingBreaks (Breaks image.now None) }
    requires image { section.now.image ≡ image.now }
    ensures { IfOk result (λ _. WereGathered
        (IsSaidFor image.now (section.now.segment, section.now.place) bound.now) said.old.items said.new.items) }
{
    match entry_index(section, bound) {
        Some(index) => add_entry(image, index, bound.name, said),
        None => Ok(()),
    }
}

// The index of the entry of the bound pointer, if it is one of the section.
fn entry_index(section: &Section, bound: &Bound) -> Option<u32>
    ensures { (index : ℕ) → IsPointerOf section.now.image (section.now.segment, section.now.place) bound.now index
        ↔ (result ≡ Some index) }
{
    let segment = section.segment();
    if !has_pointers(section) || bound.segment != segment.place() {
        return None;
    }
    let address = u128::from(segment.vmaddr()) + u128::from(bound.offset);
    let item = item_at(u128::from(section.addr()), address)?;
    if item >= u128::from(section.size() / POINTER_SIZE) {
        return None;
    }
    index_of(u128::from(section.reserved1()) + item)
}

// Which item is at an address, where the first is at `start`.
fn item_at(start: u128, address: u128) -> Option<u128>
    requires { address < 2 ^ 65 }
    ensures { (item : ℕ) → (address ≡ start + POINTER_SIZE * item) ↔ (result ≡ Some item) }
{
    if address < start {
        return None;
    }
    let past = address - start;
    if past % u128::from(POINTER_SIZE) != 0 {
        return None;
    }
    Some(past / u128::from(POINTER_SIZE))
}

// The number, if it fits 32 bits.
fn index_of(number: u128) -> Option<u32>
    ensures { (index : ℕ) → ((index < 2 ^ 32) × (index ≡ number)) ↔ (result ≡ Some index) }
{
    if number <= u128::from(u32::MAX) {
        Some(number as u32)
    } else {
        None
    }
}

// Adds what is said of the entry with this index, if it is the index of a symbol: the name to which a bind binds its
// pointer, and the name of the symbol.
fn add_entry(image: &Image, index: u32, name: u64, said: &mut Vec<Said>) -> Result<(), AllocError>
    requires { NothingBreaks (Breaks image.now None) }
    ensures { IfOk result (λ _. WereGathered (IsSaidAt image.now index name) said.old.items said.new.items) }
{
    let Some(entry) = image.indirect(u64::from(index)) else {
        return Ok(());
    };
    if !entry.is_symbol_index() {
        return Ok(());
    }
    let place = entry.place;
    said.push(Said {
        place,
        index,
        name: Some(name),
    })?;
    said.push(Said {
        place,
        index,
        name: name_start(image, entry.value),
    })?;
    Ok(())
}

// Where the name begins that the symbol with this index stands for, if it is external and has a name.
fn name_start(image: &Image, index: u32) -> Option<u64>
    requires { NothingBreaks (Breaks image.now None) }
    ensures { (start : ℕ) → IsNameStart image.now index start ↔ (result ≡ Some start) }
{
    // The name begins in the image.
    prove!(image.bytes().len() <= u64::MAX);
    let symtab = image.symtab()?;
    let symbol = image.symbol(u64::from(index))?;
    if !stands_for_name(symbol, symtab.strsize) {
        return None;
    }
    let start = symtab.stroff + name_offset(symbol);
    if !begins_name(image.bytes(), symbol, start) {
        return None;
    }
    Some(start)
}

// Whether the symbol is external and has a name, and stands for a name in strings of this size.
fn stands_for_name(symbol: Symbol, size: u64) -> bool
    ensures { IsTrue result ↔ StandsForName size symbol }
{
    let offset = name_offset(symbol);
    is_external(symbol.kind) && symbol.strx != 0 && offset != 0 && offset < size
}

// Whether the name that begins there is the symbol's own, or begins where another string ends.
fn begins_name(image: Bytes, symbol: Symbol, start: u64) -> bool
    requires { 0 < start }
    ensures { IsTrue result ↔ BeginsName (bytes_of image.entry) symbol start }
{
    let before = Span {
        start: start - 1,
        len: 1,
    };
    symbol.kind & N_TYPE != N_INDR || image.first_zero(before).is_some()
}

// Where the name begins in the strings that the symbol stands for: its own, or for an alias the other symbol's.
fn name_offset(symbol: Symbol) -> u64
    ensures { result ≡ name_offset symbol }
{
    if symbol.kind & N_TYPE == N_INDR {
        symbol.value
    } else {
        u64::from(symbol.strx)
    }
}

// The least place of an entry that has two names. Mostly a few bytes of the names show that each entry has one name.
// Otherwise each name is taken for a bind of the slot with the index of the entry.
fn least_otherwise(
    alloc: Global,
    image: &Image,
    said: &mut [Said],
) -> Result<Option<u64>, AllocError>
    requires { (one : Said) → Contains said.old one → (one.place ≤ length image.now) × (one.index < 2 ^ 32) }
    ensures { IfOk result (IsLeastPlace (SaysOtherwise image.now said.old)) }
{
    said.sort_unstable_by_key(|one| one.index);
    if agree(image, said) {
        return Ok(None);
    }
    said.sort_unstable_by_key(|one| one.name);
    let mut binds = binds_of(alloc, image, said)?;
    least_shared(alloc, image, &mut binds)
}

// Whether all that is said of each entry is one name, where what is said is sorted by the entries. It gives up where names
// have more bytes than the image, and then answers no.
fn agree(image: &Image, said: &[Said]) -> bool
    requires { IsNonDecreasingBy (λ one. one.index) said.now }
    ensures { IsTrue result → IsLeastPlace (SaysOtherwise image.now said.now) None }
{
    let mut last = None;
    let mut left = image.bytes().len();
    for one in said {
        let Some(bytes) = bytes_agreed(image, last, one) else {
            return false;
        };
        if bytes > left {
            return false;
        }
        left -= bytes;
        last = Some(*one);
    }
    true
}

// How many bytes were compared with the name before it, if that is of another entry or the same name.
fn bytes_agreed(image: &Image, before: Option<Said>, one: &Said) -> Option<u64>
    ensures { IsSome result → IfSome before (λ before. AgreesWith image.now before one.now) }
{
    match before {
        Some(before) if before.index == one.index => bytes_shared(image, before.name, one.name),
        _ => Some(0),
    }
}

// How many bytes of the two names were compared, if they are the same.
fn bytes_shared(image: &Image, one: Option<u64>, other: Option<u64>) -> Option<u64>
    ensures { IsSome result → IsOneName image.now one other }
{
    if one == other {
        return Some(0);
    }
    if one.is_none() || other.is_none() {
        return None;
    }
    let first = span_of(image.bytes(), one);
    let second = span_of(image.bytes(), other);
    if is_same_name(image, first, second) {
        Some(first.len)
    } else {
        None
    }
}

// What is said, as binds. The bytes of a name are looked for once, where those with the same name follow each other.
fn binds_of(alloc: Global, image: &Image, said: &[Said]) -> Result<Vec<Bind>, AllocError>
    ensures { IfOk result (λ binds. binds.items ≡ map (bind_of image.now) said.now) }
{
    let bytes = image.bytes();
    let mut binds = Vec::new(alloc);
    let mut last = None;
    for one in said {
        let name = span_after(bytes, one.name, last);
        binds.push(one.bind(name))?;
        last = Some(Read {
            start: one.name,
            name,
        });
    }
    Ok(binds)
}

// Where a name begins, and its bytes.
#[derive(Clone, Copy)]
struct Read {
    start: Option<u64>,
    name: Span,
}

impl Said {
    ghost use Rattle.std.specs.Prelude.{◌≡◌, ℕ, List};
    ghost use Rattle.macho_alike.specs.Bounds.{bind_of, span_of};

    // The same as a bind to a name with these bytes.
    fn bind(&self, name: Span) -> Bind
        ensures { (image : List ℕ) → name ≡ span_of image self.now.name → result ≡ bind_of image self.now }
    {
        Bind {
            place: self.place,
            segment: 0,
            offset: u64::from(self.index) * POINTER_SIZE,
            name,
            addend: if self.name.is_some() { 0 } else { 1 },
            library: None,
        }
    }
}

// The bytes of the name that begins there, if they are known of the last one.
fn span_after(image: Bytes, start: Option<u64>, last: Option<Read>) -> Span
    requires { IfSome last (λ last. last.name ≡ span_of (bytes_of image) last.start) }
    ensures { result ≡ span_of (bytes_of image.entry) start }
{
    match last {
        Some(last) if last.start == start => last.name,
        _ => span_of(image, start),
    }
}

// The bytes of the name that begins there. No name, and one past the image, have none.
fn span_of(image: Bytes, start: Option<u64>) -> Span
    ensures { result ≡ span_of (bytes_of image.entry) start }
{
    match start {
        Some(start) if start < image.len() => Span {
            start,
            len: (name_size(image, start) - 1) as u64,
        },
        _ => Span { start: 0, len: 0 },
    }
}
