//! The exports of an image, and where they first break each of their rules. (`mach-o/loader.h`:
//! `linkedit_data_command`, `dyld_info_command`)

ghost use Rattle.std.specs.Prelude.{◌≡◌, ◌↔◌, ◌+◌, ◌^◌, ◌≤◌, ◌<◌, List, ℕ, length, None, IfSome, IfOk, OnErr, IsTrue};
ghost use Rattle.macho_fields.specs.Bytes.{bytes_of};
ghost use Rattle.macho_fields.specs.Layers.{NothingBreaks};
ghost use Rattle.macho_fields.specs.Rules.{BreaksImage as Breaks};
ghost use Rattle.macho_fields.specs.Symbol.{table_at};
ghost use Rattle.macho_image.specs.Opened.{IsOpened};
ghost use Rattle.macho_spans.specs.Span.{end_of};
ghost use Rattle.macho_exports.specs.ExportWalk.{have_meaning as have_meaning_of, whole_export};
ghost use Rattle.macho_exports.specs.Exports.{export_table as export_table_of, exports_data as exports_data_of, info_exports as info_exports_of, some_bytes as some_bytes_of, is_absolute as is_absolute_of, IsNotedLeast, IsOfNoLibrary, AreLeastInTrie};
ghost use Rattle.macho_tables.specs.Homes.{bytes_of_table};
ghost use Rattle.macho_tables.specs.Places.{bounded_at as bounded_at_of};

use crate::export_trie::{Export, Target};
use crate::export_walk::Waiting;
use macho_fields::header::loader::dyld_info_command::EXPORT_OFF;
use macho_fields::header::loader::linkedit_data_command::DATAOFF;
use macho_fields::header::loader::{
    EXPORT_SYMBOL_FLAGS_KIND_ABSOLUTE, EXPORT_SYMBOL_FLAGS_KIND_MASK, EXPORT_SYMBOL_FLAGS_REEXPORT,
    EXPORT_SYMBOL_FLAGS_STUB_AND_RESOLVER, LC_DYLD_EXPORTS_TRIE,
};
use macho_fields::{Bytes, Span};
use macho_image::Image;
use macho_tables::homes::span_of;
use macho_tables::limits::library_count;
use macho_tables::mapped_addresses::MappedAddresses;
use macho_tables::place::{bounded_at, dyld_info, first_place, lesser, place_from};
use std::alloc::{AllocError, Global};

/// The greatest flags of an export whose bits all have a meaning.
pub const MOST_FLAGS: u64 = 0x1f;

// The least ordinal that is a special one: -3, in 64 bits.
const LEAST_SPECIAL_ORDINAL: u64 = u64::MAX - 2;

/// Where the export trie of an image first breaks each of its rules: the least place of a node that is met in a
/// walk from the root.
#[derive(Clone, Copy)]
pub struct ExportSurvey {
    /// The node that does not end in the table, or the end of the table if the node would be past that.
    pub node: Option<u64>,
    /// The node with which those that were met have more bytes than the table.
    pub total: Option<u64>,
    /// The first one whose terminal part is not an export, or not read exactly to its end.
    pub terminal: Option<u64>,
    /// The first one of a symbol that is from no library.
    pub library: Option<u64>,
    /// The first one of an address that no segment has.
    pub address: Option<u64>,
}

impl ExportSurvey {
    ghost use Rattle.std.specs.Prelude.{◌≡◌, None, IfOk, OnErr};
    ghost use Rattle.macho_fields.specs.Layers.{NothingBreaks};
    ghost use Rattle.macho_fields.specs.Rules.{BreaksImage as Breaks};
    ghost use Rattle.macho_exports.specs.Exports.{unbroken_exports, moved_exports, AreLeastInImage, ExportsFitAt, HasExports, IsNotedLeast};

    /// Walks over the trie of an image that breaks no rule of the layout. The places are those in the image. It
    /// takes memory only if the image has a trie.
    pub fn of(alloc: Global, image: &Image) -> Result<ExportSurvey, AllocError>
        requires { NothingBreaks (Breaks image.now None) }
        ensures least { IfOk result (AreLeastInImage image.now) }
        ensures memory { OnErr result (HasExports image.now) }
    {
        let Some(table) = export_table(image) else {
            return Ok(ExportSurvey::unbroken());
        };
        let found = survey(alloc, image, image.bytes().slice(table))?;
        Ok(found.moved(table.start))
    }

    // No rule is broken.
    fn unbroken() -> ExportSurvey
        ensures { result ≡ unbroken_exports }
    {
        ExportSurvey {
            node: None,
            total: None,
            terminal: None,
            library: None,
            address: None,
        }
    }

    // Notes which rules the terminal part of the node at `place` breaks.
    fn note(&mut self, breaks: NodeBreaks, place: u64)
        ensures node { self.new.node ≡ self.old.node }
        ensures total { self.new.total ≡ self.old.total }
        ensures terminal { IsNotedLeast breaks.terminal place self.old.terminal self.new.terminal }
        ensures library { IsNotedLeast breaks.library place self.old.library self.new.library }
        ensures address { IsNotedLeast breaks.address place self.old.address self.new.address }
    {
        self.terminal = least_with(self.terminal, breaks.terminal, place);
        self.library = least_with(self.library, breaks.library, place);
        self.address = least_with(self.address, breaks.address, place);
    }

    // The same with places that are counted from another start.
    fn moved(self, start: u64) -> ExportSurvey
        requires { ExportsFitAt start self }
        ensures { result ≡ moved_exports start self }
    {
        ExportSurvey {
            node: place_from(start, self.node),
            total: place_from(start, self.total),
            terminal: place_from(start, self.terminal),
            library: place_from(start, self.library),
            address: place_from(start, self.address),
        }
    }
}

/// The lesser of the least place of a rule and this one, if the rule is broken here.
pub fn least_with(least: Option<u64>, is_broken: bool, place: u64) -> Option<u64>
    ensures { IsNotedLeast is_broken place least result }
{
    if is_broken {
        lesser(least, Some(place))
    } else {
        least
    }
}

/// Where the export trie is in an image: the data of `LC_DYLD_EXPORTS_TRIE`, and if that has no bytes, the exports of
/// `LC_DYLD_INFO` or `LC_DYLD_INFO_ONLY`. It is `None` if these have none either. In an image that breaks a rule of
/// the layout it can end past the image.
pub fn export_table(image: &Image) -> Option<Span>
    requires { IsOpened image.now }
    ensures table { result ≡ export_table_of image.now }
    ensures inside { NothingBreaks (Breaks image.now None) → IfSome result (λ table. end_of table ≤ length image.now) }
    ensures some { IfSome result (λ table. 0 < table.len) }
{
    match exports_data(image) {
        Some(table) => Some(table),
        None => info_exports(image),
    }
}

// The data of `LC_DYLD_EXPORTS_TRIE`, if it has bytes.
fn exports_data(image: &Image) -> Option<Span>
    requires { IsOpened image.now }
    ensures table { result ≡ exports_data_of image.now }
    ensures inside { NothingBreaks (Breaks image.now None) → IfSome result (λ table. end_of table ≤ length image.now) }
    ensures some { IfSome result (λ table. 0 < table.len) }
{
    let command = first_place(image, LC_DYLD_EXPORTS_TRIE)?;
    table_by(image, command, DATAOFF)
}

// The exports of `LC_DYLD_INFO` or `LC_DYLD_INFO_ONLY`, if they have bytes.
fn info_exports(image: &Image) -> Option<Span>
    requires { IsOpened image.now }
    ensures table { result ≡ info_exports_of image.now }
    ensures inside { NothingBreaks (Breaks image.now None) → IfSome result (λ table. end_of table ≤ length image.now) }
    ensures some { IfSome result (λ table. 0 < table.len) }
{
    let command = dyld_info(image)?;
    table_by(image, command, EXPORT_OFF)
}

// The table of the command that the fields at an offset of it bound, if it has bytes.
fn table_by(image: &Image, command: u64, offset: u64) -> Option<Span>
    requires near { offset < 2 ^ 32 }
    requires start { command + offset + 4 ≤ length image.now }
    requires size { command + (offset + 4) + 4 ≤ length image.now }
    ensures { result ≡ some_bytes_of (bytes_of_table (table_at image.now command (bounded_at_of offset))) }
{
    some_bytes(span_of(image, command, bounded_at(offset)))
}

// The table, if it has bytes.
fn some_bytes(table: Span) -> Option<Span>
    ensures { result ≡ some_bytes_of table }
{
    if table.len == 0 { None } else { Some(table) }
}

// Walks over the bytes of the trie. The places are offsets in it.
fn survey(alloc: Global, image: &Image, trie: Bytes) -> Result<ExportSurvey, AllocError>
    requires { NothingBreaks (Breaks image.now None) }
    ensures { IfOk result (AreLeastInTrie image.now (bytes_of trie.entry)) }
{
    let mut destinations = Destinations::of(alloc, image)?;
    let mut waiting = Waiting::of_root(alloc)?;
    let mut found = ExportSurvey::unbroken();
    let mut left = trie.len();
    while let Some(place) = waiting.next() {
        let Some(node) = waiting.meet(trie, place)? else {
            found.node = Some(place.min(trie.len()));
            return Ok(found);
        };
        let Some(rest) = left.checked_sub(node.end - place) else {
            found.total = Some(place);
            return Ok(found);
        };
        left = rest;
        found.note(destinations.breaks_of(trie, node.terminal), place);
    }
    Ok(found)
}

// Which rules the terminal part of a node breaks.
#[derive(Clone, Copy)]
struct NodeBreaks {
    // It is not an export, or not read exactly to its end.
    terminal: bool,
    // The symbol is from no library.
    library: bool,
    // No segment has the address.
    address: bool,
}

// What the exports of an image may lead to.
#[derive(Drop)]
struct Destinations {
    // How many libraries there are.
    libraries: u64,
    // The base of the image, if it has one.
    base: Option<u64>,
    // To which addresses a segment is mapped.
    addresses: MappedAddresses,
}

impl Destinations {
    ghost use Rattle.std.specs.Prelude.{◌≡◌, ◌↔◌, ◌≤◌, ◌+◌, ℕ, List, length, None, IfOk, IsTrue, IsSomeAnd};
    ghost use Rattle.macho_fields.specs.Bytes.{bytes_of};
    ghost use Rattle.macho_fields.specs.Image.{commands_of};
    ghost use Rattle.macho_fields.specs.Layers.{NothingBreaks};
    ghost use Rattle.macho_fields.specs.Rules.{BreaksImage as Breaks};
    ghost use Rattle.macho_fields.specs.Segment.{base_of};
    ghost use Rattle.macho_spans.specs.Span.{end_of};
    ghost use Rattle.macho_exports.specs.Exports.{AreDestinations, AreNodeBreaks, HasNoLibrary, HasNoAddress, LeadsNowhere, ResolvesNowhere};
    ghost use Rattle.macho_tables.specs.MappedAddresses.{IsMapped};

    // Those of an image that breaks no rule of the layout.
    fn of(alloc: Global, image: &Image) -> Result<Destinations, AllocError>
        requires { NothingBreaks (Breaks image.now None) }
        ensures { IfOk result (AreDestinations image.now) }
    {
        let addresses = MappedAddresses::of(alloc, image)?;
        Ok(Destinations {
            libraries: library_count(image),
            base: image.base(),
            addresses,
        })
    }

    // Which rules the terminal part breaks, if there is one.
    fn breaks_of(&mut self, trie: Bytes, terminal: Span) -> NodeBreaks
        requires { end_of terminal ≤ length (bytes_of trie) }
        ensures breaks { (image : List ℕ) → AreDestinations image self.old
            → AreNodeBreaks image (bytes_of trie.entry) terminal result }
        ensures same { (image : List ℕ) → AreDestinations image self.old → AreDestinations image self.new }
    {
        let mut breaks = NodeBreaks {
            terminal: false,
            library: false,
            address: false,
        };
        if terminal.len == 0 {
            return breaks;
        }
        let Some(export) = read_whole(trie, terminal) else {
            breaks.terminal = true;
            return breaks;
        };
        breaks.library = is_of_no_library(export.target, self.libraries);
        breaks.address = self.has_no_address(export);
        breaks
    }

    // Whether the symbol is not absolute, and no segment has its address or its resolver's.
    fn has_no_address(&mut self, export: Export) -> bool
        ensures nowhere { (image : List ℕ) → AreDestinations image self.old
            → IsTrue result ↔ HasNoAddress image export }
        ensures same { (image : List ℕ) → AreDestinations image self.old → AreDestinations image self.new }
    {
        let Some(base) = self.base else {
            return false;
        };
        if is_absolute(export.flags) {
            return false;
        }
        self.leads_nowhere(base, export.target)
    }

    // Whether no segment has the address or the resolver's, which count from the base.
    fn leads_nowhere(&mut self, base: u64, target: Target) -> bool
        ensures nowhere { (image : List ℕ) → AreDestinations image self.old
            → IsTrue result ↔ LeadsNowhere image base target }
        ensures same { (image : List ℕ) → AreDestinations image self.old → AreDestinations image self.new }
    {
        match target {
            Target::Address { address, resolver } => {
                self.is_unmapped(base, address) || self.resolves_nowhere(base, resolver)
            }
            Target::Reexport { .. } => false,
        }
    }

    // Whether there is a resolver, and no segment has its address, which counts from the base.
    fn resolves_nowhere(&mut self, base: u64, resolver: Option<u64>) -> bool
        ensures nowhere { (image : List ℕ) → AreDestinations image self.old
            → IsTrue result ↔ ResolvesNowhere image base resolver }
        ensures same { (image : List ℕ) → AreDestinations image self.old → AreDestinations image self.new }
    {
        match resolver {
            Some(resolver) => self.is_unmapped(base, resolver),
            None => false,
        }
    }

    // Whether no segment has the address that is so far from the base.
    fn is_unmapped(&mut self, base: u64, offset: u64) -> bool
        ensures unmapped { (image : List ℕ) → AreDestinations image self.old
            → IsTrue result ↔ (¬ IsMapped image (base + offset)) }
        ensures same { (image : List ℕ) → AreDestinations image self.old → AreDestinations image self.new }
    {
        match base.checked_add(offset) {
            Some(address) => !self.addresses.has(address),
            None => true,
        }
    }
}

// Whether the symbol is from another library, by an ordinal above their number that is not special.
fn is_of_no_library(target: Target, libraries: u64) -> bool
    ensures { IsTrue result ↔ IsOfNoLibrary libraries target }
{
    match target {
        Target::Reexport { ordinal, .. } => ordinal > libraries && ordinal < LEAST_SPECIAL_ORDINAL,
        Target::Address { .. } => false,
    }
}

// Whether a symbol with these flags is absolute.
fn is_absolute(flags: u64) -> bool
    ensures { result ≡ is_absolute_of flags }
{
    flags & EXPORT_SYMBOL_FLAGS_KIND_MASK == EXPORT_SYMBOL_FLAGS_KIND_ABSOLUTE
}

// The export in the terminal part. It is `None` if it does not end where the part ends, or its flags have no
// meaning.
#[tactic(auto, unfolding(crate::specs::ExportWalk::whole_export))]
fn read_whole(trie: Bytes, terminal: Span) -> Option<Export>
    requires { end_of terminal ≤ length (bytes_of trie) }
    ensures { result ≡ whole_export (bytes_of trie.entry) terminal }
{
    let (export, end) = Export::read(trie, terminal)?;
    if end == terminal.start + terminal.len && have_meaning(export.flags) {
        Some(export)
    } else {
        None
    }
}

// Whether the flags have a meaning: no other bits than these, a kind that is known, and no resolver of what
// another library has.
#[tactic(auto, unfolding(crate::specs::ExportWalk::have_meaning))]
fn have_meaning(flags: u64) -> bool
    ensures { result ≡ have_meaning_of flags }
{
    flags <= MOST_FLAGS
        && flags & EXPORT_SYMBOL_FLAGS_KIND_MASK != 3
        && (flags & EXPORT_SYMBOL_FLAGS_REEXPORT == 0
            || flags & EXPORT_SYMBOL_FLAGS_STUB_AND_RESOLVER == 0)
}
