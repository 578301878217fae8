//! The pointers that fixups bind, by opcodes or by chains. (`mach-o/loader.h`: `dyld_info_command`;
//! `mach-o/fixup-chains.h`)

ghost use Rattle.std.specs.Prelude.{◌≡◌, ◌↔◌, ◌+◌, ◌^◌, ◌≤◌, ◌<◌, ℕ, length, slice_index, None, Some, IfOk, Contains};
ghost use Rattle.macho_fields.specs.Bytes.{bytes_of};
ghost use Rattle.macho_fields.specs.Layers.{NothingBreaks};
ghost use Rattle.macho_fields.specs.Rules.{BreaksImage as Breaks};
ghost use Rattle.macho_fields.specs.Segment.{all_segments, PassesImage};
ghost use Rattle.macho_chains.specs.ChainPointers.{page_start_offset, ComesTo, BreaksPageSlot, BreaksChainSlot};
ghost use Rattle.macho_chains.specs.ChainStarts.{entry_offset, starts_of, BreaksChainStarts};
ghost use Rattle.macho_chains.specs.Chains.{BadStarts, InChains, InPointers};
ghost use Rattle.macho_chains.specs.declared.chain_starts.SegmentStarts.{SegmentStarts};
ghost use Rattle.macho_alike.specs.Bounds.{WereGathered, IsBoundBy, IsSegmentBound, IsRestBound, IsPointerBound, IsTableBound};
ghost use Rattle.macho_alike.specs.Indirects.{IsOpcodeBound, IsPageBound, IsChainBound, IsBound, IsImportName};
ghost use Rattle.macho_alike.specs.declared.binds.Bind.{Bind};

use crate::binds::{Bind, opcode_binds};
use macho_chains::chain_pointers::ChainPointer;
use macho_chains::chain_starts::SegmentStarts;
use macho_chains::chains::{ChainedFixups, Chains};
use macho_fields::Order;
use macho_fields::header::fixup_chains::{
    DYLD_CHAINED_PTR_START_NONE, DYLD_CHAINED_STARTS_IN_SEGMENT_SIZE, PAGE_START_SIZE,
    SEG_INFO_OFFSET_SIZE,
};
use macho_image::{Image, Segment};
use macho_tables::fields::half_at;
use std::alloc::{AllocError, Global};

/// A pointer that fixups bind.
#[derive(Clone, Copy)]
pub struct Bound {
    /// Where the command of its segment begins in the image.
    pub segment: u64,
    /// Its offset in the segment.
    pub offset: u64,
    /// Where the name begins in the image to which it is bound.
    pub name: u64,
}

// The pointers that opcodes or chains bind, in any order. It takes 24 bytes of memory for each, besides the
// binds of opcodes.
pub(crate) fn bound_pointers(alloc: Global, image: &Image) -> Result<Vec<Bound>, AllocError>
    requires unbroken { NothingBreaks (Breaks image.now None) }
    requires starts { (place : ℕ) → ¬ InChains image.now BadStarts place }
    requires slots { (place : ℕ) → ¬ InPointers image.now BreaksChainSlot place }
    ensures { IfOk result (λ bounds. (bound : Bound) → Contains bounds.items bound ↔ IsBound image.now bound) }
{
    let mut bounds = Vec::new(alloc);
    add_opcodes(alloc, image, &mut bounds)?;
    add_chains(image, &mut bounds)?;
    Ok(bounds)
}

// Adds those that opcodes bind.
fn add_opcodes(alloc: Global, image: &Image, bounds: &mut Vec<Bound>) -> Result<(), AllocError>
    requires { NothingBreaks (Breaks image.now None) }
    ensures { IfOk result (λ _. WereGathered (IsOpcodeBound image.now) bounds.old.items bounds.new.items) }
{
    let segments = segment_places(alloc, image)?;
    let binds = opcode_binds(alloc, image)?;
    add_binds(&segments, &binds, bounds)
}

// Adds the pointers of the binds, where the segments are at these places.
fn add_binds(segments: &[u64], binds: &[Bind], bounds: &mut Vec<Bound>) -> Result<(), AllocError>
    ensures { IfOk result (λ _. WereGathered
        (λ bound. (bind : Bind) × Contains binds.now bind × IsBoundBy segments.now bind bound)
        bounds.old.items bounds.new.items) }
{
    for bind in binds {
        add_bind(segments, bind, bounds)?;
    }
    Ok(())
}

// Adds the pointer of the bind, if it is in one of the segments.
fn add_bind(segments: &[u64], bind: &Bind, bounds: &mut Vec<Bound>) -> Result<(), AllocError>
    ensures { IfOk result (λ _. WereGathered (IsBoundBy segments.now bind.now) bounds.old.items bounds.new.items) }
{
    let Some(segment) = segments.get(bind.segment as usize) else {
        return Ok(());
    };
    bounds.push(Bound {
        segment: *segment,
        offset: bind.offset,
        name: bind.name.start,
    })?;
    Ok(())
}

// Where the segments begin, in the order of the commands.
fn segment_places(alloc: Global, image: &Image) -> Result<Vec<u64>, AllocError>
    ensures { IfOk result (λ places. places.items ≡ all_segments image.now) }
{
    let mut places = Vec::new(alloc);
    for segment in image.segments() {
        places.push(segment.place())?;
    }
    Ok(places)
}

// Adds those that chains bind.
fn add_chains(image: &Image, bounds: &mut Vec<Bound>) -> Result<(), AllocError>
    requires unbroken { NothingBreaks (Breaks image.now None) }
    requires starts { (place : ℕ) → ¬ InChains image.now BadStarts place }
    requires slots { (place : ℕ) → ¬ InPointers image.now BreaksChainSlot place }
    ensures { IfOk result (λ _. WereGathered (IsChainBound image.now) bounds.old.items bounds.new.items) }
{
    let fixups = ChainedFixups::of(image);
    let Some(table) = fixups.table else {
        return Ok(());
    };
    let Some(header) = table.header else {
        return Ok(());
    };
    let chains = Chains {
        start: table.start,
        bytes: table.bytes,
        header,
    };
    add_segments(image, chains, bounds)
}

// Adds the pointers of the chains of a table.
fn add_segments(image: &Image, chains: Chains, bounds: &mut Vec<Bound>) -> Result<(), AllocError>
    requires unbroken { NothingBreaks (Breaks image.now None) }
    requires starts { (offset : ℕ) → ¬ BreaksChainStarts image.now (bytes_of chains.bytes) chains.header offset }
    requires slots { (place : ℕ)
        → ¬ BreaksChainSlot image.now chains.start (bytes_of chains.bytes) chains.header place }
    requires near { chains.start + length (bytes_of chains.bytes) < 2 ^ 64 }
    ensures { IfOk result (λ _. WereGathered
        (IsTableBound image.now chains.entry.start (bytes_of chains.entry.bytes) chains.entry.header)
        bounds.old.items bounds.new.items) }
{
    let starts_offset = u64::from(chains.header.starts_offset);
    let Some(count) = chains.bytes.u32_at(Order::Little, starts_offset) else {
        return Ok(());
    };
    let mut index = 0;
    for segment in image.segments() {
        if index == count {
            return Ok(());
        }
        add_segment(image, &segment, chains, index, bounds)?;
        index += 1;
    }
    Ok(())
}

// Adds the pointers of the chains of a segment, which has this index.
fn add_segment(
    image: &Image,
    segment: &Segment,
    chains: Chains,
    index: u32,
    bounds: &mut Vec<Bound>,
) -> Result<(), AllocError>
    requires image { segment.now.image ≡ image.now }
    requires listed { slice_index (all_segments image.now) index ≡ segment.now.place }
    requires file { ¬ PassesImage image.now segment.now.place }
    requires entry { entry_offset chains.header index + SEG_INFO_OFFSET_SIZE ≤ length (bytes_of chains.bytes) }
    requires slots { (starts : SegmentStarts) → starts_of (bytes_of chains.bytes) chains.header index ≡ Some starts
        → (page : ℕ) → page < starts.page_count → (place : ℕ)
        → ¬ BreaksPageSlot image.now chains.start (bytes_of chains.bytes) segment.now.place starts page place }
    requires near { chains.start + length (bytes_of chains.bytes) < 2 ^ 64 }
    ensures { IfOk result (λ _. WereGathered
        (IsSegmentBound image.now chains.entry.start (bytes_of chains.entry.bytes) chains.entry.header index)
        bounds.old.items bounds.new.items) }
{
    let Some(starts) = chains.header.starts_of(chains.bytes, index) else {
        return Ok(());
    };
    for page in 0..starts.page_count {
        add_page(segment, chains, starts, page, bounds)?;
    }
    Ok(())
}

// Adds the pointers of the chain of a page.
fn add_page(
    segment: &Segment,
    chains: Chains,
    starts: SegmentStarts,
    page: u16,
    bounds: &mut Vec<Bound>,
) -> Result<(), AllocError>
    requires file { ¬ PassesImage segment.now.image segment.now.place }
    requires start { page_start_offset starts page + PAGE_START_SIZE ≤ length (bytes_of chains.bytes) }
    requires slots { (place : ℕ)
        → ¬ BreaksPageSlot segment.now.image chains.start (bytes_of chains.bytes) segment.now.place starts page place }
    requires near { chains.start + length (bytes_of chains.bytes) < 2 ^ 64 }
    ensures { IfOk result (λ _. WereGathered
        (λ bound. IsPageBound segment.now.image chains.entry.start (bytes_of chains.entry.bytes) chains.entry.header
        bound segment.now.place starts page)
        bounds.old.items bounds.new.items) }
{
    let page_starts = starts.offset + DYLD_CHAINED_STARTS_IN_SEGMENT_SIZE;
    let start = half_at(
        chains.bytes,
        page_starts + u64::from(page) * PAGE_START_SIZE,
    );
    if start == DYLD_CHAINED_PTR_START_NONE {
        return Ok(());
    }
    let first = starts.page_offset(page) + u64::from(start);
    add_chain(segment, chains, starts, page, first, bounds)
}

// Adds the pointers of a page from one on. Each pointer fits, and leads to one past it.
fn add_chain(
    segment: &Segment,
    chains: Chains,
    starts: SegmentStarts,
    page: u16,
    first: u64,
    bounds: &mut Vec<Bound>,
) -> Result<(), AllocError>
    requires file { ¬ PassesImage segment.now.image segment.now.place }
    requires slots { (place : ℕ)
        → ¬ BreaksPageSlot segment.now.image chains.start (bytes_of chains.bytes) segment.now.place starts page place }
    requires first { ComesTo segment.now.image (bytes_of chains.bytes) segment.now.place starts page first }
    requires near { chains.start + length (bytes_of chains.bytes) < 2 ^ 64 }
    ensures { IfOk result (λ _. WereGathered
        (IsRestBound segment.now.image chains.entry.start (bytes_of chains.entry.bytes) chains.entry.header
        segment.now.place starts page first)
        bounds.old.items bounds.new.items) }
{
    let image = segment.image();
    let start = segment.fileoff();
    let mut offset = first;
    loop {
        let pointer = ChainPointer::read(image, starts.format, start + offset);
        add_pointer(chains, pointer, segment.place(), offset, bounds)?;
        if pointer.distance == 0 {
            return Ok(());
        }
        offset += pointer.distance;
    }
}

// Adds the pointer at an offset of a segment, if it binds an import.
fn add_pointer(
    chains: Chains,
    pointer: ChainPointer,
    segment: u64,
    offset: u64,
    bounds: &mut Vec<Bound>,
) -> Result<(), AllocError>
    requires { chains.start + length (bytes_of chains.bytes) < 2 ^ 64 }
    ensures { IfOk result (λ _. WereGathered
        (IsPointerBound chains.entry.start (bytes_of chains.entry.bytes) chains.entry.header pointer segment offset)
        bounds.old.items bounds.new.items) }
{
    if let Some(name) = import_name(chains, pointer) {
        bounds.push(Bound {
            segment,
            offset,
            name,
        })?;
    }
    Ok(())
}

// Where the name begins in the image of the import that the pointer binds. It is `None` if it binds none, or the import
// or the start of its name is past the table.
fn import_name(chains: Chains, pointer: ChainPointer) -> Option<u64>
    requires { chains.start + length (bytes_of chains.bytes) < 2 ^ 64 }
    ensures { (name : ℕ)
        → IsImportName chains.entry.start (bytes_of chains.entry.bytes) chains.entry.header pointer name
        ↔ (result ≡ Some name) }
{
    let import = pointer.import?;
    if import >= u64::from(chains.header.imports_count)
        || chains.header.imports_end_past(chains.bytes)
    {
        return None;
    }
    let name = chains.header.name_start(chains.bytes, import as u32);
    if name >= chains.bytes.len() {
        return None;
    }
    Some(chains.start + name)
}
