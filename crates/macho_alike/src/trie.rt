//! The rule of symbols whose names the export trie has. (`mach-o/nlist.h`: `nlist_64`; `mach-o/loader.h`:
//! `LC_DYLD_EXPORTS_TRIE`, `dyld_info_command`, `EXPORT_SYMBOL_FLAGS_..`)

ghost use Rattle.std.specs.Prelude.{◌≡◌, ◌+◌, ◌≤◌, ◌<◌, ◌↔◌, ℕ, length, take, drop, Contains, IsTrue, None, IfOk, OnErr, IsSomeAnd, ◌≢◌};
ghost use Rattle.std.specs.Cmp.Lexicographic.{slice_cmp};
ghost use Rattle.std.specs.Ordering.{nat_cmp};
ghost use Rattle.macho_fields.specs.Bytes.{bytes_of};
ghost use Rattle.macho_fields.specs.FirstPlace.{IsLeastPlace};
ghost use Rattle.macho_fields.specs.Layers.{NothingBreaks};
ghost use Rattle.macho_fields.specs.Rules.{BreaksImage as Breaks};
ghost use Rattle.macho_spans.specs.Span.{end_of};
ghost use Rattle.macho_exports.specs.Exports.{BreaksExportNode, BreaksExportTotal, HasExports, is_absolute as is_absolute_of};
ghost use Rattle.macho_alike.specs.Exports.{BreaksExportEdge};
ghost use Rattle.macho_alike.specs.Names.{text_of, IsNamed, AreByName};
ghost use Rattle.macho_alike.specs.declared.names.Named.{Named};
ghost use Rattle.macho_alike.specs.TrieSymbols.{IsFromElsewhere, IsUnlike, IsWeakSymbol, IsWeakExport, BreaksTrieSymbol};
ghost use Rattle.macho_alike.specs.TrieWalks.{IsWhole, AreSorted, AreOfBranch, is_before as is_before_of, IsBound, AreAllAlong, AreBranchesOf, image_export as image_export_of, of_export, EndsUnlike, EndsUnlikeTerminal, IsUnlikeAt};

use crate::names::Named;
use crate::symbols::is_of_another;
use macho_exports::export_trie::{Export, ExportEdge, ExportNode, Target};
use macho_exports::exports::{export_table, least_with};
use macho_fields::header::loader::{
    EXPORT_SYMBOL_FLAGS_KIND_ABSOLUTE, EXPORT_SYMBOL_FLAGS_KIND_MASK,
    EXPORT_SYMBOL_FLAGS_WEAK_DEFINITION,
};
use macho_fields::header::nlist::{N_INDR, N_TYPE, N_WEAK_DEF};
use macho_fields::{Bytes, Span};
use macho_image::{Image, Symbol, TableEntry};
use macho_tables::place::lesser;
use std::alloc::{AllocError, Global};
use std::cmp::Ordering;

// Names that lead to a node of the trie.
#[derive(Clone, Copy)]
struct Branch {
    // Where the node begins in the trie.
    place: u64,
    // How many bytes of each of the names lead there.
    depth: u64,
    // The index of the first of the names.
    first: usize,
    // The index past the last.
    end: usize,
}

// An export of the image itself: it is neither absolute nor a symbol of another library, and has no resolver.
#[derive(Clone, Copy)]
struct ImageExport {
    flags: u64,
    // It counts from the base.
    address: u64,
}

// The least place of an external symbol whose name the export trie has for an export of the image, and that says
// something else than this export: it is undefined or an `N_INDR`, it has another address, or one of the two is weak
// and not the other. The image breaks no rule of the layout, and none of the linked profile for nodes of the trie, and
// its labels do not clash. All external symbols have their names there, sorted by their bytes.
//
// The trie is walked once, beside the names. The names that lead to a node follow one another, since all begin with the
// same bytes. For each edge two binary searches find the names that go on along it, by the bytes of its label alone.
// Only nodes to which a name leads are met. For n names it takes time in the order of the bytes of the trie times log
// n, and n more. It takes memory only if the image has a trie: for each node that waits.
pub(crate) fn unlike_trie(
    alloc: Global,
    image: &Image,
    names: &[Named],
) -> Result<Option<u64>, AllocError>
    requires unbroken { NothingBreaks (Breaks image.now None) }
    requires node { (place : ℕ) → ¬ BreaksExportNode image.now place }
    requires total { (place : ℕ) → ¬ BreaksExportTotal image.now place }
    requires edge { (place : ℕ) → ¬ BreaksExportEdge image.now place }
    requires named { (one : Named) → Contains names.now one ↔ IsNamed image.now one }
    requires sorted { AreByName image.now names.now }
    ensures least { IfOk result (IsLeastPlace (BreaksTrieSymbol image.now)) }
    ensures memory { OnErr result (HasExports image.now) }
{
    let Some(table) = export_table(image) else {
        return Ok(None);
    };
    let bytes = image.bytes();
    least_unlike(alloc, bytes, bytes.slice(table), names, image.base())
}

// The same by the bytes of the trie and the base of the image.
fn least_unlike(
    alloc: Global,
    image: Bytes,
    trie: Bytes,
    names: &[Named],
    base: Option<u64>,
) -> Result<Option<u64>, AllocError>
    requires trie { IsWhole (bytes_of trie) }
    requires names { AreSorted (bytes_of image) names.now }
    ensures { IfOk result (IsLeastPlace (IsUnlikeAt (bytes_of image.entry) (bytes_of trie.entry) names.now base)) }
{
    let mut waiting = Vec::new(alloc);
    waiting.push(Branch {
        place: 0,
        depth: 0,
        first: 0,
        end: names.len(),
    })?;
    let mut branches = Vec::new(alloc);
    let mut least = None;
    let mut left = trie.len();
    while let Some(branch) = waiting.pop() {
        let Some(node) = ExportNode::read(trie, branch.place) else {
            return Ok(least);
        };
        let Some(end) = read_branches(image, trie, names, branch, node, &mut branches)? else {
            return Ok(least);
        };
        let Some(rest) = left.checked_sub(end - branch.place) else {
            return Ok(least);
        };
        left = rest;
        let here = least_ending(image, trie, names, branch, base, node.terminal);
        least = lesser(least, here);
        branches.reverse();
        waiting.extend_from_slice(&branches)?;
    }
    Ok(least)
}

// The branches along the edges of the node, without those that have no names. It returns the place past the last edge,
// or `None` if the edges do not end in the table.
fn read_branches(
    image: Bytes,
    trie: Bytes,
    names: &[Named],
    parent: Branch,
    node: ExportNode,
    branches: &mut Vec<Branch>,
) -> Result<Option<u64>, AllocError>
    requires names { AreSorted (bytes_of image) names.now }
    requires parent { AreOfBranch (bytes_of image) names.now parent }
    ensures { IfOk result
        (AreBranchesOf (bytes_of image.entry) (bytes_of trie.entry) names.now parent node branches.new.items) }
{
    branches.clear();
    let mut place = node.edges;
    for _ in 0..node.edge_count {
        let Some((edge, next)) = ExportEdge::read(trie, place) else {
            return Ok(None);
        };
        if let Some(branch) = branch_along(image, trie, names, parent, edge) {
            branches.push(branch)?;
        }
        place = next;
    }
    Ok(Some(place))
}

// The names that go on along the edge, if there are any.
fn branch_along(
    image: Bytes,
    trie: Bytes,
    names: &[Named],
    parent: Branch,
    edge: ExportEdge,
) -> Option<Branch>
    requires names { AreSorted (bytes_of image) names.now }
    requires parent { AreOfBranch (bytes_of image) names.now parent }
    requires label { end_of edge.label ≤ length (bytes_of trie) }
    ensures { AreAllAlong (bytes_of image.entry) (bytes_of trie.entry) names.now parent edge result }
{
    let label = trie.read_part(edge.label);
    let first = bound(image, names, parent, label, false);
    let end = bound(image, names, parent, label, true);
    if first >= end {
        return None;
    }
    Some(Branch {
        place: edge.child,
        depth: parent.depth + edge.label.len,
        first,
        end,
    })
}

// The index of the first name whose rest does not begin before the label, or, if `over`, of the first one whose rest
// begins after it.
fn bound(image: Bytes, names: &[Named], branch: Branch, label: &[u8], over: bool) -> usize
    requires names { AreSorted (bytes_of image) names.now }
    requires branch { AreOfBranch (bytes_of image) names.now branch }
    ensures { IsBound (bytes_of image.entry) names.now branch label.now over result }
{
    let mut low = branch.first;
    let mut high = branch.end;
    while low < high {
        let middle = low + (high - low) / 2;
        if is_before(compare(image, names[middle], branch.depth, label), over) {
            low = middle + 1;
        } else {
            high = middle;
        }
    }
    low
}

// Compares the label with as many bytes of the name from `depth` on.
fn compare(image: Bytes, named: Named, depth: u64, label: &[u8]) -> Ordering
    requires inside { end_of named.name ≤ length (bytes_of image) }
    requires deep { depth ≤ named.name.len }
    ensures { result ≡ slice_cmp nat_cmp
        (take (length label.now) (drop depth (text_of (bytes_of image.entry) named))) label.now }
{
    let rest = Span {
        start: named.name.start + depth,
        len: (named.name.len - depth).min(label.len() as u64),
    };
    image.read_part(rest).cmp(label)
}

// Whether the order is less, or not greater if `over`.
fn is_before(order: Ordering, over: bool) -> bool
    ensures { result ≡ is_before_of over order }
{
    match order {
        Ordering::Less => true,
        Ordering::Equal => over,
        Ordering::Greater => false,
    }
}

// The least place of a symbol whose name ends at the node, and that says something else than the export in its terminal
// part.
fn least_ending(
    image: Bytes,
    trie: Bytes,
    names: &[Named],
    branch: Branch,
    base: Option<u64>,
    terminal: Span,
) -> Option<u64>
    requires names { AreSorted (bytes_of image) names.now }
    requires branch { AreOfBranch (bytes_of image) names.now branch }
    requires terminal { end_of terminal ≤ length (bytes_of trie) }
    ensures { IsLeastPlace
        (EndsUnlikeTerminal (bytes_of image.entry) (bytes_of trie.entry) names.now branch base terminal) result }
{
    let export = image_export(trie, terminal)?;
    least_unlike_export(image, names, branch, base, export)
}

// The same by the export. The names that end at the node are the first ones.
fn least_unlike_export(
    image: Bytes,
    names: &[Named],
    branch: Branch,
    base: Option<u64>,
    export: ImageExport,
) -> Option<u64>
    requires names { AreSorted (bytes_of image) names.now }
    requires branch { AreOfBranch (bytes_of image) names.now branch }
    ensures { IsLeastPlace (EndsUnlike (bytes_of image.entry) names.now branch base export) result }
{
    let mut least = None;
    for index in branch.first..branch.end {
        let named = names[index];
        if named.name.len != branch.depth {
            return least;
        }
        let symbol = Symbol::read(image, named.place);
        least = least_with(least, is_unlike(symbol, base, export), named.place);
    }
    least
}

// The export of the image itself in a terminal part, if there is one.
fn image_export(trie: Bytes, terminal: Span) -> Option<ImageExport>
    requires { end_of terminal ≤ length (bytes_of trie) }
    ensures { result ≡ image_export_of (bytes_of trie.entry) terminal }
{
    if terminal.len == 0 {
        return None;
    }
    let (export, _) = Export::read(trie, terminal)?;
    of_image(export)
}

// The export, if it is one of the image itself.
fn of_image(export: Export) -> Option<ImageExport>
    ensures { result ≡ of_export export }
{
    if is_absolute(export.flags) {
        return None;
    }
    match export.target {
        Target::Address {
            address,
            resolver: None,
        } => Some(ImageExport {
            flags: export.flags,
            address,
        }),
        _ => None,
    }
}

// Whether an export with these flags is absolute.
fn is_absolute(flags: u64) -> bool
    ensures { result ≡ is_absolute_of flags }
{
    flags & EXPORT_SYMBOL_FLAGS_KIND_MASK == EXPORT_SYMBOL_FLAGS_KIND_ABSOLUTE
}

// Whether the symbol says something else than the export.
fn is_unlike(symbol: Symbol, base: Option<u64>, export: ImageExport) -> bool
    ensures { IsTrue result ↔ IsUnlike base export.flags export.address symbol }
{
    is_from_elsewhere(symbol)
        || is_elsewhere(symbol.value, base, export.address)
        || is_weak_symbol(symbol) != is_weak_export(export.flags)
}

// Whether another image defines the symbol, or it stands for another name.
fn is_from_elsewhere(symbol: Symbol) -> bool
    ensures { IsTrue result ↔ IsFromElsewhere symbol }
{
    is_of_another(symbol.kind) || symbol.kind & N_TYPE == N_INDR
}

// Whether the value is not the address, which counts from the base. Without a base it has none.
fn is_elsewhere(value: u64, base: Option<u64>, address: u64) -> bool
    ensures { IsTrue result ↔ IsSomeAnd base (λ b. value ≢ b + address) }
{
    match base {
        Some(base) => base.checked_add(address) != Some(value),
        None => false,
    }
}

// Whether the symbol is a weak definition.
fn is_weak_symbol(symbol: Symbol) -> bool
    ensures { IsTrue result ↔ IsWeakSymbol symbol }
{
    symbol.desc & N_WEAK_DEF != 0
}

// Whether an export with these flags is a weak definition.
fn is_weak_export(flags: u64) -> bool
    ensures { IsTrue result ↔ IsWeakExport flags }
{
    flags & EXPORT_SYMBOL_FLAGS_WEAK_DEFINITION != 0
}
