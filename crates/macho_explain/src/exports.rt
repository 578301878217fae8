//! The rules of the export trie. (`mach-o/loader.h`: `LC_DYLD_EXPORTS_TRIE`, `dyld_info_command`)

ghost use Rattle.std.specs.Prelude.{◌≡◌, ℕ, ◌+◌, ◌≤◌, length, IfSome, IsTrue, MatchOption, None, Some};
ghost use Rattle.std.specs.Option.{option_map};
ghost use Rattle.macho_fields.specs.Bytes.{bytes_of};
ghost use Rattle.macho_fields.specs.declared.rule.Rule.{Rule};
ghost use Rattle.macho_spans.specs.Span.{end_of};
ghost use Rattle.macho_exports.specs.Exports.{export_table as export_table_of};
ghost use Rattle.macho_exports.specs.ExportTrie.{node_at as node_at_of};
ghost use Rattle.macho_explain.specs.Compared.{HasAddress, HasNodeAt, HasOrdinal, HasExportTarget, IsAddressShown, LeadsTo, flags_shown, node_bounds};
ghost use Rattle.macho_explain.specs.Explained.{ExplainsIn, IsNodeHere};
ghost use Rattle.macho_explain.specs.Wholes.{Opens};

use crate::conflict::Conflict;
use crate::explanation::Explanation;
use crate::part::PartKind;
use crate::segment::{SegmentWith, find_segment};
use crate::sliced::Sliced;
use crate::spot::Spot;
use crate::table::Bounded;
use crate::whole::{Whole, bounded, data_table, read_whole};
use macho_exports::export_trie::{Export, ExportNode, Target};
use macho_exports::exports::{MOST_FLAGS, export_table};
use macho_fields::header::loader::LC_DYLD_EXPORTS_TRIE;
use macho_fields::{Bytes, Span};
use macho_image::Image;
use macho_tables::limits::library_count;
use macho_tables::numbers::read_uleb;
use macho_tables::place::dyld_info;

// The index of the exports among the tables of `dyld_info_command`.
const EXPORTS: u64 = 4;

// A node of the export trie: its offset there, its terminal part and the offset past its last edge. What does not end
// in the trie is none.
#[derive(Clone, Copy)]
pub(crate) struct NodeHere<'a> {
    pub(crate) at: Spot,
    pub(crate) table: Bounded,
    pub(crate) trie: Bytes<'a>,
    pub(crate) offset: u64,
    pub(crate) bounds: Option<(Span, u64)>,
}

// The node at the place. One that does not end in the trie has all bytes that follow.
pub(crate) fn node_here<'a>(sliced: &Sliced<'a>) -> Option<NodeHere<'a>>
    ensures { MatchOption result (¬ HasNodeAt (bytes_of sliced.now.held.bytes) sliced.now.place) (IsNodeHere sliced.now) }
{
    let Whole { table, bytes } = read_whole(sliced, trie_table(sliced)?)?;
    let offset = sliced.place.checked_sub(table.span.start)?;
    if offset > bytes.len() {
        return None;
    }
    let bounds = node_at(bytes, offset);
    let end = bounds.map_or(bytes.len(), |bounds| bounds.1);
    let size = end.saturating_sub(offset);
    let part = sliced.structure(PartKind::ExportNode, sliced.place, size, None);
    Some(NodeHere {
        at: sliced.at(part),
        table,
        trie: bytes,
        offset,
        bounds,
    })
}

// The node that does not end in the trie, or would begin past it.
#[inline(never)]
pub(crate) fn export_node(sliced: &Sliced) -> Option<Explanation>
    ensures { ExplainsIn Rule.ExportNode sliced.now result }
{
    let node = node_here(sliced)?;
    let conflict = Conflict::alone(node.table.part, node.offset, node.trie.len());
    Some(node.at.shows(conflict))
}

// The node with which all have more bytes than the trie.
#[inline(never)]
pub(crate) fn export_total(sliced: &Sliced) -> Option<Explanation>
    ensures { ExplainsIn Rule.ExportTotal sliced.now result }
{
    let node = node_here(sliced)?;
    let size = node.bounds?.1.saturating_sub(node.offset);
    let conflict = Conflict::alone(node.table.part, size, node.trie.len());
    Some(node.at.shows(conflict))
}

// The flags of an export, and all that are known.
#[inline(never)]
pub(crate) fn export_terminal(sliced: &Sliced) -> Option<Explanation>
    ensures { ExplainsIn Rule.ExportTerminal sliced.now result }
{
    let node = node_here(sliced)?;
    let flags = flags_in(node.trie, node.bounds?.0);
    Some(
        node.at
            .shows(Conflict::alone(node.table.part, flags, MOST_FLAGS)),
    )
}

// The ordinal of the library that has the symbol.
#[inline(never)]
pub(crate) fn export_library(sliced: &Sliced) -> Option<Explanation>
    ensures { ExplainsIn Rule.ExportLibrary sliced.now result }
{
    let node = node_here(sliced)?;
    let ordinal = ordinal_in(node.trie, node.bounds?.0)?;
    let libraries = library_count(&sliced.held.open()?);
    Some(
        node.at
            .shows(Conflict::alone(node.table.part, ordinal, libraries)),
    )
}

// The address of an export that no segment has.
#[inline(never)]
pub(crate) fn export_address(sliced: &Sliced) -> Option<Explanation>
    ensures { ExplainsIn Rule.ExportAddress sliced.now result }
{
    let node = node_here(sliced)?;
    let address = address_in(sliced, node.trie, node.bounds?.0)?;
    Some(node.at.shows(Conflict::alone(node.table.part, address, 0)))
}

// The table of the trie.
fn trie_table(sliced: &Sliced) -> Option<Bounded>
    ensures { MatchOption result
        (Opens (bytes_of sliced.now.held.bytes) → export_table_of (bytes_of sliced.now.held.bytes) ≡ None)
        (λ found. export_table_of (bytes_of sliced.now.held.bytes) ≡ Some found.span) }
{
    let image = sliced.held.open()?;
    let span = export_table(&image)?;
    let (command, index) = named_by(sliced, &image);
    Some(bounded(sliced, command, span, index))
}

// The command that names it, and its index there: the data of `LC_DYLD_EXPORTS_TRIE`, and if that has no bytes, the
// exports of `LC_DYLD_INFO` or `LC_DYLD_INFO_ONLY`.
fn named_by(sliced: &Sliced, image: &Image) -> (u64, u64) {
    match data_table(sliced, LC_DYLD_EXPORTS_TRIE) {
        Some(table) if table.span.len > 0 => (table.command, 0),
        _ => (dyld_info(image).unwrap_or(0), EXPORTS),
    }
}

// The terminal part of the node at an offset of the trie, and the offset past its last edge. It is `None` if the
// node does not end in the trie.
fn node_at(trie: Bytes, offset: u64) -> Option<(Span, u64)>
    ensures node { result ≡ option_map node_bounds (node_at_of (bytes_of trie.entry) offset) }
    ensures inside { IfSome result (λ node. end_of node.0 ≤ length (bytes_of trie.entry)) }
{
    let node = ExportNode::read(trie, offset)?;
    let (_, end) = node.follow(trie, &[])?;
    Some((node.terminal, end))
}

// The flags of an export, or 0 if they do not end in the terminal part.
#[tactic(auto, unfolding(crate::specs::Compared::flags_shown))]
fn flags_in(trie: Bytes, terminal: Span) -> u64
    requires { end_of terminal ≤ length (bytes_of trie) }
    ensures { result ≡ flags_shown (bytes_of trie.entry) terminal }
{
    let up_to_end = Span {
        start: 0,
        len: terminal.start + terminal.len,
    };
    match read_uleb(trie.slice(up_to_end), terminal.start) {
        Some((flags, _)) => flags,
        None => 0,
    }
}

// The ordinal of the library that has the symbol of a terminal part.
fn ordinal_in(trie: Bytes, terminal: Span) -> Option<u64>
    requires { end_of terminal ≤ length (bytes_of trie) }
    ensures { MatchOption result
        ((ordinal : ℕ) → ¬ HasExportTarget (bytes_of trie.entry) terminal (HasOrdinal ordinal))
        (λ ordinal. HasExportTarget (bytes_of trie.entry) terminal (HasOrdinal ordinal)) }
{
    let (export, _) = Export::read(trie, terminal)?;
    match export.target {
        Target::Reexport { ordinal, .. } => Some(ordinal),
        Target::Address { .. } => None,
    }
}

// The address in a terminal part that no segment has.
fn address_in(sliced: &Sliced, trie: Bytes, terminal: Span) -> Option<u64>
    requires { end_of terminal ≤ length (bytes_of trie) }
    ensures { MatchOption result
        (Opens (bytes_of sliced.now.held.bytes)
        → (address : ℕ) → ¬ HasExportTarget (bytes_of trie.entry) terminal (LeadsTo (bytes_of sliced.now.held.bytes) address))
        (λ address. HasExportTarget (bytes_of trie.entry) terminal (LeadsTo (bytes_of sliced.now.held.bytes) address)) }
{
    let base = sliced.held.open()?.base()?;
    let (export, _) = Export::read(trie, terminal)?;
    match export.target {
        Target::Address { address, resolver } => {
            Some(unmapped_address(sliced, base, address, resolver))
        }
        Target::Reexport { .. } => None,
    }
}

// The address of an export, or of its resolver if a segment has the first. Both count from the base.
fn unmapped_address(sliced: &Sliced, base: u64, address: u64, resolver: Option<u64>) -> u64
    ensures { IsAddressShown (bytes_of sliced.now.held.bytes) base address resolver result }
{
    match resolver {
        Some(resolver) if is_mapped(sliced, base, address) => base.saturating_add(resolver),
        _ => base.saturating_add(address),
    }
}

// Whether a segment has the address at a distance from the base.
fn is_mapped(sliced: &Sliced, base: u64, distance: u64) -> bool
    ensures { IsTrue result → HasAddress (bytes_of sliced.now.held.bytes) (base + distance) }
{
    match base.checked_add(distance) {
        Some(address) => find_segment(sliced, SegmentWith::Address(address)).is_some(),
        None => false,
    }
}
