//! The rule of the labels of the export trie. (`mach-o/loader.h`: `LC_DYLD_EXPORTS_TRIE`, `dyld_info_command`)

ghost use Rattle.std.specs.Prelude.{◌≡◌, ◌+◌, ◌≤◌, ◌<◌, ◌↔◌, length, Any, IsTrue, None, IfOk, OnErr};
ghost use Rattle.macho_fields.specs.Bytes.{bytes_of};
ghost use Rattle.macho_fields.specs.FirstPlace.{IsLeastPlace};
ghost use Rattle.macho_fields.specs.Layers.{NothingBreaks};
ghost use Rattle.macho_fields.specs.Rules.{BreaksImage as Breaks};
ghost use Rattle.macho_exports.specs.Exports.{HasExports};
ghost use Rattle.macho_alike.specs.Exports.{Clash, HasClash, HasClashAt, UnclearNode, BreaksExportEdge};
ghost use Rattle.macho_alike.specs.Labels.{texts, IsBad, AreLabels};

use macho_exports::export_trie::{ExportEdge, ExportNode};
use macho_exports::export_walk::Waiting;
use macho_exports::exports::{export_table, least_with};
use macho_fields::Bytes;
use macho_image::Image;
use macho_tables::place::place_from;
use std::alloc::{AllocError, Global};

/// The least place of a node of the export trie with an empty label, or with a label that begins with another one of the
/// node. The image breaks no rule of the layout. Nodes are met in a walk from the root, and all of them may have no more
/// bytes than the table. The labels of a node are compared in pairs. Their number is one byte, so that a label is compared
/// with up to 254 others, and the bytes that are compared are at most 254 times the bytes of the table. It takes memory
/// only if the image has a trie: for the nodes that wait, and for the labels of one node.
pub fn export_edge(alloc: Global, image: &Image) -> Result<Option<u64>, AllocError>
    requires { NothingBreaks (Breaks image.now None) }
    ensures least { IfOk result (IsLeastPlace (BreaksExportEdge image.now)) }
    ensures memory { OnErr result (HasExports image.now) }
{
    let Some(table) = export_table(image) else {
        return Ok(None);
    };
    let found = least_unclear(alloc, image.bytes().slice(table))?;
    Ok(place_from(table.start, found))
}

// The least place of a node with an empty label, or with two that clash, in the bytes of a trie.
fn least_unclear(alloc: Global, trie: Bytes) -> Result<Option<u64>, AllocError>
    ensures { IfOk result (IsLeastPlace (UnclearNode (bytes_of trie.entry))) }
{
    let mut waiting = Waiting::of_root(alloc)?;
    let mut labels = Vec::new(alloc);
    let mut least = None;
    let mut left = trie.len();
    while let Some(place) = waiting.next() {
        let Some(node) = waiting.meet(trie, place)? else {
            return Ok(least);
        };
        let Some(rest) = left.checked_sub(node.end - place) else {
            return Ok(least);
        };
        left = rest;
        least = least_with(least, has_clash(trie, place, &mut labels)?, place);
    }
    Ok(least)
}

// Whether a label of the node at `place` is empty, or two of them clash. The vector is for the labels.
fn has_clash<'a>(
    trie: Bytes<'a>,
    place: u64,
    labels: &mut Vec<&'a [u8]>,
) -> Result<bool, AllocError>
    ensures { IfOk result (λ clash. IsTrue clash ↔ HasClashAt (bytes_of trie.entry) place) }
{
    let Some(node) = ExportNode::read(trie, place) else {
        return Ok(false);
    };
    labels.clear();
    if !read_labels(trie, node, labels)? {
        return Ok(false);
    }
    Ok(have_clash(labels))
}

// Reads the labels of the node, and adds them. It is false if its edges do not end in the table.
fn read_labels<'a>(
    trie: Bytes<'a>,
    node: ExportNode,
    labels: &mut Vec<&'a [u8]>,
) -> Result<bool, AllocError>
    ensures { IfOk result (AreLabels (bytes_of trie.entry) node labels.old.items labels.new.items) }
{
    let mut place = node.edges;
    for _ in 0..node.edge_count {
        let Some((edge, next)) = ExportEdge::read(trie, place) else {
            return Ok(false);
        };
        labels.push(trie.read_part(edge.label))?;
        place = next;
    }
    Ok(true)
}

// Whether a label is empty, or two of them clash. It compares all pairs.
fn have_clash(labels: &[&[u8]]) -> bool
    ensures { IsTrue result ↔ HasClash (texts labels.now) }
{
    for count in 0..labels.len() {
        if clashes(labels[count], &labels[..count]) {
            return true;
        }
    }
    false
}

// Whether the label is empty, or clashes with a label before it.
fn clashes(label: &[u8], before: &[&[u8]]) -> bool
    ensures { IsTrue result ↔ IsBad (texts before.now) label.now }
{
    label.is_empty() || clashes_any(label, before)
}

// Whether the label clashes with one of the others.
fn clashes_any(label: &[u8], others: &[&[u8]]) -> bool
    ensures { IsTrue result ↔ Any (λ other. Clash other label.now) (texts others.now) }
{
    for other in others {
        if clash(other, label) {
            return true;
        }
    }
    false
}

// Whether one of the labels begins with the other.
fn clash(one: &[u8], other: &[u8]) -> bool
    ensures { IsTrue result ↔ Clash one.now other.now }
{
    if one.len() <= other.len() {
        other.starts_with(one)
    } else {
        one.starts_with(other)
    }
}
