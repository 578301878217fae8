//! The nodes of an export trie, one after another. (`mach-o/loader.h`: `LC_DYLD_EXPORTS_TRIE`,
//! `dyld_info_command`, `EXPORT_SYMBOL_FLAGS_..`)

ghost use Rattle.std.specs.Prelude.{◌≡◌, ◌≤◌, length, map, IfSome};
ghost use Rattle.macho_fields.specs.Bytes.{bytes_of};
ghost use Rattle.macho_spans.specs.Span.{end_of};
ghost use Rattle.macho_exports.specs.ExportTrie.{node_at};
ghost use Rattle.macho_rows.specs.Cursor.{IsBatch};
ghost use Rattle.macho_c.specs.ExportNodes.{trie_bytes, terminal_export, node_row, edge_row, edges_left, IsNode};

use crate::exports::{KesvuotExport, NO_EXPORT, row_of};
use crate::status::{NONE, OK};
use macho_exports::export_trie::{Export, ExportEdge, ExportNode};
use macho_fields::Span;
use macho_rows::cursor::{KesvuotCursor, START};
use macho_rows::image::KesvuotImage;
use macho_rows::span::{Held, KesvuotSpan, NO_SPAN, held_at};
use macho_rows::table::{Table, fill};

/// A node of an export trie. (`struct kesvuot_export_node`)
#[repr(C)]
#[derive(Clone, Copy)]
pub struct KesvuotExportNode {
    /// What the name that ends at the node is exported as.
    pub exported: KesvuotExport,
    /// Where its terminal part lies in the file. It is empty if no name ends at the node.
    pub terminal: KesvuotSpan,
    /// The cursor of its first edge.
    pub edges: KesvuotCursor,
    /// 1 if the terminal part is an export, otherwise 0.
    pub has_export: u32,
    /// Reserved: 0.
    pub reserved: u32,
}

/// An edge of a node. (`struct kesvuot_export_edge`)
#[repr(C)]
#[derive(Clone, Copy)]
pub struct KesvuotExportEdge {
    /// Where the part of a name that leads along it lies in the file.
    pub label: KesvuotSpan,
    /// Where the node to which it leads begins in the trie.
    pub child: u64,
}

/// Writes the node that begins at an offset of an export trie, up to its edges. Addresses count from the base of
/// the image. The status is `OK`, or `NONE` if the edges would begin past the trie.
#[unsafe(no_mangle)]
pub extern "C" fn kesvuot_read_export_node(
    file: &[u8],
    image: &KesvuotImage,
    trie: &KesvuotSpan,
    offset: u64,
    node: &mut KesvuotExportNode,
) -> u32
    ensures node { IsNode image.now.base trie.now.offset (trie_bytes file.now trie.now) offset result node.new }
    ensures edges { IfSome (node_at (trie_bytes file.now trie.now) offset) (λ whole.
        edges_left trie.now.offset (trie_bytes file.now trie.now) node.new.edges
        ≡ map (edge_row trie.now.offset (trie_bytes file.now trie.now)) whole.edges) }
{
    let trie = held_at(file, trie.offset, trie.size);
    match ExportNode::read(trie.bytes, offset) {
        Some(head) => {
            *node = node_of(image.base, &trie, head);
            OK
        }
        None => {
            *node = NO_NODE;
            NONE
        }
    }
}

/// Writes the edges of a node of an export trie from the cursor on to the rows of the table, until either runs
/// out, moves the cursor past them, and returns how many it wrote. Later rows are unchanged. The cursor of the
/// first edge is the node's `edges`. The first edge that does not end in the trie is not written, and ends them.
#[unsafe(no_mangle)]
pub extern "C" fn kesvuot_read_export_edges(
    file: &[u8],
    trie: &KesvuotSpan,
    cursor: &mut KesvuotCursor,
    rows: &mut [KesvuotExportEdge],
) -> usize
    ensures { IsBatch (edges_left trie.now.offset (trie_bytes file.now trie.now)) cursor.old cursor.new result
        rows.old rows.new }
{
    let edges = ExportEdges {
        trie: held_at(file, trie.offset, trie.size),
    };
    fill(&edges, cursor, rows)
}

// No node.
const NO_NODE: KesvuotExportNode = KesvuotExportNode {
    exported: NO_EXPORT,
    terminal: NO_SPAN,
    edges: START,
    has_export: 0,
    reserved: 0,
};

// The row of a node, by what it begins with.
fn node_of(base: u64, trie: &Held, head: ExportNode) -> KesvuotExportNode
    requires { end_of head.terminal ≤ length (bytes_of trie.now.bytes) }
    ensures { result ≡ node_row base trie.now.place (bytes_of trie.now.bytes) head }
{
    let node = KesvuotExportNode {
        terminal: trie.part(head.terminal.start, head.terminal.len),
        edges: KesvuotCursor {
            place: head.edges,
            items: u64::from(head.edge_count),
            ..START
        },
        ..NO_NODE
    };
    match export_of(trie, head.terminal) {
        Some(export) => KesvuotExportNode {
            exported: row_of(base, trie, export),
            has_export: 1,
            ..node
        },
        None => node,
    }
}

// The export in a terminal part. It is `None` if the part is empty, or is not an export.
fn export_of(trie: &Held, terminal: Span) -> Option<Export>
    requires { end_of terminal ≤ length (bytes_of trie.now.bytes) }
    ensures { result ≡ terminal_export (bytes_of trie.now.bytes) terminal }
{
    if terminal.len == 0 {
        return None;
    }
    let (export, _) = Export::read(trie.bytes, terminal)?;
    Some(export)
}

// The edges in a trie. The cursor has the offset of the next one, and how many there are from there on.
#[derive(Clone, Copy)]
struct ExportEdges<'a> {
    trie: Held<'a>,
}

impl<'a> Table for ExportEdges<'a> {
    ghost use Rattle.macho_fields.specs.Bytes.{bytes_of};
    ghost use Rattle.macho_c.specs.ExportNodes.{edges_left};

    type Row = KesvuotExportEdge;

    ghost left = { λ t. edges_left t.trie.place (bytes_of t.trie.bytes) };

    fn next(&self, cursor: &mut KesvuotCursor) -> Option<KesvuotExportEdge> {
        let items = cursor.items.checked_sub(1)?;
        let (edge, next) = ExportEdge::read(self.trie.bytes, cursor.place)?;
        cursor.place = next;
        cursor.items = items;
        Some(edge_of(&self.trie, edge))
    }
}

// The row of an edge.
fn edge_of(trie: &Held, edge: ExportEdge) -> KesvuotExportEdge
    ensures { result ≡ edge_row trie.now.place (bytes_of trie.now.bytes) edge }
{
    KesvuotExportEdge {
        label: trie.part(edge.label.start, edge.label.len),
        child: edge.child,
    }
}
