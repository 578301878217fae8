//! The nodes of the export trie that wait while it is walked. A place is an offset in the table of the trie.

ghost use Rattle.std.specs.Prelude.{IfOk};
ghost use Rattle.macho_fields.specs.Bytes.{bytes_of};
ghost use Rattle.macho_exports.specs.ExportNodes.{AreChildren};

use crate::export_trie::{ExportEdge, ExportNode};
use macho_fields::{Bytes, Span};
use std::alloc::{AllocError, Global};

/// The places of the nodes that are still to be met.
#[derive(Drop)]
pub struct Waiting {
    // The next one is the last.
    stack: Vec<u64>,
    // Those to which the edges of a node lead.
    children: Vec<u64>,
}

/// A node that is met.
#[derive(Clone, Copy)]
pub struct MetNode {
    /// The terminal part.
    pub terminal: Span,
    /// The place past its last edge.
    pub end: u64,
}

impl Waiting {
    ghost use Rattle.std.specs.Prelude.{◌≡◌, ◌∷◌, ◌≤◌, ◌<◌, [], IfOk, IfSome, length};
    ghost use Rattle.macho_fields.specs.Bytes.{bytes_of};
    ghost use Rattle.macho_spans.specs.Span.{end_of};
    ghost use Rattle.macho_exports.specs.ExportNodes.{waiting_places, IsNextPlace, IsMetAt};

    /// The root alone.
    pub fn of_root(alloc: Global) -> Result<Waiting, AllocError>
        ensures { IfOk result (λ waiting. waiting_places waiting ≡ 0 ∷ []) }
    {
        let mut stack = Vec::new(alloc);
        stack.push(0)?;
        let children = Vec::new(alloc);
        Ok(Waiting { stack, children })
    }

    /// Takes the place of the next one.
    pub fn next(&mut self) -> Option<u64>
        ensures { IsNextPlace (waiting_places self.old) (waiting_places self.new) result }
    {
        self.stack.pop()
    }

    /// Reads the node at `place`. Its children are the next ones, in the order of its edges. It is `None` if the
    /// node does not end in the table.
    pub fn meet(&mut self, trie: Bytes, place: u64) -> Result<Option<MetNode>, AllocError>
        ensures met { IfOk result (IsMetAt (bytes_of trie.entry) place (waiting_places self.old) (waiting_places self.new)) }
        ensures inside { IfOk result (λ met. IfSome met (λ met.
            (place < met.end) × (end_of met.terminal ≤ length (bytes_of trie.entry)))) }
    {
        let Some(node) = ExportNode::read(trie, place) else {
            return Ok(None);
        };
        self.children.clear();
        let Some(end) = read_children(trie, node, &mut self.children)? else {
            return Ok(None);
        };
        self.children.reverse();
        self.stack.extend_from_slice(&self.children)?;
        let terminal = node.terminal;
        Ok(Some(MetNode { terminal, end }))
    }
}

// Reads the edges of the node, and adds where they lead. It returns the place past the last, or `None` if they do
// not end in the table.
fn read_children(
    trie: Bytes,
    node: ExportNode,
    children: &mut Vec<u64>,
) -> Result<Option<u64>, AllocError>
    ensures { IfOk result (AreChildren (bytes_of trie.entry) node children.old.items children.new.items) }
{
    let mut place = node.edges;
    for _ in 0..node.edge_count {
        let Some((edge, next)) = ExportEdge::read(trie, place) else {
            return Ok(None);
        };
        children.push(edge.child)?;
        place = next;
    }
    Ok(Some(place))
}
