//! The rule of the labels of the export trie. (`mach-o/loader.h`: `LC_DYLD_EXPORTS_TRIE`, `dyld_info_command`)

ghost use Rattle.std.specs.Prelude.{◌≡◌, ◌≤◌, ◌<◌, ◌↔◌, ℕ, List, [], IsTrue, MatchOption, Some};
ghost use Rattle.macho_fields.specs.Bytes.{bytes_of};
ghost use Rattle.macho_fields.specs.declared.rule.Rule.{Rule};
ghost use Rattle.macho_alike.specs.Exports.{Clash, HasClash, HasClashAt};
ghost use Rattle.macho_explain.specs.Alike.{labels_from, ClashesAt, IsClashShown, IsEdgeShown};
ghost use Rattle.macho_explain.specs.Explained.{ExplainsIn};

use crate::conflict::Conflict;
use crate::explanation::Explanation;
use crate::exports::node_here;
use crate::sliced::Sliced;
use macho_exports::export_trie::{ExportEdge, ExportNode};
use macho_fields::Bytes;

// The index of the first edge of the node whose label is empty or clashes with an earlier one; and the index of the
// earlier one, or the same index.
#[inline(never)]
pub(crate) fn export_edge(sliced: &Sliced) -> Option<Explanation>
    ensures { ExplainsIn Rule.ExportEdge sliced.now result }
{
    let node = node_here(sliced)?;
    let (edge, other) = clash_at(node.trie, node.offset)?;
    let conflict = Conflict::alone(node.table.part, u64::from(edge), u64::from(other));
    Some(node.at.shows(conflict))
}

// The first label that is empty or clashes, of the node at an offset of the trie.
fn clash_at(trie: Bytes, offset: u64) -> Option<(u8, u8)>
    ensures { MatchOption result (¬ HasClashAt (bytes_of trie.entry) offset)
        (λ found. IsEdgeShown (bytes_of trie.entry) offset found.0 found.1) }
{
    let node = ExportNode::read(trie, offset)?;
    node.follow(trie, &[])?;
    clash_of(trie, node.edges, node.edge_count)
}

// The same of so many edges from a place on, which end in the trie.
fn clash_of(trie: Bytes, edges: u64, count: u8) -> Option<(u8, u8)>
    ensures { (labels : List (List ℕ)) → labels_from count (bytes_of trie.entry) edges ≡ Some labels
        → MatchOption result (¬ HasClash labels) (λ found. IsClashShown labels found.0 found.1) }
{
    let mut place = edges;
    for later in 0..count {
        let (edge, next) = ExportEdge::read(trie, place)?;
        let label = trie.read_part(edge.label);
        if is_blank(label) {
            return Some((later, later));
        }
        if let Some(earlier) = earlier_clash(trie, edges, later, label) {
            return Some((later, earlier));
        }
        place = next;
    }
    None
}

// The first of so many edges from a place on whose label clashes with another one.
fn earlier_clash(trie: Bytes, edges: u64, count: u8, label: &[u8]) -> Option<u8>
    ensures { (total : ℕ) (labels : List (List ℕ)) → count ≤ total
        → labels_from total (bytes_of trie.entry) edges ≡ Some labels
        → MatchOption result ((j : ℕ) → j < count → ¬ ClashesAt labels j label.now)
        (λ j. (j < count) × ClashesAt labels j label.now) }
{
    let mut place = edges;
    for index in 0..count {
        let (edge, next) = ExportEdge::read(trie, place)?;
        if clash(trie.read_part(edge.label), label) {
            return Some(index);
        }
        place = next;
    }
    None
}

// Whether a label has no bytes.
fn is_blank(label: &[u8]) -> bool
    ensures { IsTrue result ↔ (label.now ≡ []) }
{
    label.is_empty()
}

// Whether one of the labels begins with the other.
fn clash(one: &[u8], other: &[u8]) -> bool
    ensures { IsTrue result ↔ Clash one.now other.now }
{
    one.starts_with(other) || other.starts_with(one)
}
