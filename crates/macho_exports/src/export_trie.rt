//! The export trie: the names that an image exports. A place is an offset in the table of the trie, and the
//! root is at 0. (`mach-o/loader.h`: `LC_DYLD_EXPORTS_TRIE`, `dyld_info_command`, `EXPORT_SYMBOL_FLAGS_..`)

ghost use Rattle.std.specs.Prelude.{◌≡◌, ◌≤◌, length, IfSome};
ghost use Rattle.macho_fields.specs.Bytes.{bytes_of};
ghost use Rattle.macho_spans.specs.Span.{end_of};
ghost use Rattle.macho_exports.specs.ExportTrie.{name_at, find_terminal as find_terminal_of, find_export as find_export_of};

use macho_fields::header::loader::{
    EXPORT_SYMBOL_FLAGS_REEXPORT, EXPORT_SYMBOL_FLAGS_STUB_AND_RESOLVER,
};
use macho_fields::{Bytes, Span};
use macho_tables::numbers::read_uleb;

/// What a name is exported as.
#[derive(Clone, Copy)]
pub struct Export {
    /// The flags.
    pub flags: u64,
    /// What the name leads to.
    pub target: Target,
}

/// What an exported name leads to.
#[derive(Clone, Copy)]
pub enum Target {
    /// An address.
    Address {
        /// It counts from the base of the image, unless the symbol is absolute.
        address: u64,
        /// The address of the function that finds the address of the symbol, from the base. The address
        /// above is then a stub's.
        resolver: Option<u64>,
    },
    /// A symbol of another library.
    Reexport {
        /// The ordinal of the library, from 1 on.
        ordinal: u64,
        /// The name there, without the zero byte that ends it. It is empty if it is the exported name.
        name: Span,
    },
}

impl Target {
    ghost use Rattle.std.specs.Prelude.{◌≡◌};
    ghost use Rattle.macho_fields.specs.Bytes.{bytes_of};
    ghost use Rattle.macho_exports.specs.ExportTrie.{address_at, reexport_at};

    // Reads an address, and the address of a resolver if the flags say so. It returns the place past them.
    #[tactic(auto, unfolding(crate::specs::ExportTrie::address_at))]
    fn read_address(bytes: Bytes, flags: u64, place: u64) -> Option<(Target, u64)>
        ensures { result ≡ address_at flags (bytes_of bytes.entry) place }
    {
        let (address, next) = read_uleb(bytes, place)?;
        if flags & EXPORT_SYMBOL_FLAGS_STUB_AND_RESOLVER == 0 {
            let resolver = None;
            return Some((Target::Address { address, resolver }, next));
        }
        let (resolver, next) = read_uleb(bytes, next)?;
        let resolver = Some(resolver);
        Some((Target::Address { address, resolver }, next))
    }

    // Reads the ordinal of a library, and a name there. It returns the place past them.
    #[tactic(auto, unfolding(crate::specs::ExportTrie::reexport_at))]
    fn read_reexport(bytes: Bytes, place: u64) -> Option<(Target, u64)>
        ensures { result ≡ reexport_at (bytes_of bytes.entry) place }
    {
        let (ordinal, next) = read_uleb(bytes, place)?;
        let (name, next) = read_name(bytes, next)?;
        Some((Target::Reexport { ordinal, name }, next))
    }
}

impl Export {
    ghost use Rattle.std.specs.Prelude.{◌≡◌, ◌≤◌, length};
    ghost use Rattle.macho_fields.specs.Bytes.{bytes_of};
    ghost use Rattle.macho_spans.specs.Span.{end_of};
    ghost use Rattle.macho_exports.specs.ExportTrie.{export_at, export_in};

    /// Reads the export in a terminal part. It returns the place past it, or `None` if a number or the name does
    /// not end in the part.
    #[tactic(auto, unfolding(crate::specs::ExportTrie::export_in))]
    pub fn read(trie: Bytes, terminal: Span) -> Option<(Export, u64)>
        requires { end_of terminal ≤ length (bytes_of trie) }
        ensures { result ≡ export_in (bytes_of trie.entry) terminal }
    {
        let up_to_end = Span {
            start: 0,
            len: terminal.start + terminal.len,
        };
        Export::read_at(trie.slice(up_to_end), terminal.start)
    }

    // Reads the export at `place`.
    #[tactic(auto, unfolding(crate::specs::ExportTrie::export_at))]
    fn read_at(bytes: Bytes, place: u64) -> Option<(Export, u64)>
        ensures { result ≡ export_at (bytes_of bytes.entry) place }
    {
        let (flags, next) = read_uleb(bytes, place)?;
        let (target, next) = if flags & EXPORT_SYMBOL_FLAGS_REEXPORT == 0 {
            Target::read_address(bytes, flags, next)?
        } else {
            Target::read_reexport(bytes, next)?
        };
        Some((Export { flags, target }, next))
    }
}

/// An edge of a node.
#[derive(Clone, Copy)]
pub struct ExportEdge {
    /// The part of a name that leads along it, without the zero byte that ends it.
    pub label: Span,
    /// The place of the node to which it leads.
    pub child: u64,
}

impl ExportEdge {
    ghost use Rattle.std.specs.Prelude.{◌≡◌, ◌≤◌, drop, length, IsTrue};
    ghost use Rattle.macho_fields.specs.Bytes.{bytes_of};
    ghost use Rattle.macho_spans.specs.Span.{end_of};
    ghost use Rattle.macho_exports.specs.ExportTrie.{edge_at, begins_with};

    /// Reads the edge at `place`. It returns the place past it, or `None` if it does not end in the table.
    #[tactic(auto, unfolding(crate::specs::ExportTrie::edge_at))]
    pub fn read(trie: Bytes, place: u64) -> Option<(ExportEdge, u64)>
        ensures { result ≡ edge_at (bytes_of trie.entry) place }
    {
        let (label, next) = read_name(trie, place)?;
        let (child, next) = read_uleb(trie, next)?;
        Some((ExportEdge { label, child }, next))
    }

    // Whether the label begins the name.
    fn begins(self, trie: Bytes, name: &[u8]) -> bool
        requires { end_of self.label ≤ length (bytes_of trie) }
        ensures begins { result ≡ begins_with (bytes_of trie.entry) name.now self }
        ensures fits { IsTrue result → self.label.len ≤ length name.now }
    {
        name.starts_with(trie.read_part(self.label))
    }

    // What is left of a name after the label, which begins it.
    fn rest(self, name: &[u8]) -> &[u8]
        requires { self.label.len ≤ length name.now }
        ensures { result.now ≡ drop self.label.len name.now }
    {
        &name[self.label.len as usize..]
    }
}

/// A node, by what it begins with. Its edges follow.
#[derive(Clone, Copy)]
pub struct ExportNode {
    /// The terminal part. It is empty if no name ends at the node.
    pub terminal: Span,
    /// How many edges it has.
    pub edge_count: u8,
    /// The place of the first.
    pub edges: u64,
}

impl ExportNode {
    ghost use Rattle.std.specs.Prelude.{◌≡◌, ◌≤◌, find, length, IfSome};
    ghost use Rattle.std.specs.Option.{option_map};
    ghost use Rattle.macho_fields.specs.Bytes.{bytes_of};
    ghost use Rattle.macho_spans.specs.Span.{end_of};
    ghost use Rattle.macho_exports.specs.ExportTrie.{head_at, edges_at, begins_with};

    /// Reads the node at `place`, up to its edges. It returns `None` if they would begin past the table.
    #[tactic(auto, unfolding(crate::specs::ExportTrie::head_at))]
    pub fn read(trie: Bytes, place: u64) -> Option<ExportNode>
        ensures head { result ≡ head_at (bytes_of trie.entry) place }
        ensures inside { IfSome result (λ head. end_of head.terminal ≤ length (bytes_of trie.entry)) }
    {
        let (len, start) = read_uleb(trie, place)?;
        let count = start.checked_add(len)?;
        let edge_count = trie.u8_at(count)?;
        Some(ExportNode {
            terminal: Span { start, len },
            edge_count,
            edges: count + 1,
        })
    }

    /// The first edge whose label begins the name, if there is one, and the place past the node. It reads all
    /// edges, and returns `None` if they do not end in the table.
    pub fn follow(self, trie: Bytes, name: &[u8]) -> Option<(Option<ExportEdge>, u64)>
        ensures first { result ≡ option_map (λ edges. (find (begins_with (bytes_of trie.entry) name.now) edges.0, edges.1))
            (edges_at self.edge_count (bytes_of trie.entry) self.edges) }
        ensures fits { IfSome result (λ followed. IfSome followed.0 (λ edge. edge.label.len ≤ length name.now)) }
    {
        let mut first = None;
        let mut place = self.edges;
        for _ in 0..self.edge_count {
            let (edge, next) = ExportEdge::read(trie, place)?;
            if first.is_none() && edge.begins(trie, name) {
                first = Some(edge);
            }
            place = next;
        }
        Some((first, place))
    }
}

/// Looks up a name, as a dynamic loader does: from the root on, at each node along the first edge whose label
/// begins the rest of the name, to a node with a terminal part at which the name ends. It returns `None` if
/// no such node exists, if this part cannot be read, or if a node on the way does not end in the table. All nodes on
/// the way, each as often as it is met, may have no more bytes than the table: that bounds what a look-up
/// reads, whatever the bytes are.
#[tactic(auto, unfolding(crate::specs::ExportTrie::find_export))]
pub fn find_export(trie: Bytes, name: &[u8]) -> Option<Export>
    ensures { result ≡ find_export_of (bytes_of trie.entry) name.now }
{
    let terminal = find_terminal(trie, name)?;
    let (export, _) = Export::read(trie, terminal)?;
    Some(export)
}

// The terminal part to which a name leads.
fn find_terminal(trie: Bytes, name: &[u8]) -> Option<Span>
    ensures terminal { result ≡ find_terminal_of (bytes_of trie.entry) name.now }
    ensures inside { IfSome result (λ terminal. end_of terminal ≤ length (bytes_of trie.entry)) }
{
    let mut rest = name;
    let mut place = 0;
    let mut left = trie.len();
    for _ in 0..trie.len() {
        let node = ExportNode::read(trie, place)?;
        let (edge, end) = node.follow(trie, rest)?;
        left = left.checked_sub(end - place)?;
        if rest.is_empty() && node.terminal.len > 0 {
            return Some(node.terminal);
        }
        let edge = edge?;
        rest = edge.rest(rest);
        place = edge.child;
    }
    None
}

// Reads the name at `place`, as a span without its zero byte. It returns the place past that byte, or `None` if no
// zero byte follows.
fn read_name(bytes: Bytes, place: u64) -> Option<(Span, u64)>
    ensures { result ≡ name_at (bytes_of bytes.entry) place }
{
    let rest = Span {
        start: place,
        len: bytes.len(),
    };
    let zero = bytes.first_zero(rest)?;
    let name = Span {
        start: place,
        len: zero - place,
    };
    Some((name, zero + 1))
}
