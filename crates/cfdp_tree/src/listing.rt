//! What is at nodes, as callers see it.
ghost use Rattle.std.specs.Prelude.{◌≡◌, [], ◌∷◌, Some, All, IfOk, length, map};
ghost use Rattle.cfdp_arena.specs.Arena.{octets_of};
ghost use Rattle.cfdp_checksum.specs.Checksum.{checksum};
ghost use Rattle.cfdp_actions.specs.Filestore.{octets_in};
ghost use Rattle.cfdp_actions.specs.Store.{listing_entry, kind_of, existing_node};
ghost use Rattle.cfdp_tree.specs.code.Kept.{node_of};
ghost use Rattle.cfdp_tree.specs.code.Nodes.{nodes_in};
ghost use Rattle.cfdp_tree.specs.code.NodesBelow.{shown_node, IsSoundNode};

use crate::node_block::{kind_of, size_of, sum_of};
use cfdp_actions::{Entry, ExistingNode, Kind};
use cfdp_arena::{Arena, BlockId};
use cfdp_paths::{Memory, Path};
use std::alloc::Global;

/// What is at some nodes that come with their paths. In time linear in their number.
///
/// # Errors
///
/// [`Memory`] where there was none for the vector: one allocation.
pub(crate) fn existing_nodes(
    alloc: Global,
    arena: &Arena,
    found: Vec<(Path, BlockId)>,
) -> Result<Vec<ExistingNode>, Memory>
    requires sound { All (IsSoundNode arena.now) found.items }
    ensures { IfOk result (λ all. all.items
        ≡ map (λ e. existing_node (shown_node arena.now (nodes_in arena.now) e)) found.items) }
{
    let mut all = Vec::with_capacity(alloc, found.len())?;
    for (path, node) in found {
        all.push(existing(arena, path, node))?;
    }
    Ok(all)
}

/// What exists at the path of a node that has nothing below it: one element. In time linear in the octets of the path.
///
/// # Errors
///
/// [`Memory`] when out of memory: one allocation for the path and one for the vector.
pub(crate) fn only_existing(
    alloc: Global,
    arena: &Arena,
    path: &Path,
    node: BlockId,
) -> Result<Vec<ExistingNode>, Memory>
    requires { IsSoundNode arena.now (path.now, node) }
    ensures { IfOk result (λ all. all.items
        ≡ existing_node (shown_node arena.now (nodes_in arena.now) (path.now, node)) ∷ []) }
{
    let mut all = Vec::with_capacity(alloc, 1)?;
    all.push(existing(arena, path.copy(alloc)?, node))?;
    Ok(all)
}

/// Like `existing_nodes`, with the checksums of the files. In time linear in the number of the nodes.
///
/// # Errors
///
/// [`Memory`] where there was none for the vector: one allocation.
pub(crate) fn entries(
    alloc: Global,
    arena: &Arena,
    found: Vec<(Path, BlockId)>,
) -> Result<Vec<Entry>, Memory>
    requires sound { All (IsSoundNode arena.now) found.items }
    ensures { IfOk result (λ all. all.items
        ≡ map (λ e. listing_entry (shown_node arena.now (nodes_in arena.now) e)) found.items) }
{
    let mut all = Vec::with_capacity(alloc, found.len())?;
    for (path, node) in found {
        all.push(entry(arena, path, node))?;
    }
    Ok(all)
}

/// What is at a node.
fn existing(arena: &Arena, path: Path, node: BlockId) -> ExistingNode
    requires { IsSoundNode arena.now (path, node) }
    ensures { result ≡ existing_node (shown_node arena.now (nodes_in arena.now) (path, node)) }
{
    let block = arena.bytes(node);
    match kind_of(block) {
        Kind::Directory => ExistingNode {
            path,
            kind: Kind::Directory,
            size: 0,
        },
        Kind::File => ExistingNode {
            path,
            kind: Kind::File,
            size: u64::from(size_of(block)),
        },
    }
}

/// Like `existing`, with the checksum of a file.
fn entry(arena: &Arena, path: Path, node: BlockId) -> Entry
    requires { IsSoundNode arena.now (path, node) }
    ensures { result ≡ listing_entry (shown_node arena.now (nodes_in arena.now) (path, node)) }
{
    let found = found_at(arena, node);
    Entry {
        path,
        kind: found.kind,
        size: found.size,
        checksum: found.checksum,
    }
}

/// What is at a path.
#[derive(Clone, Copy, Debug, PartialEq, Eq)]
pub struct Found {
    /// Whether it is a file or a directory.
    pub kind: Kind,
    /// How many octets a file has; 0 for a directory.
    pub size: u64,
    /// A file's modular checksum (CCSDS 727.0-B-5, checksum procedures); 0 for a directory.
    pub checksum: u32,
}

/// What is at a node. In constant time.
pub(crate) fn found_at(arena: &Arena, node: BlockId) -> Found
    requires { IsSoundNode arena.now ([], node) }
    ensures kind { result.kind ≡ kind_of (node_of arena.now (octets_of (nodes_in arena.now) node)) }
    ensures size { result.size ≡ length (octets_in (Some
        (node_of arena.now (octets_of (nodes_in arena.now) node)))) }
    ensures checksum { result.checksum
        ≡ checksum (octets_in (Some (node_of arena.now (octets_of (nodes_in arena.now) node)))) }
{
    let block = arena.bytes(node);
    match kind_of(block) {
        Kind::Directory => Found {
            kind: Kind::Directory,
            size: 0,
            checksum: 0,
        },
        Kind::File => Found {
            kind: Kind::File,
            size: u64::from(size_of(block)),
            checksum: sum_of(block),
        },
    }
}
