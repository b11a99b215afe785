//! The index: nodes by their directory and their name.
ghost use Rattle.std.specs.Prelude.{◌≡◌, ◌≢◌, ◌+◌, ◌-◌, ◌<◌, ◌≤◌, ◌↔◌, ℕ, Some, None, All, AllPairs, Contains, fold, length, IsTrue, IfSome, IfNone};
ghost use Rattle.cfdp_arena.specs.Arena.{free_count};
ghost use Rattle.cfdp_tree.specs.code.Nodes.{nodes_in};
ghost use Rattle.cfdp_tree.specs.code.Runs.{RunsStay};
ghost use Rattle.cfdp_tree.specs.code.Tree.{IsTree, IsNode, IsEntry, Relinked, node_fields_at};
ghost use Rattle.cfdp_tree.specs.code.Index.{node_hash, bucket_of, index_chain, list_of, without_node, head_count, IsIndex};
ghost use Rattle.cfdp_tree.specs.code.Orders.{IsInOrders};

use crate::node_block::{home_is, name_is, same_head_of, set_same_head};
use crate::orders::Orders;
use cfdp_arena::{Arena, BlockId};
use std::hash::{FoldHasher, Hasher};

/// The nodes of a directory and a name, and of others whose hash leads here too: where the list of some of them begins,
/// how many are in it, and how many are not. Where the list is empty, its first node means nothing.
#[derive(Clone, Copy)]
pub(crate) struct ListHead {
    pub(crate) first: BlockId,
    pub(crate) listed: u16,
    pub(crate) unlisted: u16,
}

/// The most nodes of a list. In a full store about one head in a million has more nodes by chance.
const MOST_LISTED: u16 = 8;

impl ListHead {
    /// The head of no nodes.
    pub(crate) fn empty() -> ListHead
        ensures first { result.first ≡ 0 }
        ensures listed { result.listed ≡ 0 }
        ensures unlisted { result.unlisted ≡ 0 }
    {
        ListHead {
            first: BlockId::of_number(0),
            listed: 0,
            unlisted: 0,
        }
    }
}

/// A number for a directory, `None` for the root, and a name in it. In time linear in the name, by 16 octets a step.
fn hash_of(directory: Option<BlockId>, name: &[u8]) -> u64
    ensures { result ≡ node_hash directory name.now }
{
    let mut hasher = FoldHasher::default();
    if let Some(directory) = directory {
        hasher.write_u32(directory.number());
    }
    hasher.write(name);
    hasher.finish()
}

/// The index of the head of a directory and a name: the high 64 bits of their hash times the number of heads. A
/// division would be many times slower.
#[inline(always)]
pub(crate) fn bucket_of(heads: &[ListHead], directory: Option<BlockId>, name: &[u8]) -> usize
    requires some { 0 < length heads.now }
    ensures bucket { result ≡ bucket_of directory name.now (length heads.now) }
    ensures within { result < length heads.now }
{
    let hash = hash_of(directory, name);
    let product = heads.len() as u128 * hash as u128;
    (product >> 64) as usize
}

/// Puts a node into the index: into the list of the head of its directory and name, unless that is full. In constant
/// time.
pub(crate) fn insert(
    arena: &mut Arena,
    heads: &mut [ListHead],
    node: BlockId,
    directory: Option<BlockId>,
    name: &[u8],
)
    requires tree { IsTree (nodes_in arena.old) }
    requires index { IsIndex (nodes_in arena.old) heads.old (Some node) }
    requires entry { IsEntry (nodes_in arena.old) directory name.now node }
    ensures index { IsIndex (nodes_in arena.new) heads.new None }
    ensures links { Relinked (nodes_in arena.old) (nodes_in arena.new) }
    ensures runs { RunsStay arena.old arena.new }
    ensures free { free_count arena.new ≡ free_count arena.old }
    ensures size { length arena.new ≡ length arena.old }
{
    // Read for its contract alone: an arena has 1 to 65,536 blocks.
    let _free = arena.free();
    let bucket = bucket_of(heads, directory, name);
    let head = heads[bucket];
    if head.listed == MOST_LISTED {
        heads[bucket] = ListHead {
            unlisted: head.unlisted + 1,
            ..head
        };
        return;
    }
    set_same_head(arena.bytes_mut(node), head.first);
    heads[bucket] = ListHead {
        first: node,
        listed: head.listed + 1,
        ..head
    };
}

/// Takes a node out of the index. In constant time: it goes through at most 8 nodes.
pub(crate) fn remove(
    arena: &mut Arena,
    heads: &mut [ListHead],
    node: BlockId,
    directory: Option<BlockId>,
    name: &[u8],
)
    requires tree { IsTree (nodes_in arena.old) }
    requires index { IsIndex (nodes_in arena.old) heads.old None }
    requires entry { IsEntry (nodes_in arena.old) directory name.now node }
    ensures index { IsIndex (nodes_in arena.new) heads.new (Some node) }
    ensures links { Relinked (nodes_in arena.old) (nodes_in arena.new) }
    ensures runs { RunsStay arena.old arena.new }
    ensures free { free_count arena.new ≡ free_count arena.old }
    ensures size { length arena.new ≡ length arena.old }
{
    let bucket = bucket_of(heads, directory, name);
    let head = heads[bucket];
    heads[bucket] = take_out(arena, &head, node);
}

/// A head without one of its nodes, which goes out of its list if it is in it. In constant time: the list has at most
/// 8 nodes.
fn take_out(arena: &mut Arena, head: &ListHead, node: BlockId) -> ListHead
    requires tree { IsTree (nodes_in arena.old) }
    requires node { IsNode (nodes_in arena.old) node }
    requires nodes { All (IsNode (nodes_in arena.old)) (list_of (nodes_in arena.old) head.now) }
    requires once { AllPairs (λ b c. b ≢ c) (list_of (nodes_in arena.old) head.now) }
    requires there { (Contains (list_of (nodes_in arena.old) head.now) node → ⊥) → 0 < head.now.unlisted }
    requires small { head.now.first < 65536 }
    ensures list { list_of (nodes_in arena.new) result ≡ without_node node (list_of (nodes_in arena.old) head.now) }
    ensures others { (other : ListHead)
        → All (λ b. Contains (list_of (nodes_in arena.old) head.now) b → ⊥) (list_of (nodes_in arena.old) other)
        → list_of (nodes_in arena.new) other ≡ list_of (nodes_in arena.old) other }
    ensures count { head_count result + 1 ≡ head_count head.now }
    ensures few { result.listed ≤ head.now.listed }
    ensures small { result.first < 65536 }
    ensures links { Relinked (nodes_in arena.old) (nodes_in arena.new) }
    ensures runs { RunsStay arena.old arena.new }
    ensures free { free_count arena.new ≡ free_count arena.old }
    ensures size { length arena.new ≡ length arena.old }
{
    let next = same_head_of(arena.bytes(node));
    if head.listed > 0 && head.first == node {
        return ListHead {
            first: next,
            listed: head.listed - 1,
            ..*head
        };
    }
    let Some(before) = node_before(arena, head, node) else {
        return ListHead {
            unlisted: head.unlisted - 1,
            ..*head
        };
    };
    set_same_head(arena.bytes_mut(before), next);
    ListHead {
        listed: head.listed - 1,
        ..*head
    }
}

/// The node of a list that names this one as the next one. This one is not the list's first; `None` if it is not in the
/// list.
fn node_before(arena: &Arena, head: &ListHead, node: BlockId) -> Option<BlockId>
    requires nodes { All (IsNode (nodes_in arena.now)) (list_of (nodes_in arena.now) head.now) }
    requires later { 0 < head.now.listed → head.now.first ≢ node }
    ensures before { IfSome result (λ b. (node_fields_at (nodes_in arena.now) b).same_head ≡ node) }
    ensures there { IfSome result (λ b. Contains (index_chain (nodes_in arena.now)
        (head.now.listed - 1) head.now.first) b) }
    ensures none { IfNone result (Contains (list_of (nodes_in arena.now) head.now) node → ⊥) }
{
    let mut before = head.first;
    for _step in 1..head.listed {
        let next = same_head_of(arena.bytes(before));
        if next == node {
            return Some(before);
        }
        before = next;
    }
    None
}

/// The node that is in this directory under this name. In expected constant time. Where strangers chose many names of
/// one hash, in time logarithmic in the entries of the directory, whatever their names: at most 8 names of the list are
/// compared, and then at most 23.
#[inline(always)]
pub(crate) fn find(
    arena: &Arena,
    heads: &[ListHead],
    orders: &Orders,
    directory: Option<BlockId>,
    name: &[u8],
) -> Option<BlockId>
    requires tree { IsTree (nodes_in arena.now) }
    requires index { IsIndex (nodes_in arena.now) heads.now None }
    requires ordered { IsInOrders (nodes_in arena.now) orders.now None }
    requires directory { (d : ℕ) → directory ≡ Some d → IsNode (nodes_in arena.now) d }
    requires short { length name.now ≤ 96 }
    ensures found { IfSome result (λ b. IsEntry (nodes_in arena.now) directory name.now b) }
    ensures none { IfNone result ((b : ℕ) → IsEntry (nodes_in arena.now) directory name.now b → ⊥) }
{
    let bucket = bucket_of(heads, directory, name);
    let head = heads[bucket];
    let mut node = head.first;
    for _step in 0..head.listed {
        if is_entry(arena, node, &directory, name) {
            return Some(node);
        }
        node = same_head_of(arena.bytes(node));
    }
    if head.unlisted == 0 {
        return None;
    }
    orders.find(arena, &directory, name)
}

/// Whether the node is in this directory under this name.
fn is_entry(arena: &Arena, node: BlockId, directory: &Option<BlockId>, name: &[u8]) -> bool
    requires tree { IsTree (nodes_in arena.now) }
    requires node { IsNode (nodes_in arena.now) node }
    requires short { length name.now ≤ 96 }
    ensures { IsTrue result ↔ IsEntry (nodes_in arena.now) directory.now name.now node }
{
    let block = arena.bytes(node);
    home_is(block, node, directory) && name_is(block, name)
}
