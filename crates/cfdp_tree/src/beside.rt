//! What is below a directory, but for some of its entries and what is below these.
ghost use Rattle.std.specs.Prelude.{◌≡◌, ℕ, ◌+◌, ◌≤◌, ◌++◌, [], ◌∷◌, not, max, is_ok, length, slice_range, AllPairs, IsTrue, MatchResult};
ghost use Rattle.std.specs.List.{list_any};
ghost use Rattle.cfdp_order.specs.Orders.{nodes, IsOrder};
ghost use Rattle.cfdp_paths.specs.Paths.{same_path};
ghost use Rattle.cfdp_tree.specs.code.Beside.{AreChildrenInOrder, DividesAt, is_entry_beside, entries_beside};
ghost use Rattle.cfdp_tree.specs.code.Nodes.{nodes_in};
ghost use Rattle.cfdp_tree.specs.code.Tree.{IsTree};
ghost use Rattle.cfdp_tree.specs.code.Orders.{IsInOrders, IsKnown, Rises};
ghost use Rattle.cfdp_tree.specs.code.Walk.{walks_at, most_names_in, IsAtDepth, AreAtDepth};

use crate::node_block::name_in;
use crate::orders::Orders;
use crate::walk::deepest_in;
use cfdp_arena::{Arena, BlockId};
use cfdp_order::Order;
use cfdp_paths::{MOST_NAMES, Path};

/// Entries of a directory that are left out: those whose paths are given.
#[derive(Clone, Copy)]
pub(crate) struct Others<'a> {
    /// The path of the directory.
    pub(crate) directory: &'a Path,
    /// The paths. Those that are no children of the directory leave nothing out.
    pub(crate) paths: &'a [Path],
    /// If this is true, all paths are children of the directory and are in path order: then an entry is sought by
    /// halves, and divides them. If not, it is compared with each path in turn.
    are_ordered: bool,
    ghost in_order: { IsTrue are_ordered → AreChildrenInOrder directory.now paths.now },
}

/// What an entry of a directory divides others into. Where these are in no order, each part has all of them.
#[derive(Clone, Copy)]
struct Divided<'a> {
    /// Those that can be entries before this one.
    before: Others<'a>,
    /// Those that can be this entry.
    at: Others<'a>,
    /// Those that can be entries after this one.
    after: Others<'a>,
}

/// Whether all paths are children of the directory and are in path order. Cost: two comparisons for each path.
fn are_children_in_order(directory: &Path, paths: &[Path]) -> bool
    ensures { IsTrue result → AreChildrenInOrder directory.now paths.now }
{
    paths.is_sorted() && paths.iter().all(|path| path.is_child_of(directory))
}

impl<'a> Others<'a> {
    /// The entries of the directory that have these paths. Takes no memory. Cost: two comparisons for each path.
    pub(crate) fn new(directory: &'a Path, paths: &'a [Path]) -> Others<'a>
        ensures directory { result.directory.now ≡ directory.now }
        ensures paths { result.paths.now ≡ paths.now }
    {
        let are_ordered = are_children_in_order(directory, paths);
        Others {
            directory,
            paths,
            are_ordered,
        }
    }
}

impl<'a> Others<'a> {
    /// Some of these, which follow one another: from one index up to another.
    fn part(&self, start: usize, end: usize) -> Others<'a>
        requires start { start ≤ end }
        requires end { end ≤ length self.now.paths.now }
        ensures directory { result.directory.now ≡ self.now.directory.now }
        ensures paths { result.paths.now ≡ slice_range self.now.paths.now start end }
    {
        Others {
            directory: self.directory,
            paths: &self.paths[start..end],
            are_ordered: self.are_ordered,
        }
    }

    /// What the directory's entry divides these into, of which this is the number of the node. Takes no memory. Where
    /// the paths are in path order, the name is compared with the logarithm of their number, else with none.
    fn around(&self, arena: &Arena, node: u16) -> Divided<'a>
        requires { IsKnown (nodes_in arena.now) node }
        ensures directory { result.before.directory.now ≡ self.now.directory.now }
        ensures same_directory { result.at.directory.now ≡ self.now.directory.now }
        ensures one_directory { result.after.directory.now ≡ self.now.directory.now }
        ensures before { (b : ℕ) → Rises (nodes_in arena.now) b node
            → is_entry_beside self.now.directory.now result.before.paths.now (nodes_in arena.now) b
            ≡ is_entry_beside self.now.directory.now self.now.paths.now (nodes_in arena.now) b }
        ensures at { is_entry_beside self.now.directory.now result.at.paths.now (nodes_in arena.now) node
            ≡ is_entry_beside self.now.directory.now self.now.paths.now (nodes_in arena.now) node }
        ensures after { (b : ℕ) → Rises (nodes_in arena.now) node b
            → is_entry_beside self.now.directory.now result.after.paths.now (nodes_in arena.now) b
            ≡ is_entry_beside self.now.directory.now self.now.paths.now (nodes_in arena.now) b }
    {
        if !self.are_ordered {
            return Divided {
                before: *self,
                at: *self,
                after: *self,
            };
        }
        let block = arena.bytes(BlockId::of_number(u32::from(node)));
        let (start, end) = match find_child(self.directory, self.paths, name_in(block)) {
            Ok(index) => (index, index + 1),
            Err(index) => (index, index),
        };
        Divided {
            before: self.part(0, start),
            at: self.part(start, end),
            after: self.part(end, self.paths.len()),
        }
    }
}

impl Others<'_> {
    /// Whether a path is that of the directory's entry of this name.
    fn is_entry(&self, path: &Path, name: &[u8]) -> bool
        ensures { result ≡ same_path (self.now.directory.now ++ name.now ∷ []) path.now }
    {
        path.is_child_of(self.directory) && path.name(self.directory.depth()) == name
    }

    /// Whether the entry of this name is left out. Where the paths are in path order, the name is compared with the
    /// logarithm of their number; else with each path.
    fn has(&self, name: &[u8]) -> bool
        ensures { result ≡ list_any (same_path (self.now.directory.now ++ name.now ∷ [])) self.now.paths.now }
    {
        if self.are_ordered {
            find_child(self.directory, self.paths, name).is_ok()
        } else {
            self.paths.iter().any(|path| self.is_entry(path, name))
        }
    }

    /// Whether an entry of the directory, of which this is the number of the node, is not left out.
    fn leaves(&self, arena: &Arena, node: u16) -> bool
        requires { IsKnown (nodes_in arena.now) node }
        ensures { result ≡ is_entry_beside self.now.directory.now self.now.paths.now (nodes_in arena.now) node }
    {
        let block = arena.bytes(BlockId::of_number(u32::from(node)));
        !self.has(name_in(block))
    }
}

/// `Ok`: the index of the path of the directory's entry of this name, among children of the directory in path order.
/// `Err`: there is none, and this is the index of the first path that comes after it. Takes no memory. The name is
/// compared with the logarithm of their number.
fn find_child(directory: &Path, children: &[Path], name: &[u8]) -> Result<usize, usize>
    requires { AreChildrenInOrder directory.now children.now }
    ensures found { is_ok result ≡ list_any (same_path (directory.now ++ name.now ∷ [])) children.now }
    ensures divides { MatchResult result (λ k. DividesAt directory.now name.now children.now k (k + 1))
        (λ k. DividesAt directory.now name.now children.now k k) }
{
    let depth = directory.depth();
    children.binary_search_by(|child| child.name(depth).cmp(name))
}

/// Whether one of the directory's entries in this order is not left out. Takes no memory. It looks at no more entries
/// than are left out, and one for each level of the order, by at most 23 calls within one another.
pub(crate) fn any_beside(arena: &Arena, orders: &Orders, order: Order, others: &Others<'_>) -> bool
    requires tree { IsTree (nodes_in arena.now) }
    requires ordered { IsInOrders (nodes_in arena.now) orders.now None }
    requires order { IsOrder orders.now.links.items order }
    requires rising { AllPairs (Rises (nodes_in arena.now)) (nodes orders.now.links.items order) }
    requires deep { AreAtDepth (nodes_in arena.now) (length others.now.directory.now + 1)
        (nodes orders.now.links.items order) }
    ensures { result ≡ list_any (is_entry_beside others.now.directory.now others.now.paths.now (nodes_in arena.now))
        (nodes orders.now.links.items order) }
{
    // Read for its contract alone: an arena has 1 to 65,536 blocks.
    let _free = arena.free();
    if order.is_empty() {
        return false;
    }
    if others.paths.is_empty() {
        return true;
    }
    let around = orders.links[usize::from(order.root)];
    let parts = others.around(arena, order.root);
    any_beside(arena, orders, around.left(), &parts.before)
        || parts.at.leaves(arena, order.root)
        || any_beside(arena, orders, around.right(), &parts.after)
}

/// The most names of a path at or below one entry of the directory, whose node has this number; `before` if that is
/// more or the entry is left out. Takes no memory. A file or an empty directory is looked up among the paths only if it
/// could change the result. A directory with entries is looked up first, and is not walked over if it is left out.
fn deepest_at(
    arena: &Arena,
    orders: &Orders,
    node: u16,
    others: &Others<'_>,
    before: usize,
) -> usize
    requires tree { IsTree (nodes_in arena.now) }
    requires ordered { IsInOrders (nodes_in arena.now) orders.now None }
    requires deep { IsAtDepth (nodes_in arena.now) (length others.now.directory.now + 1) node }
    requires before { before ≤ 8 }
    ensures value { result ≡ max before (most_names_in (nodes_in arena.now)
        (walks_at orders.now (length others.now.directory.now + 1)
        (entries_beside others.now.directory.now others.now.paths.now (nodes_in arena.now) (node ∷ [])))) }
    ensures within { result ≤ 8 }
{
    let entries = orders.directories[usize::from(node)];
    let depth = others.directory.depth() + 1;
    if entries.is_empty() && depth <= before {
        return before;
    }
    if !others.leaves(arena, node) {
        return before;
    }
    let here = depth.max(deepest_in(arena, orders, entries, depth + 1));
    before.max(here)
}

/// The most names of a path at or below the directory's entries in this order, without those that are left out; `most`
/// if that is more. Takes no memory. In time linear in what is there, without what is below the entries that are left
/// out, by at most 23 calls within one another for the directory and each one on the way down. It ends at a path of 8
/// names.
///
/// Where the paths are in path order, the top entry of the order divides them into those before it and those after it,
/// by a search by halves. Entries among which none is left out are walked over without a search. So an entry is sought
/// only if it is on the way down the order to one of the paths. Where the paths are in no order, each directory with
/// entries is compared with each of them; so are the other entries, up to the first that is not left out.
pub(crate) fn deepest_beside(
    arena: &Arena,
    orders: &Orders,
    order: Order,
    others: &Others<'_>,
    most: usize,
) -> usize
    requires tree { IsTree (nodes_in arena.now) }
    requires ordered { IsInOrders (nodes_in arena.now) orders.now None }
    requires order { IsOrder orders.now.links.items order }
    requires rising { AllPairs (Rises (nodes_in arena.now)) (nodes orders.now.links.items order) }
    requires deep { AreAtDepth (nodes_in arena.now) (length others.now.directory.now + 1)
        (nodes orders.now.links.items order) }
    requires most { most ≤ 8 }
    ensures value { result ≡ max most (most_names_in (nodes_in arena.now)
        (walks_at orders.now (length others.now.directory.now + 1)
        (entries_beside others.now.directory.now others.now.paths.now (nodes_in arena.now)
        (nodes orders.now.links.items order)))) }
    ensures within { result ≤ 8 }
{
    // Read for its contract alone: an arena has 1 to 65,536 blocks.
    let _free = arena.free();
    if order.is_empty() {
        return most;
    }
    if others.paths.is_empty() {
        return most.max(deepest_in(arena, orders, order, others.directory.depth() + 1));
    }
    let around = orders.links[usize::from(order.root)];
    let parts = others.around(arena, order.root);
    let left = around.left();
    let before = if left.is_empty() {
        most
    } else {
        deepest_beside(arena, orders, left, &parts.before, most)
    };
    if before == MOST_NAMES {
        return before;
    }
    let sofar = deepest_at(arena, orders, order.root, &parts.at, before);
    let right = around.right();
    if right.is_empty() {
        return sofar;
    }
    deepest_beside(arena, orders, right, &parts.after, sofar)
}
