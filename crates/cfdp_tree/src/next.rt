//! What comes next after a path in path order.
ghost use Rattle.std.specs.Prelude.{◌≡◌, ◌≤◌, ◌++◌, ℕ, Some, None, All, IfSome, IfNone, take, drop, length};
ghost use Rattle.cfdp_paths.specs.Paths.{IsName};
ghost use Rattle.cfdp_tree.specs.code.Nodes.{nodes_in};
ghost use Rattle.cfdp_tree.specs.code.Tree.{IsTree, IsNode};
ghost use Rattle.cfdp_tree.specs.code.Directories.{path_at};
ghost use Rattle.cfdp_tree.specs.code.Orders.{IsInOrders};
ghost use Rattle.cfdp_tree.specs.Next.{IsNextEntry, IsLast};
ghost use Rattle.cfdp_tree.specs.code.Next.{ComesAfter, IsFirst};

use crate::listing::found_at;
use crate::orders::Orders;
use crate::spelling::write_path;
use crate::tree_store::TreeStore;
use cfdp_actions::Kind;
use cfdp_arena::{Arena, BlockId};
use cfdp_paths::Names;

/// What [`TreeStore::next_entry`] finds.
#[derive(Clone, Copy)]
pub struct NextEntry {
    /// Where the octets that spell its path begin in the buffer, which they fill up to its end.
    pub start: usize,
    /// Whether it is a file or a directory.
    pub kind: Kind,
    /// How many octets the file has; 0 of a directory.
    pub size: u64,
    /// The modular checksum of its octets (CCSDS 727.0-B-5, checksum procedures); 0 of a directory.
    pub checksum: u32,
}

impl TreeStore {
    /// Finds what comes next after a path in path order: the least path of all in the store that are greater than it.
    /// The path itself need not exist, and with no names the first path of all is found.
    ///
    /// The octets that spell the found path, with no `/` at the start, go to the end of the buffer, which has room for
    /// at least 776 octets. They begin at [`NextEntry::start`], and the octets before that stay as they were. `None`
    /// where no path in the store is greater: the whole buffer then stays as it was.
    ///
    /// Takes no memory. In time logarithmic in the entries of the directories on the way, whatever their names and
    /// whatever the size of the found file: in each of them at most 45 names are compared. There are at most 9, with
    /// the root.
    pub fn next_entry(&self, after: Names<'_>, text: &mut [u8]) -> Option<NextEntry>
        requires names { All IsName after }
        requires room { 776 ≤ length text.old }
        ensures next { IfSome result (λ entry. IsNextEntry self.now.filestore after.entry
            (drop entry.start text.new) entry) }
        ensures within { IfSome result (λ entry. entry.start ≤ length text.new) }
        ensures before { IfSome result (λ entry. take entry.start text.new ≡ take entry.start text.old) }
        ensures none { IfNone result (IsLast self.now.filestore after.entry) }
        ensures unchanged { IfNone result (text.new ≡ text.old) }
        ensures length { length text.new ≡ length text.old }
    {
        let node = next_below(&self.arena, &self.orders, &None, after)?;
        let start = write_path(&self.arena, node, text);
        let found = found_at(&self.arena, node);
        Some(NextEntry {
            start,
            kind: found.kind,
            size: found.size,
            checksum: found.checksum,
        })
    }
}

/// The first node in path order after the path that a node, or the root for `None`, and more names make, among the
/// nodes at and below it. Takes no memory. In time logarithmic in the entries of the directories on the way, by at most
/// 9 calls within one another.
fn next_below(
    arena: &Arena,
    orders: &Orders,
    directory: &Option<BlockId>,
    mut names: Names<'_>,
) -> Option<BlockId>
    requires tree { IsTree (nodes_in arena.now) }
    requires ordered { IsInOrders (nodes_in arena.now) orders.now None }
    requires directory { (d : ℕ) → directory.now ≡ Some d → IsNode (nodes_in arena.now) d }
    requires names { All IsName names }
    ensures first { IfSome result (λ b. IsFirst (nodes_in arena.now)
        (path_at (nodes_in arena.now) directory.now) (path_at (nodes_in arena.now) directory.now ++ names.entry) b) }
    ensures none { IfNone result ((b : ℕ) → ComesAfter (nodes_in arena.now)
        (path_at (nodes_in arena.now) directory.now) (path_at (nodes_in arena.now) directory.now ++ names.entry) b →
        ⊥) }
{
    let Some(name) = names.next() else {
        return orders.least_after(arena, directory, None);
    };
    if let Some(node) = orders.find(arena, directory, name) {
        let below = next_below(arena, orders, &Some(node), names);
        if below.is_some() {
            return below;
        }
    }
    orders.least_after(arena, directory, Some(name))
}
