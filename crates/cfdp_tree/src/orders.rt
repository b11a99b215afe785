//! The entries of each directory, and of the root, in order of their names.
ghost use Rattle.std.specs.Option.{option_map};
ghost use Rattle.std.specs.Prelude.{◌≡◌, ◌≢◌, ◌<◌, ◌≤◌, ℕ, Option, Some, None, All, IfOk, IfSome, IfNone, length};
ghost use Rattle.cfdp_paths.specs.code.Paths.{name_cmp};
ghost use Rattle.cfdp_tree.specs.code.Nodes.{nodes_in};
ghost use Rattle.cfdp_tree.specs.code.Tree.{IsTree, IsNode, IsEntry, name_at};
ghost use Rattle.cfdp_tree.specs.code.Next.{IsFollowing, IsLeast};
ghost use Rattle.cfdp_tree.specs.code.Orders.{order_at, in_order, IsKnown, IsInOrders};

use crate::node_block::{name_in, name_is};
use cfdp_arena::{Arena, BlockId};
use cfdp_order::{Links, Order, Sought, first, first_after, first_from, insert, remove};
use cfdp_paths::Memory;
use std::alloc::Global;
use std::cmp::Ordering;

/// The orders of the entries of all directories and of the root, each by the names of the entries. The links of a node
/// and the order of a directory are at the number of its block. [`Orders::new`] takes all their memory: for each block
/// of the arena 6 octets for links, and 4 for an order.
#[derive(Drop)]
pub(crate) struct Orders {
    /// The links of each node to the others of its directory.
    pub(crate) links: Vec<Links>,
    /// The order of each directory.
    pub(crate) directories: Vec<Order>,
    /// The order of the root.
    pub(crate) root: Order,
}

/// A name that is sought among the entries of a directory.
#[derive(Clone, Copy)]
pub(crate) struct ByName<'a, 'n> {
    pub(crate) arena: &'a Arena,
    pub(crate) name: &'n [u8],
}

impl Sought for ByName<'_, '_> {
    ghost can_compare = { λ sought node. IsKnown (nodes_in sought.arena.now) node };

    ghost side = { λ sought node. name_cmp (name_at (nodes_in sought.arena.now) node) sought.name.now };

    fn compare(&self, node: u16) -> Ordering {
        let block = self.arena.bytes(BlockId::of_number(u32::from(node)));
        name_in(block).cmp(self.name)
    }
}

impl Orders {
    /// Orders without entries, for an arena of at most 65,536 blocks.
    ///
    /// # Errors
    ///
    /// [`Memory`] when out of memory: two allocations.
    pub(crate) fn new(alloc: Global, blocks: u32) -> Result<Orders, Memory>
        ensures links { IfOk result (λ orders. length orders.links.items ≡ blocks) }
        ensures directories { IfOk result (λ orders. length orders.directories.items ≡ blocks) }
        ensures empty { IfOk result (λ orders. (directory : Option ℕ) → (order_at orders directory).height ≡ 0) }
    {
        let mut links = Vec::new(alloc);
        links.resize(blocks as usize, Links::none())?;
        let mut directories = Vec::new(alloc);
        directories.resize(blocks as usize, Order::empty())?;
        Ok(Orders {
            links,
            directories,
            root: Order::empty(),
        })
    }

    /// The order of a directory, `None` for the root. In constant time.
    pub(crate) fn of(&self, directory: &Option<BlockId>) -> Order
        requires within { (d : ℕ) → directory.now ≡ Some d → d < length self.now.directories.items }
        ensures { result ≡ order_at self.now directory.now }
    {
        match directory {
            Some(directory) => self.directories[directory.number() as usize],
            None => self.root,
        }
    }

    /// Changes the order of a directory, `None` for the root. In constant time.
    fn set(&mut self, directory: &Option<BlockId>, order: Order)
        requires within { (d : ℕ) → directory.now ≡ Some d → d < length self.old.directories.items }
        ensures here { order_at self.new directory.now ≡ order }
        ensures others { (other : Option ℕ) → other ≢ directory.now
            → order_at self.new other ≡ order_at self.old other }
        ensures links { self.new.links.items ≡ self.old.links.items }
        ensures length { length self.new.directories.items ≡ length self.old.directories.items }
    {
        match directory {
            Some(directory) => self.directories[directory.number() as usize] = order,
            None => self.root = order,
        }
    }

    /// Puts a node that is in no order into that of its directory, `None` for the root, by its name. In time
    /// logarithmic in the entries of the directory, whatever their names: at most 22 names are compared.
    pub(crate) fn enter(
        &mut self,
        arena: &Arena,
        node: BlockId,
        directory: Option<BlockId>,
        name: &[u8],
    )
        requires tree { IsTree (nodes_in arena.now) }
        requires ordered { IsInOrders (nodes_in arena.now) self.old (Some node) }
        requires entry { IsEntry (nodes_in arena.now) directory name.now node }
        ensures { IsInOrders (nodes_in arena.now) self.new None }
    {
        // Read for its contract alone: an arena has 1 to 65,536 blocks.
        let _free = arena.free();
        let order = self.of(&directory);
        let sought = ByName { arena, name };
        let order = insert(&mut self.links, order, node.number() as u16, &sought);
        self.set(&directory, order);
    }

    /// Takes a node out of the order of its directory, `None` for the root. In time logarithmic in the entries of the
    /// directory, whatever their names: at most 22 names are compared.
    pub(crate) fn leave(
        &mut self,
        arena: &Arena,
        node: BlockId,
        directory: Option<BlockId>,
        name: &[u8],
    )
        requires tree { IsTree (nodes_in arena.now) }
        requires ordered { IsInOrders (nodes_in arena.now) self.old None }
        requires entry { IsEntry (nodes_in arena.now) directory name.now node }
        ensures { IsInOrders (nodes_in arena.now) self.new (Some node) }
    {
        // Read for its contract alone: an arena has 1 to 65,536 blocks.
        let _free = arena.free();
        let order = self.of(&directory);
        let sought = ByName { arena, name };
        let order = remove(&mut self.links, order, node.number() as u16, &sought);
        self.set(&directory, order);
    }

    /// The entry of a directory, `None` for the root, under this name. In time logarithmic in the entries of the
    /// directory, whatever their names: at most 23 names are compared.
    pub(crate) fn find(
        &self,
        arena: &Arena,
        directory: &Option<BlockId>,
        name: &[u8],
    ) -> Option<BlockId>
        requires tree { IsTree (nodes_in arena.now) }
        requires ordered { IsInOrders (nodes_in arena.now) self.now None }
        requires directory { (d : ℕ) → directory.now ≡ Some d → IsNode (nodes_in arena.now) d }
        requires short { length name.now ≤ 96 }
        ensures found { IfSome result (λ b. IsEntry (nodes_in arena.now) directory.now name.now b) }
        ensures none { IfNone result ((b : ℕ) → IsEntry (nodes_in arena.now) directory.now name.now b → ⊥) }
    {
        // Read for its contract alone: an arena has 1 to 65,536 blocks.
        let _free = arena.free();
        let order = self.of(directory);
        let found = first_from(&self.links, order, &ByName { arena, name })?;
        let node = BlockId::of_number(u32::from(found));
        if name_is(arena.bytes(node), name) {
            Some(node)
        } else {
            None
        }
    }

    /// The entry of a directory, `None` for the root, with the least of the names that are greater than this one, or of
    /// all names if none is given. In time logarithmic in the entries of the directory, whatever their names: at most
    /// 22 names are compared.
    pub(crate) fn least_after(
        &self,
        arena: &Arena,
        directory: &Option<BlockId>,
        after: Option<&[u8]>,
    ) -> Option<BlockId>
        requires tree { IsTree (nodes_in arena.now) }
        requires ordered { IsInOrders (nodes_in arena.now) self.now None }
        requires directory { (d : ℕ) → directory.now ≡ Some d → IsNode (nodes_in arena.now) d }
        ensures least { IfSome result (λ b. IsLeast (nodes_in arena.now)
            (option_map (λ name. name.now) after.entry) (in_order self.now directory.now) b) }
        ensures none { IfNone result (All (λ c. IsFollowing (option_map (λ name. name.now) after.entry)
            (name_at (nodes_in arena.now) c) → ⊥) (in_order self.now directory.now)) }
    {
        // Read for its contract alone: an arena has 1 to 65,536 blocks.
        let _free = arena.free();
        let order = self.of(directory);
        let found = match after {
            Some(name) => first_after(&self.links, order, &ByName { arena, name })?,
            None => first(&self.links, order)?,
        };
        Some(BlockId::of_number(u32::from(found)))
    }
}
