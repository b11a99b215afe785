//! The store whose files are in an arena.

ghost use Rattle.std.specs.Prelude.{◌≡◌, ◌≤◌, true, IsTrue, IfOk, Some, None, [], ◌∷◌};
ghost use Rattle.cfdp_actions.specs.Filestore.{Becomes, node_at, parent_is_good};
ghost use Rattle.cfdp_actions.specs.Store.{empty_store, free_blocks, with_changes};
ghost use Rattle.cfdp_tree.specs.code.Changes.{empty_node};

use crate::beside::{Others, any_beside, deepest_beside};
use crate::contents::{Contents, contents_of, held_by};
use crate::files::{find_file, set_contents};
use crate::index;
use crate::index::{ListHead, insert};
use crate::listing::{entries, existing_nodes, only_existing};
use crate::lookup::{find_path, lookup};
use crate::node_block::{home_of, kind_of, size_of, sum_of};
use crate::nodes::{create_node, delete_node, rename_node};
use crate::nodes_below::nodes_below;
use crate::orders::Orders;
use crate::slots::Slot;
use crate::walk::deepest_in;
use cfdp_actions::{Entry, ExistingNode, Filestore, Kind};
use cfdp_arena::Arena;
use cfdp_paths::{Memory, Path};
use cfdp_ways::Way;
use std::alloc::Global;
use std::marker::Model;

/// A store whose files and directories are in the blocks of an arena.
///
/// In the arena:
///
/// - the nodes: a block for each file or directory, with its name and the checksum of a file's octets;
/// - the octets of files and of staged lists, 120 in each block.
///
/// Beside the arena, for each block: its way back ([`Way`]), the head of a list of the index, and links and an order,
/// in which the entries of each directory and of the root are in order of their names (`cfdp_order`). And 64 slots:
/// each has the size, the checksum, the first and the last block of a staged list, where it was last written, and what
/// of it was never written. [`TreeStore::new`] takes the memory of all of these, and none of them grows after
/// it. `listing` and `existing` take memory for what they return. All other calls take none.
///
/// Cost: a call looks each name of its paths up by the directory and the name, in expected constant time whatever else
/// the directory has. Where strangers chose many names of one hash, a look-up compares at most 31 names. `kind`,
/// `parent_is_good`, `has_entries`, `size` and `checksum` take no more than that; `free`, `staged_size` and
/// `staged_checksum` take constant time. `make_file`, `make_dir`, `install` of a new file, `remove` and `rename`, also
/// of a directory, also change the order of each directory that they touch: for that they compare at most 22 names,
/// whatever the names are. `remove`, `unstage` and `install` over a file give back the blocks that are dropped as one,
/// in constant time; `stage_extend` fills those that it takes with zeros. `read`, `read_staged`, `stage_put`, `append`
/// and `replace` copy the octets that they are asked for by slices of a block; `append` and `replace` from block to
/// block with no buffer. `stage_put` sums what it writes. It sums what it overwrites too, unless that comes after all
/// that was written, or in the gap that the slot keeps: the longest one that was left out before later octets. So
/// octets that come in order, in reverse or with neighbours swapped are summed once. `append` sums the second file
/// unless the first one's size is a multiple of 4. `read`, `read_staged` and `stage_put` find the offset in at most 3
/// steps for each binary digit of the number of blocks, so 48 in a file of 65,536 blocks, in whatever order its octets
/// came and are read. `deepest` and `existing` go through what is at and below the path, and `listing` through
/// everything but the octets, in time linear in it; they sort nothing. `has_beside` looks at the entries of the
/// directory that are among the others and at 22 more, at most. `deepest_beside` goes through what is below the path,
/// and never below an entry that is among the others. Both first compare each of the others twice, at most. Where these
/// are children of the directory in path order, an entry divides them into those before it and those after it, and is
/// compared with the logarithm of their number: that is so of at most 22 entries for each of the others, and entries
/// among which none of the others can be are compared with none. Else an entry is compared with each of the others: in
/// `has_beside` each entry that it looks at, in `deepest_beside` each directory with entries, and of the other entries
/// those up to the first that is not among the others. `deepest` and `deepest_beside` end at a path of 8 names.
/// `next_entry` compares at most 45 names in each directory on the way, and looks its names up in the orders, not in
/// the index.
#[derive(Drop)]
pub struct TreeStore {
    pub(crate) arena: Arena,
    pub(crate) ways: Vec<Way>,
    pub(crate) heads: Vec<ListHead>,
    pub(crate) orders: Orders,
    pub(crate) slots: Vec<Slot>,
}

impl Model for TreeStore {
    ghost use Rattle.cfdp_actions.specs.Store.{Store};
    ghost use Rattle.cfdp_actions.specs.code.Codes.{store_code};
    ghost use Rattle.cfdp_tree.specs.code.Kept.{store_of};
    ghost use Rattle.cfdp_tree.specs.code.Slots.{lists_staged};
    ghost use Rattle.cfdp_tree.specs.code.Orders.{IsOrderedStore};

    ghost Value = { Store };

    ghost coded = { store_code };

    ghost view = { λ s. store_of s.arena (lists_staged s.slots.items) };

    ghost invariant = { λ s. IsOrderedStore s.arena s.ways.items s.heads.items s.orders s.slots.items };
}

/// How many slots for staged lists a store has.
const SLOTS: usize = 64;

impl TreeStore {
    /// Makes a store of `blocks` blocks, from 1 to 65,536, with no files, no directories and no staged lists. It takes
    /// all the memory that the store ever keeps: for each block 128 octets, 6 for its way, 8 for a head of the index
    /// and 10 for the order of entries, and the 64 slots. In time linear in the blocks.
    ///
    /// # Errors
    ///
    /// [`Memory`] when out of memory.
    pub fn new(alloc: Global, blocks: u32) -> Result<TreeStore, Memory>
        requires some { 1 ≤ blocks }
        requires few { blocks ≤ 65536 }
        ensures { IfOk result (λ store. store ≡ empty_store blocks true) }
    {
        let arena = Arena::new(alloc, blocks)?;
        let mut ways = Vec::new(alloc);
        ways.resize(blocks as usize, Way::none())?;
        let mut heads = Vec::new(alloc);
        heads.resize(blocks as usize, ListHead::empty())?;
        let mut slots = Vec::with_capacity(alloc, SLOTS)?;
        for _slot in 0..SLOTS {
            slots.push(Slot::empty())?;
        }
        let orders = Orders::new(alloc, blocks)?;
        Ok(TreeStore {
            arena,
            ways,
            heads,
            orders,
            slots,
        })
    }

    /// Makes an empty file or directory. In expected time linear in the octets of the path, and at most 22 comparisons
    /// of names.
    fn make_node(&mut self, path: &Path, kind: Kind)
        requires absent { node_at self.old.filestore path.now ≡ None }
        requires parent { IsTrue (parent_is_good self.old.filestore path.now) }
        requires room { 1 ≤ free_blocks self.old }
        ensures { self.new ≡ with_changes self.old (Becomes path.now (Some (empty_node kind)) ∷ []) }
    {
        let depth = path.depth() - 1;
        let directory = &lookup(&self.arena, &self.heads, &self.orders, path, depth);
        let name = path.name(depth);
        let node = create_node(&mut self.arena, *directory, kind, name);
        self.orders.enter(&self.arena, node, *directory, name);
        insert(&mut self.arena, &mut self.heads, node, *directory, name);
    }
}

impl Filestore for TreeStore {
    ghost state = { λ s. s };

    fn kind(&self, path: &Path) -> Option<Kind> {
        let node = find_path(&self.arena, &self.heads, &self.orders, path)?;
        Some(kind_of(self.arena.bytes(node)))
    }

    fn parent_is_good(&self, path: &Path) -> bool {
        let depth = path.depth() - 1;
        if depth == 0 {
            return true;
        }
        match lookup(&self.arena, &self.heads, &self.orders, path, depth) {
            Some(node) => !kind_of(self.arena.bytes(node)).is_file(),
            None => false,
        }
    }

    fn has_entries(&self, path: &Path) -> bool {
        match find_path(&self.arena, &self.heads, &self.orders, path) {
            Some(node) => !self.orders.of(&Some(node)).is_empty(),
            None => false,
        }
    }

    fn has_beside(&self, path: &Path, others: &[Path]) -> bool {
        match find_path(&self.arena, &self.heads, &self.orders, path) {
            Some(node) => {
                let entries = self.orders.of(&Some(node));
                let left_out = Others::new(path, others);
                any_beside(&self.arena, &self.orders, entries, &left_out)
            }
            None => false,
        }
    }

    fn size(&self, path: &Path) -> u64 {
        let node = find_path(&self.arena, &self.heads, &self.orders, path).unwrap();
        u64::from(size_of(self.arena.bytes(node)))
    }

    fn read(&self, path: &Path, at: u64, buffer: &mut [u8]) {
        let node = find_path(&self.arena, &self.heads, &self.orders, path).unwrap();
        let file = contents_of(self.arena.bytes(node));
        file.get(&self.arena, &self.ways, file.run.start(), at as u32, buffer);
    }

    fn checksum(&self, path: &Path) -> u32 {
        let node = find_path(&self.arena, &self.heads, &self.orders, path).unwrap();
        sum_of(self.arena.bytes(node))
    }

    fn deepest(&self, path: &Path) -> u8 {
        let node = find_path(&self.arena, &self.heads, &self.orders, path).unwrap();
        let depth = path.depth();
        let entries = self.orders.of(&Some(node));
        let below = deepest_in(&self.arena, &self.orders, entries, depth + 1);
        depth.max(below) as u8
    }

    fn deepest_beside(&self, path: &Path, others: &[Path]) -> u8 {
        match find_path(&self.arena, &self.heads, &self.orders, path) {
            Some(node) => {
                let entries = self.orders.of(&Some(node));
                let left_out = Others::new(path, others);
                deepest_beside(&self.arena, &self.orders, entries, &left_out, 0) as u8
            }
            None => 0,
        }
    }

    fn staged_size(&self, slot: u8) -> u64 {
        u64::from(self.slots[usize::from(slot)].contents.size)
    }

    fn read_staged(&self, slot: u8, at: u64, buffer: &mut [u8]) {
        let slot = &self.slots[usize::from(slot)];
        slot.get(&self.arena, &self.ways, at as u32, buffer);
    }

    fn staged_checksum(&self, slot: u8) -> u32 {
        self.slots[usize::from(slot)].contents.sum
    }

    fn free(&self) -> u32 {
        self.arena.free()
    }

    fn takes_no_memory(&self) -> bool {
        // Read for the contract alone: it brings what is always true of the store.
        let _ = &self.arena;
        true
    }

    fn listing(&self, alloc: Global) -> Result<Vec<Entry>, Memory> {
        let found = nodes_below(alloc, &self.arena, &self.orders, &None, 0)?;
        entries(alloc, &self.arena, found)
    }

    fn existing(&self, alloc: Global, path: &Path) -> Result<Vec<ExistingNode>, Memory> {
        let Some(node) = find_path(&self.arena, &self.heads, &self.orders, path) else {
            return Ok(Vec::new(alloc));
        };
        let top = &Some(node);
        if self.orders.of(top).is_empty() {
            return only_existing(alloc, &self.arena, path, node);
        }
        let found = nodes_below(alloc, &self.arena, &self.orders, top, path.depth())?;
        existing_nodes(alloc, &self.arena, found)
    }

    fn make_file(&mut self, path: &Path) -> Result<u32, Memory> {
        self.make_node(path, Kind::File);
        Ok(1)
    }

    fn make_dir(&mut self, path: &Path) -> Result<u32, Memory> {
        self.make_node(path, Kind::Directory);
        Ok(1)
    }

    fn remove(&mut self, path: &Path) -> Result<u32, Memory> {
        let node = find_path(&self.arena, &self.heads, &self.orders, path).unwrap();
        let block = self.arena.bytes(node);
        let held = held_by(block);
        let directory = &home_of(block, node);
        let name = path.name(path.depth() - 1);
        let blocks = held.run.count;
        self.orders.leave(&self.arena, node, *directory, name);
        held.release(&mut self.arena);
        index::remove(&mut self.arena, &mut self.heads, node, *directory, name);
        delete_node(&mut self.arena, node);
        Ok(blocks + 1)
    }

    fn rename(&mut self, from: &Path, to: &Path) -> Result<u32, Memory> {
        let node = find_path(&self.arena, &self.heads, &self.orders, from).unwrap();
        let old = &home_of(self.arena.bytes(node), node);
        let old_name = from.name(from.depth() - 1);
        let depth = to.depth() - 1;
        let new = &lookup(&self.arena, &self.heads, &self.orders, to, depth);
        let new_name = to.name(depth);
        self.orders.leave(&self.arena, node, *old, old_name);
        index::remove(&mut self.arena, &mut self.heads, node, *old, old_name);
        rename_node(&mut self.arena, node, *new, new_name);
        self.orders.enter(&self.arena, node, *new, new_name);
        insert(&mut self.arena, &mut self.heads, node, *new, new_name);
        Ok(0)
    }

    fn append(&mut self, first: &Path, second: &Path) -> Result<u32, Memory> {
        let file = find_file(&self.arena, &self.heads, &self.orders, first);
        let source = find_file(&self.arena, &self.heads, &self.orders, second);
        let contents = file.append(&mut self.arena, &mut self.ways, &source);
        set_contents(&mut self.arena, file.node, &contents);
        Ok(contents.run.count - file.contents.run.count + source.contents.run.count)
    }

    fn replace(&mut self, first: &Path, second: &Path) -> Result<u32, Memory> {
        let file = find_file(&self.arena, &self.heads, &self.orders, first);
        let source = find_file(&self.arena, &self.heads, &self.orders, second);
        if file.node == source.node {
            return Ok(0);
        }
        let mut contents = file.contents;
        contents.replace(&mut self.arena, &mut self.ways, &source.contents);
        set_contents(&mut self.arena, file.node, &contents);
        Ok(file.contents.run.count + 2 * source.contents.run.count)
    }

    fn stage_extend(&mut self, slot: u8, size: u64) -> Result<u32, Memory> {
        let slot = &mut self.slots[usize::from(slot)];
        let before = slot.contents.run.count;
        slot.extend(&mut self.arena, &mut self.ways, size as u32);
        Ok(slot.contents.run.count - before)
    }

    fn stage_put(&mut self, slot: u8, at: u64, octets: &[u8]) {
        let slot = &mut self.slots[usize::from(slot)];
        slot.put(&mut self.arena, &self.ways, at as u32, octets);
    }

    fn unstage(&mut self, slot: u8) -> u32 {
        let index = usize::from(slot);
        let staged = self.slots[index].contents;
        let blocks = staged.run.count;
        staged.release(&mut self.arena);
        self.slots[index].hold(Contents::empty());
        blocks
    }

    fn install(&mut self, slot: u8, path: &Path) -> Result<u32, Memory> {
        if self.kind(path).is_some() {
            return Ok(self.install_over(slot, path));
        }
        let ticks = self.make_file(path)?;
        self.install_over(slot, path);
        Ok(ticks)
    }
}
