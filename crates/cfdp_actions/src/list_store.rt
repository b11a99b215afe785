//! A store that is kept in one list, in path order.

ghost use Rattle.std.specs.Prelude.{◌≡◌, ◌+◌, ◌≤◌, false, length, slice_range, IfOk};
ghost use Rattle.cfdp_actions.specs.Store.{empty_store};

use crate::blocks::blocks_of;
use crate::content::{Content, Growth, append, octets_at};
use crate::{Entry, ExistingNode, Filestore, Kind, entries, staging};
use cfdp_checksum::modular_checksum;
use cfdp_paths::{Memory, Path, PathMap};
use std::alloc::Global;
use std::marker::Model;

/// How many slots for staged lists a store has.
pub const SLOTS: usize = 64;

/// A store that keeps its paths in one list, in path order: the program that other stores are measured by.
///
/// Most of its changes take memory. Cost: a call searches for each path that it names, by halves, and makes none to
/// look one up; `free` is one subtraction. `make_file`, `make_dir`, `remove`, and an `install` where nothing was there,
/// also move the entries after the path, and `rename` a few times those between the two paths and after them. `deepest`
/// and `existing` go through what is at and below the path, `listing` through the whole list, with all octets for
/// the checksums. `has_beside` and `deepest_beside` compare what is below the path with each of the other paths. Octets
/// are copied by `read`, `read_staged` and `stage_put`, which copy those that they are asked for, by `append` and
/// `replace`, which copy the second file's, and where the first file of an `append` or the list of a `stage_extend` has
/// to move to grow. A staged list is moved into its file, not copied.
#[derive(Drop)]
pub struct ListStore {
    entries: PathMap<Content>,
    staged: Vec<Vec<u8>>,
    used: u32,
    capacity: u32,
}

impl Model for ListStore {
    ghost use Rattle.cfdp_actions.specs.Store.{Store};
    ghost use Rattle.cfdp_actions.specs.code.Codes.{store_code};

    ghost Value = { Store };

    ghost coded = { store_code };

    ghost use Rattle.cfdp_actions.specs.code.Listed.{listed_store, IsListed};

    ghost view = { λ s. listed_store s.entries s.staged.items s.capacity };

    ghost invariant = { λ s. IsListed s.entries s.staged.items s.used s.capacity };
}

impl ListStore {
    /// A store of this many blocks, 1 to 65,536, in which nothing exists and nothing is staged.
    ///
    /// # Errors
    ///
    /// [`Memory`] where there was none for the slots: one allocation.
    pub fn new(alloc: Global, blocks: u32) -> Result<ListStore, Memory>
        requires some { 1 ≤ blocks }
        requires few { blocks ≤ 65536 }
        ensures { IfOk result (λ store. store ≡ empty_store blocks false) }
    {
        let mut staged = Vec::with_capacity(alloc, SLOTS)?;
        for _slot in 0..SLOTS {
            staged.push(Vec::new(alloc))?;
        }
        Ok(ListStore {
            entries: PathMap::new(alloc),
            staged,
            used: 0,
            capacity: blocks,
        })
    }
}

/// Fills the buffer with octets from offset `at` on.
fn copy_out(octets: &[u8], at: usize, buffer: &mut [u8])
    requires { at + length buffer.old ≤ length octets.now }
    ensures { buffer.new ≡ slice_range octets.now at (at + length buffer.old) }
{
    let end = at + buffer.len();
    buffer.copy_from_slice(&octets[at..end]);
}

impl Filestore for ListStore {
    ghost state = { λ s. s };

    fn kind(&self, path: &Path) -> Option<Kind> {
        self.entries.get(path).map(Content::kind)
    }

    fn parent_is_good(&self, path: &Path) -> bool {
        let depth = path.depth() - 1;
        if depth == 0 {
            return true;
        }
        self.entries
            .get_beginning(path, depth)
            .is_some_and(Content::is_directory)
    }

    fn has_entries(&self, path: &Path) -> bool {
        self.entries.has_below(path)
    }

    fn has_beside(&self, path: &Path, others: &[Path]) -> bool {
        entries::any_beside(self.entries.tree(path), path, others)
    }

    fn size(&self, path: &Path) -> u64 {
        octets_at(&self.entries, path).len() as u64
    }

    fn read(&self, path: &Path, at: u64, buffer: &mut [u8]) {
        copy_out(octets_at(&self.entries, path), at as usize, buffer);
    }

    fn checksum(&self, path: &Path) -> u32 {
        modular_checksum(octets_at(&self.entries, path))
    }

    fn deepest(&self, path: &Path) -> u8 {
        entries::deepest(self.entries.tree(path))
    }

    fn deepest_beside(&self, path: &Path, others: &[Path]) -> u8 {
        entries::deepest_beside(self.entries.tree(path), path, others)
    }

    fn staged_size(&self, slot: u8) -> u64 {
        self.staged[usize::from(slot)].len() as u64
    }

    fn read_staged(&self, slot: u8, at: u64, buffer: &mut [u8]) {
        let octets = self.staged[usize::from(slot)].as_slice();
        copy_out(octets, at as usize, buffer);
    }

    fn staged_checksum(&self, slot: u8) -> u32 {
        modular_checksum(&self.staged[usize::from(slot)])
    }

    fn free(&self) -> u32 {
        self.capacity - self.used
    }

    fn takes_no_memory(&self) -> bool {
        // Read for the contract alone: it brings what is always true of the store.
        let _entries = &self.entries;
        false
    }

    fn listing(&self, alloc: Global) -> Result<Vec<Entry>, Memory> {
        entries::listing(alloc, self.entries.entries())
    }

    fn existing(&self, alloc: Global, path: &Path) -> Result<Vec<ExistingNode>, Memory> {
        entries::existing(alloc, self.entries.tree(path))
    }

    fn make_file(&mut self, path: &Path) -> Result<u32, Memory> {
        let alloc = *self.staged.allocator();
        let file = Content::File(Vec::new(alloc));
        self.entries.insert(path.copy(alloc)?, file)?;
        self.used += 1;
        Ok(1)
    }

    fn make_dir(&mut self, path: &Path) -> Result<u32, Memory> {
        let alloc = *self.staged.allocator();
        self.entries.insert(path.copy(alloc)?, Content::Directory)?;
        self.used += 1;
        Ok(1)
    }

    fn remove(&mut self, path: &Path) -> Result<u32, Memory> {
        let removed = self.entries.remove(path).unwrap();
        let blocks = removed.blocks();
        self.used -= blocks;
        Ok(blocks)
    }

    fn rename(&mut self, from: &Path, to: &Path) -> Result<u32, Memory> {
        let overwrites = self.entries.has_below(to);
        self.entries.relocate(from, to)?;
        if overwrites {
            self.used = entries::blocks_in(self.entries.entries(), &self.staged);
        }
        Ok(0)
    }

    fn append(&mut self, first: &Path, second: &Path) -> Result<u32, Memory> {
        let alloc = *self.staged.allocator();
        let Growth { from, to } = append(&mut self.entries, alloc, first, second)?;
        let taken = blocks_of(to) - blocks_of(from);
        self.used += taken;
        Ok(taken + blocks_of(to - from))
    }

    fn replace(&mut self, first: &Path, second: &Path) -> Result<u32, Memory> {
        if first == second {
            return Ok(0);
        }
        let alloc = *self.staged.allocator();
        let octets = Vec::from_slice(alloc, octets_at(&self.entries, second))?;
        let taken = blocks_of(octets.len() as u64);
        let old = self.entries.exchange(first, Content::File(octets));
        let given = blocks_of(old.octets().len() as u64);
        self.used = self.used + taken - given;
        Ok(given + 2 * taken)
    }

    fn stage_extend(&mut self, slot: u8, size: u64) -> Result<u32, Memory> {
        let slot = usize::from(slot);
        let old = blocks_of(self.staged[slot].len() as u64);
        let ticks = blocks_of(size) - old;
        staging::extend(&mut self.staged, slot, size as usize)?;
        self.used += ticks;
        Ok(ticks)
    }

    fn stage_put(&mut self, slot: u8, at: u64, octets: &[u8]) {
        staging::overwrite(&mut self.staged, usize::from(slot), at as usize, octets);
    }

    fn unstage(&mut self, slot: u8) -> u32 {
        let alloc = *self.staged.allocator();
        let dropped = staging::take_list(alloc, &mut self.staged, usize::from(slot));
        let given = blocks_of(dropped.len() as u64);
        self.used -= given;
        given
    }

    fn install(&mut self, slot: u8, path: &Path) -> Result<u32, Memory> {
        let alloc = *self.staged.allocator();
        let slot = usize::from(slot);
        if self.entries.get(path).is_some() {
            let octets = staging::take_list(alloc, &mut self.staged, slot);
            let old = self.entries.exchange(path, Content::File(octets));
            let given = blocks_of(old.octets().len() as u64);
            self.used -= given;
            return Ok(given);
        }
        let empty = Content::File(Vec::new(alloc));
        self.entries.insert(path.copy(alloc)?, empty)?;
        let octets = staging::take_list(alloc, &mut self.staged, slot);
        self.entries.set(path, Content::File(octets));
        self.used += 1;
        Ok(1)
    }
}
