//! What is at some paths, by their names.

ghost use Rattle.std.specs.Prelude.{◌≡◌, ◌≤◌, ◌<◌, ◌^◌, false, IsSome, IsOk, OnOk, OnErr};
ghost use Rattle.std.specs.FinMap as finite;
ghost use Rattle.cfdp_paths.specs.Paths.{parent};
ghost use Rattle.cfdp_paths.specs.PathMaps.{any_below, is_too_deep, tree_in};
ghost use Rattle.cfdp_states.specs.code.Branched.{IsDepthAt};
ghost use Rattle.cfdp_states.specs.code.Sketching.{rehomed, total_blocks};

use crate::extent::{Extent, weigh};
use cfdp_branches::Branch;
use cfdp_paths::{MOST_NAMES, Memory, Names, Path};
use std::alloc::{AllocError, Global};
use std::marker::Model;

/// The most paths that are ever put. No list puts as many.
const MOST_PATHS: u64 = 1 << 62;

/// What is at some paths. A look-up is a search for each name and makes no path, and a rename moves one branch,
/// whatever is below it. Contracts see a finite map.
#[derive(Drop)]
pub struct BranchedExtents {
    alloc: Global,
    /// What is at the root and below it.
    root: Branch<Extent>,
    /// How many times a path got an extent that had none. So at most this many have one.
    count: u64,
    /// The blocks of all together.
    used: u128,
}

impl Model for BranchedExtents {
    ghost use Rattle.std.specs.Prelude.{◌≡◌};
    ghost use Rattle.std.specs.Coded.{coded_list, coded_ℕ};
    ghost use Rattle.std.specs.FinMap as finite;
    ghost use Rattle.cfdp_states.specs.Sketching.{Extents};
    ghost use Rattle.cfdp_states.specs.code.Branched.{IsTallied, values_map};
    ghost use Rattle.cfdp_states.specs.contracts.extent.Extent as extent;

    ghost Value = { Extents };

    ghost coded = { finite.code (coded_list (coded_list coded_ℕ)) extent.the_row.coded };

    ghost view = { λ x. values_map x.root };

    ghost invariant = { λ x. IsTallied (values_map x.root) x.count x.used };
}

impl BranchedExtents {
    /// Nothing exists. Takes no memory.
    pub fn new(alloc: Global) -> BranchedExtents
        ensures { result ≡ finite.empty }
    {
        BranchedExtents {
            alloc,
            root: Branch::new(alloc),
            count: 0,
            used: 0,
        }
    }

    /// What is at the path, if anything is. Cost: one search for each name.
    pub fn get(&self, path: &Path) -> Option<Extent>
        ensures { result ≡ finite.get self.now path.now }
    {
        self.find(path.names())
    }

    /// What is at the path's parent, if anything is. Cost: one search for each name.
    pub fn parent(&self, path: &Path) -> Option<Extent>
        ensures { result ≡ finite.get self.now (parent path.now) }
    {
        self.find(path.first_names(path.depth() - 1))
    }

    /// What is at the path of these names, if anything is.
    fn find(&self, names: Names<'_>) -> Option<Extent>
        ensures { result ≡ finite.get self.now names.entry }
    {
        self.root.at(names)?.value()
    }

    /// One more than the names from the path to the deepest path at or below it at which anything is; 0 if nothing is.
    fn levels(&self, path: &Path) -> usize
        ensures levels { IsDepthAt self.now path.now result }
        ensures within { result ≤ 9 }
    {
        match self.root.at(path.names()) {
            None => 0,
            Some(branch) => branch.levels(),
        }
    }

    /// Whether anything is strictly below the path. Cost: one search for each name.
    pub fn has_below(&self, path: &Path) -> bool
        ensures { result ≡ any_below path.now (finite.entries self.now) }
    {
        self.levels(path) > 1
    }

    /// Whether a path at or below the first would have more than 8 names once the first is the second. Cost: one search
    /// for each name.
    pub fn is_too_deep(&self, from: &Path, to: &Path) -> bool
        ensures { result ≡ is_too_deep from.now to.now (tree_in from.now (finite.entries self.now)) }
    {
        self.levels(from) + to.depth() > MOST_NAMES + 1
    }

    /// The blocks of all together. Cost: it is kept.
    pub fn blocks(&self) -> u128
        ensures value { result ≡ total_blocks self.now }
        ensures within { result < 2 ^ 122 }
    {
        self.used
    }

    /// From now on the extent is at the path. Takes memory only where nothing was there. Cost: one search for each
    /// name; the names after a new one are shifted.
    ///
    /// # Errors
    ///
    /// [`Memory`] when out of memory, or where 2^62 paths were put before; nothing has changed then.
    pub fn put(&mut self, path: &Path, extent: Extent) -> Result<(), Memory>
        ensures ok { OnOk result (self.new ≡ finite.insert self.old path.now extent) }
        ensures err { OnErr result (self.new ≡ self.old) }
        ensures present { IsSome (finite.get self.old path.now) → IsOk result }
    {
        if self.count == MOST_PATHS && self.get(path).is_none() {
            return Err(AllocError);
        }
        let used = self.blocks() + u128::from(extent.blocks());
        let old = self
            .root
            .open(self.alloc, path.names(), path.depth(), Some(extent))?;
        self.count += u64::from(old.is_none());
        self.used = used - u128::from(weigh(old));
        Ok(())
    }

    /// From now on nothing is at the path. Takes no memory. Cost: four searches for each name, two looks at each name
    /// beside those of the path, and one at each name right below it.
    pub fn remove(&mut self, path: &Path)
        ensures { self.new ≡ finite.remove self.old path.now }
    {
        let Some(old) = self.get(path) else {
            return;
        };
        let mut branch = Branch::new(self.alloc);
        self.root.swap(path.names(), &mut branch);
        let _ = branch.take_value();
        self.root.swap(path.names(), &mut branch);
        self.root.prune(path.names());
        self.used -= u128::from(old.blocks());
    }

    /// Moves what is at a path and below it: each path p/r becomes q/r. Takes memory for the names of the second path.
    /// Cost: three searches for each name, and a look at each name beside those of the two paths; nothing for what is
    /// below.
    ///
    /// # Errors
    ///
    /// [`Memory`] when out of memory, or where anything is at or below the second path, or this is at or below the
    /// first; nothing has changed then.
    pub fn relocate(&mut self, from: &Path, to: &Path) -> Result<(), Memory>
        requires { is_too_deep from.now to.now (tree_in from.now (finite.entries self.old)) ≡ false }
        ensures ok { OnOk result (self.new ≡ rehomed from.now to.now self.old) }
        ensures err { OnErr result (self.new ≡ self.old) }
    {
        if to.is_at_or_below(from) || self.levels(to) > 0 {
            return Err(AllocError);
        }
        let _ = self.root.open(self.alloc, to.names(), to.depth(), None)?;
        if self.root.at(from.names()).is_none() {
            return Ok(());
        }
        let mut branch = Branch::new(self.alloc);
        self.root.swap(from.names(), &mut branch);
        self.root.swap(to.names(), &mut branch);
        self.root.prune(from.names());
        Ok(())
    }
}
