//! What is at some paths, in path order.

ghost use Rattle.std.specs.Prelude.{◌≡◌, ◌+◌, ◌<◌, ◌^◌, false, nat_lt, IsSome, IsOk, OnOk, OnErr, length};
ghost use Rattle.std.specs.FinMap as finite;
ghost use Rattle.std.specs.List.{list_any};
ghost use Rattle.cfdp_paths.specs.Paths.{parent};
ghost use Rattle.cfdp_paths.specs.PathMaps.{any_below, is_too_deep, tree_in};
ghost use Rattle.cfdp_states.specs.code.Sketching.{rehomed, total_blocks, total_weight};

use crate::extent::{Extent, weigh};
use cfdp_paths::{MOST_NAMES, Memory, Path, PathMap};
use std::alloc::Global;
use std::marker::Model;

/// What is at some paths, in path order. A look-up is a search among them and makes no path. A rename writes each path
/// that it moves. Contracts see a finite map.
#[derive(Drop)]
pub struct SortedExtents {
    alloc: Global,
    entries: PathMap<Extent>,
    /// The blocks of all together.
    used: u128,
}

impl Model for SortedExtents {
    ghost use Rattle.std.specs.Prelude.{◌≡◌};
    ghost use Rattle.std.specs.Coded.{coded_list, coded_ℕ};
    ghost use Rattle.std.specs.FinMap as finite;
    ghost use Rattle.cfdp_states.specs.Sketching.{Extents};
    ghost use Rattle.cfdp_states.specs.code.Sketching.{IsCounted};
    ghost use Rattle.cfdp_states.specs.contracts.extent.Extent as extent;

    ghost Value = { Extents };

    ghost coded = { finite.code (coded_list (coded_list coded_ℕ)) extent.the_row.coded };

    ghost view = { λ x. finite.from_sorted x.entries };

    ghost invariant = { λ x. IsCounted x.entries x.used };
}

impl SortedExtents {
    /// Nothing exists. Takes no memory.
    pub fn new(alloc: Global) -> SortedExtents
        ensures { result ≡ finite.empty }
    {
        SortedExtents {
            alloc,
            entries: PathMap::new(alloc),
            used: 0,
        }
    }

    /// What is at the path, if anything is. Cost: one search.
    pub fn get(&self, path: &Path) -> Option<Extent>
        ensures { result ≡ finite.get self.now path.now }
    {
        self.entries.get(path).copied()
    }

    /// What is at the path's parent, if anything is. Cost: one search.
    pub fn parent(&self, path: &Path) -> Option<Extent>
        ensures { result ≡ finite.get self.now (parent path.now) }
    {
        self.entries.get_beginning(path, path.depth() - 1).copied()
    }

    /// Whether anything is strictly below the path. Cost: two searches.
    pub fn has_below(&self, path: &Path) -> bool
        ensures { result ≡ any_below path.now (finite.entries self.now) }
    {
        self.entries.has_below(path)
    }

    /// Whether a path at or below the first would have more than 8 names once the first is the second. Cost: two
    /// searches, and a look at each path at or below the first.
    pub fn is_too_deep(&self, from: &Path, to: &Path) -> bool
        ensures { result ≡ is_too_deep from.now to.now (tree_in from.now (finite.entries self.now)) }
    {
        any_too_deep(self.entries.tree(from), from, to)
    }

    /// The blocks of all together. Cost: it is kept.
    pub fn blocks(&self) -> u128
        ensures value { result ≡ total_blocks self.now }
        ensures within { result < 2 ^ 122 }
    {
        // Read for its contract: the number of entries bounds the sum of their blocks.
        let _ = self.entries.entries().len();
        self.used
    }

    /// From now on the extent is at the path. Takes memory only where nothing was there. Cost: one search; the
    /// entries after a new one are shifted.
    pub fn put(&mut self, path: &Path, extent: Extent) -> Result<(), Memory>
        ensures ok { OnOk result (self.new ≡ finite.insert self.old path.now extent) }
        ensures err { OnErr result (self.new ≡ self.old) }
        ensures present { IsSome (finite.get self.old path.now) → IsOk result }
    {
        let used = self.blocks() + u128::from(extent.blocks());
        let old = self.entries.put(self.alloc, path, extent)?;
        self.used = used - u128::from(weigh(old));
        Ok(())
    }

    /// Like [`put`](SortedExtents::put), but takes the path by value.
    pub fn insert(&mut self, path: Path, extent: Extent) -> Result<(), Memory>
        ensures ok { OnOk result (self.new ≡ finite.insert self.old path extent) }
        ensures err { OnErr result (self.new ≡ self.old) }
    {
        let used = self.blocks() + u128::from(extent.blocks());
        let old = self.entries.replace(path, extent)?;
        self.used = used - u128::from(weigh(old));
        Ok(())
    }

    /// From now on nothing is at the path. Takes no memory. Cost: one search; the entries after it are shifted.
    pub fn remove(&mut self, path: &Path)
        ensures { self.new ≡ finite.remove self.old path.now }
    {
        let old = self.entries.remove(path);
        self.used -= u128::from(weigh(old));
    }

    /// Moves what is at a path and below it: each path p/r becomes q/r. Cost: that of [`PathMap::relocate`]; where
    /// something is at or below the second path all blocks are counted anew.
    pub fn relocate(&mut self, from: &Path, to: &Path) -> Result<(), Memory>
        requires { is_too_deep from.now to.now (tree_in from.now (finite.entries self.old)) ≡ false }
        ensures ok { OnOk result (self.new ≡ rehomed from.now to.now self.old) }
        ensures err { OnErr result (self.new ≡ self.old) }
    {
        let is_free = self.entries.tree(to).is_empty();
        self.entries.relocate(from, to)?;
        if !is_free {
            self.used = count(self.entries.entries());
        }
        Ok(())
    }
}

/// Whether an entry's path, at or below the first path, would have more than 8 names once the first is the second.
fn any_too_deep(entries: &[(Path, Extent)], from: &Path, to: &Path) -> bool
    ensures { result ≡ list_any (λ e. nat_lt (8 + length from.now) (length e.0 + length to.now)) entries.now }
{
    let most = MOST_NAMES + from.depth();
    let more = to.depth();
    entries.iter().any(|entry| most < entry.0.depth() + more)
}

/// The blocks of all entries.
fn count(entries: &[(Path, Extent)]) -> u128
    ensures { result ≡ total_weight entries.now }
{
    let mut total = 0u128;
    for entry in entries {
        total += u128::from(entry.1.blocks());
    }
    total
}
