//! What is at some paths, without octets, and how many blocks it takes.

ghost use Rattle.std.specs.Prelude.{◌≡◌, ◌≢◌, [], ◌≤◌, ◌<◌, ◌^◌, false, IsSome, IsOk, OnOk, OnErr};
ghost use Rattle.std.specs.FinMap as finite;
ghost use Rattle.cfdp_paths.specs.Paths.{parent};
ghost use Rattle.cfdp_paths.specs.PathMaps.{any_below, is_too_deep, tree_in};
ghost use Rattle.cfdp_states.specs.code.Sketching.{good_parent, rehomed, total_blocks, weight_in};

use crate::branched_extents::BranchedExtents;
use crate::extent::{Extent, weigh};
use crate::sorted_extents::SortedExtents;
use cfdp_paths::{Memory, Path};
use std::alloc::Global;
use std::marker::Model;

/// What is at some paths. Contracts see a finite map.
#[derive(Drop)]
pub struct Extents {
    form: Form,
}

/// How the paths are kept.
#[derive(Drop)]
enum Form {
    /// In path order. This takes the least memory, and a look-up is one search, but a rename writes each path that it
    /// moves.
    Sorted(SortedExtents),
    /// By their names. A look-up is one search for each name, and a rename moves one branch, whatever is below it.
    Branched(BranchedExtents),
}

impl Model for Extents {
    ghost use Rattle.std.specs.Coded.{coded_list, coded_ℕ};
    ghost use Rattle.std.specs.FinMap as finite;
    ghost use Rattle.cfdp_states.specs.Sketching.{Extents};
    ghost use Rattle.cfdp_states.specs.code.Forms.{extents_in};
    ghost use Rattle.cfdp_states.specs.contracts.extent.Extent as extent;

    ghost Value = { Extents };

    ghost coded = { finite.code (coded_list (coded_list coded_ℕ)) extent.the_row.coded };

    ghost view = { λ x. extents_in x.form };
}

impl Extents {
    /// Nothing exists. Its paths will be in path order. Takes no memory.
    pub fn sorted(alloc: Global) -> Extents
        ensures { result ≡ finite.empty }
    {
        Extents {
            form: Form::Sorted(SortedExtents::new(alloc)),
        }
    }

    /// Nothing exists. Its paths will be kept by their names. Takes no memory.
    pub fn branched(alloc: Global) -> Extents
        ensures { result ≡ finite.empty }
    {
        Extents {
            form: Form::Branched(BranchedExtents::new(alloc)),
        }
    }

    /// What is at the path, if anything is. Cost: one search, or one for each name.
    pub fn get(&self, path: &Path) -> Option<Extent>
        ensures { result ≡ finite.get self.now path.now }
    {
        match &self.form {
            Form::Sorted(sorted) => sorted.get(path),
            Form::Branched(branched) => branched.get(path),
        }
    }

    /// What is at the path's parent, if anything is. Cost: one search, or one for each name.
    pub fn parent(&self, path: &Path) -> Option<Extent>
        ensures { result ≡ finite.get self.now (parent path.now) }
    {
        match &self.form {
            Form::Sorted(sorted) => sorted.parent(path),
            Form::Branched(branched) => branched.parent(path),
        }
    }

    /// Whether the path's parent is the root or a directory. Cost: at most that of [`parent`](Extents::parent).
    pub fn has_good_parent(&self, path: &Path) -> bool
        ensures good { result ≡ good_parent self.now path.now }
        ensures named { path.now ≢ [] }
    {
        path.depth() == 1 || self.parent(path) == Some(Extent::Directory)
    }

    /// Whether anything is strictly below the path. Cost: two searches, or one for each name.
    pub fn has_below(&self, path: &Path) -> bool
        ensures { result ≡ any_below path.now (finite.entries self.now) }
    {
        match &self.form {
            Form::Sorted(sorted) => sorted.has_below(path),
            Form::Branched(branched) => branched.has_below(path),
        }
    }

    /// Whether a path at or below the first would have more than 8 names once the first is the second. Cost: two
    /// searches and a look at each path at or below the first, or one search for each name.
    pub fn is_too_deep(&self, from: &Path, to: &Path) -> bool
        ensures { result ≡ is_too_deep from.now to.now (tree_in from.now (finite.entries self.now)) }
    {
        match &self.form {
            Form::Sorted(sorted) => sorted.is_too_deep(from, to),
            Form::Branched(branched) => branched.is_too_deep(from, to),
        }
    }

    /// All blocks of what is at the path: none where nothing is. Cost: that of [`get`](Extents::get).
    pub fn weight(&self, path: &Path) -> u64
        ensures value { result ≡ weight_in (finite.get self.now path.now) }
        ensures within { result ≤ 2 ^ 58 }
    {
        weigh(self.get(path))
    }

    /// The blocks of all extents together. The sum is kept, so the call costs the same for any number of them.
    pub fn blocks(&self) -> u128
        ensures value { result ≡ total_blocks self.now }
        ensures within { result < 2 ^ 122 }
    {
        match &self.form {
            Form::Sorted(sorted) => sorted.blocks(),
            Form::Branched(branched) => branched.blocks(),
        }
    }

    /// From now on the extent is at the path. Takes memory only where nothing was there. Cost: one search, or one for
    /// each name; what comes after a new entry or name is shifted.
    pub fn put(&mut self, path: &Path, extent: Extent) -> Result<(), Memory>
        ensures ok { OnOk result (self.new ≡ finite.insert self.old path.now extent) }
        ensures err { OnErr result (self.new ≡ self.old) }
        ensures present { IsSome (finite.get self.old path.now) → IsOk result }
    {
        match &mut self.form {
            Form::Sorted(sorted) => sorted.put(path, extent),
            Form::Branched(branched) => branched.put(path, extent),
        }
    }

    /// Puts another extent at a path at which something exists. Takes no memory. Cost: that of [`put`](Extents::put).
    pub fn set(&mut self, path: &Path, extent: Extent)
        requires { IsSome (finite.get self.old path.now) }
        ensures { self.new ≡ finite.insert self.old path.now extent }
    {
        self.put(path, extent).unwrap();
    }

    /// Like [`put`](Extents::put), but takes the path by value.
    pub fn insert(&mut self, path: Path, extent: Extent) -> Result<(), Memory>
        ensures ok { OnOk result (self.new ≡ finite.insert self.old path extent) }
        ensures err { OnErr result (self.new ≡ self.old) }
    {
        match &mut self.form {
            Form::Sorted(sorted) => sorted.insert(path, extent),
            Form::Branched(branched) => branched.put(&path, extent),
        }
    }

    /// From now on nothing is at the path. Takes no memory. Cost: one search, or some for each name; what comes after
    /// the entry is shifted, or each name beside those of the path is looked at.
    pub fn remove(&mut self, path: &Path)
        ensures { self.new ≡ finite.remove self.old path.now }
    {
        match &mut self.form {
            Form::Sorted(sorted) => sorted.remove(path),
            Form::Branched(branched) => branched.remove(path),
        }
    }

    /// Moves what is at a path and below it: each path p/r becomes q/r. Cost: that of [`SortedExtents::relocate`] or
    /// of [`BranchedExtents::relocate`].
    ///
    /// # Errors
    ///
    /// [`Memory`] when out of memory. Where the paths are kept by their names, also where anything is at or below the
    /// second path, or this is at or below the first. Nothing has changed then.
    pub fn relocate(&mut self, from: &Path, to: &Path) -> Result<(), Memory>
        requires { is_too_deep from.now to.now (tree_in from.now (finite.entries self.old)) ≡ false }
        ensures ok { OnOk result (self.new ≡ rehomed from.now to.now self.old) }
        ensures err { OnErr result (self.new ≡ self.old) }
    {
        match &mut self.form {
            Form::Sorted(sorted) => sorted.relocate(from, to),
            Form::Branched(branched) => branched.relocate(from, to),
        }
    }
}
