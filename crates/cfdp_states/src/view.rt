//! The view: a list of filestore requests is run on it to be judged.

ghost use Rattle.std.specs.Prelude.{◌≡◌, ◌+◌, ◌-◌, ◌≤◌, min, max, not, nat_lt, ◌^◌, false, is_some, Some, None, [], IfOk, OnOk, OnErr, IsFalse, Ok};
ghost use Rattle.std.specs.FinMap as finite;
ghost use Rattle.cfdp_actions.specs.Filestore.{blocks};
ghost use Rattle.cfdp_actions.specs.Actions.{Perform, Performed};
ghost use Rattle.cfdp_states.specs.Alone.{alone};
ghost use Rattle.cfdp_paths.specs.PathMaps.{any_below};
ghost use Rattle.cfdp_states.specs.code.Sketching.{total_blocks};
ghost use Rattle.cfdp_states.specs.Views.{most_count, most_need, size_of, only, IsViewOf, Makes, Tells, TellsInstall};

use crate::extent::Extent;
use crate::extents::Extents;
use crate::performing::{can_install, content, perform, step_bound};
use crate::survey::survey;
use cfdp_actions::{Filestore, Protected, Request};
use cfdp_leases::Footprint;
use cfdp_paths::{Memory, Path};
use cfdp_status::Status;
use std::alloc::Global;
use std::marker::Model;

/// At which the need stops: one more than the greatest that can be reported.
const MOST_NEED: u128 = 1 << 32;

/// What is at and below some leased paths, a file being 'at most n octets', without contents: enough to say how a
/// list of items goes when it runs alone (CCSDS 727.0-B-5, filestore procedures), how many blocks it needs and how many
/// steps it takes.
///
/// Sizes stop at the greatest u64, and what is said of blocks and steps at the greatest u32. The need saturates at
/// 2^32, so 'more than u32::MAX' differs from exactly u32::MAX.
#[derive(Drop)]
pub struct View<'a> {
    protected: &'a Protected,
    extents: Extents,
    base: u128,
    need: u64,
    steps: u32,
}

impl<'a> Model for View<'a> {
    ghost use Rattle.cfdp_states.specs.Views.{Sketch};
    ghost use Rattle.cfdp_states.specs.code.Views.{sketch_code};
    ghost use Rattle.cfdp_states.specs.contracts.extent.Extent as extent;

    ghost Value = { Sketch };

    ghost coded = { sketch_code extent.the_row.coded };

    ghost view = { λ v. record {
      prefixes = v.protected.now;
      extents = v.extents;
      base = v.base;
      need = v.need;
      steps = v.steps;
    } };
}

impl<'a> View<'a> {
    /// What is in the store at and below the leased paths, before any item.
    ///
    /// # Errors
    ///
    /// Out of memory.
    ///
    /// Cost: one `existing` for each exclusive path that is not at or below an earlier one, and for each shared path a
    /// `kind`, and a `size` where that is a file; no listing, no octets and no checksum. What the footprint does not
    /// cover is not asked for. Each thing found is put in by a search; as all come in path order, nothing is shifted.
    pub fn of<S: Filestore>(
        alloc: Global,
        store: &S,
        protected: &'a Protected,
        footprint: &Footprint,
    ) -> Result<View<'a>, Memory>
        ensures stated { IfOk result (λ view. let F = alone (only footprint.now (S.state store.now).filestore) [] in
            IsViewOf view F (blocks F) (blocks F) 0) }
        ensures prefixes { IfOk result (λ view. view.prefixes ≡ protected.now) }
    {
        let extents = survey(alloc, store, footprint)?;
        Ok(View::begun(protected, extents))
    }

    /// The view that has these extents, before any item.
    pub(crate) fn begun(protected: &'a Protected, extents: Extents) -> View<'a>
        ensures { result ≡ record {
          prefixes = protected.now;
          extents = extents;
          base = total_blocks extents;
          need = 0;
          steps = 0;
        } }
    {
        let base = extents.blocks();
        View {
            protected,
            extents,
            base,
            need: 0,
            steps: 0,
        }
    }

    /// Whether it has anything at the path. Takes no memory. Cost: that of [`Extents::get`].
    pub(crate) fn has(&self, path: &Path) -> bool
        ensures { result ≡ is_some (finite.get self.now.extents path.now) }
    {
        self.extents.get(path).is_some()
    }

    /// Whether it has anything strictly below the path. Takes no memory. Cost: that of [`Extents::has_below`].
    pub(crate) fn has_below(&self, path: &Path) -> bool
        ensures { result ≡ any_below path.now (finite.entries self.now.extents) }
    {
        self.extents.has_below(path)
    }

    /// Performs the next request on the view, with unlimited room, and returns its status (CCSDS 727.0-B-5, filestore
    /// procedures); a request that is not successful changes nothing that exists. The blocks that it needs and the
    /// steps that it may take are counted.
    ///
    /// # Errors
    ///
    /// Out of memory, which only a request that makes a path takes, and only where it is successful; the view is then
    /// as before. Cost: a few searches among what the view has, and, of a rename, the octets of each path that moves:
    /// they are rewritten in the memory that they have, or copied, as
    /// [`PathMap::relocate`](cfdp_paths::PathMap::relocate) says. What comes after in path order is shifted, in one
    /// piece.
    pub fn apply(&mut self, request: &Request) -> Result<Status, Memory>
        ensures stated { IfOk result (λ status. Tells self.old self.new (Perform request.now) (Performed status)) }
        ensures prefixes { OnOk result (self.new.prefixes ≡ self.old.prefixes) }
        ensures err { OnErr result (self.new ≡ self.old) }
        ensures thrifty { OnErr result (Makes self.old request.now) }
    {
        let bound = step_bound(&self.extents, request);
        let status = perform(&mut self.extents, self.protected, request)?;
        self.steps = add_steps(self.steps, bound);
        self.need = raise_need(self.need, self.base, self.extents.blocks());
        Ok(status)
    }

    /// Installs a delivered file of at most `bound` octets at the path (CCSDS 727.0-B-5, copy file procedures), and
    /// replaces a file that is there. Returns whether that is allowed: its parent is the root or a directory, and
    /// neither a directory nor a protected file is there. Where it is not allowed the view is as before. The blocks of
    /// the staged file are counted too.
    ///
    /// # Errors
    ///
    /// Out of memory; the view is then as before. Cost: a few searches among what the view has.
    pub fn install(&mut self, path: &Path, bound: u64) -> Result<bool, Memory>
        ensures stated { IfOk result (λ done. TellsInstall self.old self.new path.now bound done) }
        ensures prefixes { OnOk result (self.new.prefixes ≡ self.old.prefixes) }
        ensures refused { result ≡ Ok false → self.new ≡ self.old }
        ensures err { OnErr result (self.new ≡ self.old) }
    {
        if !can_install(&self.extents, self.protected, path) {
            return Ok(false);
        }
        let file = Extent::File(bound);
        let ticks = 1 + content(&self.extents, path);
        let staged = self.extents.blocks() + u128::from(file.content());
        self.extents.put(path, file)?;
        self.steps = add_steps(self.steps, ticks);
        let need = raise_need(self.need, self.base, staged);
        self.need = raise_need(need, self.base, self.extents.blocks());
        Ok(true)
    }

    /// The most octets that the file at the path has, from 0 to the greatest u64, which also means more. `None`
    /// where the view has no file at it: what the view's footprint does not cover it never saw. Takes no memory. Cost:
    /// one search among what the view has.
    pub fn bound(&self, path: &Path) -> Option<u64>
        ensures { result ≡ size_of (finite.get self.now.extents path.now) }
    {
        match self.extents.get(path) {
            None => None,
            Some(Extent::Directory) => None,
            Some(Extent::File(octets)) => Some(octets),
        }
    }

    /// How many blocks more than at first were in use at most, or the greatest u32 where that is more.
    pub fn need(&self) -> u32
        ensures { result ≡ min self.now.need most_count }
    {
        capped(self.need)
    }

    /// Whether at most this many blocks more than at first were in use at any time. It is exact for the greatest u32
    /// too, which `need` returns for greater needs as well.
    pub fn needs_at_most(&self, blocks: u32) -> bool
        ensures { result ≡ not (nat_lt blocks self.now.need) }
    {
        self.need <= u64::from(blocks)
    }

    /// How many steps were taken at most, or the greatest u32 where that is more.
    pub fn steps(&self) -> u32
        ensures { result ≡ self.now.steps }
    {
        self.steps
    }
}

/// One step more, and as many as the item's bound.
fn add_steps(steps: u32, bound: u64) -> u32
    requires { bound ≤ 2 ^ 60 }
    ensures { result ≡ min (steps + (1 + bound)) most_count }
{
    capped(u64::from(steps) + 1 + bound)
}

/// The need, where this many blocks are in use.
fn raise_need(need: u64, base: u128, blocks: u128) -> u64
    ensures { result ≡ max need (min (blocks - base) most_need) }
{
    let more = blocks.saturating_sub(base).min(MOST_NEED);
    need.max(more as u64)
}

/// The count, or the greatest u32 where it is more.
fn capped(count: u64) -> u32
    ensures { result ≡ min count most_count }
{
    count.min(u64::from(u32::MAX)) as u32
}
