//! What is at a path, and at the paths below it.

ghost use Rattle.std.specs.Prelude.{◌≡◌, ◌≢◌, false, ◌&&◌, ℕ, ◌≤◌, ◌<◌, ◌+◌, ◌++◌, List, [], ◌∷◌, None, Some, IsTrue, is_some, cond, drop, IfOk, IfErr, IfSome, IsOk, OnOk, OnErr, length, max, take, vec_capacity};
ghost use Rattle.std.specs.FinMap.{find};
ghost use Rattle.cfdp_paths.specs.Paths.{is_at_or_below, path_cmp, same_path};
ghost use Rattle.cfdp_paths.specs.PathMaps.{IsOrdered};
ghost use Rattle.cfdp_paths.specs.code.PathMaps.{IsIndexOf, rank};
ghost use Rattle.cfdp_branches.specs.Branches.{AreSameValues, IsLevels, IsShallow, has_branch, value_at};
ghost use Rattle.cfdp_branches.specs.code.Branches.{IsOpened, under_names, branches_of};
ghost use Rattle.cfdp_branches.specs.code.Twigs.{twigs_of};

use cfdp_paths::{Memory, Names};
use std::alloc::Global;
use std::cmp::Ordering;
use std::marker::Model;
use std::mem;

/// What is at a path, and, by the next name, what is below it. Values are at most 8 names deep, and so are the calls
/// that look for one. A branch without a value may be deeper; to free a branch frees those below it, one in the other.
#[cycle(branch)]
#[derive(Drop)]
pub struct Branch<T> {
    value: Option<T>,
    /// The branches below, by their names, which rise.
    twigs: Vec<Twig<T>>,
    /// One more than the names from here to the deepest value, or 0 where there is none.
    levels: usize,
}

/// A branch below, with its name.
#[cycle(branch)]
#[derive(Drop)]
struct Twig<T> {
    name: Vec<u8>,
    branch: Branch<T>,
}

impl<T> Model for Branch<T> {
    ghost use Rattle.std.specs.Prelude.{◌≡◌, ℕ, List, Option, length, map};
    ghost use Rattle.cfdp_paths.specs.PathMaps.{IsOrdered};
    ghost use Rattle.cfdp_branches.specs.Branches.{IsLevels, IsShallow};
    ghost use Rattle.cfdp_branches.specs.code.Branches.{under_names, branches_of};

    ghost Value = { List (List (List ℕ) × Option T) };

    ghost view = { λ b. branches_of b.value (map (λ t. (t.name.items, t.branch)) b.twigs.items) };

    ghost invariant = { λ b. IsOrdered (under_names (map (λ t. (t.name.items, t.branch)) b.twigs.items))
        × IsLevels (branches_of b.value (map (λ t. (t.name.items, t.branch)) b.twigs.items)) b.levels
        × IsShallow 0 (branches_of b.value (map (λ t. (t.name.items, t.branch)) b.twigs.items)) };

    ghost size = { length };

    ghost use Rattle.std.proofs.Common.{arith};
    ghost use Rattle.cfdp_branches.specs.code.Falling.{twigs_fall};

    ghost size_decreases = { λ a h. omega (arith, twigs_fall a.twigs.items) };
}

impl<T> Branch<T> {
    /// Nothing at the path, and nothing below. Takes no memory.
    pub fn new(alloc: Global) -> Branch<T>
        ensures { result ≡ ([], None) ∷ [] }
    {
        Branch {
            value: None,
            twigs: Vec::new(alloc),
            levels: 0,
        }
    }

    /// One more than the names from its path to the deepest path that has a value: 1 where only its own path has one,
    /// and 0 where none has. In constant time.
    pub fn levels(&self) -> usize
        ensures levels { IsLevels self.now result }
        ensures within { result ≤ 9 }
        ensures shallow { IsShallow 0 self.now }
    {
        self.levels
    }
}

impl<T: Copy> Branch<T> {
    /// The value at its own path, if there is one. In constant time.
    pub fn value(&self) -> Option<T>
        ensures { result ≡ value_at self.now [] }
    {
        self.value
    }
}

impl<T> Branch<T> {
    /// The branch at the path of these names below its own path, if there is one. Takes no memory. Cost: a search for
    /// each name.
    pub fn at(&self, names: Names<'_>) -> Option<&Branch<T>>
        ensures found { IfSome result (λ b. (p : List (List ℕ)) → find path_cmp p b.now
            ≡ find path_cmp (names.entry ++ p) self.now) }
        ensures there { IfSome result (λ b. IsTrue (has_branch self.now names.entry)) }
        ensures absent { result ≡ None → (p : List (List ℕ)) → find path_cmp (names.entry ++ p) self.now ≡ None }
    {
        let mut names = names;
        match names.next() {
            None => Some(self),
            Some(name) => {
                let Ok(index) = index_of(&self.twigs, name) else {
                    return None;
                };
                self.twigs[index].branch.at(names)
            }
        }
    }
}

impl<T: Copy + Drop> Branch<T> {
    /// From now on there is a branch at the path of these `depth` names, and if a value is given, it is the value
    /// there. Returns the value that was there, if there was one.
    ///
    /// # Errors
    ///
    /// [`Memory`] when out of memory; each path has the value that it had. Cost: a search for each name, and a copy of
    /// each name that is new; the branches after a new one are shifted.
    pub fn open(
        &mut self,
        alloc: Global,
        names: Names<'_>,
        depth: usize,
        value: Option<T>,
    ) -> Result<Option<T>, Memory>
        requires depth { depth ≡ length names }
        requires within { length names ≤ 8 }
        ensures old { IfOk result (λ old. old ≡ value_at self.old names.entry) }
        ensures there { OnOk result (IsTrue (has_branch self.new names.entry)) }
        ensures ok { OnOk result ((p : List (List ℕ)) → value_at self.new p
            ≡ cond (is_some value && same_path p names.entry) value (value_at self.old p)) }
        ensures err { OnErr result (AreSameValues self.new self.old) }
        ensures present { IsTrue (has_branch self.old names.entry) → IsOk result }
    {
        let reach = reach_of(&value, depth);
        let mut names = names;
        match names.next() {
            None => {
                let old = self.value;
                self.value = value.or(old);
                self.levels = self.levels.max(reach);
                Ok(old)
            }
            Some(name) => {
                let index = open_twig(&mut self.twigs, alloc, name)?;
                let old = self.twigs[index]
                    .branch
                    .open(alloc, names, depth - 1, value)?;
                self.levels = self.levels.max(reach);
                Ok(old)
            }
        }
    }

    /// Takes the value at its own path away, and returns it, if there is one. Takes no memory. Cost: a look at each
    /// branch that is right below.
    pub fn take_value(&mut self) -> Option<T>
        ensures old { result ≡ value_at self.old [] }
        ensures taken { (p : List (List ℕ)) → value_at self.new p ≡ cond (same_path p []) None (value_at self.old p) }
    {
        let old = self.value;
        self.value = None;
        self.levels = levels_of(&self.value, &self.twigs);
        old
    }
}

impl<T> Branch<T> {
    /// Exchanges the branch at the path of these names, with all below it, for another one. Takes no memory. Cost: a
    /// search for each name, and a look at each branch that is right below one of them.
    pub fn swap(&mut self, names: Names<'_>, other: &mut Branch<T>)
        requires there { IsTrue (has_branch self.old names) }
        requires shallow { IsShallow (length names) other.old }
        ensures exchanged { (p : List (List ℕ)) → find path_cmp p self.new ≡ cond (is_at_or_below p names.entry)
            (find path_cmp (drop (length names.entry) p) other.old) (find path_cmp p self.old) }
        ensures taken { (p : List (List ℕ)) → find path_cmp p other.new ≡ find path_cmp (names.entry ++ p) self.old }
        ensures within { IsShallow (length names.entry) other.new }
    {
        // Its contract says how long paths are.
        let _ = self.levels();
        let mut names = names;
        match names.next() {
            None => mem::swap(self, other),
            Some(name) => {
                let index = index_of(&self.twigs, name).unwrap();
                self.twigs[index].branch.swap(names, other);
                self.levels = levels_of(&self.value, &self.twigs);
            }
        }
    }
}

impl<T: Drop> Branch<T> {
    /// Frees the first branch on the way to the path of these names, below its own path, that has no value and none
    /// below it. All paths have the values that they had, and no branch without a value at or below it is left on the
    /// way. Takes no memory. Cost: a search for each name; the branches after the one that is freed are shifted, and
    /// those below it are freed.
    pub fn prune(&mut self, names: Names<'_>)
        ensures values { AreSameValues self.new self.old }
        ensures freed { names.entry ≢ [] → (n : ℕ) → 0 < n
            → ((p : List (List ℕ)) → value_at self.old (take n names.entry ++ p) ≡ None)
            → has_branch self.new (take n names.entry) ≡ false }
    {
        let mut names = names;
        let Some(name) = names.next() else {
            return;
        };
        let Ok(index) = index_of(&self.twigs, name) else {
            return;
        };
        if self.twigs[index].branch.levels() == 0 {
            let _ = self.twigs.remove(index);
        } else {
            self.twigs[index].branch.prune(names);
        }
    }
}

/// The index of the branch of the name, which is there from now on.
///
/// # Errors
///
/// [`Memory`] when out of memory; the branches are as before.
fn open_twig<T: Drop>(twigs: &mut Vec<Twig<T>>, alloc: Global, name: &[u8]) -> Result<usize, Memory>
    requires { IsOrdered (under_names (twigs_of twigs.old.items)) }
    ensures found { IfOk result (λ index. IsIndexOf (name.now ∷ []) (under_names (twigs_of twigs.new.items)) index) }
    ensures within { IfOk result (λ index. index < length twigs.new.items) }
    ensures opened { OnOk result (IsOpened name.now (twigs_of twigs.old.items) (twigs_of twigs.new.items)) }
    ensures err { OnErr result (twigs.new.items ≡ twigs.old.items) }
    ensures present { IsTrue (is_some (find path_cmp (name.now ∷ []) (under_names (twigs_of twigs.old.items))))
        → IsOk result }
{
    match index_of(twigs, name) {
        Ok(index) => Ok(index),
        Err(index) => {
            let name = Vec::from_slice(alloc, name)?;
            let branch = Branch::new(alloc);
            make_room(twigs)?;
            twigs.insert(index, Twig { name, branch })?;
            Ok(index)
        }
    }
}

/// Where there is no branch yet, takes room for exactly one.
///
/// # Errors
///
/// [`Memory`] when out of memory.
fn make_room<T>(twigs: &mut Vec<Twig<T>>) -> Result<(), Memory>
    ensures items { twigs.new.items ≡ twigs.old.items }
    ensures exact { OnOk result (length twigs.old.items ≡ 0
        → vec_capacity twigs.new ≡ max (vec_capacity twigs.old) 1) }
{
    if twigs.is_empty() {
        twigs.reserve_exact(1)?;
    }
    Ok(())
}

/// One more than the names from a branch to a value that is put at the path of `depth` names below it; 0 if none is
/// put.
fn reach_of<T>(value: &Option<T>, depth: usize) -> usize
    requires { depth ≤ 8 }
    ensures { result ≡ cond (is_some value.now) (depth + 1) 0 }
{
    if value.is_some() { depth + 1 } else { 0 }
}

/// One more than the names from a branch with this value, and with these branches below it, to the deepest value.
fn levels_of<T>(value: &Option<T>, twigs: &[Twig<T>]) -> usize
    requires { IsOrdered (under_names (twigs_of twigs.now)) }
    ensures { IsLevels (branches_of value.now (twigs_of twigs.now)) result }
{
    let mut levels = usize::from(value.is_some());
    for twig in twigs {
        let below = twig.branch.levels();
        if below > 0 {
            levels = levels.max(below + 1);
        }
    }
    levels
}

/// The index of the branch of the name; where there is none, the index at which it would be. One comparison where no
/// branch is after the name, as where names come in order.
fn index_of<T>(twigs: &[Twig<T>], name: &[u8]) -> Result<usize, usize>
    requires { IsOrdered (under_names (twigs_of twigs.now)) }
    ensures found { IfOk result (λ index. IsIndexOf (name.now ∷ []) (under_names (twigs_of twigs.now)) index) }
    ensures absent { OnErr result (find path_cmp (name.now ∷ []) (under_names (twigs_of twigs.now)) ≡ None) }
    ensures index { IfErr result (λ index. index ≡ rank (name.now ∷ []) (under_names (twigs_of twigs.now))) }
    ensures within { IfErr result (λ index. index ≤ length twigs.now) }
{
    let Some(last) = twigs.last() else {
        return Err(0);
    };
    match last.name.as_slice().cmp(name) {
        Ordering::Less => Err(twigs.len()),
        Ordering::Equal => Ok(twigs.len() - 1),
        Ordering::Greater => index_by_halves(twigs, name),
    }
}

/// The index that [`index_of`] returns, by halves.
fn index_by_halves<T>(twigs: &[Twig<T>], name: &[u8]) -> Result<usize, usize>
    requires { IsOrdered (under_names (twigs_of twigs.now)) }
    ensures found { IfOk result (λ index. IsIndexOf (name.now ∷ []) (under_names (twigs_of twigs.now)) index) }
    ensures absent { OnErr result (find path_cmp (name.now ∷ []) (under_names (twigs_of twigs.now)) ≡ None) }
    ensures index { IfErr result (λ index. index ≡ rank (name.now ∷ []) (under_names (twigs_of twigs.now))) }
    ensures within { IfErr result (λ index. index ≤ length twigs.now) }
{
    let index = rank_of(twigs, name);
    if index < twigs.len() && twigs[index].name.as_slice() == name {
        return Ok(index);
    }
    Err(index)
}

/// How many branches are before the name.
fn rank_of<T>(twigs: &[Twig<T>], name: &[u8]) -> usize
    requires { IsOrdered (under_names (twigs_of twigs.now)) }
    ensures value { result ≡ rank (name.now ∷ []) (under_names (twigs_of twigs.now)) }
    ensures within { result ≤ length twigs.now }
{
    twigs.partition_point(|twig| twig.name.as_slice().cmp(name).is_lt())
}
