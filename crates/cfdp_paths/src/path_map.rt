//! Maps by path.

ghost use Rattle.std.specs.Prelude.{◌≡◌, ◌+◌, ◌<◌, ◌≤◌, vec_len, vec_capacity, IsSome, None, IsOk, IfOk, IfErr, OnOk, OnErr, not, false, List, [], length, take};
ghost use Rattle.std.specs.Option.{option_copied};
ghost use Rattle.std.specs.FinMap.{find, put};
ghost use Rattle.std.specs.List.{list_any};
ghost use Rattle.cfdp_paths.specs.Paths.{path_cmp, same_path, is_at_or_below};
ghost use Rattle.cfdp_paths.specs.code.Paths.{path_in};
ghost use Rattle.cfdp_paths.specs.PathMaps.{IsOrdered, without, tree_in, rest_in, any_below, puts, moved_to, is_too_deep};
ghost use Rattle.cfdp_paths.specs.code.PathMaps.{IsIndexOf, IsPieceOf, rank};

use crate::relocating::relocate;
use crate::{Memory, Path};
use std::alloc::Global;
use std::marker::Model;
use std::mem;

/// A map from paths to values, in path order: what is at and below a path is one piece of it.
///
/// It is one vector. A look-up compares as many paths as the logarithm of the number of entries, and makes none. A
/// change also shifts the entries after its index.
#[derive(Debug, Drop)]
pub struct PathMap<T> {
    entries: Vec<(Path, T)>,
}

impl<T> Model for PathMap<T> {
    ghost use Rattle.std.specs.Prelude.{ℕ, List};
    ghost use Rattle.cfdp_paths.specs.PathMaps.{IsOrdered};

    ghost Value = { List (List (List ℕ) × T) };

    ghost view = { λ m. m.entries.items };

    ghost invariant = { λ m. IsOrdered m.entries.items };
}

impl<T: Drop> PathMap<T> {
    /// Puts another value at a path that has one. Takes no memory. Cost: one search.
    pub fn set(&mut self, path: &Path, value: T)
        requires { IsSome (find path_cmp path.now self.old) }
        ensures { self.new ≡ put path_cmp path.now value self.old }
    {
        let _ = self.exchange(path, value);
    }

    /// Puts the value at the path, and replaces what was there.
    ///
    /// # Errors
    ///
    /// Out of memory; the map is then as before. Where the path has a value already none is taken. Cost: one search;
    /// the entries after it are shifted.
    pub fn insert(&mut self, path: Path, value: T) -> Result<(), Memory>
        ensures ok { OnOk result (self.new ≡ put path_cmp path value self.old) }
        ensures err { OnErr result (self.new ≡ self.old) }
        ensures present { IsSome (find path_cmp path self.old) → IsOk result }
    {
        let _ = self.replace(path, value)?;
        Ok(())
    }

    /// Puts the value at the path, and returns the value that it had, if any.
    ///
    /// # Errors
    ///
    /// [`Memory`] where there was none for the entry; the map is then as before. Where the path has a value already
    /// none is taken. Cost: one search; the entries after a new one are shifted.
    pub fn replace(&mut self, path: Path, value: T) -> Result<Option<T>, Memory>
        ensures old { IfOk result (λ old. old ≡ find path_cmp path self.old) }
        ensures ok { OnOk result (self.new ≡ put path_cmp path value self.old) }
        ensures err { OnErr result (self.new ≡ self.old) }
        ensures present { IsSome (find path_cmp path self.old) → IsOk result }
    {
        match search(&self.entries, path.octets()) {
            Ok(index) => Ok(Some(mem::replace(&mut self.entries[index].1, value))),
            Err(index) => {
                self.entries.insert(index, (path, value))?;
                Ok(None)
            }
        }
    }

    /// Puts the value at the path, and returns the value that it had, if any. The path is copied only where it had
    /// none.
    ///
    /// # Errors
    ///
    /// [`Memory`] where there was none for the copy or the entry; the map is then as before. Where the path has a value
    /// already none is taken. Cost: one search; the entries after a new one are shifted.
    pub fn put(&mut self, alloc: Global, path: &Path, value: T) -> Result<Option<T>, Memory>
        ensures old { IfOk result (λ old. old ≡ find path_cmp path.now self.old) }
        ensures ok { OnOk result (self.new ≡ put path_cmp path.now value self.old) }
        ensures err { OnErr result (self.new ≡ self.old) }
        ensures present { IsSome (find path_cmp path.now self.old) → IsOk result }
    {
        match search(&self.entries, path.octets()) {
            Ok(index) => Ok(Some(mem::replace(&mut self.entries[index].1, value))),
            Err(index) => {
                let copy = path.copy(alloc)?;
                self.entries.insert(index, (copy, value))?;
                Ok(None)
            }
        }
    }

    /// Moves what is at a path and below it: each path p/r becomes q/r. What was there before is gone.
    ///
    /// # Errors
    ///
    /// [`Memory`] when out of memory; the map is then as before. Cost: a few searches, a copy of the octets of each
    /// entry that moves, and one shift of the entries after them. If an entry exists at or below the second path, one
    /// search more for each entry that moves. The paths of these entries stay in the memory that they have if the
    /// second path has no more octets than the first, and none of them keeps more than twice the memory that it then
    /// needs. Else each of them is copied: one allocation of its new length.
    pub fn relocate(&mut self, from: &Path, to: &Path) -> Result<(), Memory>
        requires { is_too_deep from.now to.now (tree_in from.now self.old) ≡ false }
        ensures ok { OnOk result (self.new
            ≡ puts (rest_in from.now self.old) (moved_to from.now to.now (tree_in from.now self.old))) }
        ensures err { OnErr result (self.new ≡ self.old) }
    {
        relocate(&mut self.entries, from, to)
    }
}

impl<T> PathMap<T> {
    /// Puts another value at a path that has one, and returns the one that was there. Takes no memory. Cost: one
    /// search.
    pub fn exchange(&mut self, path: &Path, value: T) -> T
        requires { IsSome (find path_cmp path.now self.old) }
        ensures old { find path_cmp path.now self.old ≡ Some result }
        ensures put { self.new ≡ put path_cmp path.now value self.old }
    {
        let index = search(&self.entries, path.octets()).unwrap();
        mem::replace(&mut self.entries[index].1, value)
    }

    /// A map with no entry. Takes no memory.
    pub fn new(alloc: Global) -> PathMap<T>
        ensures { result ≡ [] }
    {
        PathMap {
            entries: Vec::new(alloc),
        }
    }

    /// The entries in path order, each path once.
    pub fn entries(&self) -> &[(Path, T)]
        ensures entries { result.now ≡ self.now }
        ensures ordered { IsOrdered self.now }
    {
        &self.entries
    }

    /// The value at the path, if there is one. Takes no memory. Cost: one search.
    pub fn get(&self, path: &Path) -> Option<&T>
        ensures { option_copied result ≡ find path_cmp path.now self.now }
    {
        self.find(path.octets())
    }

    /// The value at the path of the first `depth` names of `path`, if there is one. Takes no memory, and makes no path.
    /// Cost: one search.
    pub fn get_beginning(&self, path: &Path, depth: usize) -> Option<&T>
        requires { depth ≤ length path.now }
        ensures { option_copied result ≡ find path_cmp (take depth path.now) self.now }
    {
        self.find(path.first_octets(depth))
    }

    /// The value at the path that is looked up, if there is one.
    fn find(&self, sought: Option<&[u8]>) -> Option<&T>
        ensures { option_copied result ≡ find path_cmp (path_in (option_copied sought.entry)) self.now }
    {
        let Ok(index) = search(&self.entries, sought) else {
            return None;
        };
        Some(&self.entries[index].1)
    }

    /// What is at and below the path, in path order: one piece of the map. Takes no memory. Cost: two searches.
    pub fn tree(&self, path: &Path) -> &[(Path, T)]
        ensures { result.now ≡ tree_in path.now self.now }
    {
        let (start, end) = piece(&self.entries, path);
        &self.entries[start..end]
    }

    /// Whether anything is strictly below the path. Takes no memory. Cost: two searches.
    pub fn has_below(&self, path: &Path) -> bool
        ensures { result ≡ any_below path.now self.now }
    {
        has_other(self.tree(path), path)
    }

    /// Takes the entry of the path out, and returns its value, if there is one. Takes no memory. Cost: one search; the
    /// entries after are shifted.
    pub fn remove(&mut self, path: &Path) -> Option<T>
        ensures value { result ≡ find path_cmp path.now self.old }
        ensures removed { self.new ≡ without path.now self.old }
    {
        let Ok(index) = search(&self.entries, path.octets()) else {
            return None;
        };
        let (_, value) = self.entries.remove(index);
        Some(value)
    }
}

/// How many entries are before the path that is looked up. One comparison where all do, as where entries come in path
/// order.
fn rank<T>(entries: &[(Path, T)], sought: Option<&[u8]>) -> usize
    requires { IsOrdered entries.now }
    ensures value { result ≡ rank (path_in (option_copied sought.entry)) entries.now }
    ensures within { result ≤ length entries.now }
{
    match entries.last() {
        Some(last) if last.0.cmp_sought(sought).is_lt() => entries.len(),
        _ => entries.partition_point(|entry| entry.0.cmp_sought(sought).is_lt()),
    }
}

/// The index of the entry at the path that is looked up; where there is none, the index at which it would be.
fn search<T>(entries: &[(Path, T)], sought: Option<&[u8]>) -> Result<usize, usize>
    requires { IsOrdered entries.now }
    ensures found { IfOk result (λ index. IsIndexOf (path_in (option_copied sought.entry)) entries.now index) }
    ensures absent { OnErr result (find path_cmp (path_in (option_copied sought.entry)) entries.now ≡ None) }
    ensures index { IfErr result (λ index. index ≡ rank (path_in (option_copied sought.entry)) entries.now) }
    ensures within { IfErr result (λ index. index ≤ length entries.now) }
{
    let index = rank(entries, sought);
    if index < entries.len() && entries[index].0.cmp_sought(sought).is_eq() {
        return Ok(index);
    }
    Err(index)
}

/// Whether an entry is that of another path.
fn has_other<T>(entries: &[(Path, T)], path: &Path) -> bool
    ensures { result ≡ list_any (λ e. not (same_path e.0 path.now)) entries.now }
{
    entries.iter().any(|entry| entry.0 != *path)
}

/// Where what is at and below the path begins and ends.
pub(crate) fn piece<T>(entries: &[(Path, T)], path: &Path) -> (usize, usize)
    requires { IsOrdered entries.now }
    ensures { IsPieceOf path.now entries.now result.0 result.1 }
{
    let start = rank(entries, path.octets());
    let following = &entries[start..];
    let count = following.partition_point(|entry| entry.0.is_at_or_below(path));
    (start, start + count)
}

/// Puts the value at the path, and replaces what was there. There is room for one more entry.
pub(crate) fn put_reserved<T: Drop>(entries: &mut Vec<(Path, T)>, path: Path, value: T)
    requires ordered { IsOrdered entries.old.items }
    requires room { vec_len entries.old < vec_capacity entries.old }
    ensures put { entries.new.items ≡ put path_cmp path value entries.old.items }
    ensures capacity { vec_capacity entries.new ≡ vec_capacity entries.old }
    ensures longer { vec_len entries.new ≤ vec_len entries.old + 1 }
{
    match search(entries, path.octets()) {
        Ok(index) => entries[index].1 = value,
        Err(index) => entries.insert(index, (path, value)).unwrap(),
    }
}
