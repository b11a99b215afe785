//! The type of paths, and how two of them compare.

ghost use Rattle.std.proofs.Common.{rules};
ghost use Rattle.std.specs.Cmp.Rules.{comparing};
ghost use Rattle.std.specs.Cmp.{partial_order_from_own_ties};
ghost use Rattle.std.specs.Option.{option_copied};
ghost use Rattle.std.specs.Ordering.{as_partial_cmp};
ghost use Rattle.std.specs.Prelude.{◌≡◌, ◌≢◌, ◌+◌, ◌≤◌, ◌↔◌, ◌⊎◌, List, [], length, nat_le, slice_index_or, take, IsTrue, IsOk, IfOk, IfErr, MatchResult};
ghost use Rattle.cfdp_paths.specs.Faults.{fault_of};
ghost use Rattle.cfdp_paths.specs.Hashes.{hash_of};
ghost use Rattle.cfdp_paths.specs.Paths.{Name, IsPath, Spells, ancestors, is_at_or_below, is_below, joined, names_of, parent, path_cmp, path_of, rebased, same_path, unless_root};
ghost use Rattle.cfdp_paths.specs.code.Paths.{path_in};

use crate::Memory;
use crate::buffers::{
    SEPARATOR, begins, first_names, replace_front, replaced, suits_front, without_last,
};
use crate::fault::PathFault;
use crate::lent_names::Names;
use crate::octet_order::{is_same, order};
use crate::parsing::{count_names, strip_slash};
use std::alloc::Global;
use std::cmp::Ordering;
use std::fmt;
use std::hash::{FoldHasher, Hasher};
use std::marker::Model;

/// The greatest number of names of a path.
pub const MOST_NAMES: usize = 8;

/// The greatest number of octets of a name.
pub const LONGEST_NAME: usize = 96;

/// A path of the filestore: 1 to 8 names of 1 to 96 octets, none of which holds `/` or the octet 0, or is `.` or `..`.
///
/// Filestore requests (CCSDS 727.0-B-5 §5.4) and Metadata PDUs carry the octets that spell one. Contracts see a
/// path as the list of its names. Paths are ordered by their names, and names by their octets, so that a path is
/// before all that is below it.
#[derive(Drop)]
pub struct Path {
    /// The names in order, with [`SEPARATOR`] between them: so the order of paths is the order of their octets, what is
    /// below a path begins with its octets, and a copy is one allocation.
    octets: Vec<u8>,
    /// How many names these are.
    depth: usize,
}

impl Model for Path {
    ghost use Rattle.std.specs.Prelude.{◌≡◌, ℕ, List, length};
    ghost use Rattle.cfdp_paths.specs.Paths.{IsPath, names_of};

    ghost Value = { List (List ℕ) };

    ghost view = { λ path. names_of path.octets.items };

    ghost invariant = { λ path. IsPath (names_of path.octets.items)
        × (path.depth ≡ length (names_of path.octets.items)) };
}

impl Path {
    /// The path that the octets spell: its names with `/` between them, with or without one more `/` before them.
    ///
    /// # Errors
    ///
    /// The leftmost faulty name decides; within a name [`PathFault::EmptyName`], [`PathFault::BadName`] and
    /// [`PathFault::NameTooLong`] come in this order. A ninth name is [`PathFault::TooDeep`] before it is looked at.
    /// Octets that spell no path are refused whether or not there is memory; [`PathFault::Memory`] comes only where a
    /// path is spelled. Cost: one pass over the octets for their faults. Where they spell a path, also one allocation
    /// of their length, a copy, and a pass over it.
    pub fn parse(alloc: Global, octets: &[u8]) -> Result<Path, PathFault>
        ensures path { IfOk result (λ path. Spells octets.now path) }
        ensures only { (path : List Name) → Spells octets.now path → (result ≡ Ok path)
            ⊎ (result ≡ Err PathFault.Memory) }
        ensures path_of { MatchResult result (λ path. path_of octets.now ≡ Some path) (λ fault. fault
            ≢ PathFault.Memory → path_of octets.now ≡ None) }

        // The fault is the first one, and octets with a fault are always refused by it.
        ensures fault { IfErr result (λ fault. fault ≢ PathFault.Memory → fault_of octets.now ≡ Some fault) }
        ensures first { (fault : PathFault) → fault_of octets.now ≡ Some fault → result ≡ Err fault }
    {
        let depth = match count_names(octets) {
            Ok(depth) => depth,
            Err(fault) => return Err(fault),
        };
        let octets = replaced(alloc, strip_slash(octets), b'/', SEPARATOR)?;
        Ok(Path { octets, depth })
    }

    /// The path of `depth` names that are in the octets in order, with the octet 0 between each two of them. Needs
    /// names that make a path: they are not looked at. [`Path::parse`] is for octets of which that is not known.
    ///
    /// # Errors
    ///
    /// [`Memory`] when out of memory: one allocation of the length of the octets. Cost: one copy of them.
    pub fn from_names(alloc: Global, names: &[u8], depth: usize) -> Result<Path, Memory>
        requires path { IsPath (names_of names.now) }
        requires depth { depth ≡ length (names_of names.now) }
        ensures { IfOk result (λ path. path ≡ names_of names.now) }
    {
        let octets = Vec::from_slice(alloc, names)?;
        Ok(Path { octets, depth })
    }

    /// How many names the path has. Takes no memory. In constant time.
    pub fn depth(&self) -> usize
        ensures depth { result ≡ length self.now }
        ensures within { IsPath self.now }
    {
        self.depth
    }

    /// The names in order, lent. Takes no memory. In constant time; [`Names`] says what going through them costs.
    pub fn names(&self) -> Names<'_>
        ensures names { result ≡ self.now }
        ensures within { IsPath self.now }
    {
        Names {
            octets: Some(&self.octets),
        }
    }

    /// The first `depth` names in order, lent. Takes no memory. Cost: one pass over them, or over the names after
    /// them where there are fewer of these; [`Names`] says what going through them costs.
    pub fn first_names(&self, depth: usize) -> Names<'_>
        requires { depth ≤ length self.now }
        ensures names { result ≡ take depth self.now }
        ensures within { IsPath self.now }
    {
        // Read for the contract alone: it brings what is always true of the path.
        let _ = &self.octets;
        Names {
            octets: self.first_octets(depth),
        }
    }

    /// The name at the index, where the first name has the index 0; no octets where the path has no such name. Takes no
    /// memory. Cost: one pass over the octets up to its end.
    pub fn name(&self, index: usize) -> &[u8]
        ensures name { result.now ≡ slice_index_or self.now index [] }
        ensures short { length result.now ≤ 96 }
    {
        self.names().nth(index).unwrap_or(&[])
    }

    /// Whether `other` is a prefix of this path, or this path itself. Takes no memory. Cost: one comparison of
    /// the octets of `other`.
    pub fn is_at_or_below(&self, other: &Path) -> bool
        ensures { result ≡ is_at_or_below self.now other.now }
    {
        begins(&self.octets, &other.octets)
    }

    /// Whether `other` is a prefix of this path, and not this path itself. Takes no memory. Cost: two comparisons of
    /// their octets at most.
    pub fn is_below(&self, other: &Path) -> bool
        ensures { result ≡ is_below self.now other.now }
    {
        self.is_at_or_below(other) && self != other
    }

    /// Whether this path without its last name is `other`. Takes no memory.
    pub fn is_child_of(&self, other: &Path) -> bool
        ensures { IsTrue result ↔ (parent self.now ≡ other.now) }
    {
        self.is_at_or_below(other) && self.depth() == other.depth() + 1
    }

    /// A number for the path, the same for the same path: what the hasher of std's maps makes of its octets. Its seed
    /// is fixed, so whoever picks paths can make two of them with one number. Takes no memory. Cost: one pass over the
    /// octets.
    pub fn hash(&self) -> u64
        ensures { result ≡ hash_of self.now }
    {
        let mut hasher = FoldHasher::default();
        hasher.write(&self.octets);
        hasher.finish()
    }

    /// How this path compares with the path of these names. Takes no memory. Cost: one comparison.
    pub fn cmp_names(&self, names: &Names<'_>) -> Ordering
        ensures { result ≡ path_cmp self.now names.now }
    {
        self.cmp_sought(names.octets)
    }

    /// The octets of the whole path, to look it up by.
    pub(crate) fn octets(&self) -> Option<&[u8]>
        ensures path { path_in (option_copied result) ≡ self.now }
    {
        Some(&self.octets)
    }

    /// The octets of the first `depth` names, to look their path up by; `None` for no name.
    pub(crate) fn first_octets(&self, depth: usize) -> Option<&[u8]>
        requires { depth ≤ length self.now }
        ensures path { path_in (option_copied result) ≡ take depth self.now }
    {
        if depth == 0 {
            return None;
        }
        Some(self.front(depth))
    }

    /// The octets of the first `depth` names. Takes no memory. Cost: one pass over the octets of these names, or over
    /// those of the names after them where there are fewer of these.
    fn front(&self, depth: usize) -> &[u8]
        requires some { 1 ≤ depth }
        requires within { depth ≤ length self.now }
        ensures { names_of result.now ≡ take depth self.now }
    {
        let dropped = self.depth - depth;
        if dropped < depth {
            return without_last(&self.octets, dropped);
        }
        first_names(&self.octets, depth)
    }

    /// How this path compares with the one that is looked up.
    pub(crate) fn cmp_sought(&self, sought: Option<&[u8]>) -> Ordering
        ensures { result ≡ path_cmp self.now (path_in (option_copied sought.entry)) }
    {
        match sought {
            Some(sought) => order(&self.octets, sought),
            None => Ordering::Greater,
        }
    }

    /// The path of this path's first `depth` names.
    ///
    /// # Errors
    ///
    /// [`Memory`] where there was none for the copy: one allocation of its length. Cost: one copy of those names, and
    /// one pass over them, or over the names after them where there are fewer of these.
    pub fn beginning(&self, alloc: Global, depth: usize) -> Result<Path, Memory>
        requires some { 1 ≤ depth }
        requires within { depth ≤ length self.now }
        ensures { IfOk result (λ path. path ≡ take depth self.now) }
    {
        // Read for the contract alone: it brings what is always true of the path.
        let _ = &self.octets;
        let octets = Vec::from_slice(alloc, self.front(depth))?;
        Ok(Path { octets, depth })
    }

    /// This path without its last name, or `None` where that is the root, which takes no memory.
    ///
    /// # Errors
    ///
    /// [`Memory`] where there was none for the copy: one allocation of its length.
    pub fn parent(&self, alloc: Global) -> Result<Option<Path>, Memory>
        ensures parent { IfOk result (λ answer. answer ≡ unless_root (parent self.now)) }
        ensures root { parent self.now ≡ [] → IsOk result }
    {
        let depth = self.depth();
        if depth == 1 {
            return Ok(None);
        }
        let above = self.beginning(alloc, depth - 1)?;
        Ok(Some(above))
    }

    /// The proper ancestors of this path, the root apart, shortest first: at most 7. Where there are none it takes no
    /// memory.
    ///
    /// # Errors
    ///
    /// [`Memory`] where there was none for a copy of one of them, or for the list: one allocation for each, and one for
    /// the list.
    pub fn ancestors(&self, alloc: Global) -> Result<Vec<Path>, Memory>
        ensures ancestors { IfOk result (λ paths. paths.items ≡ ancestors self.now) }
        ensures none { ancestors self.now ≡ [] → IsOk result }
    {
        let depth = self.depth();
        let mut paths = Vec::with_capacity(alloc, depth - 1)?;
        for count in 1..depth {
            paths.push(self.beginning(alloc, count)?)?;
        }
        Ok(paths)
    }

    /// A copy of the path.
    ///
    /// # Errors
    ///
    /// [`Memory`] where there was none for the copy: one allocation of its length.
    pub fn copy(&self, alloc: Global) -> Result<Path, Memory>
        ensures { IfOk result (λ path. path ≡ self.now) }
    {
        let octets = Vec::from_slice(alloc, &self.octets)?;
        let depth = self.depth;
        Ok(Path { octets, depth })
    }

    /// The octets that spell this path, with no `/` at the start: at most 775.
    ///
    /// # Errors
    ///
    /// [`Memory`] where there was none for the octets: one allocation of their length.
    pub fn text(&self, alloc: Global) -> Result<Vec<u8>, Memory>
        ensures { IfOk result (λ octets. octets.items ≡ joined self.now) }
    {
        let octets = replaced(alloc, &self.octets, SEPARATOR, b'/')?;
        Ok(octets)
    }

    /// The path `to/r`, where this path is `from/r`: where what is at or below a directory is once it is renamed
    /// (CCSDS 727.0-B-5, filestore procedures).
    ///
    /// # Errors
    ///
    /// [`Memory`] where there was none for the path: one allocation of its length. Cost: one copy of its octets.
    pub fn rebased(&self, alloc: Global, from: &Path, to: &Path) -> Result<Path, Memory>
        requires below { IsTrue (is_at_or_below self.now from.now) }
        requires room { length self.now + length to.now ≤ MOST_NAMES + length from.now }
        ensures { IfOk result (λ path. path ≡ rebased from.now to.now self.now) }
    {
        let (_, rest) = self.octets.split_at(from.octets.len());
        let mut octets = Vec::with_capacity(alloc, to.octets.len() + rest.len())?;
        octets.extend_from_slice(&to.octets)?;
        octets.extend_from_slice(rest)?;
        let depth = self.depth + to.depth - from.depth;
        Ok(Path { octets, depth })
    }

    /// Whether this path has no more octets than `other`. Takes no memory. In constant time.
    pub(crate) fn is_no_longer_than(&self, other: &Path) -> bool
        ensures { result ≡ nat_le (length (joined self.now)) (length (joined other.now)) }
    {
        self.octets.len() <= other.octets.len()
    }

    /// Whether this path `from/r` may become `to/r` in the memory that it has: if `to` has no more octets than `from`,
    /// and the memory is at most twice the octets of `to/r`. Takes no memory. In constant time.
    pub(crate) fn may_stay(&self, from: &Path, to: &Path) -> bool
        requires { IsTrue (is_at_or_below self.now from.now) }
        ensures { IsTrue result → length (joined to.now) ≤ length (joined from.now) }
    {
        suits_front(&self.octets, from.octets.len(), &to.octets)
    }

    /// How many octets the memory of this path holds.
    #[cfg(test)]
    pub(crate) fn capacity(&self) -> usize {
        self.octets.capacity()
    }

    /// This path, which is `from/r`, becomes `to/r`, as by [`rebased`](Path::rebased), in the memory that it has, all
    /// of which it keeps: [`may_stay`](Path::may_stay) says whether that is too much. Takes no memory. Cost: one copy
    /// of its octets at most.
    pub(crate) fn rebase(&mut self, from: &Path, to: &Path)
        requires below { IsTrue (is_at_or_below self.old from.now) }
        requires room { length self.old + length to.now ≤ MOST_NAMES + length from.now }
        requires short { length (joined to.now) ≤ length (joined from.now) }
        ensures { self.new ≡ rebased from.now to.now self.old }
    {
        replace_front(&mut self.octets, from.octets.len(), &to.octets);
        self.depth = self.depth + to.depth - from.depth;
    }
}

/// The octets that spell the path, each one that is no printed ASCII as an escape.
impl fmt::Debug for Path {
    fn fmt<W: fmt::Write>(&self, f: &mut fmt::Formatter<W>) -> fmt::Result {
        for (index, name) in self.octets.split(|octet| *octet == SEPARATOR).enumerate() {
            if index > 0 {
                f.write_str("/")?;
            }
            write!(f, "{}", name.escape_ascii())?;
        }
        Ok(())
    }
}

impl PartialEq for Path {
    ghost eq = { same_path };

    ghost laws = { Prim.search (comparing, rules) };

    fn eq(&self, other: &Path) -> bool {
        is_same(&self.octets, &other.octets)
    }
}

impl Eq for Path {
    ghost laws = { Prim.search (comparing, rules) };
}

impl PartialOrd for Path {
    ghost partial_cmp = { as_partial_cmp path_cmp };

    ghost laws = { partial_order_from_own_ties (Prim.search (comparing, rules)) (Prim.search (comparing, rules)) };

    fn partial_cmp(&self, other: &Path) -> Option<Ordering> {
        Some(self.cmp(other))
    }
}

impl Ord for Path {
    ghost cmp = { path_cmp };

    ghost total = { Prim.search (comparing, rules) };

    ghost matches_partial_cmp = { Prim.search (comparing, rules) };

    ghost matches_eq = { Prim.search (comparing, rules) };

    fn cmp(&self, other: &Path) -> Ordering {
        order(&self.octets, &other.octets)
    }
}
