//! Which transactions hold each leased path.

ghost use Rattle.std.specs.Prelude.{◌≡◌, ◌++◌, ◌∷◌, [], ◌≤◌, List, None, Some, OnOk, OnErr, length, slice_get, take, if◌then◌else◌};
ghost use Rattle.std.specs.List.{list_any};
ghost use Rattle.std.specs.List.Sorted.{IsStrictlySortedBy};
ghost use Rattle.std.specs.BTreeMap.{get, IsUnchanged};
ghost use Rattle.std.specs.FinSet as set;
ghost use Rattle.cfdp_paths.specs.Paths.{Path as Names, path_cmp, same_path};
ghost use Rattle.cfdp_leases.specs.Footprint.{leased};
ghost use Rattle.cfdp_leases.specs.code.Holders.{AreFree, AreOwn, Holds, HoldsSome, IsOtherPath, holders_in, holders_of, others, unless_none, when};

use crate::footprints::Footprint;
use crate::lease::Lease;
use cfdp_paths::{Memory, Path};
use cfdp_status::TransactionId;
use std::alloc::Global;
use std::collections::BTreeMap;
use std::collections::btree_map::Entry;

/// One transaction's lease of a path.
#[derive(Clone, Copy, Debug, PartialEq, Eq)]
pub(crate) struct Holder {
    pub(crate) transaction: TransactionId,
    pub(crate) lease: Lease,
}

/// How many holders the list of a path has room for when its second one comes.
const FIRST_ROOM: usize = 4;

/// The holders of a path, in order of admission: most paths have one, which takes no memory of its own.
#[derive(Debug, Drop)]
pub(crate) enum Holders {
    One(Holder),
    Many(Vec<Holder>),
}

impl Holders {
    /// The holder that was admitted first.
    fn first(&self) -> Option<Holder>
        ensures { result ≡ slice_get (holders_in self.now) 0 }
    {
        match self {
            Holders::One(holder) => Some(*holder),
            Holders::Many(holders) => holders.first().copied(),
        }
    }

    /// Adds a holder after the others.
    ///
    /// # Errors
    ///
    /// [`Memory`] where there was none for a list of them; they are then as before.
    fn add(&mut self, alloc: Global, holder: Holder) -> Result<(), Memory>
        ensures ok { OnOk result (holders_in self.new ≡ holders_in self.old ++ holder ∷ []) }
        ensures err { OnErr result (holders_in self.new ≡ holders_in self.old) }
    {
        match self {
            Holders::One(first) => {
                let mut holders = Vec::with_capacity(alloc, FIRST_ROOM)?;
                holders.push(*first)?;
                holders.push(holder)?;
                *self = Holders::Many(holders);
            }
            Holders::Many(holders) => holders.push(holder)?,
        }
        Ok(())
    }

    /// Takes the leases of a transaction away, and returns whether nobody else holds the path: then it is to be
    /// dropped. Takes no memory. Cost: one pass over the holders.
    fn remove(&mut self, transaction: TransactionId) -> bool
        ensures { unless_none (others transaction (holders_in self.old)) ≡ if result then None
            else Some (holders_in self.new) }
    {
        match self {
            Holders::One(holder) => holder.transaction == transaction,
            Holders::Many(holders) => {
                holders.retain(|holder| holder.transaction != transaction);
                holders.is_empty()
            }
        }
    }
}

/// A leased path and its holders.
#[derive(Debug, Drop)]
struct LeasedPath {
    path: Path,
    holders: Holders,
}

/// The holders of each leased path, in order of admission. No path is in it without a holder.
///
/// A path is looked up by its hash, because numbers compare much faster than paths. Whoever picks the paths can make
/// their hashes equal: so only one path of each hash is found by it, and all further ones are found by comparing paths.
#[derive(Debug, Drop)]
pub(crate) struct LeasedPaths {
    /// By hash, one path that has it.
    by_hash: BTreeMap<u64, LeasedPath>,
    /// The paths that came while another path with their hash was in `by_hash`. No path is in both.
    others: BTreeMap<Path, Holders>,
}

impl LeasedPaths {
    /// No paths. Takes no memory.
    pub(crate) fn new(alloc: Global) -> LeasedPaths
        ensures { Holds result (λ _. []) }
    {
        LeasedPaths {
            by_hash: BTreeMap::new(alloc),
            others: BTreeMap::new(alloc),
        }
    }

    /// The holder of the path that was admitted first. Takes no memory. Cost: one pass over the path's octets, a search
    /// by its hash, and another by the path where it is not found so.
    pub(crate) fn first(&self, path: &Path) -> Option<Holder>
        ensures { (holders : Names → List Holder) → Holds self.now holders → result ≡ slice_get (holders path.now) 0 }
    {
        match self.by_hash.get(&path.hash()) {
            Some(held_path) if held_path.path == *path => held_path.holders.first(),
            _ => self.others.get(path)?.first(),
        }
    }

    /// Lets a transaction, which holds no path, hold those of its footprint, after all others. Nobody holds its
    /// exclusive paths.
    ///
    /// # Errors
    ///
    /// [`Memory`] where there was none; the holders of each path are then as before. Cost: for each path a search by
    /// its hash, and a copy where nobody holds it yet. Where leased paths have shared a hash, up to one more search for
    /// each exclusive path, and up to three more for each shared one.
    pub(crate) fn lease(
        &mut self,
        alloc: Global,
        transaction: TransactionId,
        footprint: &Footprint,
    ) -> Result<(), Memory>
        ensures ok { (holders : Names → List Holder) → Holds self.old holders →
            AreFree (set.contains footprint.now.exclusive) holders
            → OnOk result (Holds self.new (λ p. holders p ++ holders_of transaction footprint.now p)) }
        ensures err { (holders : Names → List Holder) → Holds self.old holders →
            AreFree (set.contains footprint.now.exclusive) holders
            → ((p : Names) → others transaction (holders p) ≡ holders p) → OnErr result (Holds self.new holders) }
    {
        let leased = self.add_footprint(alloc, transaction, footprint);
        if leased.is_err() {
            self.release(transaction, footprint);
        }
        leased
    }

    /// Takes the leases of a transaction away from the paths of its footprint. Nobody else holds its exclusive paths.
    /// Takes no memory. Cost: for each exclusive path two searches, and for each shared one three at most and a pass
    /// over its holders.
    pub(crate) fn release(&mut self, transaction: TransactionId, footprint: &Footprint)
        ensures { (holders : Names → List Holder) → Holds self.old holders →
            AreOwn transaction (set.contains footprint.now.exclusive) holders
            → Holds self.new (λ p. if set.contains (leased footprint.now) p then others transaction (holders p)
            else holders p) }
    {
        self.drop_all(footprint.exclusive());
        self.remove_all(footprint.shared(), transaction);
        give_back(&mut self.by_hash);
        give_back(&mut self.others);
    }

    /// Drops all paths with their holders. Takes no memory. Cost: that of dropping each path.
    pub(crate) fn clear(&mut self)
        ensures { Holds self.new (λ _. []) }
    {
        self.by_hash.clear();
        self.others.clear();
    }

    /// Adds the leases of a footprint, whose exclusive paths nobody holds. Where there is no memory for one, some of
    /// them are there.
    fn add_footprint(
        &mut self,
        alloc: Global,
        transaction: TransactionId,
        footprint: &Footprint,
    ) -> Result<(), Memory>
        ensures ok { (holders : Names → List Holder) → Holds self.old holders →
            AreFree (set.contains footprint.now.exclusive) holders
            → OnOk result (Holds self.new (λ p. holders p ++ holders_of transaction footprint.now p)) }
        ensures err { (holders : Names → List Holder) → Holds self.old holders →
            AreFree (set.contains footprint.now.exclusive) holders
            → OnErr result (HoldsSome transaction (set.contains (leased footprint.now)) holders self.new) }
    {
        let exclusive = Holder {
            transaction,
            lease: Lease::Exclusive,
        };
        let shared = Holder {
            transaction,
            lease: Lease::Shared,
        };
        self.add_all_new(alloc, footprint.exclusive(), exclusive)?;
        self.add_all(alloc, footprint.shared(), shared)
    }

    /// Adds a holder to each of the paths, which nobody holds. Where there is no memory for one, those before it have
    /// it.
    fn add_all_new(&mut self, alloc: Global, paths: &[Path], holder: Holder) -> Result<(), Memory>
        requires { IsStrictlySortedBy path_cmp paths.now }
        ensures ok { (holders : Names → List Holder) → Holds self.old holders →
            AreFree (λ p. list_any (same_path p) paths.now) holders
            → OnOk result (Holds self.new (λ p. holders p ++ when (list_any (same_path p) paths.now) holder)) }
        ensures err { (holders : Names → List Holder) → Holds self.old holders →
            AreFree (λ p. list_any (same_path p) paths.now) holders
            → OnErr result (HoldsSome holder.transaction (λ p. list_any (same_path p) paths.now) holders self.new) }
    {
        for path in paths {
            self.add_new(alloc, path, holder)?;
        }
        Ok(())
    }

    /// Adds a holder to a path, which nobody holds.
    fn add_new(&mut self, alloc: Global, path: &Path, holder: Holder) -> Result<(), Memory>
        ensures ok { (holders : Names → List Holder) → Holds self.old holders → holders path.now ≡ []
            → OnOk result (Holds self.new (λ p. holders p ++ when (same_path p path.now) holder)) }
        ensures err { (holders : Names → List Holder) → Holds self.old holders → OnErr result (Holds self.new holders) }
    {
        let hash = path.hash();
        let path = path.copy(alloc)?;
        let holders = Holders::One(holder);
        match self.by_hash.entry(hash)? {
            Entry::Vacant(slot) => {
                slot.insert(LeasedPath { path, holders });
            }
            Entry::Occupied(_) => {
                self.others.insert(path, holders)?;
            }
        }
        Ok(())
    }

    /// Adds a holder to each of the paths. Where there is no memory for one, those before it have it.
    fn add_all(&mut self, alloc: Global, paths: &[Path], holder: Holder) -> Result<(), Memory>
        requires { IsStrictlySortedBy path_cmp paths.now }
        ensures ok { (holders : Names → List Holder) → Holds self.old holders
            → OnOk result (Holds self.new (λ p. holders p ++ when (list_any (same_path p) paths.now) holder)) }
        ensures err { (holders : Names → List Holder) → Holds self.old holders
            → OnErr result (HoldsSome holder.transaction (λ p. list_any (same_path p) paths.now) holders self.new) }
    {
        for path in paths {
            self.add(alloc, path, holder)?;
        }
        Ok(())
    }

    /// Adds a holder to a path, after those that it has.
    fn add(&mut self, alloc: Global, path: &Path, holder: Holder) -> Result<(), Memory>
        ensures ok { (holders : Names → List Holder) → Holds self.old holders
            → OnOk result (Holds self.new (λ p. holders p ++ when (same_path p path.now) holder)) }
        ensures err { (holders : Names → List Holder) → Holds self.old holders → OnErr result (Holds self.new holders) }
    {
        // `entry` may take memory where no path is under the hash, and a path that is among the others needs none.
        if self.others.is_empty() {
            return self.add_by_hash(alloc, path, holder);
        }
        match self.by_hash.get_mut(&path.hash()) {
            Some(held_path) if held_path.path == *path => held_path.holders.add(alloc, holder),
            _ => self.add_other(alloc, path, holder),
        }
    }

    /// Adds a holder to a path that is not in `others`, after those that it has. Cost: one search in `by_hash`; the
    /// path is copied where nobody holds it yet.
    fn add_by_hash(&mut self, alloc: Global, path: &Path, holder: Holder) -> Result<(), Memory>
        requires { get path_cmp self.old.others path.now ≡ None }
        ensures ok { (holders : Names → List Holder) → Holds self.old holders
            → OnOk result (Holds self.new (λ p. holders p ++ when (same_path p path.now) holder)) }
        ensures err { (holders : Names → List Holder) → Holds self.old holders → OnErr result (Holds self.new holders) }
    {
        match self.by_hash.entry(path.hash())? {
            Entry::Vacant(slot) => {
                let path = path.copy(alloc)?;
                let holders = Holders::One(holder);
                slot.insert(LeasedPath { path, holders });
                Ok(())
            }
            Entry::Occupied(slot) => {
                let held_path = slot.into_mut();
                if held_path.path == *path {
                    return held_path.holders.add(alloc, holder);
                }
                self.others.insert(path.copy(alloc)?, Holders::One(holder))?;
                Ok(())
            }
        }
    }

    /// Adds a holder to a path that is not in `by_hash`, after those that it has.
    fn add_other(&mut self, alloc: Global, path: &Path, holder: Holder) -> Result<(), Memory>
        requires { IsOtherPath self.old path.now }
        ensures ok { (holders : Names → List Holder) → Holds self.old holders
            → OnOk result (Holds self.new (λ p. holders p ++ when (same_path p path.now) holder)) }
        ensures err { (holders : Names → List Holder) → Holds self.old holders → OnErr result (Holds self.new holders) }
    {
        match self.others.get_mut(path) {
            Some(holders) => holders.add(alloc, holder),
            None => self.add_new(alloc, path, holder),
        }
    }

    /// Drops each of the paths with its holders.
    fn drop_all(&mut self, paths: &[Path])
        ensures { (holders : Names → List Holder) → Holds self.old holders
            → Holds self.new (λ p. if list_any (same_path p) paths.now then [] else holders p) }
    {
        for path in paths {
            self.drop_path(path);
        }
    }

    /// Drops a path with its holders.
    fn drop_path(&mut self, path: &Path)
        ensures { (holders : Names → List Holder) → Holds self.old holders
            → Holds self.new (λ p. if same_path p path.now then [] else holders p) }
    {
        let hash = path.hash();
        match self.by_hash.get(&hash) {
            Some(held_path) if held_path.path == *path => {
                let _ = self.by_hash.remove(&hash);
            }
            _ => {
                let _ = self.others.remove(path);
            }
        }
    }

    /// Takes the leases of a transaction away from each of the paths.
    fn remove_all(&mut self, paths: &[Path], transaction: TransactionId)
        ensures { (holders : Names → List Holder) → Holds self.old holders
            → Holds self.new (λ p. if list_any (same_path p) paths.now then others transaction (holders p)
            else holders p) }
    {
        for path in paths {
            self.remove(path, transaction);
        }
    }

    /// Takes the leases of a transaction away from a path, and the path where nobody else holds it.
    fn remove(&mut self, path: &Path, transaction: TransactionId)
        ensures { (holders : Names → List Holder) → Holds self.old holders
            → Holds self.new (λ p. if same_path p path.now then others transaction (holders p) else holders p) }
    {
        let hash = path.hash();
        match self.by_hash.get_mut(&hash) {
            Some(held_path) if held_path.path == *path => {
                if held_path.holders.remove(transaction) {
                    self.by_hash.remove(&hash);
                }
            }
            _ => self.remove_other(path, transaction),
        }
    }

    /// Takes the leases of a transaction away from a path that is not in `by_hash`, and the path where nobody else
    /// holds it.
    fn remove_other(&mut self, path: &Path, transaction: TransactionId)
        requires { IsOtherPath self.old path.now }
        ensures { (holders : Names → List Holder) → Holds self.old holders
            → Holds self.new (λ p. if same_path p path.now then others transaction (holders p) else holders p) }
    {
        let Some(holders) = self.others.get_mut(path) else {
            return;
        };
        if holders.remove(transaction) {
            self.others.remove(path);
        }
    }
}

/// Gives back what a map keeps for entries to come, where it has none. Takes no memory.
fn give_back<K: Ord + Drop, V: Drop>(map: &mut BTreeMap<K, V>)
    ensures { IsUnchanged map.old map.new }
{
    if map.is_empty() {
        map.clear();
    }
}
