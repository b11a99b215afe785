//! The footprints of all live transactions.

ghost use Rattle.std.specs.Prelude.{◌≡◌, ◌++◌, ◌∷◌, [], IsFalse, IfOk, None, OnOk, OnErr, not, find, slice_get};
ghost use Rattle.std.specs.FinSet as set;
ghost use Rattle.std.specs.List.{list_any, prefix_len};
ghost use Rattle.std.specs.Option.{option_map};
ghost use Rattle.cfdp_leases.specs.Footprint.{leased};
ghost use Rattle.cfdp_leases.specs.code.Footprint.{has_any};
ghost use Rattle.cfdp_leases.specs.Leases.{AreApart, first_conflict, holds, is_same, without_grant};

use crate::footprints::Footprint;
use crate::lease::Lease;
use crate::leased_paths::LeasedPaths;
use cfdp_paths::{Memory, Path};
use cfdp_status::TransactionId;
use slab::Slab;
use std::alloc::Global;
use std::marker::Model;

/// A live transaction, and the key of its footprint.
#[derive(Debug, Drop)]
struct LiveGrant {
    transaction: TransactionId,
    key: usize,
}

/// The footprints of the live transactions, no two of which conflict. Contracts see them as a list in order of
/// admission.
#[derive(Debug, Drop)]
pub struct Leases {
    /// In order of admission.
    live: Vec<LiveGrant>,
    /// Under the keys of the live transactions.
    footprints: Slab<Footprint>,
    /// The paths of the footprints, with the transactions that hold them.
    paths: LeasedPaths,
}

impl Model for Leases {
    ghost use Rattle.cfdp_leases.specs.Leases as words;
    ghost use Rattle.cfdp_leases.specs.code.Leases as words_in_code;
    ghost use Rattle.cfdp_leases.specs.code.Live as kept;

    ghost Value = { words.Grants };

    ghost coded = { words_in_code.grants_code };

    ghost view = { λ leases. kept.grants_of leases.footprints leases.live.items };

    ghost invariant = { λ leases. kept.AreKept leases.footprints leases.live.items leases.paths };
}

impl Leases {
    /// No leases.
    pub fn new(alloc: Global) -> Leases
        ensures { result ≡ [] }
    {
        Leases {
            live: Vec::new(alloc),
            footprints: Slab::new(alloc),
            paths: LeasedPaths::new(alloc),
        }
    }

    /// No leases, with room for this many transactions. As long as no more are live, a grant takes memory only for the
    /// paths of its footprint.
    ///
    /// # Errors
    ///
    /// [`Memory`] when out of memory. Cost: two allocations.
    pub fn with_capacity(alloc: Global, transactions: usize) -> Result<Leases, Memory>
        ensures { IfOk result (λ leases. leases ≡ []) }
    {
        Ok(Leases {
            live: Vec::with_capacity(alloc, transactions)?,
            footprints: Slab::with_capacity(alloc, transactions)?,
            paths: LeasedPaths::new(alloc),
        })
    }

    /// The first transaction, in order of admission, whose footprint conflicts with this one. Takes no memory, and
    /// makes no path.
    ///
    /// Cost: nothing where no transaction is live. Else, for each path of this footprint, a pass over its octets and at
    /// most two searches among all leased paths. Where a path conflicts, also a pass over the transactions.
    pub fn conflict(&self, footprint: &Footprint) -> Option<TransactionId>
        ensures first { result ≡ first_conflict self.now footprint.now }
        ensures apart { AreApart self.now }
    {
        if self.live.is_empty() {
            return None;
        }
        let leasing = self.first_leasing(&footprint.exclusive);
        let changing = self.first_changing(&footprint.shared);
        transaction_at(&self.live, leasing.min(changing))
    }

    /// Whether the transaction holds a footprint. Takes no memory, and goes through the transactions.
    pub fn holds(&self, transaction: TransactionId) -> bool
        ensures { result ≡ holds self.now transaction }
    {
        any_of(&self.live, transaction)
    }

    /// Lets a transaction hold its footprint from now on.
    ///
    /// # Errors
    ///
    /// [`Memory`] when out of memory: nothing has changed then, and the footprint is dropped.
    ///
    /// Cost: the footprint is moved. For each of its paths:
    ///
    /// - a pass over its octets, and one search among all leased paths;
    /// - a copy, where nobody leased it yet;
    /// - up to three searches more, where leased paths have shared a hash.
    pub fn grant(&mut self, transaction: TransactionId, footprint: Footprint) -> Result<(), Memory>
        requires free { first_conflict self.old footprint ≡ None }
        requires unheld { IsFalse (holds self.old transaction) }
        ensures granted { OnOk result (self.new ≡ self.old ++ (transaction, footprint) ∷ []) }
        ensures refused { OnErr result (self.new ≡ self.old) }
    {
        let alloc = *self.live.allocator();
        self.live.reserve(1)?;
        self.footprints.reserve(1)?;
        self.paths.lease(alloc, transaction, &footprint)?;
        let key = self.footprints.insert_reserved(footprint);
        self.live.push(LiveGrant { transaction, key }).unwrap();
        Ok(())
    }

    /// Takes a transaction's footprint away; nothing changes where it holds none. Takes no memory.
    ///
    /// Cost: a pass over the transactions. If no other one is live, each path is dropped without a search. Else also:
    ///
    /// - for each path of the footprint, a pass over its octets;
    /// - for each exclusive one, two searches among all leased paths;
    /// - for each shared one, at most three searches and a pass over its holders.
    pub fn release(&mut self, transaction: TransactionId)
        ensures { self.new ≡ without_grant self.old transaction }
    {
        let Some(key) = key_of(&self.live, transaction) else {
            return;
        };
        let footprint = self.footprints.remove(key);
        self.live.retain(|live| live.transaction != transaction);
        let is_last = self.live.as_slice().is_empty();
        if is_last {
            self.paths.clear();
            return;
        }
        self.paths.release(transaction, &footprint);
    }

    /// How many transactions were admitted before the first one that leases one of the paths; all of them where none
    /// does.
    fn first_leasing(&self, paths: &[Path]) -> usize
        ensures { result ≡ prefix_len (λ g. not (has_any (leased g.1) paths.now)) self.now }
    {
        let mut first = self.live.len();
        for path in paths {
            first = first.min(self.leasing(path));
        }
        first
    }

    /// How many transactions were admitted before the first one that leases one of the paths exclusively; all of them
    /// where none does.
    fn first_changing(&self, paths: &[Path]) -> usize
        ensures { result ≡ prefix_len (λ g. not (has_any g.1.exclusive paths.now)) self.now }
    {
        let mut first = self.live.len();
        for path in paths {
            first = first.min(self.changing(path));
        }
        first
    }

    /// How many transactions were admitted before the first one that leases the path; all of them where none does.
    fn leasing(&self, path: &Path) -> usize
        ensures { result ≡ prefix_len (λ g. not (set.contains (leased g.1) path.now)) self.now }
    {
        match self.paths.first(path) {
            Some(holder) => count_before(&self.live, holder.transaction),
            None => self.live.len(),
        }
    }

    /// How many transactions were admitted before the one that leases the path exclusively; all of them where none
    /// does. Such a one is the path's only holder, so the first holder says.
    fn changing(&self, path: &Path) -> usize
        ensures { result ≡ prefix_len (λ g. not (set.contains g.1.exclusive path.now)) self.now }
    {
        match self.paths.first(path) {
            Some(holder) if holder.lease == Lease::Exclusive => {
                count_before(&self.live, holder.transaction)
            }
            _ => self.live.len(),
        }
    }
}

/// The transaction at an index, if there is one.
fn transaction_at(live: &[LiveGrant], index: usize) -> Option<TransactionId>
    ensures { result ≡ option_map (λ l. l.transaction) (slice_get live.now index) }
{
    live.get(index).map(|live| live.transaction)
}

/// The key of the transaction's footprint, if it is one of the live ones.
fn key_of(live: &[LiveGrant], transaction: TransactionId) -> Option<usize>
    ensures { result ≡ option_map (λ l. l.key) (find (λ l. is_same l.transaction transaction) live.now) }
{
    live.iter()
        .find(|live| live.transaction == transaction)
        .map(|live| live.key)
}

/// Whether one of them is the transaction.
fn any_of(live: &[LiveGrant], transaction: TransactionId) -> bool
    ensures { result ≡ list_any (λ l. is_same l.transaction transaction) live.now }
{
    live.iter().any(|live| live.transaction == transaction)
}

/// How many come before the transaction; the length of the list if it is not in it.
fn count_before(live: &[LiveGrant], transaction: TransactionId) -> usize
    ensures { result ≡ prefix_len (λ l. not (is_same l.transaction transaction)) live.now }
{
    live.iter()
        .take_while(|live| live.transaction != transaction)
        .count()
}
