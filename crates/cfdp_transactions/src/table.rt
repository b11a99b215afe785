//! The table of transactions.

ghost use Rattle.std.specs.Prelude.{◌≡◌, ◌≤◌, ◌<◌, pos, negsuc, ◌≤ℤ◌, Some, None, [], IfSome, IfNone, IfOk, OnOk, OnErr, ◌∷◌, ◌++◌, length, map, slice_get, remove};
ghost use Rattle.std.specs.Option.{option_copied};
ghost use Rattle.cfdp_transactions.specs.code.TableEntries.{first_executing, first_entry_over, kept_name, kept_index, entry_ended, entry_stepped, entry_stored, entry_turned};
ghost use Rattle.cfdp_transactions.specs.code.TableChanges.{ChangesAt, CanAdvance, CanStore};

use crate::Phase;
use crate::item::ItemDone;
use crate::table_entry::TableEntry;
use cfdp_paths::Memory;
use cfdp_pdus::Eof;
use cfdp_status::TransactionId;
use indexmap::IndexMap;
use std::alloc::Global;
use std::marker::Model;

/// How many transactions are known at most, ended ones whose outcome was not taken included.
pub(crate) const MOST_TRANSACTIONS: usize = 64;

/// How many items and outcomes there are at most: of each of 64 transactions an install, 64 requests and an outcome.
pub const MOST_SETTLED: usize = 4_224;

/// The transactions in order of admission, which are found by name. Contracts see them as a list of entries.
#[derive(Drop)]
pub(crate) struct Table {
    entries: IndexMap<TransactionId, TableEntry>,
}

impl Model for Table {
    ghost use Rattle.std.specs.Prelude.{List, map};
    ghost use Rattle.cfdp_transactions.specs.code.TableEntries as words;
    ghost use Rattle.cfdp_transactions.specs.code.TableChanges.{AreNamed};

    ghost Value = { List words.TableEntryFields };

    ghost view = { λ t. map (λ e. e.1) t.entries.entries };

    ghost invariant = { λ t. AreNamed t.entries.entries };
}

impl Table {
    /// No transactions. The map has room for 128, twice the most that are known. When that is used up, at most half of
    /// it is in use, and the map removes in place what ended transactions left there. So it never asks for more memory.
    pub(crate) fn new(alloc: Global) -> Result<Table, Memory>
        ensures { IfOk result (λ table. table ≡ []) }
    {
        Ok(Table {
            entries: IndexMap::with_capacity(alloc, 2 * MOST_TRANSACTIONS)?,
        })
    }

    /// A transaction, where it is there. Costs the same however many there are.
    pub(crate) fn get(&self, id: TransactionId) -> Option<&TableEntry>
        ensures { option_copied result ≡ slice_get self.now (kept_index id self.now) }
    {
        match self.find(id) {
            None => None,
            Some(index) => Some(self.at(index)),
        }
    }

    /// The first transaction in Executing. Goes through them.
    pub(crate) fn next_runnable(&self) -> Option<TransactionId>
        ensures { result ≡ first_executing self.now }
    {
        for index in 0..self.len() {
            let entry = self.at(index);
            if let Phase::Executing(_) = entry.phase() {
                return Some(entry.name());
            }
        }
        None
    }

    /// The first transaction that is over. Goes through them.
    pub(crate) fn next_outcome(&self) -> Option<TransactionId>
        ensures { result ≡ first_entry_over self.now }
    {
        for index in 0..self.len() {
            let entry = self.at(index);
            if !entry.phase().is_live() {
                return Some(entry.name());
            }
        }
        None
    }

    /// The name of the transaction at an index, if there is one.
    pub(crate) fn name_at(&self, index: usize) -> Option<TransactionId>
        ensures { result ≡ slice_get (map kept_name self.now) index }
    {
        if index < self.len() {
            Some(self.at(index).name())
        } else {
            None
        }
    }

    /// How many there are.
    pub(crate) fn len(&self) -> usize
        ensures { result ≡ length self.now }
    {
        self.entries.len()
    }

    /// Where a transaction is. Costs the same however many there are.
    pub(crate) fn find(&self, id: TransactionId) -> Option<usize>
        ensures found { IfSome result (λ index. index ≡ kept_index id self.now) }
        ensures within { IfSome result (λ index. index < length self.now) }
        ensures absent { IfNone result (kept_index id self.now ≡ length self.now) }
    {
        self.entries.get_index_of(&id)
    }

    /// The transaction at an index.
    pub(crate) fn at(&self, index: usize) -> &TableEntry
        requires { index < length self.now }
        ensures { slice_get self.now index ≡ Some result.now }
    {
        self.entries.get_index(index).unwrap().1
    }

    /// The transaction at an index ends.
    pub(crate) fn end(&mut self, index: usize, condition: u8, by_eof: bool, given: u32)
        requires within { index < length self.old }
        requires least { IfSome (slice_get self.old index) (λ r. negsuc 65535 ≤ℤ r.blocks_spent) }
        requires most { IfSome (slice_get self.old index) (λ r. r.blocks_spent ≤ℤ pos 65536) }
        ensures { ChangesAt self.old self.new index (λ r. entry_ended r condition by_eof given) }
    {
        self.entries
            .get_index_mut(index)
            .unwrap()
            .end(condition, by_eof, given);
    }

    /// The transaction at an index moves to another phase.
    pub(crate) fn turn(&mut self, index: usize, phase: Phase, eof: Option<Eof>, complete: bool)
        requires { index < length self.old }
        ensures { ChangesAt self.old self.new index (λ r. entry_turned r phase eof complete) }
    {
        self.entries
            .get_index_mut(index)
            .unwrap()
            .turn(phase, eof, complete);
    }

    /// A transaction more, the last in order of admission.
    ///
    /// # Errors
    ///
    /// Out of memory: nothing has changed then, and the entry is dropped.
    pub(crate) fn push(&mut self, entry: TableEntry) -> Result<(), Memory>
        requires { kept_index (kept_name entry) self.old ≡ length self.old }
        ensures ok { OnOk result (self.new ≡ self.old ++ entry ∷ []) }
        ensures err { OnErr result (self.new ≡ self.old) }
    {
        self.entries.insert(entry.name(), entry)?;
        Ok(())
    }

    /// The next item of the transaction at an index went well, as [`TableEntry::advance`] says.
    pub(crate) fn advance(&mut self, index: usize, done: ItemDone)
        requires within { index < length self.old }
        requires next { done.next < 255 }
        requires fits { IfSome (slice_get self.old index) (λ r. CanAdvance r done.install done.ticks) }
        ensures { ChangesAt self.old self.new index (λ r. entry_stepped r done.next done.last done.install done.before
            done.after done.ticks) }
    {
        self.entries.get_index_mut(index).unwrap().advance(done);
    }

    /// Octets of the transaction at an index were staged, as [`TableEntry::store`] says.
    pub(crate) fn store(&mut self, index: usize, start: u64, end: u64, taken: u32)
        requires within { index < length self.old }
        requires fits { IfSome (slice_get self.old index) (λ r. CanStore r start end) }
        ensures { ChangesAt self.old self.new index (λ r. entry_stored r start end taken) }
    {
        self.entries
            .get_index_mut(index)
            .unwrap()
            .store(start, end, taken);
    }

    /// The transaction at an index is forgotten. Costs a move of each one after it.
    pub(crate) fn forget(&mut self, index: usize)
        requires { index < length self.old }
        ensures { self.new ≡ remove self.old index }
    {
        self.entries.shift_remove_index(index);
    }

    /// The transaction at an index, which is forgotten. Costs a move of each one after it.
    pub(crate) fn take_out(&mut self, index: usize) -> TableEntry
        requires { index < length self.old }
        ensures taken { slice_get self.old index ≡ Some result }
        ensures rest { self.new ≡ remove self.old index }
    {
        self.entries.shift_remove_index(index).unwrap().1
    }
}
