//! A transaction of the table.

ghost use Rattle.std.specs.Prelude.{◌≡◌, false, suc, if◌then◌else◌, ◌+◌, ◌≤◌, ◌<◌, pos, negsuc, ◌≤ℤ◌, ◌==◌, Some, length, map, option_map, slice_get, vec_len};
ghost use Rattle.cfdp_actions.specs.Actions.{Perform};
ghost use Rattle.cfdp_transactions.specs.code.Items.{item_of};
ghost use Rattle.cfdp_leases.specs.Items.{items_of};
ghost use Rattle.cfdp_transactions.specs.Entry.{Done, Executing, awaited};
ghost use Rattle.cfdp_transactions.specs.Pieces.{with_range};
ghost use Rattle.cfdp_transactions.specs.code.Pieces.{is_all};
ghost use Rattle.cfdp_transactions.specs.code.TableEntries.{fresh_entry, entry_ended, kept_gaps, kept_name, entry_stepped, entry_stored, entry_turned, kept_progress, kept_reach};

use crate::Phase;
use crate::event::transaction_of;
use crate::item::{Item, ItemDone};
use crate::ranges::{MOST_GAPS, Range, Ranges};
use arrayvec::ArrayVec;
use cfdp_actions::Request;
use cfdp_paths::Path;
use cfdp_pdus::{Eof, Header, Metadata};
use cfdp_quota::Meter;
use cfdp_status::TransactionId;
use cfdp_tlv::FilestoreRequest;
use std::marker::Model;

/// A transaction of the table. Contracts see it as an entry: what was received is in the filestore, and the entry has
/// its ranges.
#[derive(Drop)]
pub(crate) struct TableEntry {
    header: Header,
    metadata: Metadata,
    phase: Phase,
    eof: Option<Eof>,
    complete: bool,
    installed: bool,
    ended_by_eof: bool,
    ranges: Ranges,
    slot: u8,
    destination: Option<Path>,
    requests: Vec<Request>,
    performed: u8,
    blocks_granted: u32,
    blocks_spent: i64,
    steps: Meter,
}

impl Model for TableEntry {
    ghost use Rattle.std.specs.Prelude.{◌<◌, ◌^◌};
    ghost use Rattle.cfdp_leases.specs.Items.{items_of};
    ghost use Rattle.cfdp_transactions.specs.code.TableEntries as words;

    ghost Value = { words.TableEntryFields };

    ghost view = { λ e. record {
      header = e.header;
      metadata = e.metadata;
      phase = e.phase;
      eof = e.eof;
      complete = e.complete;
      installed = e.installed;
      ended_by_eof = e.ended_by_eof;
      ranges = e.ranges;
      slot = e.slot;
      items = items_of e.destination e.requests.items;
      performed = e.performed;
      blocks_granted = e.blocks_granted;
      steps_granted = e.steps.granted;
      blocks_spent = e.blocks_spent;
      steps_spent = e.steps.spent;
    } };

    ghost invariant = { λ e. e.steps.granted < 2 ^ 32 };
}

impl TableEntry {
    /// What begins with a Metadata PDU: nothing was received and nothing spent.
    pub(crate) fn new(
        header: Header,
        metadata: Metadata,
        phase: Phase,
        slot: u8,
        destination: Option<Path>,
        requests: Vec<Request>,
        blocks: u32,
        steps: u32,
    ) -> TableEntry
        ensures { result ≡ fresh_entry header metadata phase slot (items_of destination requests.items) blocks steps }
    {
        TableEntry {
            header,
            metadata,
            phase,
            eof: None,
            complete: false,
            installed: false,
            ended_by_eof: false,
            ranges: Ranges::new(),
            slot,
            destination,
            requests,
            performed: 0,
            blocks_granted: blocks,
            blocks_spent: 0,
            steps: Meter::new(steps),
        }
    }

    /// Its name.
    pub(crate) fn name(&self) -> TransactionId
        ensures { result ≡ kept_name self.now }
    {
        transaction_of(&self.header)
    }

    /// How far it is.
    pub(crate) fn phase(&self) -> Phase
        ensures { result ≡ self.now.phase }
    {
        self.phase
    }

    /// The blocks and the steps that were granted to it.
    pub(crate) fn grant(&self) -> (u32, u32)
        ensures { result ≡ (self.now.blocks_granted, self.now.steps_granted) }
    {
        (self.blocks_granted, self.steps.left() + self.steps.spent())
    }

    /// The blocks that it took less those that it gave back.
    pub(crate) fn blocks_spent(&self) -> i64
        ensures { result ≡ self.now.blocks_spent }
    {
        self.blocks_spent
    }

    /// The steps that it spent.
    pub(crate) fn steps_spent(&self) -> u32
        ensures { result ≡ self.now.steps_spent }
    {
        self.steps.spent()
    }

    /// The EOF PDU that made it wait, if one did.
    pub(crate) fn eof(&self) -> Option<Eof>
        ensures { result ≡ self.now.eof }
    {
        self.eof
    }

    /// Whether its file was complete.
    pub(crate) fn is_complete(&self) -> bool
        ensures { result ≡ self.now.complete }
    {
        self.complete
    }

    /// The header of its Metadata PDU.
    pub(crate) fn header(&self) -> &Header
        ensures { result.now ≡ self.now.header }
    {
        &self.header
    }

    /// Its Metadata PDU.
    pub(crate) fn metadata(&self) -> &Metadata
        ensures { result.now ≡ self.now.metadata }
    {
        &self.metadata
    }

    /// The requests of its Metadata PDU, in order. The rest of it is dropped.
    pub(crate) fn into_requests(self) -> Vec<FilestoreRequest>
        ensures { result.items ≡ self.metadata.requests }
    {
        self.metadata.requests
    }

    /// Whether its file was installed.
    pub(crate) fn is_installed(&self) -> bool
        ensures { result ≡ self.now.installed }
    {
        self.installed
    }

    /// Whether it was ended by an EOF PDU's condition.
    pub(crate) fn is_ended_by_eof(&self) -> bool
        ensures { result ≡ self.now.ended_by_eof }
    {
        self.ended_by_eof
    }

    /// How many of its requests were performed: each of them was successful.
    pub(crate) fn performed(&self) -> u8
        ensures { result ≡ self.now.performed }
    {
        self.performed
    }

    /// Whether it has nothing to perform: no file, and no requests.
    pub(crate) fn is_bare(&self) -> bool
        ensures { result ≡ (length self.now.items == 0) }
    {
        self.destination.is_none() && self.requests.is_empty()
    }

    /// Whether all octets of a file of this size were received, and none past it.
    pub(crate) fn is_whole(&self, size: u64) -> bool
        ensures { result ≡ is_all size self.now.ranges }
    {
        self.ranges.is_whole(size)
    }

    /// The size that its EOF PDU gave: 0 where none came.
    pub(crate) fn awaited_size(&self) -> u64
        ensures { result ≡ awaited self.now.eof }
    {
        match self.eof {
            None => 0,
            Some(eof) => eof.size,
        }
    }

    /// What is missing between the octets of its file, and once its EOF PDU came up to the size that it gave.
    pub(crate) fn gaps(&self) -> ArrayVec<Range, MOST_GAPS>
        ensures { result.items ≡ kept_gaps self.now }
    {
        match self.phase {
            Phase::Receiving => self.ranges.gaps(self.ranges.end()),
            Phase::Awaiting(_) => self.ranges.gaps(self.awaited_size()),
            _ => ArrayVec::new(),
        }
    }

    /// The end of the last octet of its file that is kept.
    pub(crate) fn progress(&self) -> u64
        ensures { result ≡ kept_progress self.now }
    {
        if self.phase.is_live() {
            self.ranges.end()
        } else {
            0
        }
    }

    /// The offset up to which its gaps say what is missing.
    pub(crate) fn reach(&self) -> u64
        ensures { result ≡ kept_reach self.now }
    {
        match self.phase {
            Phase::Receiving => self.ranges.end(),
            Phase::Awaiting(_) => self.awaited_size(),
            _ => 0,
        }
    }

    /// The offsets of its file that were received.
    pub(crate) fn ranges(&self) -> &Ranges
        ensures { result.now ≡ self.now.ranges }
    {
        &self.ranges
    }

    /// Where its octets are staged.
    pub(crate) fn slot(&self) -> u8
        ensures { result ≡ self.now.slot }
    {
        self.slot
    }

    /// It ends: `given` blocks that were staged are given back.
    pub(crate) fn end(&mut self, condition: u8, by_eof: bool, given: u32)
        requires least { negsuc 65535 ≤ℤ self.old.blocks_spent }
        requires most { self.old.blocks_spent ≤ℤ pos 65536 }
        ensures { self.new ≡ entry_ended self.old condition by_eof given }
    {
        self.phase = Phase::Ended(condition);
        self.ended_by_eof |= by_eof;
        self.ranges = Ranges::new();
        self.blocks_spent -= i64::from(given);
    }

    /// Its item of this number: the install comes first where there is a file, and then the requests.
    pub(crate) fn item(&self, number: u8) -> Option<Item<'_>>
        ensures { option_map item_of result ≡ slice_get self.now.items number }
    {
        let number = usize::from(number);
        match &self.destination {
            None => request_at(&self.requests, number),
            Some(path) => match number.checked_sub(1) {
                None => Some(Item::Install(path)),
                Some(number) => request_at(&self.requests, number),
            },
        }
    }

    /// How many items it has.
    pub(crate) fn item_count(&self) -> usize
        requires { length self.now.items < 256 }
        ensures { result ≡ length self.now.items }
    {
        match &self.destination {
            None => self.requests.len(),
            Some(_) => self.requests.len() + 1,
        }
    }

    /// Its next item went well.
    pub(crate) fn advance(&mut self, done: ItemDone)
        requires next { done.next < 255 }
        requires performed { done.install ≡ false → self.old.performed < 255 }
        requires steps { self.old.steps_spent + (1 + done.ticks) ≤ self.old.steps_granted }
        requires least { negsuc 65535 ≤ℤ self.old.blocks_spent }
        requires most { self.old.blocks_spent ≤ℤ pos 65536 }
        ensures { self.new ≡ entry_stepped self.old done.next done.last done.install done.before done.after
            done.ticks }
    {
        self.phase = phase_after(done.next, done.last);
        self.installed |= done.install;
        self.ranges = Ranges::new();
        self.performed = performed_with(self.performed, done.install);
        self.blocks_spent = self.blocks_spent + i64::from(done.before) - i64::from(done.after);
        self.steps.spend(done.ticks + 1);
    }

    /// Its octets from `start` to `end` were staged, for which `taken` blocks were taken.
    pub(crate) fn store(&mut self, start: u64, end: u64, taken: u32)
        requires some { start < end }
        requires room { length (with_range start end self.old.ranges) ≤ 32 }
        requires least { negsuc 65535 ≤ℤ self.old.blocks_spent }
        requires most { self.old.blocks_spent ≤ℤ pos 65536 }
        ensures { self.new ≡ entry_stored self.old start end taken }
    {
        self.ranges.insert(start, end);
        self.blocks_spent += i64::from(taken);
    }

    /// It moves to another phase.
    pub(crate) fn turn(&mut self, phase: Phase, eof: Option<Eof>, complete: bool)
        ensures { self.new ≡ entry_turned self.old phase eof complete }
    {
        self.phase = phase;
        self.eof = eof;
        self.complete = complete;
    }
}

/// The request at an index, as an item.
fn request_at(requests: &[Request], index: usize) -> Option<Item<'_>>
    ensures { option_map item_of result ≡ slice_get (map Perform requests.now) index }
{
    match requests.get(index) {
        None => None,
        Some(request) => Some(Item::Perform(request)),
    }
}

/// The phase after an item.
fn phase_after(next: u8, last: bool) -> Phase
    requires { next < 255 }
    ensures { result ≡ (if last then Done else Executing (suc next)) }
{
    if last {
        Phase::Done
    } else {
        Phase::Executing(next + 1)
    }
}

/// How many requests were performed, once an item was: the install is none.
fn performed_with(performed: u8, install: bool) -> u8
    requires { install ≡ false → performed < 255 }
    ensures { result ≡ (if install then performed else suc performed) }
{
    if install { performed } else { performed + 1 }
}
