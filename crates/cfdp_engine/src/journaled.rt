//! The core with its journal.

ghost use Rattle.std.specs.Prelude.{◌≡◌, ◌↔◌, [], IfOk, IsTrue, IsFalse, length};
ghost use Rattle.std.specs.Arc.{arc_value};
ghost use Rattle.cfdp_transactions.specs.World.{start};
ghost use Rattle.cfdp_transactions.specs.Sound.{Sound};
ghost use Rattle.cfdp_transactions.specs.CoreFields.{AsksForNone};
ghost use Rattle.cfdp_transactions.specs.Needs.{Follows, may_lack_memory};
ghost use Rattle.cfdp_transactions.specs.Books.{IsAnswered};
ghost use Rattle.cfdp_engine.specs.Journal.{IsHistory, entered, has_full_journal};

use crate::event::SharedEvent;
use crate::journal_entry::JournalEntry;
use cfdp_actions::Filestore;
use cfdp_paths::Memory;
use cfdp_transactions::{Core, Event, Reply};
use std::alloc::Global;
use std::marker::Model;
use std::sync::Arc;

/// The core of a receiving entity, and the journal of all that it did.
///
/// Contracts see it as both. At all times the journal is a history: its events, run from the start of the configuration
/// by one thread, give each entry's reply, and the world after them is the core's; and it has no more entries than the
/// configuration says.
#[derive(Drop)]
pub struct Journaled<S: Filestore> {
    core: Core<S>,
    entries: Vec<JournalEntry>,
}

impl<S: Filestore> Model for Journaled<S> {
    ghost use Rattle.std.specs.Coded.{codes};
    ghost use Rattle.std.specs.Vec.{vec_capacity};
    ghost use Rattle.cfdp_transactions.specs.code.CoreFields.{nodes_code};
    ghost use Rattle.cfdp_engine.specs.Journal as words;
    ghost use Rattle.cfdp_engine.specs.code.Journal as words_in_code;

    ghost Value = { words.Recorded };

    ghost coded = { Prim.hlevel (codes, nodes_code) };

    ghost view = { λ j. record { core = j.core; journal = j.entries.items } };

    ghost invariant = { λ j. words_in_code.IsWholeJournal (vec_capacity j.entries)
        (record { core = j.core; journal = j.entries.items }) };
}

impl<S: Filestore> Journaled<S> {
    /// A core that has just begun, with an empty journal. Memory for the whole journal is taken now; the journal takes
    /// none later.
    ///
    /// # Errors
    ///
    /// Out of memory: the core is dropped. Cost: one allocation.
    pub fn new(alloc: Global, core: Core<S>) -> Result<Journaled<S>, Memory>
        requires { core.world ≡ start core.world.config }
        ensures core { IfOk result (λ journaled. journaled.core ≡ core) }
        ensures journal { IfOk result (λ journaled. journaled.journal ≡ []) }
    {
        let limit = core.config().journal() as usize;
        let entries = Vec::with_capacity(alloc, limit)?;
        Ok(Journaled { core, entries })
    }

    /// What is true at all times: the journal is a history, and the core's world is sound. Does nothing.
    pub fn history(&self)
        ensures history { IsHistory self.now.journal self.now.core.world }
        ensures sound { Sound self.now.core.world }
    {
        self.core.sound();
    }

    /// The core.
    pub fn core(&self) -> &Core<S>
        ensures { result.now ≡ self.now.core }
    {
        &self.core
    }

    /// The journal, in the order in which the events were taken.
    pub fn journal(&self) -> &[JournalEntry]
        ensures { result.now ≡ self.now.journal }
    {
        &self.entries
    }

    /// Takes an event that a seat hands in: the reply and the world after it are those of [`Core::apply`], and the
    /// event is journaled exactly where the reply is not [`Reply::Memory`]. Where the journal is full the reply is
    /// [`Reply::JournalFull`] to every event, and to none elsewhere; then, as with Memory, nothing changes, and the
    /// event is dropped.
    ///
    /// Memory is asked for by [`Core::apply_both`] alone. Cost: that of `apply_both`.
    pub fn accept(&mut self, seat: u8, event: Arc<Event, Global>) -> Reply
        ensures full { (result ≡ Reply.JournalFull) ↔ IsTrue (has_full_journal self.old) }
        ensures unchanged { IsTrue (has_full_journal self.old) → self.new ≡ self.old }
        ensures follows { IsFalse (has_full_journal self.old) → Follows self.old.core.world
            (arc_value event) result self.new.core.world }
        ensures journal { self.new.journal ≡ entered self.old.journal seat (arc_value event) result }
        ensures answered { IsFalse (may_lack_memory self.old.core.takes_no_memory (arc_value event)) →
            IsAnswered result }
        ensures lean { AsksForNone self.old.core.world (arc_value event) → IsAnswered result }
        ensures steady { self.new.core.takes_no_memory ≡ self.old.core.takes_no_memory }
    {
        if self.entries.len() >= self.core.config().journal() as usize {
            return Reply::JournalFull;
        }
        let event = SharedEvent::new(event);
        let (reply, journaled) = self.core.apply_both(event.event());
        match journaled {
            Reply::Memory => {}
            reply => self
                .entries
                .push_reserved(JournalEntry { seat, event, reply }),
        }
        reply
    }

    /// Takes an event as [`accept`](Journaled::accept) does, and returns the index that its entry has in the journal,
    /// where it is journaled: how many entries there were before.
    pub(crate) fn accept_at(&mut self, seat: u8, event: Arc<Event, Global>) -> (u32, Reply)
        ensures index { result.0 ≡ length self.old.journal }
        ensures full { (result.1 ≡ Reply.JournalFull) ↔ IsTrue (has_full_journal self.old) }
        ensures unchanged { IsTrue (has_full_journal self.old) → self.new ≡ self.old }
        ensures follows { IsFalse (has_full_journal self.old) → Follows self.old.core.world
            (arc_value event) result.1 self.new.core.world }
        ensures journal { self.new.journal ≡ entered self.old.journal seat (arc_value event) result.1 }
    {
        // Read for its contract alone: a journal has room for 1,000,000 entries at most.
        let _limit = self.core.config().journal();
        let index = self.entries.len() as u32;
        (index, self.accept(seat, event))
    }

    /// Both apart.
    pub(crate) fn into_parts(self) -> (Core<S>, Vec<JournalEntry>)
        ensures core { result.0 ≡ self.core }
        ensures journal { result.1.items ≡ self.journal }
    {
        let Journaled { core, entries } = self;
        (core, entries)
    }
}
