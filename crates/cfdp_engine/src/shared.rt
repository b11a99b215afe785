//! The journaled core that several threads share.

ghost use Rattle.std.specs.Prelude.{◌≡◌, IfOk, OnErr};
ghost use Rattle.std.specs.Arc.{arc_value};
ghost use Rattle.cfdp_transactions.specs.Sound.{Sound};
ghost use Rattle.cfdp_engine.specs.Journal.{IsHistory};
ghost use Rattle.cfdp_engine.specs.Sharing.{IsReceived};
ghost use Rattle.cfdp_engine.specs.code.Sharing.{receipt_of};

use crate::event::SharedEvent;
use crate::journaled::Journaled;
use crate::receipt::Receipt;
use crate::seat::Seat;
use crate::stop::Stop;
use cfdp_actions::Filestore;
use cfdp_status::TransactionId;
use cfdp_transactions::{Event, Reply};
use std::alloc::Global;
use std::sync::{Arc, Mutex, Wait};

/// What is reported to a seat about an event that was handed in, by the index that its entry gets and the reply.
///
/// # Errors
///
/// [`Stop::Memory`] exactly for [`Reply::Memory`], and [`Stop::JournalFull`] exactly for [`Reply::JournalFull`].
fn receipt_of(index: u32, event: SharedEvent, reply: Reply) -> Result<Receipt, Stop>
    ensures { result ≡ receipt_of index event reply }
{
    match reply {
        Reply::Memory => Err(Stop::Memory),
        Reply::JournalFull => Err(Stop::JournalFull),
        reply => Ok(Receipt {
            place: index,
            event,
            reply,
        }),
    }
}

/// A core with its journal, under one lock: the one step that threads take together is one event. Whenever the lock is
/// got and whenever it is given back, the journal is a history that one thread could have made, and the core is sound.
#[derive(Drop)]
pub struct Shared<S: Filestore> {
    inner: Mutex<Journaled<S>>,
}

impl<S: Filestore> Shared<S> {
    /// Shares a core with its journal.
    pub fn new(journaled: Journaled<S>) -> Shared<S> {
        Shared {
            inner: Mutex::new(journaled),
        }
    }

    /// Takes an event that a seat hands in, and returns where it is in the journal; the receipt is then the seat's
    /// last. It may wait for others who hand in events. The receipt's room and its handle of the event are made before.
    ///
    /// # Errors
    ///
    /// [`Stop::Memory`] out of memory, for the receipt or in the core, and [`Stop::JournalFull`] where the journal is
    /// full. Nothing changes, and the event is dropped.
    pub fn accept<R: Wait>(
        &self,
        rt: &R,
        seat: &mut Seat,
        event: Arc<Event, Global>,
    ) -> Result<u32, Stop>
        ensures ok { IfOk result (λ index. IsReceived seat.old seat.new index (arc_value event)) }
        ensures err { OnErr result (seat.new ≡ seat.old) }
    {
        seat.receipts.reserve(1)?;
        let kept = SharedEvent::share(&event)?;
        let (index, reply) = self.inner.lock(rt).accept_at(seat.number, event);
        let receipt = receipt_of(index, kept, reply)?;
        seat.receipts.push_reserved(receipt);
        Ok(index)
    }

    /// The first transaction, in order of admission, whose items are being performed. It may wait for others who hand
    /// in events.
    pub fn next_runnable<R: Wait>(&self, rt: &R) -> Option<TransactionId> {
        self.inner.lock(rt).core().next_runnable()
    }

    /// The core with its journal, once it is shared no more: a history of one thread.
    pub fn into_journaled(self) -> Journaled<S>
        ensures history { IsHistory result.journal result.core.world }
        ensures sound { Sound result.core.world }
    {
        let Shared { inner } = self;
        let journaled = inner.into_inner();
        journaled.history();
        journaled
    }
}
