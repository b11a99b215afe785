//! The text that `links` writes of a journal that is closed.
ghost use Rattle.std.specs.Prelude.{◌≡◌, ◌↔◌, IsOk, IfOk, OnErr, Err};
ghost use Rattle.std.specs.List.{AllByRecursion};
ghost use Rattle.cfdp_transactions.specs.Writable.{FitsReply};
ghost use Rattle.cfdp_engine.specs.Journal.{IsHistory, replies_of};
ghost use Rattle.cfdp_engine.specs.Seats.{IsReconciled};
ghost use Rattle.cfdp_links.specs.JournalTexts.{journal_text};
ghost use Rattle.cfdp_links.specs.Linked.{HasReadable};
ghost use Rattle.cfdp_lines.specs.declared.faults.LinkFault.TheVariants.{Memory, ReceiptsDiffer};

use crate::journal_text::text_of;
use cfdp_engine::{Closed, JournalEntry, Journaled, Seat, close};
use cfdp_lines::LinkFault;
use cfdp_transactions::{Config, Core, laws};
use cfdp_tree::TreeStore;
use std::alloc::Global;

/// What is left of the journaled core, where the receipts of the seats are its journal, and it has this configuration.
///
/// # Errors
///
/// [`LinkFault::ReceiptsDiffer`] elsewhere.
pub fn reconcile(
    config: &Config,
    journaled: Journaled<TreeStore>,
    seats: Vec<Seat>,
) -> Result<Closed<TreeStore>, LinkFault>
    ensures exactly { IsOk result ↔ ((journaled.core.world.config ≡ config.now)
        × IsReconciled journaled.journal seats.items) }
    ensures config { IfOk result (λ closed. closed.core.world.config ≡ config.now) }
    ensures core { IfOk result (λ closed. closed.core ≡ journaled.core) }
    ensures journal { IfOk result (λ closed. closed.journal.items ≡ journaled.journal) }
    ensures history { IfOk result (λ closed. IsHistory closed.journal.items closed.core.world) }
    ensures reconciled { IfOk result (λ closed. IsReconciled closed.journal.items closed.seats.items) }
    ensures seats { IfOk result (λ closed. closed.seats.items ≡ seats.items) }
    ensures differs { OnErr result (result ≡ Err ReceiptsDiffer) }
{
    if journaled.core().config() != config {
        return Err(LinkFault::ReceiptsDiffer);
    }
    match close(journaled, seats) {
        Ok(closed) => Ok(closed),
        Err(_) => Err(LinkFault::ReceiptsDiffer),
    }
}

/// The replies of a journal can be written, where its events are those of seats that handed in what may have been read.
/// Does nothing.
fn replies_fit(core: &Core<TreeStore>, journal: &[JournalEntry], seats: &[Seat])
    requires history { IsHistory journal.now core.now.world }
    requires reconciled { IsReconciled journal.now seats.now }
    requires readable { AllByRecursion HasReadable seats.now }
    ensures { AllByRecursion FitsReply (replies_of journal.now) }
{
    laws::outcomes_fit();
}

/// The text of a journal that is closed.
///
/// # Errors
///
/// [`LinkFault::Memory`] out of memory.
pub fn text_of_closed(
    alloc: Global,
    closed: &Closed<TreeStore>,
    dropped: &[u64],
) -> Result<Vec<u8>, LinkFault>
    requires history { IsHistory closed.now.journal.items closed.now.core.world }
    requires reconciled { IsReconciled closed.now.journal.items closed.now.seats.items }
    requires readable { AllByRecursion HasReadable closed.now.seats.items }
    ensures ok { IfOk result (λ text. text.items ≡ journal_text closed.now.journal.items closed.now.seats.items
        dropped.now closed.now.core.world) }
    ensures memory { OnErr result (result ≡ Err Memory) }
{
    replies_fit(&closed.core, &closed.journal, &closed.seats);
    let text = text_of(alloc, &closed.core, &closed.journal, &closed.seats, dropped)?;
    Ok(text)
}
