//! The receipts of the seats against the journal.

ghost use Rattle.std.specs.Prelude.{◌≡◌, ◌↔◌, [], IsTrue, IsOk, IfOk, IfErr, IfSome, IfNone, length};
ghost use Rattle.cfdp_engine.specs.Journal.{IsHistory};
ghost use Rattle.cfdp_engine.specs.Seats.{AllEntered, SeatsDiffer, AreEntered, IsEntered, IsFirstDiffering, IsFirstFault, IsFirstTwice, IsFirstUnentered, IsReconciled, is_number_taken, receipts_in};

use crate::fault::Fault;
use crate::journal_entry::JournalEntry;
use crate::journaled::Journaled;
use crate::receipt::Receipt;
use crate::seat::Seat;
use cfdp_actions::Filestore;
use cfdp_transactions::Core;

/// What is left of a journaled core whose receipts are its journal.
#[derive(Drop)]
pub struct Closed<S: Filestore> {
    /// The core: its world is that of the journal.
    pub core: Core<S>,
    /// All that was taken, in order.
    pub journal: Vec<JournalEntry>,
    /// The seats, as they were handed in.
    pub seats: Vec<Seat>,
}

/// What was handed in, where the receipts are not the journal.
#[derive(Drop)]
pub struct NotClosed<S: Filestore> {
    /// The first fault.
    pub fault: Fault,
    /// The core with its journal.
    pub journaled: Journaled<S>,
    /// The seats.
    pub seats: Vec<Seat>,
}

/// Whether the journal has as many entries as the seats have receipts.
fn are_counted(journal: &[JournalEntry], seats: &[Seat]) -> bool
    ensures { IsTrue result ↔ (length journal.now ≡ receipts_in seats.now) }
{
    let mut left = journal.len();
    for seat in seats {
        let kept = seat.receipts().len();
        if left < kept {
            return false;
        }
        left -= kept;
    }
    left == 0
}

/// Whether one of the seats has the number.
fn has_number(seats: &[Seat], number: u8) -> bool
    ensures { result ≡ is_number_taken seats.now number }
{
    seats.iter().any(|seat| seat.number() == number)
}

/// The first number that a seat has though one before it has it.
fn first_twice(seats: &[Seat]) -> Option<u8>
    ensures apart { IfNone result (SeatsDiffer [] seats.now) }
    ensures twice { IfSome result (λ number. IsFirstTwice [] seats.now number) }
{
    for (index, seat) in seats.iter().enumerate() {
        if has_number(&seats[..index], seat.number()) {
            return Some(seat.number());
        }
    }
    None
}

/// Whether a receipt of the seat with this number is an entry of the journal, at an index that is not before `low`.
fn is_entered(journal: &[JournalEntry], number: u8, low: u64, receipt: &Receipt) -> bool
    ensures { IsTrue result ↔ IsEntered journal.now number low receipt.now }
{
    let Some(entry) = journal.get(receipt.place as usize) else {
        return false;
    };
    low <= u64::from(receipt.place)
        && entry.seat == number
        && entry.event.event().same(receipt.event.event())
        && entry.reply.same(&receipt.reply)
}

/// The index of the first of a seat's receipts that is no entry of the journal, or does not rise.
fn first_unentered(journal: &[JournalEntry], seat: &Seat) -> Option<u32>
    ensures entered { IfNone result (AreEntered journal.now seat.now.number 0 seat.now.receipts) }
    ensures not { IfSome result (λ index. IsFirstUnentered journal.now seat.now.number 0 seat.now.receipts index) }
{
    let number = seat.number();
    let mut low = 0;
    for receipt in seat.receipts() {
        if !is_entered(journal, number, low, receipt) {
            return Some(receipt.place);
        }
        low = u64::from(receipt.place) + 1;
    }
    None
}

/// The first receipt that is faulty, by its seat's number and its index.
fn first_differing(journal: &[JournalEntry], seats: &[Seat]) -> Option<(u8, u32)>
    ensures entered { IfNone result (AllEntered journal.now seats.now) }
    ensures differs { IfSome result (λ found. IsFirstDiffering journal.now seats.now found.0 found.1) }
{
    for seat in seats {
        if let Some(index) = first_unentered(journal, seat) {
            return Some((seat.number(), index));
        }
    }
    None
}

/// What is found first where the receipts are not the journal.
fn first_fault(journal: &[JournalEntry], seats: &[Seat]) -> Option<Fault>
    ensures none { IfNone result (IsReconciled journal.now seats.now) }
    ensures fault { IfSome result (λ fault. IsFirstFault journal.now seats.now fault) }
{
    if !are_counted(journal, seats) {
        return Some(Fault::CountDiffers);
    }
    if let Some(number) = first_twice(seats) {
        return Some(Fault::SeatTwice(number));
    }
    let Some((number, index)) = first_differing(journal, seats) else {
        return None;
    };
    Some(Fault::ReceiptDiffers(number, index))
}

/// Compares the receipts of the seats with the journal, once those who had them are done.
///
/// They are the journal where it has as many entries as the seats have receipts, the seats' numbers differ, and each
/// seat's receipts are entries of the journal at rising indexes, with that seat, event and reply. So the entries of one
/// seat, in order, are its receipts. Takes no memory. Cost: the octets of all events and replies, once, and the seats
/// before each of the first 257.
///
/// # Errors
///
/// The first fault in the order of [`Fault`], exactly where they are not the journal; seats are gone through in the
/// order handed in, and receipts in the order kept. All that came is handed back.
pub fn close<S: Filestore>(
    journaled: Journaled<S>,
    seats: Vec<Seat>,
) -> Result<Closed<S>, NotClosed<S>>
    ensures exactly { IsOk result ↔ IsReconciled journaled.journal seats.items }
    ensures core { IfOk result (λ closed. closed.core ≡ journaled.core) }
    ensures journal { IfOk result (λ closed. closed.journal.items ≡ journaled.journal) }
    ensures seats { IfOk result (λ closed. closed.seats.items ≡ seats.items) }
    ensures history { IfOk result (λ closed. IsHistory closed.journal.items closed.core.world) }
    ensures fault { IfErr result (λ refused. IsFirstFault journaled.journal seats.items refused.fault) }
    ensures journaled_back { IfErr result (λ refused. refused.journaled ≡ journaled) }
    ensures seats_back { IfErr result (λ refused. refused.seats.items ≡ seats.items) }
{
    journaled.history();
    match first_fault(journaled.journal(), &seats) {
        None => {
            let (core, journal) = journaled.into_parts();
            Ok(Closed {
                core,
                journal,
                seats,
            })
        }
        Some(fault) => Err(NotClosed {
            fault,
            journaled,
            seats,
        }),
    }
}
