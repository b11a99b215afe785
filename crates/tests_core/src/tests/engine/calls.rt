//! The closing of a journal, in one thread.

use super::super::journal::{JournaledTree, journaled_tree};
use super::scene::{Given, event};
use cfdp_engine::{Closed, Fault, NotClosed, Seat, Shared, close};
use cfdp_paths::Memory;
use cfdp_tree::TreeStore;
use std::alloc::Global;
use std::process::Abort;
use std::sync::Wait;

/// A seat with this number, which handed in a PDU and has its receipt.
fn seat(
    rt: &(impl Abort + Wait),
    alloc: Global,
    shared: &Shared<TreeStore>,
    number: u8,
    given: Given,
) -> Result<Seat, Memory> {
    let mut seat = Seat::new(alloc, number);
    let event = event(alloc, given)?;
    let taken = shared.accept(rt, &mut seat, event).is_ok();
    assert!(rt; taken && seat.receipts().len() == 1, "seat {number}");
    Ok(seat)
}

/// Two seats handed in a PDU each, the second under this number, and perhaps to another journal: with which fault the
/// first journal is closed with the seats from this one on.
struct Closing {
    name: &'static str,
    second: u8,
    of_another: bool,
    from: usize,
    fault: Option<Fault>,
}

static CLOSINGS: [Closing; 4] = [
    Closing {
        name: "both seats",
        second: 1,
        of_another: false,
        from: 0,
        fault: None,
    },
    Closing {
        name: "the second seat alone",
        second: 1,
        of_another: false,
        from: 1,
        fault: Some(Fault::CountDiffers),
    },
    Closing {
        name: "two seats of one number",
        second: 0,
        of_another: false,
        from: 0,
        fault: Some(Fault::SeatTwice(0)),
    },
    Closing {
        name: "a seat of another journal",
        second: 0,
        of_another: true,
        from: 1,
        fault: Some(Fault::ReceiptDiffers(0, 0)),
    },
];

/// The fault, if any, and how many entries and seats are handed back.
type HandedBack = (Option<Fault>, usize, usize);

fn handed_by_closed(closed: &Closed<TreeStore>) -> HandedBack {
    (None, closed.journal.len(), closed.seats.len())
}

fn handed_by_refused(refused: &NotClosed<TreeStore>) -> HandedBack {
    let entries = refused.journaled.journal().len();
    (Some(refused.fault), entries, refused.seats.len())
}

/// Closes with the seats.
pub fn closed(journaled: JournaledTree, seats: Vec<Seat>) -> HandedBack {
    match close(journaled, seats) {
        Ok(closed) => handed_by_closed(&closed),
        Err(refused) => handed_by_refused(&refused),
    }
}

fn closes(rt: &(impl Abort + Wait), alloc: Global, closing: &Closing) -> Result<(), Memory> {
    let first = Shared::new(journaled_tree(alloc, 1000)?);
    let another = Shared::new(journaled_tree(alloc, 1000)?);
    let one = seat(rt, alloc, &first, 0, Given::Create)?;
    let second = if closing.of_another { &another } else { &first };
    let two = seat(rt, alloc, second, closing.second, Given::Bare(6))?;
    let entries = if closing.of_another { 1 } else { 2 };
    let mut seats = Vec::new(alloc);
    if closing.from == 0 {
        seats.push(one)?;
    }
    seats.push(two)?;
    let handed_in = seats.len();
    let replied = closed(first.into_journaled(), seats);
    assert!(rt;
        replied == (closing.fault, entries, handed_in),
        "{}",
        closing.name
    );
    Ok(())
}

#[test]
fn receipts_are_compared_with_the_journal(rt: HostRuntime) -> Result<(), Memory> {
    for closing in &CLOSINGS {
        closes(&rt, rt.alloc(), closing)?;
    }
    Ok(())
}
