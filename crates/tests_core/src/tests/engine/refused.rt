//! Two workers on one journaled core, one after the other, and a gate that lets everybody pass: each takes what it was
//! sent, or stops because it is out of memory after a beginning of it.

use super::super::journal::journaled_tree;
use super::scene::{Given, inbox};
use super::workers::OpenGate;
use cfdp_engine::{Seat, Shared, Stop, Worked, close, work};
use cfdp_paths::Memory;
use cfdp_pdus::condition;
use cfdp_status::{Action, Status};
use cfdp_transactions::Reply;
use cfdp_tree::TreeStore;
use std::alloc::Global;
use std::sync::Wait;

/// All of the life of 1/5, a PDU that is cut, and one that no receiving entity takes.
static ONE_LIFE: [Given; 6] = [
    Given::Cut,
    Given::Create,
    Given::Ack,
    Given::End(5),
    Given::Run,
    Given::Take(5),
];

/// Neither a file nor requests, and the end of it.
static BARE: [Given; 2] = [Given::Bare(6), Given::End(6)];

/// Whether it is the reply to the event with this number of the first seat, or of the second.
fn is_reply(seat: u8, number: usize, reply: &Reply) -> bool {
    match (seat, number, reply) {
        (0, 0, Reply::Admitted(1, 2)) | (0, 1, Reply::Complete) => true,
        (0, 2, Reply::Performed(status)) => *status == Status::Successful(Action::CreateFile),
        (0, 3, Reply::Taken(outcome)) => outcome.outcome().finished.condition
            == condition::NO_ERROR,
        (1, 0, Reply::Admitted(0, 0)) | (1, 1, Reply::Done) => true,
        _ => false,
    }
}

/// How many events, messages and PDUs without an event are a worker's, where it was not stopped.
type Counts = (usize, usize, u64);

/// Whether a worker's receipts begin what it was sent, and are all of it where it was not stopped.
fn is_well(worked: &Worked, seat: u8, counts: Counts) -> bool {
    let receipts = worked.seat.receipts();
    for (number, receipt) in receipts.iter().enumerate() {
        if !is_reply(seat, number, &receipt.reply) {
            return false;
        }
    }
    match worked.stopped {
        None => (receipts.len(), worked.taken.len(), worked.dropped) == counts,
        Some(stop) => stop == Stop::Memory,
    }
}

/// Lets a worker of this seat work, and keeps its seat: whether it does well.
fn does_well<R: Wait>(
    rt: &R,
    alloc: Global,
    shared: &Shared<TreeStore>,
    seats: &mut Vec<Seat>,
    seat: u8,
    given: &[Given],
    counts: Counts,
) -> Result<bool, Memory> {
    let inbox = inbox(rt, alloc, given)?;
    let worked = work(rt, alloc, shared, Seat::new(alloc, seat), inbox, &OpenGate);
    let well = is_well(&worked, seat, counts);
    seats.push(worked.seat)?;
    Ok(well)
}

/// The receipts of both are the journal.
#[test]
fn two_workers(rt: HostRuntime) -> Result<(), Memory> {
    let alloc = rt.alloc();
    let shared = Shared::new(journaled_tree(alloc, 1000)?);
    let mut seats = Vec::new(alloc);
    assert!(&rt;
        does_well(&rt, alloc, &shared, &mut seats, 0, &ONE_LIFE, (4, 6, 2))?,
        "the first worker"
    );
    assert!(&rt;
        does_well(&rt, alloc, &shared, &mut seats, 1, &BARE, (2, 2, 0))?,
        "the second worker"
    );
    assert!(&rt;
        close(shared.into_journaled(), seats).is_ok(),
        "the journal of both"
    );
    Ok(())
}
