//! What a worker does. Whole inboxes are text, in `.ci/cases/links.txt`.

use super::super::journal::journaled_tree;
use super::scene::{Given, inbox};
use cfdp_engine::{Gate, Seat, Shared, Stop, work};
use cfdp_paths::Memory;
use cfdp_tree::TreeStore;
use std::alloc::Global;
use std::sync::Wait;

/// A gate that lets everybody pass.
pub struct OpenGate;

impl Gate for OpenGate {
    fn pass<R: Wait>(&self, _rt: &R, _seat: u8, _turn: u64) {}
}

static SIXTEEN: [Given; 16] = [
    Given::Bare(1),
    Given::Bare(2),
    Given::Bare(3),
    Given::Bare(4),
    Given::Bare(5),
    Given::Bare(6),
    Given::Bare(7),
    Given::Bare(8),
    Given::Bare(9),
    Given::Bare(10),
    Given::Bare(11),
    Given::Bare(12),
    Given::Bare(13),
    Given::Bare(14),
    Given::Bare(15),
    Given::Bare(16),
];

static ONE_MORE: [Given; 2] = [Given::Bare(17), Given::Run];

/// How many receipts a worker has that gets these messages, how many it took, and why it stopped.
fn work_on<R: Wait>(
    rt: &R,
    alloc: Global,
    shared: &Shared<TreeStore>,
    seat: u8,
    given: &[Given],
) -> Result<(usize, usize, Option<Stop>), Memory> {
    let inbox = inbox(rt, alloc, given)?;
    let worked = work(rt, alloc, shared, Seat::new(alloc, seat), inbox, &OpenGate);
    Ok((
        worked.seat.receipts().len(),
        worked.taken.len(),
        worked.stopped,
    ))
}

#[test]
fn a_worker_stops_where_the_journal_is_full(rt: HostRuntime) -> Result<(), Memory> {
    let shared = Shared::new(journaled_tree(rt.alloc(), 16)?);
    let first = work_on(&rt, rt.alloc(), &shared, 0, &SIXTEEN)?;
    assert!(&rt; first == (16, 16, None), "sixteen events");
    let second = work_on(&rt, rt.alloc(), &shared, 1, &ONE_MORE)?;
    assert!(&rt; second == (0, 1, Some(Stop::JournalFull)), "one more event");
    Ok(())
}
