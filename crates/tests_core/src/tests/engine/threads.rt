//! Two workers at once. Four with a thousand events each are in `.ci/cases/links.txt`.

use super::super::journal::{JournaledTree, journaled_tree};
use super::calls::closed;
use super::scene::{Given, inbox};
use cfdp_engine::{Gate, Message, Seat, Shared, Worked, work};
use cfdp_paths::Memory;
use cfdp_transactions::Reply;
use cfdp_tree::TreeStore;
use crossbeam_channel::Receiver;
use std::alloc::Global;
use std::sync::Wait;
use std::sync::atomic::{AtomicBool, Ordering};
use std::thread;
use std::thread::Threads;
use std::time::{Clock, Duration};

/// A gate that holds seat 1 at turn 0 until seat 0 has come to turn 0, and seat 0 there until seat 1 has come to turn
/// 1. It gives up after 10,000 looks, with about a millisecond between two.
#[derive(Drop)]
struct Crossing<C: Clock + Drop> {
    clock: C,
    zero_came: AtomicBool,
    one_came_again: AtomicBool,
    gave_up: AtomicBool,
}

impl<C: Clock + Drop> Crossing<C> {
    fn new(clock: C) -> Crossing<C> {
        Crossing {
            clock,
            zero_came: AtomicBool::new(false),
            one_came_again: AtomicBool::new(false),
            gave_up: AtomicBool::new(false),
        }
    }

    fn hold(&self, until: &AtomicBool) {
        for _ in 0..10_000 {
            if until.load(Ordering::SeqCst) {
                return;
            }
            thread::sleep(&self.clock, Duration::from_millis(1));
        }
        self.gave_up.store(true, Ordering::SeqCst);
    }
}

impl<C: Clock + Drop> Gate for Crossing<C> {
    fn pass<R: Wait>(&self, _rt: &R, seat: u8, turn: u64) {
        match (seat, turn) {
            (0, 0) => {
                self.zero_came.store(true, Ordering::SeqCst);
                self.hold(&self.one_came_again);
            }
            (1, 0) => self.hold(&self.zero_came),
            (1, 1) => self.one_came_again.store(true, Ordering::SeqCst),
            _ => {}
        }
    }
}

/// A worker with this number and inbox.
fn work_as<R: Wait, G: Gate>(
    rt: &R,
    alloc: Global,
    shared: &Shared<TreeStore>,
    gate: &G,
    number: u8,
    inbox: Receiver<Message, Global>,
) -> Worked {
    work(rt, alloc, shared, Seat::new(alloc, number), inbox, gate)
}

/// Two workers at once, with these numbers and inboxes.
fn two<R: Threads + Wait + Sync, G: Gate + Sync>(
    rt: &R,
    alloc: Global,
    shared: &Shared<TreeStore>,
    gate: &G,
    (one, ones): (u8, Receiver<Message, Global>),
    (other, others): (u8, Receiver<Message, Global>),
) -> (Worked, Worked) {
    thread::join(
        rt,
        || work_as(rt, alloc, shared, gate, one, ones),
        || work_as(rt, alloc, shared, gate, other, others),
    )
}

/// Whether the journal begins with an event of this seat that was admitted.
fn begins_with(journaled: &JournaledTree, seat: u8) -> bool {
    match journaled.journal().first() {
        Some(entry) => match &entry.reply {
            Reply::Admitted(0, 0) => entry.seat == seat,
            _ => false,
        },
        None => false,
    }
}

/// Whether a worker was not stopped, and has this many receipts.
fn is_done(worked: &Worked, receipts: usize) -> bool {
    worked.stopped.is_none() && worked.seat.receipts().len() == receipts
}

/// Whether the workers took all of one and two messages, and the journal closes with their seats and begins with the
/// second.
fn is_crossed(
    alloc: Global,
    shared: Shared<TreeStore>,
    zero: Worked,
    one: Worked,
) -> Result<bool, Memory> {
    let are_done = is_done(&zero, 1) && is_done(&one, 2);
    let mut seats = Vec::new(alloc);
    seats.push(zero.seat)?;
    seats.push(one.seat)?;
    let journaled = shared.into_journaled();
    Ok(are_done && begins_with(&journaled, 1) && closed(journaled, seats).0.is_none())
}

#[test]
fn two_workers_are_at_work_at_once(rt: HostRuntime) -> Result<(), Memory> {
    let alloc = rt.alloc();
    let shared = Shared::new(journaled_tree(alloc, 1000)?);
    let crossing = Crossing::new(rt);
    let zero = inbox(&rt, alloc, &[Given::Create])?;
    let one = inbox(&rt, alloc, &[Given::Bare(6), Given::End(6)])?;
    let (zero, one) = two(&rt, alloc, &shared, &crossing, (0, zero), (1, one));
    assert!(rt;
        !crossing.gave_up.load(Ordering::SeqCst),
        "a worker waited too long"
    );
    assert!(rt;
        is_crossed(alloc, shared, zero, one)?,
        "what the two workers did"
    );
    Ok(())
}
